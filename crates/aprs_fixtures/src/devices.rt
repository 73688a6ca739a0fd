//! Devices that fail.
ghost use Rattle.std.specs.Prelude.{Some};

use std::io::{self, ErrorKind, Read, Write};

/// A reader that knows its bytes, gives at most `most` of them a call, and fails once `good` are
/// given.
#[derive(Drop)]
pub struct Failing<'a> {
    pub bytes: &'a [u8],
    pub most: usize,
    pub good: usize,
}

impl Read for Failing<'_> {
    ghost remaining = { λ r. Some r.bytes.now };

    fn read(&mut self, buf: &mut [u8]) -> io::Result<usize> {
        let n = buf
            .len()
            .min(self.bytes.len())
            .min(self.most)
            .min(self.good);
        let stuck = n == 0 && !buf.is_empty() && !self.bytes.is_empty();
        if stuck || self.good == 0 {
            return Err(io::Error::from(ErrorKind::Other));
        }
        let (given, rest) = self.bytes.split_at(n);
        buf[..n].copy_from_slice(given);
        self.bytes = rest;
        self.good -= n;
        Ok(n)
    }
}

/// A reader that gives one byte a call, each after so many interrupted tries, and after a thousand
/// where `stuck` bytes are left.
#[derive(Drop)]
pub struct Stuttering<'a> {
    pub bytes: &'a [u8],
    pub tries: u64,
    pub left: u64,
    pub stuck: usize,
}

impl Read for Stuttering<'_> {
    ghost remaining = { λ r. Some r.bytes.now };

    fn read(&mut self, buf: &mut [u8]) -> io::Result<usize> {
        if self.left > 0 {
            self.left -= 1;
            return Err(io::Error::from(ErrorKind::Interrupted));
        }
        let n = buf.len().min(self.bytes.len()).min(1);
        let (given, rest) = self.bytes.split_at(n);
        buf[..n].copy_from_slice(given);
        self.bytes = rest;
        self.left = if rest.len() == self.stuck {
            1000
        } else {
            self.tries
        };
        Ok(n)
    }
}

/// A reader of a file that grows: it gives its bytes and then nothing once, and after that those of
/// `more`, or it fails where there are none. It counts the calls after it gave nothing.
#[derive(Drop)]
pub struct Growing<'a> {
    pub bytes: &'a [u8],
    pub more: &'a [u8],
    pub is_past: bool,
    pub again: u64,
}

impl<'a> Growing<'a> {
    /// One that was not asked yet.
    pub fn new(bytes: &'a [u8], more: &'a [u8]) -> Growing<'a> {
        Growing {
            bytes,
            more,
            is_past: false,
            again: 0,
        }
    }
}

impl Read for Growing<'_> {
    fn read(&mut self, buf: &mut [u8]) -> io::Result<usize> {
        if self.is_past {
            self.again = self.again.saturating_add(1);
        }
        if self.bytes.is_empty() {
            if self.is_past {
                return Err(io::Error::from(ErrorKind::Other));
            }
            self.is_past = true;
            self.bytes = self.more;
            return Ok(0);
        }
        let n = buf.len().min(self.bytes.len());
        let (given, rest) = self.bytes.split_at(n);
        buf[..n].copy_from_slice(given);
        self.bytes = rest;
        Ok(n)
    }
}

/// A writer that takes one byte a call, each after so many interrupted tries.
#[derive(Drop)]
pub struct Halting {
    pub bytes: Vec<u8>,
    pub tries: u64,
    pub left: u64,
}

impl Write for Halting {
    fn write(&mut self, buf: &[u8]) -> io::Result<usize> {
        if self.left > 0 {
            self.left -= 1;
            return Err(io::Error::from(ErrorKind::Interrupted));
        }
        let n = buf.len().min(1);
        self.bytes.extend_from_slice(&buf[..n])?;
        self.left = self.tries;
        Ok(n)
    }

    fn flush(&mut self) -> io::Result<()> {
        Ok(())
    }
}

/// A writer that takes three bytes a call, until there is room for no more.
#[derive(Drop)]
pub struct Tight {
    pub bytes: Vec<u8>,
    pub room: usize,
}

impl Write for Tight {
    fn write(&mut self, buf: &[u8]) -> io::Result<usize> {
        let n = buf.len().min(self.room).min(3);
        self.bytes.extend_from_slice(&buf[..n])?;
        self.room -= n;
        Ok(n)
    }

    fn flush(&mut self) -> io::Result<()> {
        Ok(())
    }
}

/// A writer that refuses all.
#[derive(Drop)]
pub struct Full;

impl Write for Full {
    fn write(&mut self, _: &[u8]) -> io::Result<usize> {
        Err(io::Error::from(io::ErrorKind::Other))
    }

    fn flush(&mut self) -> io::Result<()> {
        Ok(())
    }
}

/// A writer that takes nothing, and whose flush fails by this fault, where there is one.
#[derive(Clone, Copy)]
pub struct Flushing {
    pub fault: Option<ErrorKind>,
}

impl Write for Flushing {
    fn write(&mut self, _: &[u8]) -> io::Result<usize> {
        Err(io::Error::from(ErrorKind::Other))
    }

    fn flush(&mut self) -> io::Result<()> {
        match self.fault {
            Some(kind) => Err(io::Error::from(kind)),
            None => Ok(()),
        }
    }
}
