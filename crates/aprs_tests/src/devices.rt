//! Devices that fail in mid-stream.
ghost use Rattle.std.specs.Prelude.{Some};

use aprs_io::{Counted, DeviceFault, WriteFault, send};
use std::io;
use std::io::{ErrorKind, Read, Write};

/// A reader of known bytes that gives at most `most` of them a call, fails once `good` are given,
/// and is interrupted `interrupts` times before each call that gives any.
#[derive(Drop)]
struct Rough<'a> {
    bytes: &'a [u8],
    most: usize,
    good: usize,
    interrupts: u32,
    pauses: u32,
}

impl Read for Rough<'_> {
    ghost remaining = { λ r. Some r.bytes.now };

    fn read(&mut self, buf: &mut [u8]) -> io::Result<usize> {
        if self.pauses < self.interrupts {
            self.pauses += 1;
            return Err(io::Error::from(ErrorKind::Interrupted));
        }
        self.pauses = 0;
        let n = buf
            .len()
            .min(self.bytes.len())
            .min(self.most)
            .min(self.good);
        if n == 0 && !buf.is_empty() && !self.bytes.is_empty() {
            return Err(io::Error::from(ErrorKind::Other));
        }
        let (start, rest) = self.bytes.split_at(n);
        buf[..n].copy_from_slice(start);
        self.bytes = rest;
        self.good -= n;
        Ok(n)
    }
}

/// A writer that has room for so many bytes, and takes at most `most` a call. It is interrupted
/// `interrupts` times before each call that takes any. A flush sets `used` to 0, so that it shows.
/// No clause says what it has written.
#[derive(Drop)]
struct Tight<'a> {
    room: &'a mut [u8],
    used: usize,
    most: usize,
    interrupts: u32,
    pauses: u32,
}

impl Write for Tight<'_> {
    fn write(&mut self, buf: &[u8]) -> io::Result<usize> {
        if self.pauses < self.interrupts {
            self.pauses += 1;
            return Err(io::Error::from(ErrorKind::Interrupted));
        }
        self.pauses = 0;
        if self.used > self.room.len() {
            return Ok(0);
        }
        let n = buf.len().min(self.room.len() - self.used).min(self.most);
        self.room[self.used..self.used + n].copy_from_slice(&buf[..n]);
        self.used += n;
        Ok(n)
    }

    fn flush(&mut self) -> io::Result<()> {
        self.used = 0;
        Ok(())
    }
}

/// A writer that takes nothing and fails each time.
#[derive(Drop)]
struct Shut;

impl Write for Shut {
    fn write(&mut self, _buf: &[u8]) -> io::Result<usize> {
        Err(io::Error::from(ErrorKind::Other))
    }

    fn flush(&mut self) -> io::Result<()> {
        Ok(())
    }
}

#[test]
fn a_read_fails_in_mid_stream(rt: HostRuntime) {
    let mut reader = Counted::new(Rough {
        bytes: b"abcdef",
        most: 2,
        good: 3,
        interrupts: 0,
        pauses: 0,
    });
    let mut buf = [0u8; 4];
    assert!(rt; reader.read(&mut buf) == Ok(2));
    assert!(rt; reader.read(&mut buf) == Ok(1));
    assert!(rt; reader.failures() == 0);
    assert!(rt; reader.read(&mut buf) == Err(DeviceFault));
    assert!(rt; reader.failures() == 1);
    assert!(rt; reader.into_inner().bytes == b"def".as_slice());
}

#[test]
fn a_write_fails_in_mid_stream(rt: HostRuntime) {
    let mut room = [0u8; 4];
    let mut writer = Counted::new(Tight {
        room: &mut room,
        used: 0,
        most: 3,
        interrupts: 0,
        pauses: 0,
    });
    assert!(rt; send(&mut writer, b"abcdef") == Err(WriteFault));
    assert!(rt; writer.failures() == 1);
    assert!(rt; writer.into_inner().used == 4);
    assert!(rt; room[..] == b"abcd"[..]);
}

#[test]
fn a_vector_takes_all(rt: HostRuntime) {
    let mut writer = Counted::new(Vec::new(rt.alloc()));
    assert!(rt; send(&mut writer, b"abc") == Ok(()));
    assert!(rt; writer.into_inner().as_slice() == b"abc".as_slice());
}

#[test]
fn a_refused_write_is_not_tried_again(rt: HostRuntime) {
    let mut writer = Counted::new(Shut);
    assert!(rt; send(&mut writer, b"ab") == Err(WriteFault));
    assert!(rt; writer.failures() == 1);
    assert!(rt; writer.answered() == 1);
}

#[test]
fn interrupted_reads_are_tried_again(rt: HostRuntime) {
    const CASES: &[(u32, Result<usize, DeviceFault>)] = &[
        (0, Ok(1)),
        (999, Ok(1)),
        (1000, Err(DeviceFault)),
    ];
    for &(interrupts, first) in CASES {
        let mut reader = Counted::new(Rough {
            bytes: b"ab",
            most: 1,
            good: 2,
            interrupts,
            pauses: 0,
        });
        let mut buf = [0u8; 4];
        assert!(rt; reader.read(&mut buf) == first, "after {interrupts}");
        assert!(rt; reader.failures() == u64::from(interrupts));
        assert!(rt; reader.answered() == u64::from(first.is_err()));
    }
}

#[test]
fn interrupted_writes_are_tried_again(rt: HostRuntime) {
    const CASES: &[(u32, Result<(), WriteFault>, usize, u64)] = &[
        (0, Ok(()), 2, 0),
        (999, Ok(()), 2, 1998),
        (1000, Err(WriteFault), 0, 1000),
    ];
    for &(interrupts, sent, used, failures) in CASES {
        let mut room = [0u8; 4];
        let mut writer = Counted::new(Tight {
            room: &mut room,
            used: 0,
            most: 1,
            interrupts,
            pauses: 0,
        });
        assert!(rt; send(&mut writer, b"ab") == sent, "after {interrupts}");
        assert!(rt; writer.failures() == failures, "after {interrupts}");
        assert!(rt; writer.into_inner().used == used, "after {interrupts}");
    }
}
