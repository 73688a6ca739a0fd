//! A reader that takes the digest of what is read of it.
use sha2::{Digest, Sha256};
use std::io::{self, Read};

/// A reader, with the SHA-256 digest of all bytes that were read of it, and the number of their
/// LFs.
#[derive(Drop)]
pub struct Digested<R> {
    input: R,
    hasher: Sha256,
    lines: u64,
}

impl<R: Drop> Digested<R> {
    /// This reader, of which nothing was read. Takes no memory.
    pub fn new(input: R) -> Digested<R> {
        Digested {
            input,
            hasher: Sha256::new(),
            lines: 0,
        }
    }

    /// The number of LFs among the bytes that were read, and the digest of these.
    pub fn finish(self) -> (u64, [u8; 32]) {
        (self.lines, self.hasher.finalize())
    }
}

impl<R: Read> Read for Digested<R> {
    ghost remaining = { λ d. R.remaining d.input };

    fn read(&mut self, buf: &mut [u8]) -> io::Result<usize> {
        let count = self.input.read(buf)?;
        let got = &buf[..count];
        self.hasher.update(got);
        self.lines = self.lines.saturating_add(lines_in(got));
        Ok(count)
    }
}

/// The number of LFs among the bytes.
fn lines_in(bytes: &[u8]) -> u64 {
    let mut lines: u64 = 0;
    for &byte in bytes {
        if byte == b'\n' {
            lines = lines.saturating_add(1);
        }
    }
    lines
}
