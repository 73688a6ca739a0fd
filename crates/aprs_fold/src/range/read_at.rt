//! Bytes that can be read at any place.
ghost use Rattle.std.specs.Prelude.{◌≡◌, ℕ, List, Option, None, Some, drop};
ghost use Rattle.std.specs.Io.{ReadsAtMost};
ghost use Rattle.aprs_fold.specs.ReadAt.{GivesAt, HasSize};

use std::fs::File;
use std::io::{self, Read, Seek, SeekFrom};

/// Bytes that can be read at any place, as those of a file on a disk.
pub trait ReadAt {
    // All the bytes, where they are known.
    ghost bytes: { Self → Option (List ℕ) } = { λ _. None };

    /// How many bytes there are.
    fn size(&mut self) -> io::Result<u64>
        ensures size { HasSize (bytes self.old) result }
        ensures stays { bytes self.new ≡ bytes self.old };

    /// Reads bytes from place `at` on, counted from 0, to the start of `buf`, and returns how many
    /// came: none only at the end or past it, or where `buf` has no room.
    fn read_at(&mut self, at: u64, buf: &mut [u8]) -> io::Result<usize>
        ensures bound { ReadsAtMost result buf.new }
        ensures gives { GivesAt (bytes self.old) at result buf.new }
        ensures stays { bytes self.new ≡ bytes self.old };
}

/// A file of the host, if the host's system can seek in it. Its position is moved.
impl ReadAt for File {
    fn size(&mut self) -> io::Result<u64> {
        self.seek(SeekFrom::End(0))
    }

    fn read_at(&mut self, at: u64, buf: &mut [u8]) -> io::Result<usize> {
        self.seek(SeekFrom::Start(at))?;
        self.read(buf)
    }
}

/// Bytes in memory.
impl ReadAt for &[u8] {
    ghost bytes = { λ s. Some s.now };

    fn size(&mut self) -> io::Result<u64> {
        Ok(self.len() as u64)
    }

    fn read_at(&mut self, at: u64, buf: &mut [u8]) -> io::Result<usize> {
        let mut rest = bytes_from(self, at);
        rest.read(buf)
    }
}

/// The bytes from place `at` on.
fn bytes_from(bytes: &[u8], at: u64) -> &[u8]
    ensures { result.now ≡ drop at bytes.now }
{
    if at < bytes.len() as u64 {
        &bytes[at as usize..]
    } else {
        &[]
    }
}
