//! A device whose interrupted calls are tried again, a bounded number of times.
ghost use Rattle.std.specs.Prelude.{◌≢◌, ◌↔◌, IfErr, IsOk};
ghost use Rattle.std.specs.Io.{WritesAtMost};
ghost use Rattle.std.specs.Io.KnownBytes.{WriteAppends};
ghost use Rattle.std.specs.IoError.{error_kind};

use aprs_io::MAX_TRIES;
use std::io::{self, Error, ErrorKind, Write};

/// A device below a buffer. An interrupted write is tried again, up to 999 times in a row; the
/// 1,000th is an error that isn't an interruption, so that no caller tries again without end. An
/// interrupted flush is such an error at once.
#[derive(Drop)]
pub struct Retried<W> {
    device: W,
}

impl<W> Retried<W> {
    /// This device. Takes no memory.
    pub fn new(device: W) -> Retried<W> {
        Retried { device }
    }
}

impl<W: Write> Write for Retried<W> {
    ghost contents = { λ r. W.contents r.device };

    fn write(&mut self, buf: &[u8]) -> io::Result<usize> {
        write_some(&mut self.device, buf)
    }

    fn flush(&mut self) -> io::Result<()> {
        uninterrupted(self.device.flush())
    }
}

/// Writes some of the bytes, or none, and returns how many. An interrupted write is tried again, up
/// to 999 times in a row; the 1,000th, and any other error at once, is an error, which isn't an
/// interruption, and then nothing was written.
pub fn write_some<W: Write>(device: &mut W, bytes: &[u8]) -> io::Result<usize>
    ensures bound { WritesAtMost result bytes.now }
    ensures bytes { WriteAppends (W.contents device.old) (W.contents device.new) result bytes.now }
    ensures retried { IfErr result (λ e. error_kind e ≢ ErrorKind.Interrupted) }
{
    for _ in 0..MAX_TRIES {
        match device.write(bytes) {
            Err(error) if error.kind() == ErrorKind::Interrupted => {}
            written => return written,
        }
    }
    Err(Error::from(ErrorKind::TimedOut))
}

/// What the device's flush answered, but an interruption, which is another error: so no caller
/// tries again without end.
fn uninterrupted(flushed: io::Result<()>) -> io::Result<()>
    ensures answers { IsOk result ↔ IsOk flushed }
    ensures retried { IfErr result (λ e. error_kind e ≢ ErrorKind.Interrupted) }
{
    match flushed {
        Err(error) if error.kind() == ErrorKind::Interrupted => {
            Err(Error::from(ErrorKind::TimedOut))
        }
        answered => answered,
    }
}
