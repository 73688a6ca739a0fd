//! A reader or a writer that counts its failed calls.
ghost use Rattle.std.specs.Prelude.{◌≡◌, ◌+◌, ◌≤◌};
ghost use Rattle.aprs_io.specs.Device as Spec;
ghost use Rattle.aprs_io.specs.Input.{ReadsDevice};

use std::io::{ErrorKind, Read, Write};

/// How many interrupted tries in a row end a call with a fault.
pub const MAX_TRIES: u32 = 1000;

/// A read of the device failed: with an error that isn't an interruption, or 1,000 times in a row.
#[derive(Clone, Copy, Debug, PartialEq, Eq)]
pub struct DeviceFault;

/// A write to the device failed: with an error that isn't an interruption, 1,000 times in a row, or
/// since the device took no byte.
#[derive(Clone, Copy, Debug, PartialEq, Eq)]
pub struct WriteFault;

/// A reader or a writer, how many of its calls failed, how many calls of `read` and `send` answered
/// a fault, and how many calls of `read` the end. Each count stays at `u64::MAX`.
#[derive(Drop)]
pub struct Counted<T> {
    device: T,
    failed: u64,
    answered: u64,
    ended: u64,
}

impl<T> Counted<T> {
    /// The device, with each of the counts at 0. Takes no memory.
    pub fn new(device: T) -> Self
        ensures device { Spec.device_of result ≡ device }
        ensures failures { Spec.failures_of result ≡ 0 }
        ensures answered { Spec.answered_of result ≡ 0 }
        ensures ended { Spec.ends_of result ≡ 0 }
    {
        Counted {
            device,
            failed: 0,
            answered: 0,
            ended: 0,
        }
    }

    /// How many calls of the device failed, or `u64::MAX` where that many did or more. Takes no
    /// memory.
    pub fn failures(&self) -> u64
        ensures { result ≡ Spec.failures_of self.now }
    {
        self.failed
    }

    /// How many calls of `read` and `send` answered a fault, or `u64::MAX` where that many did or
    /// more. Takes no memory.
    pub fn answered(&self) -> u64
        ensures { result ≡ Spec.answered_of self.now }
    {
        self.answered
    }

    /// Gives the device back. Takes no memory.
    pub fn into_inner(self) -> T
        ensures { result ≡ Spec.device_of self }
    {
        self.device
    }

    /// Counts a failed call of the device. At `u64::MAX` the count stays.
    fn note_failure(&mut self)
        ensures rose { Spec.Rose self.old.failed self.new.failed }
        ensures count { self.old.failed ≤ self.new.failed }
        ensures once { self.new.failed ≤ self.old.failed + 1 }

        ensures device { self.new.device ≡ self.old.device }
        ensures answered { self.new.answered ≡ self.old.answered }
        ensures ended { self.new.ended ≡ self.old.ended }
    {
        let count = &mut self.failed;
        *count = count.saturating_add(1);
    }

    /// Counts a fault that `read` or `send` answers. At `u64::MAX` the count stays.
    fn note_answer(&mut self)
        ensures device { self.new.device ≡ self.old.device }
        ensures failed { self.new.failed ≡ self.old.failed }
        ensures ended { self.new.ended ≡ self.old.ended }
        ensures once { self.new.answered ≡ Spec.one_more self.old.answered }
    {
        let count = &mut self.answered;
        *count = count.saturating_add(1);
    }

    /// Counts an end that `read` answers. At `u64::MAX` the count stays.
    fn note_end(&mut self)
        ensures { self.new ≡ record self.old { ended = Spec.one_more self.old.ended } }
    {
        let count = &mut self.ended;
        *count = count.saturating_add(1);
    }
}

impl<R: Read> Counted<R> {
    /// Reads the device's next bytes to the start of `buf`, and returns how many came: 0 at the
    /// device's end. Where `buf` is empty, it is 0 and the device isn't asked. Each failed try is
    /// counted. An interrupted try is made again, up to 999 in a row; the 1,000th, and any other
    /// error at once, is a fault. At a fault no byte is lost. An answer that is a fault or the
    /// end is counted too. Takes no memory.
    pub fn read(&mut self, buf: &mut [u8]) -> Result<usize, DeviceFault>
        ensures { ReadsDevice R.remaining result self.old self.new buf.new }
    {
        if buf.is_empty() {
            return Ok(0);
        }
        let mut tries = 0;
        loop {
            match self.device.read(buf) {
                Ok(n) => {
                    if n == 0 {
                        self.note_end();
                    }
                    return Ok(n);
                }
                Err(error) => {
                    self.note_failure();
                    tries += 1;
                    if tries == MAX_TRIES || error.kind() != ErrorKind::Interrupted {
                        self.note_answer();
                        return Err(DeviceFault);
                    }
                }
            }
        }
    }
}

/// Writes all of `bytes`, or at a fault a prefix of them. Each failed try is counted. An
/// interrupted try is made again, up to 999 in a row; the 1,000th, any other error and a write
/// that takes no byte are faults. An answer that is a fault is counted too. Where `bytes` is empty,
/// the device isn't asked. Takes no memory.
pub fn send<W: Write>(w: &mut Counted<W>, bytes: &[u8]) -> Result<(), WriteFault>
    ensures { Spec.Sends W.contents result w.old w.new bytes.now }
{
    let mut rest = bytes;
    let mut tries = 0;
    while !rest.is_empty() {
        match w.device.write(rest) {
            Ok(n) if n > 0 => {
                rest = &rest[n..];
                tries = 0;
            }
            Err(error) if tries + 1 < MAX_TRIES && error.kind() == ErrorKind::Interrupted => {
                w.note_failure();
                tries += 1;
            }
            _ => {
                w.note_failure();
                w.note_answer();
                return Err(WriteFault);
            }
        }
    }
    Ok(())
}
