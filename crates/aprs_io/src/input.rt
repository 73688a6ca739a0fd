//! Inputs that are read under a limit.
ghost use Rattle.std.specs.Prelude.{◌<◌, length};
ghost use Rattle.aprs_io.specs.Input.{GetsSome};
ghost use Rattle.aprs_io.specs.InputSteps.{EndsInput};

use crate::device::{Counted, DeviceFault};
use std::io::Read;

/// The most bytes that a reader may be asked to read of an input: 1 GiB.
pub const MAX_INPUT: u64 = 1_073_741_824;

/// How an input ends after the bytes that were read of it.
#[derive(Clone, Copy, Debug, PartialEq, Eq)]
pub enum InputEnd {
    /// The input has no further byte.
    End,
    /// The read after them failed.
    Read,
    /// They are as many as the limit, and the input has a further byte.
    TooLong,
}

/// Reads once to the start of `room`, which is not empty, and returns how many bytes came: at
/// least one, and at most `left`, the bytes that the input's limit still allows. `Err` says how
/// the input ends. Where `left` is 0, the device is asked for one byte more, which isn't kept: if
/// it gives one, the input is too long. Takes no memory.
pub fn read_some<R: Read>(
    source: &mut Counted<R>,
    room: &mut [u8],
    left: u64,
) -> Result<usize, InputEnd>
    requires { 0 < length room.old }
    ensures { GetsSome R.remaining result left source.old source.new room.new }
{
    if left == 0 {
        return Err(ending_at_limit(source));
    }
    let most = left.min(room.len() as u64) as usize;
    match source.read(&mut room[..most]) {
        Ok(0) => Err(InputEnd::End),
        Ok(count) => Ok(count),
        Err(DeviceFault) => Err(InputEnd::Read),
    }
}

/// How an input ends of which as many bytes were read as its limit. The device is asked for one
/// byte more, which isn't kept: `TooLong` if it gives one, `End` if it gives none, `Read` if it
/// fails.
fn ending_at_limit<R: Read>(source: &mut Counted<R>) -> InputEnd
    ensures { EndsInput R.remaining result 0 source.old source.new }
{
    let mut one = [0];
    match source.read(&mut one) {
        Ok(0) => InputEnd::End,
        Ok(_) => InputEnd::TooLong,
        Err(DeviceFault) => InputEnd::Read,
    }
}
