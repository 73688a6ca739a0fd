//! Runs over one input.
//!
//! Words of the contracts here:
//! - `Runs Told`: of what was got of the input, the run wrote the text and ended with the fault
//!   that `Told` says, or wrote a prefix at `Write`. Neither device was asked after its end or a
//!   fault.
//! - `Converts form`: the text is what the form gives for each reception, up to the fault.
ghost use Rattle.std.specs.Prelude.{◌≤◌};
ghost use Rattle.aprs_io.specs.Input.{most_input};
ghost use Rattle.aprs_convert.specs.Conversion.{Converts};
ghost use Rattle.aprs_convert.specs.Ends.{Runs};

use crate::capture::capture;
use crate::convert::convert_lines;
use crate::fault::ConvertFault;
use crate::form::Form;
use aprs_kiss::Counted;
use std::alloc::Allocator;
use std::io::{Read, Write};

/// Writes what a form gives for each line of a log, or for each frame of a KISS stream where the
/// form is a capture. More than `limit` bytes are a fault. Requires that `limit` is at most
/// `MAX_INPUT` (1,073,741,824). At a fault the text of all before it has been written; at `Write` a
/// prefix of the text. A stream's faults have line 0. Takes no memory.
pub fn convert_input<R: Read, W: Write, A: Allocator + Copy>(
    alloc: A,
    limit: u64,
    form: Form,
    r: &mut Counted<R>,
    w: &mut Counted<W>,
) -> Result<(), ConvertFault>
    requires { limit ≤ most_input }
    ensures { Runs (Converts form) limit R.remaining W.contents result r.old r.new w.old w.new }
{
    match &form {
        Form::Capture { receiver, moment } => capture(limit, receiver, moment, r, w),
        Form::Text | Form::Kind | Form::Kiss | Form::Log => convert_lines(
            alloc, limit, &form, r, w,
        ),
    }
}
