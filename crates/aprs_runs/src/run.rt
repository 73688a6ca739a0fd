//! Conversions and checks as runs over one input.
//!
//! Words of the contracts here:
//! - `AnswersAs`: a fault of the log or stream is told as that of input 0, `Write` as itself.
//! - `Runs Told`: of what was got of the input, the run wrote the text and ended with the fault
//!   that `Told` says, or wrote a prefix at `Write`. Neither device was asked after its end or a
//!   fault.
//! - `Converts form`: the text is what the form gives for each reception, up to the fault.
//! - `Checks`: the text is a line for each line that is passed over, and the totals if there is no
//!   fault.
ghost use Rattle.std.specs.Prelude.{◌≤◌};
ghost use Rattle.aprs_io.specs.Input.{most_input};
ghost use Rattle.aprs_convert.specs.Check.{Checks};
ghost use Rattle.aprs_convert.specs.Conversion.{Converts};
ghost use Rattle.aprs_convert.specs.Ends.{Runs};
ghost use Rattle.aprs_runs.specs.RunEnds.{AnswersAs};

use crate::fault::RunFault;
use aprs_convert::{Form, check_log, convert_input};
use aprs_io::Counted;
use std::alloc::Allocator;
use std::io::{Read, Write};

/// Writes what a form gives for each line of a log, or for each frame of a KISS stream where the
/// form is a capture. More than `limit` bytes are a fault. Requires that `limit` is at most
/// `MAX_INPUT` (1,073,741,824). At a fault of the log or stream the text of all before it has been
/// written; at `Write` a prefix of the text was written. A fault of the log or stream is returned
/// as that of input 0, a stream's with line 0, and no other error comes. Takes no memory: it asks
/// nothing of `alloc`.
pub fn convert_run<R: Read, W: Write, A: Allocator + Copy>(
    alloc: A,
    limit: u64,
    form: Form,
    r: &mut Counted<R>,
    w: &mut Counted<W>,
) -> Result<(), RunFault>
    requires { limit ≤ most_input }
    ensures { AnswersAs result (λ answer.
        Runs (Converts form) limit R.remaining W.contents answer r.old r.new w.old w.new) }
{
    Ok(convert_input(alloc, limit, form, r, w)?)
}

/// For each line of a log in which no frame was heard, writes a line with its number and the
/// reason; at the end, how many lines were heard and how many passed over. More than `limit` bytes
/// are a fault. Requires that `limit` is at most `MAX_INPUT` (1,073,741,824). At a fault of the log
/// all lines before it have been reported, and there are no totals; at `Write` a prefix of the text
/// was written. A fault of the log is returned as that of input 0, and no other error comes. Takes
/// no memory: it asks nothing of `alloc`.
pub fn check_run<R: Read, W: Write, A: Allocator + Copy>(
    alloc: A,
    limit: u64,
    r: &mut Counted<R>,
    w: &mut Counted<W>,
) -> Result<(), RunFault>
    requires { limit ≤ most_input }
    ensures { AnswersAs result (λ answer.
        Runs Checks limit R.remaining W.contents answer r.old r.new w.old w.new) }
{
    Ok(check_log(alloc, limit, r, w)?)
}
