//! What a check reports of a log.
//!
//! Words of the contracts here:
//! - `Runs Told`: of what was got of the input, the run wrote the text and ended with the fault
//!   that `Told` says, or wrote a prefix at `Write`. Neither device was asked after its end or a
//!   fault.
//! - `Checks`: the text is a line for each line that is passed over, and the totals if there is no
//!   fault.
ghost use Rattle.std.specs.Prelude.{◌≡◌, ◌≤◌, ◌++◌, codes};
ghost use Rattle.arrayvec.specs.ArrayVec.{array_vec_len};
ghost use Rattle.aprs_io.specs.Input.{most_input};
ghost use Rattle.aprs_kiss.specs.Device.{Sends};
ghost use Rattle.aprs_log.specs.Fault.{reason_name};
ghost use Rattle.aprs_convert.specs.Check.{Checks, passed_line_of, totals_line_of};
ghost use Rattle.aprs_convert.specs.Ends.{Runs};

use crate::fault::ConvertFault;
use crate::text::{Text, push_decimal};
use aprs_io::push_all;
use aprs_kiss::{Counted, WriteFault, send};
use aprs_log::{Line, LogReader, Reason};
use std::alloc::Allocator;
use std::io::{Read, Write};

/// Writes a line for each line of a log that holds no frame, with the reason, and last how many
/// lines are heard and how many passed over. More than `limit` bytes are a fault. Requires that
/// `limit` is at most `MAX_INPUT` (1,073,741,824). At a fault all lines before it have been
/// reported, and there are no totals; at `Write` a prefix of the text was written. Takes no memory.
pub fn check_log<R: Read, W: Write, A: Allocator + Copy>(
    alloc: A,
    limit: u64,
    r: &mut Counted<R>,
    w: &mut Counted<W>,
) -> Result<(), ConvertFault>
    requires { limit ≤ most_input }
    ensures { Runs Checks limit R.remaining W.contents result r.old r.new w.old w.new }
{
    let mut reader = LogReader::new(alloc, limit, &[], r);
    let mut heard = 0;
    let mut passed = 0;
    'lines: loop {
        if !reader.advance()? {
            write_totals(w, heard, passed)?;
            return Ok(());
        }
        match reader.current() {
            Line::Heard(_) => heard += 1,
            Line::Passed(reason) => {
                write_passed(w, reader.line(), *reason)?;
                passed += 1;
            }
        }
    }
}

/// Writes that line number `line` is passed over, and why. At a fault a prefix of the report went
/// out.
fn write_passed<W: Write>(w: &mut Counted<W>, line: u64, reason: Reason) -> Result<(), WriteFault>
    ensures { Sends W.contents result w.old w.new (passed_line_of (line, reason) ++ codes "\n") }
{
    let text = passed_line(line, reason);
    send(w, text.as_slice())
}

/// Writes how many lines are heard and how many passed over. At a fault a prefix of the report went
/// out.
fn write_totals<W: Write>(w: &mut Counted<W>, heard: u64, passed: u64) -> Result<(), WriteFault>
    ensures { Sends W.contents result w.old w.new (totals_line_of heard passed ++ codes "\n") }
{
    let text = totals_line(heard, passed);
    send(w, text.as_slice())
}

/// The report that line number `line` is passed over, with its LF, as `line 3 passed NoFrame`.
fn passed_line(line: u64, reason: Reason) -> Text
    ensures { result.items ≡ passed_line_of (line, reason) ++ codes "\n" }
{
    let mut text = Text::new();
    push_all(&mut text, b"line ");
    push_decimal(&mut text, line);
    push_all(&mut text, b" passed ");
    push_reason(&mut text, reason);
    text.push(b'\n');
    text
}

/// The report of how many lines are heard and how many passed over, as `heard 5 passed 1`, with its
/// LF.
fn totals_line(heard: u64, passed: u64) -> Text
    ensures { result.items ≡ totals_line_of heard passed ++ codes "\n" }
{
    let mut text = Text::new();
    push_all(&mut text, b"heard ");
    push_decimal(&mut text, heard);
    push_all(&mut text, b" passed ");
    push_decimal(&mut text, passed);
    text.push(b'\n');
    text
}

/// Puts the reason's name at the end of `out`. The contract leaves much room: a name has at most 9
/// bytes.
fn push_reason(out: &mut Text, reason: Reason)
    requires { array_vec_len out.old ≤ 1000 }
    ensures name { out.new.items ≡ out.old.items ++ reason_name reason }
    ensures most { array_vec_len out.new ≤ 1100 }
{
    push_all(out, reason.name().as_bytes());
}
