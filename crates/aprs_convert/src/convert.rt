//! A log's lines, converted as they are read.
//!
//! Words of the contracts here:
//! - A plan says what a run writes of an input, and with which fault it ends, by what was got of
//!   it.
//! - `RunsAsPlanned`: the run wrote that text and ended so, or wrote a prefix of it at `Write`.
//! - `lines_plan form`: for each line that is heard what the form gives, and the log's first fault.
ghost use Rattle.std.specs.Prelude.{◌≤◌};
ghost use Rattle.aprs_io.specs.Input.{most_input};
ghost use Rattle.aprs_convert.specs.Plan.{RunsAsPlanned, lines_plan};

use crate::fault::ConvertFault;
use crate::form::Form;
use crate::write_line::{Scratch, write_line_as};
use aprs_kiss::Counted;
use aprs_log::LogReader;
use std::alloc::Allocator;
use std::io::{Read, Write};

/// Reads a log of at most `limit` bytes, and writes what the form gives for each line that was
/// heard; a line that is passed over gives nothing. At `Log`, the log's first fault, the text of
/// all lines before it has been written; at `Write` a prefix of the text. Neither device is asked
/// again after its end or a fault. Takes no memory.
pub fn convert_lines<R: Read, W: Write, A: Allocator + Copy>(
    alloc: A,
    limit: u64,
    form: &Form,
    r: &mut Counted<R>,
    w: &mut Counted<W>,
) -> Result<(), ConvertFault>
    requires { limit ≤ most_input }
    ensures { RunsAsPlanned (lines_plan form.now) limit R.remaining W.contents result r.old r.new
        w.old w.new }
{
    let mut reader = LogReader::new(alloc, limit, &[], r);
    let mut scratch = Scratch::new();
    'lines: loop {
        if !reader.advance()? {
            return Ok(());
        }
        write_line_as(form, w, reader.current(), &mut scratch)?;
    }
}
