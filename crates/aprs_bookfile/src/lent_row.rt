//! A row with its line.
ghost use Rattle.std.specs.Prelude.{◌≡◌, ◌<◌, Some, OnOk, length};
ghost use Rattle.hex.specs.Hex.{IsBytes};
ghost use Rattle.aprs_io.specs.Outlet.{Puts};
ghost use Rattle.aprs_log.specs.Moment.{IsWritable};
ghost use Rattle.aprs_log.specs.declared.moment_form.MomentForm.TheVariants.{Millis};
ghost use Rattle.aprs_bookfile.specs.KeptLine.{IsKeptLine};
ghost use Rattle.aprs_bookfile.specs.RowLines.{line_and_lf};
ghost use Rattle.aprs_bookfile.specs.Text.{IsBookRow};

use crate::write::put_row;
use crate::written_row::WrittenRow;
use aprs_io::{Outlet, WriteFault};
use aprs_log::Moment;
use aprs_rows::RowView;
use std::io::Write;
use std::marker::Model;

/// A row, with its line where that was read as it is written, so that it need not be made again.
#[derive(Drop)]
pub struct LentRow<'a> {
    row: RowView<'a>,
    /// The row's line as a book file of version 3 has it, without its LF. Empty where it isn't
    /// known.
    line: &'a [u8],
}

impl<'a> Model for LentRow<'a> {
    ghost use Rattle.std.specs.Prelude.{Some};
    ghost use Rattle.aprs_transmissions.specs.Row.{Row as RowValue};
    ghost use Rattle.aprs_bookfile.specs.KeptLine.{IsKeptLine};

    ghost Value = { RowValue };

    ghost view = { λ r. r.row };

    ghost invariant = { λ r. IsKeptLine r.line.now (Some r.row) };
}

impl<'a> LentRow<'a> {
    /// The row with its line, without the LF. `line` is empty where the line isn't known.
    pub(crate) fn new(row: RowView<'a>, line: &'a [u8]) -> LentRow<'a>
        requires { IsKeptLine line.now (Some row) }
        ensures { result ≡ row.entry }
    {
        LentRow { row, line }
    }

    /// The row, whose line isn't known. Takes no memory.
    pub fn without_line(row: RowView<'a>) -> LentRow<'a>
        ensures { result ≡ row.entry }
    {
        LentRow { row, line: &[] }
    }

    /// The row. Takes no memory.
    pub fn row(&self) -> &RowView<'a>
        ensures { result.now ≡ self.now }
    {
        &self.row
    }

    /// Puts the row's line, with its LF, into `out`. At a fault a prefix of what `out` held and of
    /// this line went out. The room is written over; it is kept from row to row. Takes no memory.
    #[inline(always)]
    pub fn put<W: Write>(
        &self,
        out: &mut Outlet<'_, W>,
        room: &mut WrittenRow,
    ) -> Result<(), WriteFault>
        ensures puts { Puts W.contents result out.old out.new (line_and_lf self.now) }
        // If the row has a receiver, a line can spell it, and its frame is a UI frame.
        ensures spelled { OnOk result (0 < length self.now.receivers → IsBookRow Millis self.now) }
    {
        if self.line.is_empty() {
            return put_row(out, room, &self.row);
        }
        is_spelled(&self.row);
        out.put(self.line)?;
        out.put(b"\n")
    }
}

/// If the row has a receiver, a line can spell it, and its frame is a UI frame. Does nothing.
fn is_spelled(row: &RowView<'_>)
    ensures { 0 < length row.now.receivers → IsBookRow Millis row.now }
{
    are_writable(row.first(), row.last());
    let (_names, _receiver) = (row.receivers(), row.receiver());
    are_bytes(row.frame().bytes());
}

/// Each moment can be written to the millisecond. Does nothing.
fn are_writable(first: Moment, last: Moment)
    ensures { IsWritable Millis first × IsWritable Millis last }
{
    let (_first, _last) = (first.millis(), last.millis());
}

/// The numbers of a text are bytes. Does nothing.
fn are_bytes(text: &[u8])
    ensures { IsBytes text.now }
{
    let _size = text.len();
}
