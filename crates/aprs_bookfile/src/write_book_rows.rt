//! Writing the rows of a book as they come.
ghost use Rattle.std.specs.Prelude.{OnOk};
ghost use Rattle.aprs_io.specs.Device.{Sends};
ghost use Rattle.aprs_io.specs.Outlet.{Puts};
ghost use Rattle.aprs_bookfile.specs.Text.{IsBookRows, written_text, written_version};

use crate::write::{end_line_and_lf, header_line, put_row};
use crate::written_row::WrittenRow;
use aprs_io::{Counted, Outlet, WriteFault};
use aprs_rows::BookRows;
use std::alloc::Allocator;
use std::io::Write;

/// Writes the rows of a book as the book's text of version 3: a header with the gap in seconds, a
/// line for each row, and a last line with their number. At a fault a prefix of the text went out,
/// and the count of the device's failures rose. Takes no memory.
pub fn write_rows<W: Write, A: Allocator + Copy>(
    w: &mut Counted<W>,
    rows: BookRows<'_, A>,
) -> Result<(), WriteFault>
    ensures sends { Sends W.contents result w.old w.new (written_text rows.entry) }
    // A text that was written whole is that of a book, which can be read back.
    ensures spelled { OnOk result (IsBookRows (written_version rows.entry) rows.entry.rows) }
{
    let mut out = Outlet::new(w);
    put_text(&mut out, rows)?;
    out.flush()
}

/// Puts the text of the book of these rows, from its header to its last line, into `out`. At a
/// fault a prefix of what `out` held and of this text went out.
fn put_text<W: Write, A: Allocator + Copy>(
    out: &mut Outlet<'_, W>,
    rows: BookRows<'_, A>,
) -> Result<(), WriteFault>
    ensures puts { Puts W.contents result out.old out.new (written_text rows.entry) }
    ensures spelled { OnOk result (IsBookRows (written_version rows.entry) rows.entry.rows) }
{
    // No more rows come than this, so their number can't pass it.
    let most = rows.most_rows();
    out.put(header_line(rows.gap()).as_slice())?;
    let mut room = WrittenRow::new();
    let mut count: usize = 0;
    for row in rows {
        put_row(out, &mut room, &row)?;
        count += 1;
    }
    out.put(end_line_and_lf(count).as_slice())
}
