//! Writing a book.
ghost use Rattle.std.specs.Prelude.{◌≡◌, ◌<◌, ◌++◌, ◌∷◌, All, length, flat_map, OnOk};
ghost use Rattle.std.specs.List.{join_with_byte};
ghost use Rattle.aprs_log.specs.Receiver.{IsName};
ghost use Rattle.aprs_log.specs.declared.moment_form.MomentForm.TheVariants.{Millis};
ghost use Rattle.aprs_io.specs.Device.{Sends};
ghost use Rattle.aprs_io.specs.Outlet.{Puts};
ghost use Rattle.aprs_bookfile.specs.RowLines.{line_and_lf, ended_by_lf};
ghost use Rattle.aprs_bookfile.specs.Text as Spec;

use aprs_book::{Book, Row};
use aprs_bookfile::{WrittenRow, end_line_and_lf, header_line, row_start, row_tail};
use aprs_io::{Counted, Outlet, WriteFault, push_all};
use aprs_log::Receiver;
use arrayvec::ArrayVec;
use std::alloc::Allocator;
use std::io::Write;

/// The most bytes of a further receiver in a row's line, with the comma before it.
const MAX_FURTHER: usize = 17;

/// Writes a book as its text of version 3: a header with the book's gap in seconds, a line for each
/// row, with its moments to the millisecond, and a last line with their number.
/// A text that it wrote to its end is one that `read_book` reads, if it has at most 1,073,741,824
/// bytes. At a fault a prefix of the text went out, and the count of the device's failures rose.
/// Takes no memory.
pub fn write_book<W: Write, A: Allocator + Copy>(
    w: &mut Counted<W>,
    book: &Book<A>,
) -> Result<(), WriteFault>
    ensures sends { Sends W.contents result w.old w.new (Spec.written_text book.now) }
    // A text that was written whole is that of a book, which can be read back.
    ensures spelled { OnOk result (Spec.IsBookRows (Spec.written_version book.now) book.now.rows) }
{
    let mut out = Outlet::new(w);
    put_book(&mut out, book)?;
    out.flush()
}

/// Puts the text of a book, from its header to its last line, into `out`. At a fault a prefix of
/// what `out` held and of this text went out.
fn put_book<W: Write, A: Allocator + Copy>(
    out: &mut Outlet<'_, W>,
    book: &Book<A>,
) -> Result<(), WriteFault>
    ensures puts { Puts W.contents result out.old out.new (Spec.written_text book.now) }
    ensures spelled { OnOk result (Spec.IsBookRows (Spec.written_version book.now) book.now.rows) }
{
    out.put(header_line(book.gap()).as_slice())?;
    put_rows(out, book)?;
    out.put(end_line_and_lf(book.len()).as_slice())
}

/// Puts the lines of a book's rows into `out`. At a fault a prefix of what `out` held and of these
/// lines went out.
fn put_rows<W: Write, A: Allocator + Copy>(
    out: &mut Outlet<'_, W>,
    book: &Book<A>,
) -> Result<(), WriteFault>
    ensures puts { Puts W.contents result out.old out.new (flat_map line_and_lf book.now.rows) }
    ensures spelled { OnOk result (Spec.IsBookRows (Spec.written_version book.now) book.now.rows) }
{
    let mut room = WrittenRow::new();
    for row in book.rows() {
        put_book_row(out, &mut room, &row)?;
    }
    Ok(())
}

/// Puts the line of a book's row, with its LF, into `out`. At a fault a prefix of what `out` held
/// and of this line went out. The room is written over; it is kept from row to row.
fn put_book_row<W: Write>(
    out: &mut Outlet<'_, W>,
    room: &mut WrittenRow,
    row: &Row<'_>,
) -> Result<(), WriteFault>
    ensures puts { Puts W.contents result out.old out.new
        (ended_by_lf (Spec.row_line Millis row.now)) }
    // If the row has a receiver, a line can spell it, and its frame is a UI frame.
    ensures spelled { OnOk result (0 < length row.now.receivers → Spec.IsBookRow Millis row.now) }
{
    out.put(&row_start(&mut room.moments, row.first, row.last))?;
    put_names(out, row.receivers)?;
    out.put(row_tail(&mut room.tail, row.receiver.as_bytes(), row.frame.bytes()))
}

/// Puts names with commas between.
fn put_names<W: Write>(out: &mut Outlet<'_, W>, names: &[Receiver]) -> Result<(), WriteFault>
    ensures puts { Puts W.contents result out.old out.new (join_with_byte 44 names.now) }
    ensures names { OnOk result (All IsName names.now) }
{
    let Some((first, others)) = names.split_first() else {
        return Ok(());
    };
    out.put(first.as_bytes())?;
    put_further_names(out, others)
}

/// Puts names with a comma before each.
fn put_further_names<W: Write>(
    out: &mut Outlet<'_, W>,
    names: &[Receiver],
) -> Result<(), WriteFault>
    ensures puts { Puts W.contents result out.old out.new (flat_map (λ name. 44 ∷ name) names.now) }
    ensures names { OnOk result (All IsName names.now) }
{
    for name in names {
        out.put(comma_and_name(name).as_slice())?;
    }
    Ok(())
}

/// A comma and the name.
fn comma_and_name(name: &Receiver) -> ArrayVec<u8, MAX_FURTHER>
    ensures text { result.items ≡ 44 ∷ name.now }
    ensures name { IsName name.now }
{
    let mut text = ArrayVec::new();
    push_all(&mut text, b",");
    push_all(&mut text, name.as_bytes());
    text
}
