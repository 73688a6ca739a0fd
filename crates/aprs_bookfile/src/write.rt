//! Writing the lines of a book.
ghost use Rattle.std.specs.Prelude.{◌≡◌, ◌<◌, ◌++◌, ◌∷◌, [], codes, length, OnOk};
ghost use Rattle.hex.specs.Hex.{encode_lower};
ghost use Rattle.aprs_ax25.specs.Frame.{FrameOf};
ghost use Rattle.aprs_ax25.specs.FrameFault.{parts_of};
ghost use Rattle.aprs_log.specs.Moment.{moment_text, IsWritable};
ghost use Rattle.aprs_log.specs.Receiver.{IsName};
ghost use Rattle.aprs_log.specs.declared.moment_form.MomentForm.TheVariants.{Millis};
ghost use Rattle.aprs_io.specs.Outlet.{Puts};
ghost use Rattle.aprs_bookfile.specs.RowLines.{AreSpellable, ended_by_lf};
ghost use Rattle.aprs_bookfile.specs.Text as Spec;
ghost use Rattle.aprs_bookfile.specs.Version.{header_of};
ghost use Rattle.aprs_bookfile.specs.declared.version.Version.TheVariants.{Three};

use crate::end_line::{END_LINE, end_line};
use crate::version::{MAX_HEADER, Version};
use crate::written_row::WrittenRow;
use aprs_io::{Outlet, WriteFault, push_all, put, put_hex};
use aprs_log::{Moment, MomentWriter};
use aprs_rows::RowView;
use aprs_transmissions::Gap;
use arrayvec::ArrayVec;
use std::io::Write;

/// The bytes of a row's line before its receivers.
pub const ROW_START: usize = 52;

/// The most bytes of a row's line after its receivers, with the LF.
pub const ROW_TAIL: usize = 675;

/// Puts the line of a row that is packed in bytes, with its LF, into `out`. At a fault a prefix of
/// what `out` held and of this line went out. The room is written over; it is kept from row to row.
#[inline(always)]
pub fn put_row<W: Write>(
    out: &mut Outlet<'_, W>,
    room: &mut WrittenRow,
    row: &RowView<'_>,
) -> Result<(), WriteFault>
    ensures puts { Puts W.contents result out.old out.new
        (ended_by_lf (Spec.row_line Millis row.now)) }
    // If the row has a receiver, a line can spell it, and its frame is a UI frame.
    ensures spelled { OnOk result (0 < length row.now.receivers → Spec.IsBookRow Millis row.now) }
{
    out.put(&row_start(&mut room.moments, row.first(), row.last()))?;
    out.put(row.receivers())?;
    out.put(row_tail(&mut room.tail, row.receiver(), row.frame().bytes()))
}

/// The part before the receivers in a row's line: `T`, a space, the first moment, a space, the last
/// moment and a space. Each moment has 24 bytes. `moments` keeps the date of the last one.
pub fn row_start(moments: &mut MomentWriter, first: Moment, last: Moment) -> [u8; ROW_START]
    ensures text { result
        ≡ codes "T " ++ moment_text first ++ 32 ∷ moment_text last ++ 32 ∷ [] }
    // Each moment lies before the year 2100, so that it can be written.
    ensures moments { IsWritable Millis first × IsWritable Millis last }
{
    let mut text = [b' '; ROW_START];
    text[0] = b'T';
    text[2..26].copy_from_slice(&moments.text(first));
    text[27..51].copy_from_slice(&moments.text(last));
    text
}

/// What stands after the receivers in a row's line: a space, the receiver's name, a space, the
/// frame in hexadecimal and an LF. It is written to the start of `room`, and that part is returned.
pub fn row_tail<'r>(room: &'r mut [u8; ROW_TAIL], receiver: &[u8], frame: &[u8]) -> &'r [u8]
    requires name { IsName receiver.now }
    requires frame { FrameOf (parts_of frame.now) frame.now }
    ensures text { result.now
        ≡ 32 ∷ receiver.now ++ 32 ∷ encode_lower frame.now ++ 10 ∷ [] }
    ensures spelled { AreSpellable receiver.now frame.now }
{
    room[0] = b' ';
    let space = put(room, 1, receiver);
    room[space] = b' ';
    let end = put_hex(room, space + 1, frame);
    room[end] = b'\n';
    &room[..end + 1]
}

/// The first line of the text of version 3 of a book with this gap, with its LF.
pub fn header_line(gap: Gap) -> ArrayVec<u8, MAX_HEADER>
    ensures { result.items ≡ ended_by_lf (header_of (Three gap)) }
{
    let mut text = Version::Three(gap).header();
    push_all(&mut text, b"\n");
    text
}

/// The last line of the text of a book of this many rows, `END` and their number, with its LF.
pub fn end_line_and_lf(rows: usize) -> ArrayVec<u8, END_LINE>
    ensures { result.items ≡ ended_by_lf (Spec.end_line rows) }
{
    let mut text = end_line(rows);
    push_all(&mut text, b"\n");
    text
}
