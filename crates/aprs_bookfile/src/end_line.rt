//! The last line of a book's text.
ghost use Rattle.std.specs.Prelude.{◌≡◌, ◌≤◌};
ghost use Rattle.arrayvec.specs.ArrayVec.{array_vec_len};
ghost use Rattle.aprs_bookfile.specs.Text.{end_line};

use aprs_io::push_all;
use arrayvec::ArrayVec;
use itoa::Buffer;

/// The room for the last line with its LF, in bytes: no such line is longer.
pub const END_LINE: usize = 64;

/// The last line of the text of a book of this many rows, `END` and their number, without its LF.
pub fn end_line(rows: usize) -> ArrayVec<u8, END_LINE>
    ensures text { result.items ≡ end_line rows }
    ensures short { array_vec_len result ≤ 60 }
{
    let mut text = ArrayVec::new();
    push_all(&mut text, b"END ");
    push_all(&mut text, Buffer::new().format(rows).as_bytes());
    text
}
