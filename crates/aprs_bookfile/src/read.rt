//! Reading the rows of a book.
//!
//! Words of the contracts here:
//! - `book_read`: the rows as a book of the gap that was returned, or the fault.
//! - `HasGot`: since the input was `first`, the text of these rows was got, `head` among it.
//! - `IsAnswered`: the answer is that for the text that was got: its book, or a fault that it has.
//!   The reader was asked no further, and no more was taken than the limit allows, but for one
//!   byte.
//! - `StopsAfter`: if memory was refused, there are as many rows as rows' lines before the line
//!   that the fault names.
ghost use Rattle.std.specs.Prelude.{◌≡◌, ◌≤◌, ◌+◌, ◌-◌, ◌++◌, ℕ, [], List, length, IfSome, IfOk, IfErr};
ghost use Rattle.aprs_io.specs.Device.{device_of, failures_of, Rose};
ghost use Rattle.aprs_io.specs.Input.{most_input};
ghost use Rattle.aprs_io.specs.declared.device.Counted.{Counted as CountedValue};
ghost use Rattle.aprs_transmissions.specs.BookValue.{IsSoundBook};
ghost use Rattle.aprs_bookfile.specs.Asking.{Asks, Takes};
ghost use Rattle.aprs_bookfile.specs.BookAnswers.{AcceptsBook, ReadsBook};
ghost use Rattle.aprs_bookfile.specs.ReadRows.{book_read, StopsAfter};
ghost use Rattle.aprs_bookfile.specs.Reading.{IsAnswered};
ghost use Rattle.aprs_bookfile.specs.RowReader.{most_stream};
ghost use Rattle.aprs_bookfile.specs.RowStream.{stream_size, HasGot};
ghost use Rattle.aprs_bookfile.specs.Seconds.{ReadsSeconds};

use crate::fault::BookFault;
use crate::row_reader::Keeping;
use crate::row_stream::RowStream;
use aprs_io::Counted;
use aprs_rows::PackedRows;
use aprs_transmissions::Gap;
use std::alloc::Allocator;
use std::io::Read;

/// Reads the rows of a book from its text, which begins with `head` and goes on with the bytes of
/// `source`, to the end. Puts them into `rows`, which has to be empty, and returns the book's gap.
/// The text is of version 1, 2 or 3. Reading takes at most `limit` bytes, the head among them, and
/// one more at `TooLong`. Requires a limit of at most `MAX_INPUT` (1,073,741,824) and a head of at
/// most 8 bytes and at most `limit`. A fault is the text's first, with the number of its line;
/// `Memory` comes instead where an allocation failed before any fault, with the number of the line
/// that was being read, and then there are as many rows as lines of rows before it. After another
/// fault they may be any. Holds the rows, one line and 16,384 bytes of the source.
pub fn read_rows<R: Read, A: Allocator + Copy>(
    alloc: A,
    limit: u64,
    head: &[u8],
    source: &mut Counted<R>,
    rows: &mut PackedRows<A>,
) -> Result<Gap, BookFault>
    requires limit { limit ≤ most_input }
    requires head { length head.now ≤ 8 }
    requires within { length head.now ≤ limit }
    requires empty { rows.old ≡ [] }

    // The answer is that for the text that was got: its book, or a fault that it has.
    ensures reads { IfSome (R.remaining (device_of source.old))
        (λ input. ReadsBook limit head.now input (R.remaining (device_of source.new))
        (book_read result rows.new)) }
    // A book's text within the limit is read, unless a read or an allocation failed.
    ensures accepts { IfSome (R.remaining (device_of source.old))
        (λ input. AcceptsBook limit (head.now ++ input) (book_read result rows.new)
        (Rose (failures_of source.old) (failures_of source.new))) }
    // A text of version 1 gives the book of its set, with moments in milliseconds.
    ensures seconds { IfSome (R.remaining (device_of source.old))
        (λ input. ReadsSeconds (head.now ++ input) (book_read result rows.new)) }

    // The rows are those of a book with this gap.
    ensures sound { IfOk result (λ gap. IsSoundBook (record { gap = gap; rows = rows.new })) }
    // Where an allocation failed, there are as many rows as rows' lines before the line it names.
    ensures stops { IfErr result (λ fault. StopsAfter fault rows.new) }

    // The reader is asked neither after its end nor after a fault.
    ensures calls { Asks (book_read result rows.new) source.old source.new }
    // No more bytes are taken than the limit allows; where the input is too long, just one more.
    ensures over { IfSome (R.remaining (device_of source.old))
        (λ input. Takes (book_read result rows.new) (limit - length head.now) input
        (R.remaining (device_of source.new))) }
{
    rows_of_text(alloc, limit, head, source, rows)
}

/// Puts the rows of a text into `rows`, which has to be empty, and returns the gap of their book.
fn rows_of_text<R: Read, A: Allocator + Copy>(
    alloc: A,
    limit: u64,
    head: &[u8],
    source: &mut Counted<R>,
    rows: &mut PackedRows<A>,
) -> Result<Gap, BookFault>
    requires limit { limit ≤ most_input }
    requires head { length head.now ≤ 8 }
    requires within { length head.now ≤ limit }
    requires empty { rows.old ≡ [] }
    ensures answer { IsAnswered R.remaining limit head.now (book_read result rows.new) source.old
        source.new }
    ensures sound { IfOk result (λ gap. IsSoundBook (record { gap = gap; rows = rows.new })) }
    ensures stops { IfErr result (λ fault. StopsAfter fault rows.new) }
{
    let mut stream = RowStream::keeping_each(alloc, limit, head)?;
    let answer = read_text(source, &mut stream);
    *rows = stream.take_rows(alloc);
    answer
}

/// Reads a text to its end with a stream that has read nothing and keeps each row, and returns the
/// gap of its book. Fails with the text's first fault, or with `Memory` where an allocation failed.
fn read_text<R: Read, A: Allocator + Copy>(
    source: &mut Counted<R>,
    stream: &mut RowStream<A>,
) -> Result<Gap, BookFault>
    requires few { stream_size stream.old ≤ most_stream }
    requires each { stream.old.reader.keeping ≡ Keeping.Each }
    ensures answer { (limit : ℕ) (head : List ℕ) (first : CountedValue R)
        → HasGot R.remaining limit head first source.old stream.old []
        → IsAnswered R.remaining limit head (book_read result stream.new.reader.rows) first
        source.new }
    ensures sound { IfOk result (λ gap. (limit : ℕ) (head : List ℕ) (first : CountedValue R)
        → HasGot R.remaining limit head first source.old stream.old []
        → IsSoundBook (record { gap = gap; rows = stream.new.reader.rows })) }
    ensures stops { IfErr result (λ fault. (limit : ℕ) (head : List ℕ) (first : CountedValue R)
        → HasGot R.remaining limit head first source.old stream.old []
        → StopsAfter fault stream.new.reader.rows) }
{
    stream.read_lines(source)?;
    stream.end(source)?;
    Ok(stream.gap())
}
