//! Reading a book.
//!
//! Words of the contracts here:
//! - `ReadsBook`: of the input some bytes were got, at most `limit` with the head, and the answer
//!   is that for them: a book, or a fault that they have.
//! - `AcceptsBook`: the text of a book is read, unless it is too long, a read failed (then the
//!   count `Rose`) or memory was refused.
//! - `ReadsSeconds`: a text of version 1 gives the book of the same set, counted in milliseconds.
//! - `Asks`, `Takes`: what the reader answered last, and what was taken of the input.
//! - `IsAnswered`: all of this but for version 1.
ghost use Rattle.std.specs.Prelude.{◌≡◌, ◌≤◌, ◌-◌, ◌++◌, length, IfSome, IfOk};
ghost use Rattle.aprs_io.specs.Device.{device_of, failures_of, Rose};
ghost use Rattle.aprs_io.specs.Input.{most_input};
ghost use Rattle.aprs_transmissions.specs.BookValue.{IsSoundBook};
ghost use Rattle.aprs_bookfile.specs.Asking.{Asks, Takes};
ghost use Rattle.aprs_bookfile.specs.BookAnswers.{AcceptsBook, ReadsBook};
ghost use Rattle.aprs_bookfile.specs.Reading.{IsAnswered};
ghost use Rattle.aprs_bookfile.specs.Seconds.{ReadsSeconds};

use aprs_book::Book;
use aprs_bookfile::{BookFault, RowStream};
use aprs_io::Counted;
use aprs_rows::{BookStore, Memory, PackedRows, WalkRoom};
use aprs_transmissions::Gap;
use std::alloc::Allocator;
use std::io::Read;

/// Reads a book from its text, which begins with `head` and goes on with the bytes of `source`, to
/// the end. The first line is `APRSBOOK 1`, and moments are written to the second (20 bytes each),
/// or `APRSBOOK 2` or `APRSBOOK 3 G`, and they are written to the millisecond (24 bytes each). The
/// book's gap is G seconds, 1 to 3,600 in decimal with no zero before it; in versions 1 and 2 it is
/// 30 seconds. Reading takes at most `limit` bytes, the head among them, and one more at `TooLong`.
/// Requires a limit of at most `MAX_INPUT` (1,073,741,824) and a head of at most 8 bytes and at
/// most `limit`. A fault is the text's first, with the number of its line; `Memory` comes instead
/// where an allocation failed before that fault, with the number of the line that was being read.
/// Holds 16,384 bytes of the source, one line and the rows in bytes, and then the book beside them.
pub fn read_book<R: Read, A: Allocator + Copy>(
    alloc: A,
    limit: u64,
    head: &[u8],
    source: &mut Counted<R>,
) -> Result<Book<A>, BookFault>
    requires limit { limit ≤ most_input }
    requires head { length head.now ≤ 8 }
    requires within { length head.now ≤ limit }

    // The answer is that for the text that was got: its book, or a fault that it has.
    ensures reads { IfSome (R.remaining (device_of source.old))
        (λ input. ReadsBook limit head.now input (R.remaining (device_of source.new)) result) }
    // A book's text within the limit is read, unless a read or an allocation failed.
    ensures accepts { IfSome (R.remaining (device_of source.old))
        (λ input. AcceptsBook limit (head.now ++ input) result
        (Rose (failures_of source.old) (failures_of source.new))) }
    // A text of version 1 gives the book of its set, with moments in milliseconds.
    ensures seconds { IfSome (R.remaining (device_of source.old))
        (λ input. ReadsSeconds (head.now ++ input) result) }

    // The reader is asked neither after its end nor after a fault.
    ensures calls { Asks result source.old source.new }
    // No more bytes are taken than the limit allows; where the input is too long, just one more.
    ensures over { IfSome (R.remaining (device_of source.old)) (λ input. Takes result
        (limit - length head.now) input (R.remaining (device_of source.new))) }
{
    book_of_text(alloc, limit, head, source)
}

/// The book of a text. It is made before the input is asked for its end, so that no allocation can
/// fail after that.
fn book_of_text<R: Read, A: Allocator + Copy>(
    alloc: A,
    limit: u64,
    head: &[u8],
    source: &mut Counted<R>,
) -> Result<Book<A>, BookFault>
    requires limit { limit ≤ most_input }
    requires head { length head.now ≤ 8 }
    requires within { length head.now ≤ limit }
    ensures { IsAnswered R.remaining limit head.now result source.old source.new }
{
    let mut stream = RowStream::keeping_each(alloc, limit, head)?;
    stream.read_lines(source)?;
    let Ok(book) = book_in(alloc, stream.gap(), stream.take_rows(alloc)) else {
        return Err(stream.memory_at_last());
    };
    stream.end(source)?;
    Ok(book)
}

/// The book of these rows, which are those of a book with this gap.
fn book_in<A: Allocator + Copy>(alloc: A, gap: Gap, rows: PackedRows<A>) -> Result<Book<A>, Memory>
    requires { IsSoundBook (record { gap = gap; rows = rows }) }
    ensures { IfOk result (λ book. book ≡ record { gap = gap; rows = rows }) }
{
    let mut store = BookStore::new(alloc, gap);
    store.add(rows)?;
    let mut room = WalkRoom::new(alloc);
    let book_rows = store.rows(&mut room)?;
    Book::of_rows(alloc, book_rows)
}
