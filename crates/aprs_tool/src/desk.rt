//! A book that inputs are merged into, and the book of one input.
//!
//! Words of the contracts here:
//! - `Holds S book`: the book is that of the receptions S, under its gap.
//! - Of an input a text is got, at most `limit` bytes, and how it then ended. `OfGot` says
//!   something of these two, where the input's bytes are known.
//! - `TakesInput`: rows that were the book of any set are now that of it and the input's
//!   receptions; or the input isn't taken, for this fault.
//! - `ReadsInput`: the book is that of the input, or the input is refused for this fault.
//! - `AsksInput`: the input was read to its end, or to the fault, and no further.
ghost use Rattle.std.specs.Prelude.{◌≡◌, ◌≤◌, List, IfOk, IfErr, OnOk};
ghost use Rattle.aprs_io.specs.Device.{device_of};
ghost use Rattle.aprs_io.specs.Input.{most_input};
ghost use Rattle.aprs_log.specs.Reception.{Received};
ghost use Rattle.aprs_transmissions.specs.Book.{BookOf};
ghost use Rattle.aprs_transmissions.specs.BookValue.{HaveOneGap};
ghost use Rattle.aprs_transmissions.specs.Gap.{millis_of};
ghost use Rattle.aprs_book.specs.Changes.{MergesInto};
ghost use Rattle.aprs_convert.specs.Got.{OfGot};
ghost use Rattle.aprs_runs.specs.Devices.{AsksInput};
ghost use Rattle.aprs_runs.specs.InputBook.{ReadsInput};
ghost use Rattle.aprs_runs.specs.InputRows.{RefusesGaps};

use aprs_book::Book;
use aprs_booktext::read_book;
use aprs_io::Counted;
use aprs_rows::{BookStore, WalkRoom};
use aprs_runs::{BOOK_MARK, InputFault, read_head, read_log, read_short};
use aprs_transmissions::{Gap, MergeFault};
use std::alloc::{Allocator, Global};
use std::io::Read;

/// A book, and what is needed to read further inputs into it.
pub struct Desk<A: Allocator = Global> {
    alloc: A,
    limit: u64,
    book: Book<A>,
    ghost few: { limit ≤ most_input },
}

impl<A: Allocator> Drop for Desk<A> {
    fn drop(self) {
        let Desk {
            alloc: _,
            limit: _,
            book,
        } = self;
        drop(book);
    }
}

impl<A: Allocator + Copy> Desk<A> {
    ghost use Rattle.std.specs.Prelude.{◌≡◌, ◌≤◌, [], OnErr};
    ghost use Rattle.aprs_io.specs.Input.{most_input};
    ghost use Rattle.aprs_io.specs.Device.{device_of};
    ghost use Rattle.aprs_transmissions.specs.BookValue.{Holds};
    ghost use Rattle.aprs_transmissions.specs.Gap.{standard_gap};
    ghost use Rattle.aprs_tool.specs.Desk.{desk_book, desk_gap, desk_limit, desk_rows};
    ghost use Rattle.aprs_convert.specs.Got.{OfGot};
    ghost use Rattle.aprs_runs.specs.Devices.{AsksInput};
    ghost use Rattle.aprs_runs.specs.InputBook.{TakesInput};

    /// An empty book with a gap of 30 seconds, for inputs of at most `limit` bytes each. A longer
    /// one is refused. Requires that `limit` is at most `MAX_INPUT` (1,073,741,824). Takes no
    /// memory.
    pub fn new(alloc: A, limit: u64) -> Desk<A>
        requires { limit ≤ most_input }

        ensures gap { desk_gap result ≡ standard_gap }
        ensures rows { desk_rows result ≡ [] }
        ensures book { Holds [] (desk_book result) }
        ensures limit { desk_limit result ≡ limit }
    {
        Desk::with_gap(alloc, limit, Gap::STANDARD)
    }

    /// An empty book with this gap, for inputs of at most `limit` bytes each. A longer one is
    /// refused. Requires that `limit` is at most `MAX_INPUT` (1,073,741,824). Takes no memory.
    pub fn with_gap(alloc: A, limit: u64, gap: Gap) -> Desk<A>
        requires { limit ≤ most_input }

        ensures gap { desk_gap result ≡ gap }
        ensures rows { desk_rows result ≡ [] }
        ensures book { Holds [] (desk_book result) }
        ensures limit { desk_limit result ≡ limit }
    {
        Desk {
            alloc,
            limit,
            book: Book::with_gap(alloc, gap),
        }
    }

    /// Reads an input, a log or a book file, and merges its book into the desk's: if that was the
    /// book of a set of receptions, it is then that of this set and of the input's receptions.
    /// Fails with the input's first fault; with `OtherGap` for a faultless book file whose gap
    /// isn't that of the desk's book; and where an allocation failed. It fails with `Memory` also
    /// where a row's names of receivers have 4 GiB or more, commas among them. After a fault the
    /// desk is as before.
    pub fn take_input<R: Read>(&mut self, r: &mut Counted<R>) -> Result<(), InputFault>
        ensures takes { OfGot (desk_limit self.old) (R.remaining (device_of r.old))
            (R.remaining (device_of r.new))
            (TakesInput (desk_gap self.old) result (desk_rows self.old) (desk_rows self.new)) }

        ensures gap { desk_gap self.new ≡ desk_gap self.old }
        ensures limit { desk_limit self.new ≡ desk_limit self.old }
        ensures unchanged { OnErr result (self.new ≡ self.old) }
        // The reader is asked neither after its end nor after a fault.
        ensures calls { AsksInput result r.old r.new }
    {
        let input = read_input(self.alloc, self.limit, self.book.gap(), r)?;
        self.book = merge_books(&self.book, input)?;
        Ok(())
    }

    /// The desk's book. Takes no memory.
    pub fn book(&self) -> &Book<A>
        ensures { result.now ≡ desk_book self.now }
    {
        &self.book
    }

    /// Returns the desk's book. Takes no memory.
    pub fn into_book(self) -> Book<A>
        ensures { result ≡ desk_book self }
    {
        let Desk {
            alloc: _,
            limit: _,
            book,
        } = self;
        book
    }
}

/// Reads the book of an input. An input whose first eight bytes are `APRSBOOK` is a book file, and
/// gives its book with its own gap. Every other is a log, and gives the book of its receptions with
/// the gap that is asked for; lines without a frame are passed over. Requires that `limit` is at
/// most `MAX_INPUT` (1,073,741,824). At most `limit` bytes are read, and one more where the input
/// has more, which is a fault. A faulty input gives its first fault. Where an allocation failed
/// before any fault, a log gives `Memory`, and a book file gives `Book` with the cause `Memory`
/// and the line that was being read. An input of which fewer than eight bytes are got is a log, and
/// so is one with an LF among the first eight.
/// Keeps in memory the book, one line and a log's receptions, packed in bytes.
pub fn read_input<R: Read, A: Allocator + Copy>(
    alloc: A,
    limit: u64,
    gap: Gap,
    r: &mut Counted<R>,
) -> Result<Book<A>, InputFault>
    requires { limit ≤ most_input }
    ensures reads { OfGot limit (R.remaining (device_of r.old))
        (R.remaining (device_of r.new)) (ReadsInput gap result) }
    // The reader is asked neither after its end nor after a fault.
    ensures calls { AsksInput result r.old r.new }
{
    match read_head(limit, r) {
        Ok(head) if head.as_slice() == BOOK_MARK => Ok(read_book(alloc, limit, BOOK_MARK, r)?),
        Ok(head) => {
            let mut store = BookStore::new(alloc, gap);
            read_log(alloc, limit, head.as_slice(), &mut store, r)?;
            let mut room = WalkRoom::new(alloc);
            let rows = store.rows(&mut room)?;
            Ok(Book::of_rows(alloc, rows)?)
        }
        Err(short) => {
            read_short(&short)?;
            Ok(Book::with_gap(alloc, gap))
        }
    }
}

/// The book of the receptions of both books: the second itself where the first has no rows. Fails
/// with `OtherGap` where their gaps differ. Fails with `Memory` where an allocation failed, or
/// where a row's names of receivers have 4 GiB or more, commas among them.
fn merge_books<A: Allocator + Copy>(book: &Book<A>, input: Book<A>) -> Result<Book<A>, MergeFault>
    ensures merges { IfOk result (λ both.
        MergesInto (millis_of book.now.gap) book.now.rows input.rows both.rows) }
    ensures gap { IfOk result (λ both. both.gap ≡ book.now.gap) }
    ensures one { OnOk result (HaveOneGap book.now input) }
    // The first book is that of some set of receptions.
    ensures known { OnOk result ((S : List Received)
        × BookOf (millis_of book.now.gap) S book.now.rows) }

    ensures refused { IfErr result (λ fault. RefusesGaps fault book.now.gap input.gap) }
{
    if book.gap() != input.gap() {
        return Err(MergeFault::OtherGap);
    }
    if book.len() == 0 {
        return Ok(input);
    }
    book.merge(&input)
}
