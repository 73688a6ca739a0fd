//! Calls that take no memory ask for none. A full arena grows at a request and stays as large, so
//! that a request shows even where what it got is given back at once.

use aprs_book::{Book, Gap, Join, MergeFault, Receivers, RowCause, WidenFault, all_fit};
use aprs_fixtures::{
    DIRECT, NOON, SENT, book_of_sent, callsign, heard, receiver, squeeze, store_of_sent,
};
use aprs_rows::{BookRows, BookStore, PackedRows, WalkRoom};
use bumpalo::Bump;
use std::alloc::{Allocator, Global};
use std::test::Fail;

/// Fills the arena, so that it grows at the next request.
fn fill(bump: &Bump) -> Result<Vec<u8, &Bump>, Fail> {
    let filling = squeeze(bump, 0)?;
    bump.set_allocation_limit(None);
    Ok(filling)
}

#[test]
fn a_request_shows(rt: HostRuntime) -> Result<(), Fail> {
    let bump = Bump::try_with_capacity(rt.alloc(), 4096)?;
    let _filling = fill(&bump)?;
    let size = bump.allocated_bytes();
    let mut spare: Vec<u8, &Bump> = Vec::new(&bump);
    spare.reserve(1)?;
    drop(spare);
    assert!(rt; bump.allocated_bytes() > size);
    Ok(())
}

/// A call that takes no memory.
#[derive(Clone, Copy)]
enum Call {
    New,
    NewStore,
    NewRows,
    NewReceivers,
    Gap,
    Rows,
    Same,
    Fits,
    AllFit,
    OtherGap,
    Narrower,
    Position,
    Status,
    Object,
    Item,
    LastHeard,
}

const CALLS: &[Call] = &[
    Call::New,
    Call::NewStore,
    Call::NewRows,
    Call::NewReceivers,
    Call::Gap,
    Call::Rows,
    Call::Same,
    Call::Fits,
    Call::AllFit,
    Call::OtherGap,
    Call::Narrower,
    Call::Position,
    Call::Status,
    Call::Object,
    Call::Item,
    Call::LastHeard,
];

/// Whether what is new is empty.
fn is_empty<A: Allocator + Copy>(alloc: A, call: Call) -> bool {
    match call {
        Call::NewStore => BookStore::new(alloc, Gap::STANDARD).gap() == Gap::STANDARD,
        Call::NewRows => PackedRows::new(alloc).is_empty(),
        Call::NewReceivers => Receivers::new(alloc).as_slice().is_empty(),
        _ => Book::new(alloc).len() == 0,
    }
}

/// Whether the call refuses a book of another gap, or a gap that is less.
fn is_refused<A: Allocator + Copy>(call: Call, book: &Book<A>, wide: &Book<A>) -> bool {
    match call {
        Call::OtherGap => match book.merge(wide) {
            Err(MergeFault::OtherGap) => true,
            _ => false,
        },
        _ => match wide.widen(Gap::STANDARD) {
            Err(WidenFault::Narrower) => true,
            _ => false,
        },
    }
}

/// Whether the call answers as it has to: a position, an object, an item and a last frame are
/// known, and no status.
fn is_known<A: Allocator + Copy>(call: Call, book: &Book<A>) -> Result<bool, Fail> {
    let sender = callsign(b"N0CALL-7")?;
    Ok(match call {
        Call::Position => book.position(&sender).is_some(),
        Call::Status => book.status(&sender).is_none(),
        Call::Object => book.object(b"LEADER").is_some(),
        Call::LastHeard => book.last_heard(&sender).is_some(),
        _ => book.item(b"LEADER   ").is_some(),
    })
}

/// How many rows are shown that one receiver heard.
fn shown_rows<A: Allocator + Copy>(book: &Book<A>) -> usize {
    let mut shown = 0usize;
    for row in book.rows() {
        if row.receivers.len() == 1 {
            shown = shown.saturating_add(1);
        }
    }
    shown
}

/// Whether the book has the gap and the rows of what was sent, and differs from one with a wider
/// gap.
fn is_seen<A: Allocator + Copy>(call: Call, book: &Book<A>, wide: &Book<A>) -> bool {
    match call {
        Call::Gap => book.gap() == Gap::STANDARD && book.len() == SENT.len(),
        Call::Rows => shown_rows(book) == SENT.len(),
        Call::Same => book.same(book) && !book.same(wide),
        _ => book.fits(book) && !book.fits(wide),
    }
}

/// Whether the call answers as it has to, of books with and without a wider gap.
fn is_answered<A: Allocator + Copy>(alloc: A, call: Call, books: &[Book<A>]) -> Result<bool, Fail> {
    let [book, wide] = books else {
        return Err("two books".into());
    };
    match call {
        Call::New | Call::NewStore | Call::NewRows | Call::NewReceivers => Ok(is_empty(
            alloc, call,
        )),
        Call::Gap | Call::Rows | Call::Same | Call::Fits => Ok(is_seen(call, book, wide)),
        Call::AllFit => Ok(!all_fit(book, books)),
        Call::OtherGap | Call::Narrower => Ok(is_refused(call, book, wide)),
        _ => is_known(call, book),
    }
}

/// Two books of what was sent, the second with a wider gap.
fn two_books<A: Allocator + Copy>(alloc: A, list: Global) -> Result<Vec<Book<A>>, Fail> {
    let mut books = Vec::new(list);
    books.push(book_of_sent(alloc, Gap::STANDARD, 0)?)?;
    books.push(book_of_sent(alloc, Gap::new(31).ok_or("a gap")?, 0)?)?;
    Ok(books)
}

/// Whether the call answers as it has to, and asks for no memory.
fn asks_for_none(alloc: Global, call: Call) -> Result<bool, Fail> {
    let bump = Bump::try_with_capacity(alloc, 65_536)?;
    let books = two_books(&bump, alloc)?;
    let _filling = fill(&bump)?;
    let size = bump.allocated_bytes();
    Ok(is_answered(&bump, call, books.as_slice())? && bump.allocated_bytes() == size)
}

#[test]
fn calls_of_books_ask_for_none(rt: HostRuntime) -> Result<(), Fail> {
    for (i, call) in CALLS.iter().enumerate() {
        assert!(rt; asks_for_none(rt.alloc(), *call)?, "call {i}");
    }
    Ok(())
}

/// What was heard before, and what fits into a row that lists its receiver.
const BEFORE: &[(u64, &[u8])] = &[(100, b"RX1"), (130, b"RX2"), (200, b"RX1")];

const IN_PLACE: &[(u64, &[u8])] = &[
    (100, b"RX1"),
    (110, b"RX2"),
    (70, b"RX2"),
    (130, b"RX1"),
    (160, b"RX1"),
    (169, b"RX2"),
    (230, b"RX1"),
    (200, b"RX1"),
];

/// Takes what a receiver hears at each second of the hour.
fn take_all<A: Allocator + Copy>(
    book: &mut Book<A>,
    heard_at: &[(u64, &[u8])],
) -> Result<(), Fail> {
    for &(second, name) in heard_at {
        let x = heard(second, name, &DIRECT)?;
        book.take(&x).ok().ok_or("memory")?;
    }
    Ok(())
}

// The first and the last row grow at both ends, up to the gap and no further.
#[test]
fn receptions_in_place_ask_for_none(rt: HostRuntime) -> Result<(), Fail> {
    let bump = Bump::try_with_capacity(rt.alloc(), 65_536)?;
    let mut book = Book::new(&bump);
    take_all(&mut book, BEFORE)?;
    let _filling = fill(&bump)?;
    let size = bump.allocated_bytes();
    take_all(&mut book, IN_PLACE)?;
    assert!(rt; book.len() == 2 && bump.allocated_bytes() == size);
    Ok(())
}

const NAMES: &[&[u8]] = &[b"RX2", b"RX1", b"RX3"];

/// Adds these names.
fn add_all<A: Allocator + Copy>(names: &mut Receivers<A>, added: &[&[u8]]) -> Result<(), Fail> {
    for name in added {
        names.add(&receiver(name)?).ok().ok_or("memory")?;
    }
    Ok(())
}

#[test]
fn listed_names_ask_for_none(rt: HostRuntime) -> Result<(), Fail> {
    let bump = Bump::try_with_capacity(rt.alloc(), 4096)?;
    let mut names = Receivers::new(&bump);
    add_all(&mut names, NAMES)?;
    let _filling = fill(&bump)?;
    let size = bump.allocated_bytes();
    add_all(&mut names, NAMES)?;
    assert!(rt; names.as_slice().len() == 3 && bump.allocated_bytes() == size);
    Ok(())
}

/// How many of these rows RX1 alone heard, at one moment.
fn shown_transmissions<A: Allocator + Copy>(rows: BookRows<'_, A>) -> usize {
    let mut shown = 0usize;
    for row in rows {
        if row.first() == row.last()
            && row.receivers() == b"RX1".as_slice()
            && row.receiver() == b"RX1".as_slice()
            && row.frame().bytes().ends_with(row.frame().info())
            && row.greatest().moment() == row.last()
        {
            shown = shown.saturating_add(1);
        }
    }
    shown
}

/// Whether calls of rows answer as they have to, and ask for no memory.
fn rows_ask_for_none<'a>(bump: &'a Bump, rows: BookRows<'_, &'a Bump>) -> Result<bool, Fail> {
    let _filling = fill(bump)?;
    let size = bump.allocated_bytes();
    let is_right = rows.gap() == Gap::STANDARD
        && rows.most_rows() >= SENT.len()
        && shown_transmissions(rows) == SENT.len();
    Ok(is_right && bump.allocated_bytes() == size)
}

#[test]
fn calls_of_a_stores_rows_ask_for_none(rt: HostRuntime) -> Result<(), Fail> {
    let bump = Bump::try_with_capacity(rt.alloc(), 65_536)?;
    let store = store_of_sent(&bump)?;
    let mut room = WalkRoom::new(&bump);
    let rows = store.rows(&mut room).ok().ok_or("memory")?;
    assert!(rt; rows_ask_for_none(&bump, rows)?);
    Ok(())
}

#[test]
fn rows_of_nothing_ask_for_none(rt: HostRuntime) -> Result<(), Fail> {
    let bump = Bump::try_with_capacity(rt.alloc(), 4096)?;
    let mut store = BookStore::new(&bump, Gap::STANDARD);
    store.add(PackedRows::new(&bump)).ok().ok_or("memory")?;
    let _filling = fill(&bump)?;
    let size = bump.allocated_bytes();
    let mut room = WalkRoom::new(&bump);
    let mut rows = store.rows(&mut room).ok().ok_or("memory")?;
    assert!(rt; rows.next().is_none() && bump.allocated_bytes() == size);
    Ok(())
}

/// Rows of what was heard at each of ten minutes.
fn ten_minutes<A: Allocator + Copy>(alloc: A) -> Result<PackedRows<A>, Fail> {
    let mut rows = PackedRows::new(alloc);
    for minute in 0..10u64 {
        let x = heard(minute * 60, b"RX1", &DIRECT)?;
        rows.push_reception(&x).ok().ok_or("memory")?;
    }
    Ok(rows)
}

/// Whether these are the rows of ten minutes.
fn are_ten_minutes<A: Allocator + Copy>(rows: &PackedRows<A>) -> bool {
    match rows.last() {
        Some(last) => {
            !rows.is_empty()
                && rows.len() == 10
                && last.first().seconds() == NOON + 9 * 60
                && last.refusal_after(Some(&last), Gap::STANDARD) == Some(RowCause::Order)
        }
        None => false,
    }
}

#[test]
fn calls_of_packed_rows_ask_for_none(rt: HostRuntime) -> Result<(), Fail> {
    let bump = Bump::try_with_capacity(rt.alloc(), 65_536)?;
    let rows = ten_minutes(&bump)?;
    let _filling = fill(&bump)?;
    let size = bump.allocated_bytes();
    assert!(rt; are_ten_minutes(&rows) && bump.allocated_bytes() == size);
    Ok(())
}
