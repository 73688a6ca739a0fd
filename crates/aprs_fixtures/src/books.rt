//! Books and stores that tests share, and the parts of a row.

use crate::receptions::{heard, receiver, sent};
use crate::vectors::DIRECT;
use aprs_ax25::Frame;
use aprs_book::{Book, Gap, RowParts, all_fit, join_all};
use aprs_log::{Moment, Receiver};
use aprs_rows::BookStore;
use std::alloc::Allocator;
use std::test::Fail;

/// The receivers of these names.
fn receivers_of<A: Allocator + Copy>(alloc: A, names: &[&[u8]]) -> Result<Vec<Receiver, A>, Fail> {
    let mut list = Vec::new(alloc);
    for name in names {
        list.push(receiver(name)?)?;
    }
    Ok(list)
}

/// What makes a row of the direct frame: its first and last second, its receivers, and who heard
/// the greatest reception.
pub fn parts<A: Allocator + Copy>(
    alloc: A,
    first: u64,
    last: u64,
    names: &[&[u8]],
    name: &[u8],
) -> Result<RowParts<A>, Fail> {
    let first = Moment::new(first).ok_or("moment")?;
    let last = Moment::new(last).ok_or("moment")?;
    let receiver = receiver(name)?;
    let frame = Frame::read(&DIRECT).ok().ok_or("frame")?;
    let receivers = receivers_of(alloc, names)?;
    Ok(RowParts {
        first,
        last,
        receivers,
        receiver,
        frame,
    })
}

/// What each station sent, and when.
pub const SENT: &[(u64, &[u8], &[u8])] = &[
    (0, b"N0CALL-7", b"!4903.50N/07201.75W-"),
    (10, b"N0CALL-7", b":WU2Z     :Testing{003"),
    (20, b"WU2Z", b":N0CALL-7 :ack003"),
    (30, b"N0CALL-8", b";LEADER   *092345z4903.50N/07201.75W>"),
    (40, b"N0CALL-8", b")LEADER!4903.50N/07201.75W>"),
];

/// A book of what was sent, under this gap, so many seconds later.
pub fn book_of_sent<A: Allocator + Copy>(alloc: A, gap: Gap, later: u64) -> Result<Book<A>, Fail> {
    let mut book = Book::with_gap(alloc, gap);
    for &(second, source, info) in SENT {
        let x = sent(later.saturating_add(second), source, info)?;
        book.take(&x).ok().ok_or("memory")?;
    }
    Ok(book)
}

/// A store of what was sent, under the standard gap.
pub fn store_of_sent<A: Allocator + Copy>(alloc: A) -> Result<BookStore<A>, Fail> {
    let mut store = BookStore::new(alloc, Gap::STANDARD);
    for &(second, source, info) in SENT {
        let x = sent(second, source, info)?;
        store.push_reception(&x).ok().ok_or("memory")?;
    }
    Ok(store)
}

/// A hundred receptions of one frame, a minute apart, from a second of the hour on.
pub fn hundred<A: Allocator + Copy>(alloc: A, first: u64, name: &[u8]) -> Result<Book<A>, Fail> {
    let mut book = Book::new(alloc);
    for minute in 0..100u64 {
        let x = heard(first.saturating_add(minute * 60), name, &DIRECT)?;
        book.take(&x).ok().ok_or("memory")?;
    }
    Ok(book)
}

/// The books joined to the first, where they all have its gap.
pub fn joined_all<A: Allocator + Copy>(first: &Book<A>, books: &[Book<A>]) -> Option<Book<A>> {
    if !all_fit(first, books) {
        return None;
    }
    Some(join_all(first, books).ok()?)
}
