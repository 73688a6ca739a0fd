//! Rows in a store, with ample memory and with each growth refused.

use crate::refused_calls::ROWS;
use aprs_book::{Book, Gap, HeardRoom, Memory, RowCause, Summary};
use aprs_fixtures::{DIRECT, NOON, SENT, heard, hundred, is_shown, sent, squeeze};
use aprs_rows::{BookStore, PackedRows, RowView, WalkRoom};
use bumpalo::Bump;
use std::alloc::{Allocator, Global};
use std::test::Fail;

/// The book of a store's rows.
fn book_of<A: Allocator + Copy>(alloc: A, store: &BookStore<A>) -> Result<Book<A>, Memory> {
    let mut room = WalkRoom::new(alloc);
    let rows = store.rows(&mut room)?;
    Book::of_rows(alloc, rows)
}

/// The receptions of a hundred minutes by RX2 from this second on, the last first, and by RX1.
fn two_hundred<A: Allocator + Copy>(alloc: A, first: u64) -> Result<BookStore<A>, Fail> {
    let mut store = BookStore::new(alloc, Gap::STANDARD);
    for minute in 0..100u64 {
        let second = first.saturating_add(99u64.saturating_sub(minute) * 60);
        let x = heard(second, b"RX2", &DIRECT)?;
        store.push_reception(&x).ok().ok_or("memory")?;
    }
    for minute in 0..100u64 {
        let x = heard(minute * 60, b"RX1", &DIRECT)?;
        store.push_reception(&x).ok().ok_or("memory")?;
    }
    Ok(store)
}

/// The book of a hundred minutes by RX1, and by RX2 from this second on.
fn taken<A: Allocator + Copy>(alloc: A, first: u64) -> Result<Book<A>, Fail> {
    let book = hundred(alloc, 0, b"RX1")?;
    let other = hundred(alloc, first, b"RX2")?;
    Ok(book.merge(&other).ok().ok_or("memory")?)
}

#[test]
fn two_hundred_receptions_are_put_in_order(rt: HostRuntime) -> Result<(), Fail> {
    let alloc = rt.alloc();
    const CASES: &[(u64, usize)] = &[(0, 100), (30, 1), (6031, 200)];
    for &(first, rows) in CASES {
        let store = two_hundred(alloc, first)?;
        let book = book_of(alloc, &store).ok().ok_or("memory")?;
        assert!(rt; book.len() == rows);
        assert!(rt; book.same(&taken(alloc, first)?));
    }
    Ok(())
}

/// Stores what was sent, each again where memory was refused, and returns how often it was.
fn store_sent<'a>(bump: &'a Bump, store: &mut BookStore<&'a Bump>) -> Result<u64, Fail> {
    let mut refused = 0u64;
    for &(second, source, info) in SENT {
        let x = sent(second, source, info)?;
        if store.push_reception(&x).is_err() {
            refused = refused.saturating_add(1);
            bump.set_allocation_limit(None);
            store.push_reception(&x).ok().ok_or("memory")?;
        }
    }
    Ok(refused)
}

/// What was refused with so many units of room: whether a reception, and whether the book.
fn refusals(alloc: Global, units: usize) -> Result<(bool, bool), Fail> {
    let bump = Bump::try_with_capacity(alloc, 65_536)?;
    let _fill = squeeze(&bump, units)?;
    let mut store = BookStore::new(&bump, Gap::STANDARD);
    let refused = store_sent(&bump, &mut store)?;
    let Ok(book) = book_of(&bump, &store) else {
        return Ok((refused > 0, true));
    };
    if is_shown(alloc, &book, ROWS) {
        Ok((refused > 0, false))
    } else {
        Err("other rows".into())
    }
}

// Room for more and more units: first a reception is refused, and its store has all the same when
// it comes again; then the rows or the book, and at last nothing.
#[test]
fn refused_stores_are_as_before(rt: HostRuntime) -> Result<(), Fail> {
    let mut receptions = 0u64;
    let mut books = 0u64;
    let mut granted = 0u64;
    for units in 0..256usize {
        match refusals(rt.alloc(), units)? {
            (true, _) => receptions = receptions.saturating_add(1),
            (false, true) => books = books.saturating_add(1),
            (false, false) => granted = granted.saturating_add(1),
        }
    }
    assert!(rt; receptions > 0 && books > 0 && granted > 0);
    Ok(())
}

/// How many stations the summary tells of, up to a hundred.
fn station_count<A: Allocator + Copy>(summary: &Summary<'_, A>) -> usize {
    let mut stations = summary.stations();
    let mut room = HeardRoom::new();
    for count in 0..100usize {
        if stations.next(&mut room).is_none() {
            return count;
        }
    }
    100
}

/// How many objects and items the summary tells of, up to a hundred.
fn named_count<A: Allocator + Copy>(summary: &Summary<'_, A>) -> usize {
    let mut named = summary.objects();
    let mut room = HeardRoom::new();
    for count in 0..100usize {
        if named.next(&mut room).is_none() {
            return count;
        }
    }
    100
}

/// How many messages the summary tells of, up to a hundred.
fn message_count<A: Allocator + Copy>(summary: &Summary<'_, A>) -> usize {
    let mut messages = summary.messages();
    for count in 0..100usize {
        if messages.next().is_none() {
            return count;
        }
    }
    100
}

/// How many stations, objects and items, and messages the rows of a store tell of.
fn counts<A: Allocator + Copy>(
    alloc: A,
    store: &BookStore<A>,
) -> Result<(usize, usize, usize), Memory> {
    let mut room = WalkRoom::new(alloc);
    let summary = Summary::of(alloc, store, &mut room)?;
    Ok((
        station_count(&summary),
        named_count(&summary),
        message_count(&summary),
    ))
}

/// Whether what is listed of what was sent is refused with so many units of room.
fn is_list_refused(alloc: Global, units: usize) -> Result<bool, Fail> {
    let bump = Bump::try_with_capacity(alloc, 65_536)?;
    let mut store = BookStore::new(&bump, Gap::STANDARD);
    store_sent(&bump, &mut store)?;
    let _fill = squeeze(&bump, units)?;
    let is_refused = counts(&bump, &store).is_err();
    bump.set_allocation_limit(None);
    if counts(&bump, &store).ok() == Some((3, 2, 1)) {
        Ok(is_refused)
    } else {
        Err("another list".into())
    }
}

// Room for more and more units: at first something is refused, and at last nothing.
#[test]
fn refused_lists_are_made_again(rt: HostRuntime) -> Result<(), Fail> {
    let mut refused = 0u64;
    let mut granted = 0u64;
    for units in 0..256usize {
        if is_list_refused(rt.alloc(), units)? {
            refused = refused.saturating_add(1);
        } else {
            granted = granted.saturating_add(1);
        }
    }
    assert!(rt; refused > 0 && granted > 0);
    Ok(())
}

/// A row of what a row shows.
fn made_again<'a>(row: &RowView<'a>) -> RowView<'a> {
    RowView::new(row.first(), row.receivers(), row.greatest())
}

// What a row shows is all that it takes to make one: it can't follow the first, nor come before it.
#[test]
fn rows_are_made_of_what_rows_show(rt: HostRuntime) -> Result<(), Fail> {
    let mut rows = PackedRows::new(rt.alloc());
    let x = heard(0, b"RX1", &DIRECT)?;
    rows.push_reception(&x).ok().ok_or("memory")?;
    let row = rows.last().ok_or("a row")?;
    let again = made_again(&row);
    assert!(rt; again.refusal_after(Some(&row), Gap::STANDARD) == Some(RowCause::Order));
    assert!(rt; row.refusal_after(Some(&again), Gap::STANDARD) == Some(RowCause::Order));
    assert!(rt;
        again.receivers() == row.receivers() && again.frame().bytes() == row.frame().bytes()
    );
    Ok(())
}

/// How many receptions a store sorts at a time.
const CHUNK: u64 = 8192;

/// Puts what a receiver heard at each of so many minutes into a store, the last first.
fn push_minutes<A: Allocator + Copy>(
    store: &mut BookStore<A>,
    name: &[u8],
    count: u64,
) -> Result<(), Fail> {
    for before in 0..count {
        let minute = count.saturating_sub(before);
        let x = heard(minute.saturating_mul(60), name, &DIRECT)?;
        store.push_reception(&x).ok().ok_or("memory")?;
    }
    Ok(())
}

/// Whether the rows of a store are those of so many minutes, each heard by these.
fn are_minutes<A: Allocator + Copy>(
    alloc: A,
    store: &BookStore<A>,
    names: &[u8],
    count: u64,
) -> Result<bool, Fail> {
    let mut room = WalkRoom::new(alloc);
    let rows = store.rows(&mut room).ok().ok_or("memory")?;
    let mut minute = 0u64;
    for row in rows {
        minute = minute.saturating_add(1);
        if row.first() != row.last()
            || row.first().seconds() != NOON.saturating_add(minute.saturating_mul(60))
            || row.receivers() != names
        {
            return Ok(false);
        }
    }
    Ok(minute == count)
}

#[test]
fn chunks_are_put_in_order(rt: HostRuntime) -> Result<(), Fail> {
    let alloc = rt.alloc();
    for count in [CHUNK - 1, CHUNK, CHUNK + 1, 2 * CHUNK, 2 * CHUNK + 1] {
        let mut store = BookStore::new(alloc, Gap::STANDARD);
        push_minutes(&mut store, b"RX1", count)?;
        assert!(rt;
            are_minutes(alloc, &store, b"RX1", count)?,
            "{count} minutes"
        );
        if count == CHUNK + 1 {
            // The rows stay, and come again.
            assert!(rt; are_minutes(alloc, &store, b"RX1", count)?);
        }
    }
    Ok(())
}

// Each chunk is of one receiver; the first receiver comes once more. Each name stands once.
#[test]
fn names_are_united_over_chunks(rt: HostRuntime) -> Result<(), Fail> {
    let alloc = rt.alloc();
    let mut store = BookStore::new(alloc, Gap::STANDARD);
    for name in [b"RX2".as_slice(), b"RX1".as_slice(), b"RX2".as_slice()] {
        push_minutes(&mut store, name, CHUNK)?;
    }
    assert!(rt; are_minutes(alloc, &store, b"RX1,RX2", CHUNK)?);
    Ok(())
}
