//! Rows that are pushed after the last, and rows that are refused.

use aprs_book::{Book, Gap, RowCause, RowParts, RowsFault, from_rows};
use aprs_fixtures::{DIRECT, NOON, heard, is_shown, parts};
use std::alloc::{Allocator, Global};
use std::test::Fail;

/// Pushes a row from this second to noon, by these receivers, whose greatest reception RX1 heard.
fn pushed(
    alloc: Global,
    book: &mut Book,
    first: u64,
    names: &[&[u8]],
) -> Result<Result<(), RowCause>, Fail> {
    let row = parts(alloc, first, NOON, names, b"RX1")?;
    Ok(book.push_row(&row))
}

// At one moment the greatest reception is by the last receiver.
#[test]
fn rows_without_their_greatest_are_refused(rt: HostRuntime) -> Result<(), Fail> {
    let alloc = rt.alloc();
    let mut book = Book::new(alloc);
    const CASES: &[(u64, &[&[u8]], Result<(), RowCause>)] = &[
        (NOON, &[b"RX1", b"RX2"], Err(RowCause::NotGreatest)),
        (NOON, &[b"RX2", b"RX1"], Err(RowCause::Receivers)),
        (NOON, &[], Err(RowCause::Receivers)),
        (NOON - 1, &[b"RX1", b"RX2"], Ok(())),
    ];
    for &(first, names, want) in CASES {
        assert!(rt; book.len() == 0);
        assert!(rt; pushed(alloc, &mut book, first, names)? == want);
    }
    assert!(rt; is_shown(alloc, &book, "3599-0 RX1 RX2 / RX1 6f; "));
    Ok(())
}

/// A book of two rows of one key, as close to one another as rows can be.
fn two_rows<A: Allocator + Copy>(alloc: A) -> Result<Book<A>, Fail> {
    let mut book = Book::new(alloc);
    const SECONDS: &[u64] = &[0, 31];
    for &second in SECONDS {
        let row = parts(alloc, NOON + second, NOON + second, &[b"RX1"], b"RX1")?;
        book.push_row(&row).ok().ok_or("a row")?;
    }
    Ok(book)
}

/// The book that takes what they stand for, the later first.
fn two_taken<A: Allocator + Copy>(alloc: A) -> Result<Book<A>, Fail> {
    let mut book = Book::new(alloc);
    const SECONDS: &[u64] = &[31, 0];
    for &second in SECONDS {
        let x = heard(second, b"RX1", &DIRECT)?;
        book.take(&x).ok().ok_or("memory")?;
    }
    Ok(book)
}

#[test]
fn rows_are_pushed_after_the_last(rt: HostRuntime) -> Result<(), Fail> {
    let alloc = rt.alloc();
    let book = two_rows(alloc)?;
    assert!(rt; is_shown(alloc, &book, "0-0 RX1 / RX1 6f; 31-31 RX1 / RX1 6f; "));
    assert!(rt; book.same(&two_taken(alloc)?));
    Ok(())
}

#[test]
fn rows_out_of_place_are_refused(rt: HostRuntime) -> Result<(), Fail> {
    let alloc = rt.alloc();
    let mut book = two_rows(alloc)?;
    const ONE: &[&[u8]] = &[b"RX1"];
    const WRONG: &[&[u8]] = &[b"RX2", b"RX1"];
    const CASES: &[(u64, u64, &[&[u8]], RowCause)] = &[
        (33, 32, ONE, RowCause::Span),
        (61, 61, ONE, RowCause::Near),
        (61, 61, WRONG, RowCause::Near),
        (62, 62, WRONG, RowCause::Receivers),
        (31, 31, ONE, RowCause::Order),
        (0, 0, ONE, RowCause::Order),
    ];
    for &(first, last, names, cause) in CASES {
        let row = parts(alloc, NOON + first, NOON + last, names, b"RX1")?;
        assert!(rt; book.push_row(&row) == Err(cause));
    }
    assert!(rt; book.len() == 2);
    Ok(())
}

/// Rows of the direct frame, all by RX1, from these to these seconds.
fn rows_of<A: Allocator + Copy>(
    alloc: A,
    spans: &[(u64, u64)],
) -> Result<Vec<RowParts<A>, A>, Fail> {
    let mut rows = Vec::new(alloc);
    for (first, last) in spans {
        let (first, last) = (NOON.saturating_add(*first), NOON.saturating_add(*last));
        rows.push(parts(alloc, first, last, &[b"RX1"], b"RX1")?)?;
    }
    Ok(rows)
}

// The first row that is refused is named by its place, from 0.
#[test]
fn books_are_made_of_rows(rt: HostRuntime) -> Result<(), Fail> {
    let alloc = rt.alloc();
    const CASES: &[(&[(u64, u64)], usize, Option<(usize, RowCause)>)] = &[
        (&[], 0, None),
        (&[(0, 0), (31, 40), (71, 71)], 3, None),
        (&[(0, 1), (31, 40)], 0, Some((1, RowCause::Near))),
        (&[(40, 31)], 0, Some((0, RowCause::Span))),
        (
            &[(0, 0), (31, 31), (0, 0), (9, 8)],
            0,
            Some((2, RowCause::Order)),
        ),
    ];
    for &(spans, rows, fault) in CASES {
        let parts = rows_of(alloc, spans)?;
        match from_rows(alloc, Gap::STANDARD, parts.as_slice()) {
            Ok(book) => assert!(rt; fault.is_none() && book.len() == rows),
            Err(RowsFault { place, cause }) => assert!(rt; fault == Some((place, cause))),
        }
    }
    Ok(())
}

#[test]
fn causes_of_rows_have_names(rt: HostRuntime) {
    assert!(rt; RowCause::NotGreatest.number() == 5);
    assert!(rt; RowCause::NotGreatest.name() == "NotGreatest");
}
