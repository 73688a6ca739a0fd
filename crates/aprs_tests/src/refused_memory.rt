//! Memory that is refused in the midst of a call.

use aprs_book::{Book, Gap, RowCause, RowParts, RowsFault, from_rows};
use aprs_booktext::{BookCause, BookFault, read_book, read_rows};
use aprs_fixtures::{DIRECT, MERGED_TEXT, NOON, heard, is_shown, is_written_as, parts, shown};
use aprs_kiss::Counted;
use aprs_log::{MAX_INPUT, Reception};
use aprs_rows::PackedRows;
use linked_list_allocator::LocalHeap;
use std::alloc::{Allocator, Global};
use std::test::Fail;

/// Takes a reception, and returns whether an allocation failed. Then the rows have to be as before.
fn is_untaken<A: Allocator + Copy>(
    alloc: Global,
    book: &mut Book<A>,
    x: &Reception,
) -> Result<bool, Fail> {
    let before = shown(alloc, book).ok_or("memory")?;
    if book.take(x).is_ok() {
        return Ok(false);
    }
    if is_shown(alloc, book, before.as_str()) {
        return Ok(true);
    }
    Err("other rows".into())
}

/// Takes all of the heap but for so much room, until it is given back.
fn filled(heap: &LocalHeap, room: usize) -> Result<Vec<u8, &LocalHeap>, Fail> {
    let mut fill = Vec::new(heap);
    fill.reserve(65_280usize.saturating_sub(room))?;
    Ok(fill)
}

/// Takes a reception, once more with room where an allocation failed, and returns whether one did.
fn is_taken_again<'a>(
    alloc: Global,
    heap: &'a LocalHeap,
    fill: &mut Vec<u8, &'a LocalHeap>,
    book: &mut Book<&'a LocalHeap>,
    x: &Reception,
) -> Result<bool, Fail> {
    if !is_untaken(alloc, book, x)? {
        return Ok(false);
    }
    *fill = Vec::new(heap);
    book.take(x).ok().ok_or("memory")?;
    Ok(true)
}

/// Receptions, and the rows after each.
const STEPS: &[(u64, &[u8], &str)] = &[
    (0, b"RX1", "0-0 RX1 / RX1 6f; "),
    (61, b"RX1", "0-0 RX1 / RX1 6f; 61-61 RX1 / RX1 6f; "),
    (31, b"RX2", "0-0 RX1 / RX1 6f; 31-61 RX1 RX2 / RX1 6f; "),
    (30, b"RX1", "0-61 RX1 RX2 / RX1 6f; "),
    (40, b"RX1", "0-61 RX1 RX2 / RX1 6f; "),
];

/// How many steps are refused at first with so much room.
fn refused_steps(alloc: Global, room: usize) -> Result<u64, Fail> {
    let heap = LocalHeap::new(alloc, 65_536)?;
    let mut fill = filled(&heap, room)?;
    let mut book = Book::new(&heap);
    let mut refused = 0u64;
    for &(second, name, rows) in STEPS {
        let x = heard(second, name, &DIRECT)?;
        if is_taken_again(alloc, &heap, &mut fill, &mut book, &x)? {
            refused = refused.saturating_add(1);
        }
        if !is_shown(alloc, &book, rows) {
            return Err("other rows".into());
        }
    }
    Ok(refused)
}

// The heap is full but for some units, until it refuses a step: then the rows are as before, and
// with room again the step gives the same book.
#[test]
fn refused_growths_change_nothing(rt: HostRuntime) -> Result<(), Fail> {
    let mut refused = 0u64;
    for units in 0..192usize {
        refused = refused.saturating_add(refused_steps(rt.alloc(), units * 64)?);
    }
    assert!(rt; refused > 4);
    Ok(())
}

/// Three rows of one key, whose receivers stand in a heap.
fn three_rows<A: Allocator + Copy>(list: Global, alloc: A) -> Result<Vec<RowParts<A>>, Fail> {
    let mut rows = Vec::new(list);
    rows.push(parts(alloc, NOON, NOON, &[b"RX1", b"RX2"], b"RX2")?)?;
    rows.push(parts(alloc, NOON + 60, NOON + 70, &[b"RX1", b"RX2"], b"RX1")?)?;
    rows.push(parts(alloc, NOON + 200, NOON + 200, &[b"RX1"], b"RX1")?)?;
    Ok(rows)
}

/// Pushes a row, and returns whether an allocation failed. Then the rows have to be as before.
fn is_refused<A: Allocator + Copy>(
    alloc: Global,
    book: &mut Book<A>,
    row: &RowParts<A>,
) -> Result<bool, Fail> {
    let before = shown(alloc, book).ok_or("memory")?;
    match book.push_row(row) {
        Ok(()) => Ok(false),
        Err(RowCause::Memory) if is_shown(alloc, book, before.as_str()) => Ok(true),
        Err(_) => Err("another answer".into()),
    }
}

/// Pushes a row, once more with room where an allocation failed, and returns whether one did.
fn is_pushed_again<'a>(
    alloc: Global,
    heap: &'a LocalHeap,
    fill: &mut Vec<u8, &'a LocalHeap>,
    book: &mut Book<&'a LocalHeap>,
    row: &RowParts<&'a LocalHeap>,
) -> Result<bool, Fail> {
    if !is_refused(alloc, book, row)? {
        return Ok(false);
    }
    *fill = Vec::new(heap);
    book.push_row(row).ok().ok_or("a cause")?;
    Ok(true)
}

/// Which of three rows are refused at first with so much room.
fn refused_of<'a>(
    alloc: Global,
    heap: &'a LocalHeap,
    rows: &[RowParts<&'a LocalHeap>],
    room: usize,
) -> Result<[bool; 3], Fail> {
    let mut fill = filled(heap, room)?;
    let mut book = Book::new(heap);
    let mut refused = [false; 3];
    for (i, row) in rows.iter().enumerate().take(3) {
        refused[i] = is_pushed_again(alloc, heap, &mut fill, &mut book, row)?;
    }
    if is_shown(alloc, &book, THREE_ROWS) {
        Ok(refused)
    } else {
        Err("other rows".into())
    }
}

/// The same in a heap of their own.
fn refused_rows(alloc: Global, room: usize) -> Result<[bool; 3], Fail> {
    let heap = LocalHeap::new(alloc, 65_536)?;
    let rows = three_rows(alloc, &heap)?;
    refused_of(alloc, &heap, rows.as_slice(), room)
}

const THREE_ROWS: &str = "0-0 RX1 RX2 / RX2 6f; 60-70 RX1 RX2 / RX1 6f; 200-200 RX1 / RX1 6f; ";

// A heap that is full but for some units refuses the rows' growth, or that of the new row's
// receivers: then the rows are as before, and with room again the row is added. The first row needs
// both growths, the later ones that of their receivers alone.
#[test]
fn refused_rows_change_nothing(rt: HostRuntime) -> Result<(), Fail> {
    let (mut first, mut second) = (false, false);
    for units in 0..700usize {
        let refused = refused_rows(rt.alloc(), 512 + units * 16)?;
        first |= refused[0];
        second |= refused[1];
    }
    assert!(rt; first && second);
    Ok(())
}

/// The place of the row for which memory was refused, if it was.
fn place_of<A: Allocator + Copy>(made: Result<Book<A>, RowsFault>) -> Result<Option<usize>, Fail> {
    match made {
        Ok(book) if book.len() == 3 => Ok(None),
        Err(RowsFault { place, cause }) if cause == RowCause::Memory => Ok(Some(place)),
        _ => Err("another answer".into()),
    }
}

/// The place of the row, of three that are made a book with so much room, for which memory was
/// refused, if it was.
fn refused_place(alloc: Global, room: usize) -> Result<Option<usize>, Fail> {
    let heap = LocalHeap::new(alloc, 65_536)?;
    let rows = three_rows(alloc, &heap)?;
    place_with(&heap, rows.as_slice(), room)
}

/// The same of these rows, which stand in this heap.
fn place_with<'a>(
    heap: &'a LocalHeap,
    rows: &[RowParts<&'a LocalHeap>],
    room: usize,
) -> Result<Option<usize>, Fail> {
    let _fill = filled(heap, room)?;
    place_of(from_rows(heap, Gap::STANDARD, rows))
}

#[test]
fn memory_is_refused_at_a_row(rt: HostRuntime) -> Result<(), Fail> {
    let (mut first, mut second, mut granted) = (false, false, false);
    for units in 0..700usize {
        match refused_place(rt.alloc(), 512 + units * 16)? {
            Some(0) => first = true,
            Some(place) => {
                second |= place == 1;
                assert!(rt; place < 3);
            }
            None => granted = true,
        }
    }
    assert!(rt; first && second && granted);
    Ok(())
}

/// The line of a book file in which memory is refused with so much room, if one is, where just its
/// rows are to be read. Then the rows have to be those of the lines before it.
fn refused_line(alloc: Global, room: usize) -> Result<Option<u64>, Fail> {
    let heap = LocalHeap::new(alloc, 65_536)?;
    let _fill = filled(&heap, room)?;
    let mut rows = PackedRows::new(&heap);
    let mut file = Counted::new(MERGED_TEXT);
    match read_rows(&heap, MAX_INPUT, b"", &mut file, &mut rows) {
        Ok(_) => Ok(None),
        Err(BookFault { line, .. }) if rows.len() as u64 == line.saturating_sub(2) => {
            Ok(Some(line))
        }
        Err(_) => Err("other rows".into()),
    }
}

/// Whether memory is refused with so much room in a line of a book file, the one in which it is
/// refused for its rows, or the last. Else its book is written as it was.
fn is_line_refused(alloc: Global, room: usize) -> Result<bool, Fail> {
    let wanted = refused_line(alloc, room)?.unwrap_or(4);
    let heap = LocalHeap::new(alloc, 65_536)?;
    let _fill = filled(&heap, room)?;
    match read_book(&heap, MAX_INPUT, b"", &mut Counted::new(MERGED_TEXT)) {
        Ok(book) if is_written_as(alloc, &book, MERGED_TEXT) => Ok(false),
        Err(BookFault { line, cause }) if cause == BookCause::Memory => {
            if line == wanted {
                Ok(true)
            } else {
                Err("another line".into())
            }
        }
        _ => Err("another answer".into()),
    }
}

#[test]
fn memory_is_refused_at_a_line(rt: HostRuntime) -> Result<(), Fail> {
    let (mut refused, mut granted) = (false, false);
    // what is read at once of a file takes 16,384 bytes
    for units in 120..248usize {
        if is_line_refused(rt.alloc(), units * 128)? {
            refused = true;
        } else {
            granted = true;
        }
    }
    assert!(rt; refused && granted);
    Ok(())
}
