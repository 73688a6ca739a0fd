//! With ample memory no call fails: books of a hundred rows, and nine inputs.

use aprs_book::{Book, Gap, Join};
use aprs_booktext::read_book;
use aprs_fixtures::{DIRECT, NOON, heard, hundred, joined_all, parts, text_of};
use aprs_kiss::Counted;
use aprs_log::{MAX_INPUT, write_line};
use aprs_tool::{merge_run, read_input, show_run};
use linked_list_allocator::LocalHeap;
use std::alloc::{Allocator, Global};
use std::test::Fail;

/// The same receptions as a log.
fn hundred_lines<A: Allocator + Copy>(
    alloc: A,
    first: u64,
    name: &[u8],
) -> Result<Vec<u8, A>, Fail> {
    let mut log = Counted::new(Vec::new(alloc));
    for minute in 0..100u64 {
        let x = heard(first.saturating_add(minute * 60), name, &DIRECT)?;
        write_line(&mut log, &x).ok().ok_or("memory")?;
    }
    Ok(log.into_inner())
}

/// The number of rows of a hundred minutes by RX1 together with as many by RX2 from this second on.
fn rows_together<A: Allocator + Copy>(alloc: A, first: u64) -> Result<usize, Fail> {
    let book = hundred(alloc, 0, b"RX1")?;
    let other = hundred(alloc, first, b"RX2")?;
    Ok(book.merge(&other).ok().ok_or("memory")?.len())
}

// Receivers that hear in turn each half minute make one row of two hundred receptions. Where one
// begins more than the gap after the other's end, each reception stays a row of its own.
#[test]
fn a_hundred_rows_are_taken_and_merged(rt: HostRuntime) -> Result<(), Fail> {
    let alloc = rt.alloc();
    assert!(rt; hundred(alloc, 0, b"RX1")?.len() == 100);
    const CASES: &[(u64, usize)] = &[(0, 100), (30, 1), (6031, 200)];
    for &(first, rows) in CASES {
        assert!(rt; rows_together(alloc, first)? == rows);
    }
    Ok(())
}

/// Three books of a hundred minutes each, and two of them close to each other.
fn three_books<A: Allocator + Copy>(alloc: A) -> Result<Vec<Book<A>, A>, Fail> {
    let mut books = Vec::new(alloc);
    const HEARD: &[(u64, &[u8])] = &[(0, b"RX1"), (30, b"RX2"), (6031, b"RX2")];
    for &(first, name) in HEARD {
        books.push(hundred(alloc, first, name)?)?;
    }
    Ok(books)
}

/// Whether a book stays the same where this one is joined to it.
fn has_joined<A: Allocator + Copy>(joined: &Book<A>, first: &Book<A>) -> bool {
    if !joined.fits(first) {
        return false;
    }
    match joined.join(first) {
        Ok(again) => again.same(joined),
        Err(_) => false,
    }
}

/// Whether these books have a hundred and one rows together, among them the first one's.
fn are_joined<A: Allocator + Copy>(books: &[Book<A>]) -> Option<bool> {
    let first = books.first()?;
    let joined = joined_all(first, books)?;
    Some(joined.len() == 101 && has_joined(&joined, first))
}

#[test]
fn a_hundred_rows_are_joined(rt: HostRuntime) -> Result<(), Fail> {
    let books = three_books(rt.alloc())?;
    assert!(rt; are_joined(books.as_slice()) == Some(true));
    Ok(())
}

/// A book of a hundred rows that are pushed.
fn pushed<A: Allocator + Copy>(alloc: A) -> Result<Book<A>, Fail> {
    let mut book = Book::new(alloc);
    for minute in 0..100u64 {
        let second = NOON.saturating_add(minute * 60);
        let row = parts(alloc, second, second, &[b"RX1"], b"RX1")?;
        book.push_row(&row).ok().ok_or("a cause")?;
    }
    Ok(book)
}

/// Whether the book's text is read as the book.
fn is_written_and_read<A: Allocator + Copy>(alloc: A, book: &Book<A>) -> Result<bool, Fail> {
    let text = text_of(alloc, book)?;
    match read_book(alloc, MAX_INPUT, b"", &mut Counted::new(text.as_slice())) {
        Ok(read) => Ok(read.same(book)),
        Err(_) => Ok(false),
    }
}

#[test]
fn a_hundred_rows_are_pushed_written_and_read(rt: HostRuntime) -> Result<(), Fail> {
    let alloc = rt.alloc();
    let book = pushed(alloc)?;
    assert!(rt; book.same(&hundred(alloc, 0, b"RX1")?));
    assert!(rt; is_written_and_read(alloc, &book)?);
    Ok(())
}

/// Whether the book of this input is this one.
fn is_read<A: Allocator + Copy>(alloc: A, input: &[u8], book: &Book<A>) -> bool {
    match read_input(alloc, MAX_INPUT, Gap::STANDARD, &mut Counted::new(input)) {
        Ok(read) => read.same(book),
        Err(_) => false,
    }
}

#[test]
fn a_hundred_lines_are_read(rt: HostRuntime) -> Result<(), Fail> {
    let alloc = rt.alloc();
    let book = hundred(alloc, 0, b"RX1")?;
    assert!(rt; is_read(alloc, hundred_lines(alloc, 0, b"RX1")?.as_slice(), &book));
    assert!(rt; is_read(alloc, text_of(alloc, &book)?.as_slice(), &book));
    Ok(())
}

/// What is written of the nine inputs' one row, and what is listed of it.
const ONE_ROW: &[u8] = b"APRSBOOK 3 30
T 2024-05-01T12:00:00.000Z 2024-05-01T13:39:30.000Z RX1,RX2 RX2 \
    82a0a4a64040e09c60868298986f03f03e4869
END 1
";

const ONE_STATION: &[u8] = b"station N0CALL-7 1\nstatus 2024-05-01T13:39:30.000Z RX2 -:Hi\n";

/// A log of a hundred lines, one of what was heard between, and the first one's book.
fn three_inputs<A: Allocator + Copy>(alloc: A) -> Result<Vec<Vec<u8, A>, A>, Fail> {
    let mut inputs = Vec::new(alloc);
    inputs.push(hundred_lines(alloc, 0, b"RX1")?)?;
    inputs.push(hundred_lines(alloc, 30, b"RX2")?)?;
    inputs.push(text_of(alloc, &hundred(alloc, 0, b"RX1")?)?)?;
    Ok(inputs)
}

/// Nine inputs, each one of three.
fn nine_of<'a, A: Allocator + Copy>(
    alloc: A,
    three: &'a [Vec<u8, A>],
) -> Result<Vec<Counted<&'a [u8]>, A>, Fail> {
    let mut inputs = Vec::new(alloc);
    const NUMBERS: &[usize] = &[0, 2, 1, 0, 2, 2, 2, 1, 2];
    for &number in NUMBERS {
        let input = three.get(number).ok_or("an input")?;
        inputs.push(Counted::new(input.as_slice()))?;
    }
    Ok(inputs)
}

/// What is written of these inputs, or listed of them.
fn gathered<A: Allocator + Copy>(
    alloc: Global,
    heap: A,
    inputs: &mut [Counted<&[u8]>],
    is_listing: bool,
) -> Option<Vec<u8>> {
    let mut out = Counted::new(Vec::new(alloc));
    let run = if is_listing {
        show_run(heap, MAX_INPUT, Gap::STANDARD, inputs, &mut out)
    } else {
        merge_run(heap, MAX_INPUT, Gap::STANDARD, inputs, &mut out)
    };
    run.is_ok().then_some(out.into_inner())
}

/// Whether this is written of nine inputs, or listed of them.
fn is_gathered<A: Allocator + Copy>(
    alloc: Global,
    heap: A,
    three: &[Vec<u8>],
    is_listing: bool,
    want: &[u8],
) -> Result<bool, Fail> {
    let mut inputs = nine_of(alloc, three)?;
    match gathered(alloc, heap, inputs.as_mut_slice(), is_listing) {
        Some(text) => Ok(text.as_slice() == want),
        None => Ok(false),
    }
}

// Two of the nine are logs of what was heard between the others' receptions, and five are book
// files.
#[test]
fn nine_inputs_are_merged_and_listed(rt: HostRuntime) -> Result<(), Fail> {
    let alloc = rt.alloc();
    let three = three_inputs(alloc)?;
    let heap = LocalHeap::new(alloc, 1_048_576)?;
    const WANTED: &[(bool, &[u8])] = &[(false, ONE_ROW), (true, ONE_STATION)];
    for &(is_listing, want) in WANTED {
        assert!(rt; is_gathered(alloc, &heap, three.as_slice(), is_listing, want)?);
        assert!(rt; heap.used() == 0);
    }
    Ok(())
}

/// Takes what RX1 hears at these seconds of the hour.
fn take_direct<A: Allocator + Copy>(book: &mut Book<A>, seconds: &[u64]) -> Result<(), Fail> {
    for second in seconds {
        let x = heard(*second, b"RX1", &DIRECT)?;
        book.take(&x).ok().ok_or("memory")?;
    }
    Ok(())
}

// A reception that fits into a row that lists its receiver leaves the heap as it was.
#[test]
fn a_listed_receiver_takes_no_room(rt: HostRuntime) -> Result<(), Fail> {
    let heap = LocalHeap::new(rt.alloc(), 65_536)?;
    let mut book = Book::new(&heap);
    take_direct(&mut book, &[0, 61, 122, 20])?;
    let used = heap.used();
    const SECONDS: &[u64] = &[0, 10, 20, 61, 70, 91, 122, 152];
    for &second in SECONDS {
        take_direct(&mut book, &[second])?;
        assert!(rt; heap.used() == used);
    }
    assert!(rt; book.len() == 3);
    Ok(())
}
