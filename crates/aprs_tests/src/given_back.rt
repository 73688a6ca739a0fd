//! Each type gives all its memory back where it is dropped, and so does each call that fails.

use aprs_book::{Book, Gap, Join, Receivers, Step, Summary, from_rows, replay, steps_fit};
use aprs_booktext::read_book;
use aprs_fixtures::{
    LOG, MERGED_TEXT, NOON, SENT, book_of_sent, parts, receiver, sent, store_of_sent,
};
use aprs_kiss::Counted;
use aprs_log::MAX_INPUT;
use aprs_rows::WalkRoom;
use aprs_tool::{Desk, merge_run, read_input, show_run};
use linked_list_allocator::LocalHeap;
use std::alloc::Global;
use std::test::Fail;

/// What is made of what was sent.
#[derive(Clone, Copy)]
enum Made {
    Book,
    Merged,
    Joined,
    Widened,
    Stations,
    Objects,
    Messages,
    BookStore,
    BookRows,
    BookOfRows,
    Summary,
    Replayed,
    Receivers,
    RowParts,
    Pushed,
    ReadBook,
    ReadInput,
    Desk,
}

const MADE: &[Made] = &[
    Made::Book,
    Made::Merged,
    Made::Joined,
    Made::Widened,
    Made::Stations,
    Made::Objects,
    Made::Messages,
    Made::BookStore,
    Made::BookRows,
    Made::BookOfRows,
    Made::Summary,
    Made::Replayed,
    Made::Receivers,
    Made::RowParts,
    Made::Pushed,
    Made::ReadBook,
    Made::ReadInput,
    Made::Desk,
];

/// How much of the heap is in use while the value is there.
fn used_with<T: Drop, E: Drop>(heap: &LocalHeap, value: Result<T, E>) -> Result<usize, Fail> {
    let _value = value.ok().ok_or("a value")?;
    Ok(heap.used())
}

/// How much is in use with this book, and with what is made of it.
fn used_of_book(heap: &LocalHeap, made: Made) -> Result<usize, Fail> {
    let book = book_of_sent(heap, Gap::STANDARD, 0)?;
    match made {
        Made::Book => Ok(heap.used()),
        Made::Merged | Made::Joined | Made::Widened => used_of_another(heap, &book, made),
        _ => used_of_entries(heap, &book, made),
    }
}

/// How much is in use with another book that is made of this one.
fn used_of_another<'a>(
    heap: &'a LocalHeap,
    book: &Book<&'a LocalHeap>,
    made: Made,
) -> Result<usize, Fail> {
    match made {
        Made::Merged => used_with(heap, book.merge(book)),
        Made::Joined if book.fits(book) => used_with(heap, book.join(book)),
        _ => used_with(heap, book.widen(Gap::new(60).ok_or("a gap")?)),
    }
}

/// How much is in use with a list of this book.
fn used_of_entries<'a>(
    heap: &'a LocalHeap,
    book: &Book<&'a LocalHeap>,
    made: Made,
) -> Result<usize, Fail> {
    match made {
        Made::Stations => used_with(heap, book.stations()),
        Made::Objects => used_with(heap, book.objects()),
        _ => used_with(heap, book.messages()),
    }
}

/// How much is in use with a store, and with what is made of it.
fn used_of_store(heap: &LocalHeap, made: Made) -> Result<usize, Fail> {
    let store = store_of_sent(heap)?;
    if let Made::BookStore = made {
        return Ok(heap.used());
    }
    let mut room = WalkRoom::new(heap);
    if let Made::Summary = made {
        return used_with(heap, Summary::of(heap, &store, &mut room));
    }
    let rows = store.rows(&mut room).ok().ok_or("memory")?;
    match made {
        Made::BookRows => Ok(heap.used()),
        _ => used_with(heap, Book::of_rows(heap, rows)),
    }
}

/// How much is in use with the books after what was sent and a merge.
fn used_of_steps(alloc: Global, heap: &LocalHeap) -> Result<usize, Fail> {
    let mut steps = Vec::new(alloc);
    for &(second, source, info) in SENT {
        steps.push(Step::Take(0, sent(second, source, info)?))?;
    }
    steps.push(Step::Merge(1, 0))?;
    if !steps_fit(2, steps.as_slice()) {
        return Err("other places".into());
    }
    used_with(heap, replay(heap, Gap::STANDARD, 2, steps.as_slice()))
}

/// How much is in use with the names of three receivers.
fn used_of_receivers(heap: &LocalHeap) -> Result<usize, Fail> {
    let mut names = Receivers::new(heap);
    const NAMES: &[&[u8]] = &[b"RX2", b"RX1", b"RX3"];
    for &name in NAMES {
        names.add(&receiver(name)?).ok().ok_or("memory")?;
    }
    Ok(heap.used())
}

/// How much is in use with a row that is handed over, and with the book of it.
fn used_of_parts(heap: &LocalHeap, made: Made) -> Result<usize, Fail> {
    let row = parts(heap, NOON, NOON, &[b"RX1", b"RX2"], b"RX2")?;
    match made {
        Made::RowParts => Ok(heap.used()),
        _ => used_with(heap, from_rows(heap, Gap::STANDARD, &[row])),
    }
}

/// How much is in use with a desk that took a log and a book file.
fn used_of_desk(heap: &LocalHeap) -> Result<usize, Fail> {
    let mut desk = Desk::new(heap, MAX_INPUT);
    const INPUTS: &[&[u8]] = &[LOG, MERGED_TEXT];
    for &input in INPUTS {
        desk.take_input(&mut Counted::new(input))
            .ok()
            .ok_or("an input")?;
    }
    Ok(heap.used())
}

/// How much is in use with what is made.
fn used_of(alloc: Global, heap: &LocalHeap, made: Made) -> Result<usize, Fail> {
    match made {
        Made::Replayed => used_of_steps(alloc, heap),
        Made::Receivers => used_of_receivers(heap),
        Made::RowParts | Made::Pushed => used_of_parts(heap, made),
        Made::ReadBook => {
            used_with(
                heap,
                read_book(heap, MAX_INPUT, b"", &mut Counted::new(MERGED_TEXT)),
            )
        }
        Made::ReadInput => {
            used_with(
                heap,
                read_input(heap, MAX_INPUT, Gap::STANDARD, &mut Counted::new(LOG)),
            )
        }
        Made::Desk => used_of_desk(heap),
        Made::Book
        | Made::Merged
        | Made::Joined
        | Made::Widened
        | Made::Stations
        | Made::Objects
        | Made::Messages => used_of_book(heap, made),
        _ => used_of_store(heap, made),
    }
}

#[test]
fn what_is_made_gives_all_back(rt: HostRuntime) -> Result<(), Fail> {
    for (i, made) in MADE.iter().enumerate() {
        let heap = LocalHeap::new(rt.alloc(), 65_536)?;
        let used = used_of(rt.alloc(), &heap, *made)?;
        assert!(rt; used > 0 && heap.used() == 0, "made {i}");
    }
    Ok(())
}

/// A book file whose last line is missing, after two rows.
const CUT_TEXT: &[u8] = b"APRSBOOK 3 30
T 1970-01-01T00:00:00.000Z 1970-01-01T00:00:30.000Z RX1,RX2 RX2 \
    82a0a4a64040e09c60868298986eae92888a6240e303f03e4869
T 2099-12-31T23:59:59.000Z 2099-12-31T23:59:59.000Z RX2 RX2 82a0a4a64040e09c60868298986f03f03e4869
";

/// Whether a merge or a listing of a log, a book file and a third input fails at that one.
fn is_refused(alloc: Global, heap: &LocalHeap, third: &[u8], is_listing: bool) -> bool {
    let mut inputs = [
        Counted::new(LOG),
        Counted::new(MERGED_TEXT),
        Counted::new(third),
    ];
    let mut out = Counted::new(Vec::new(alloc));
    if is_listing {
        show_run(heap, MAX_INPUT, Gap::STANDARD, &mut inputs, &mut out).is_err()
    } else {
        merge_run(heap, MAX_INPUT, Gap::STANDARD, &mut inputs, &mut out).is_err()
    }
}

// What was gathered of the first inputs, and read of the last, is given back.
#[test]
fn what_fails_gives_all_back(rt: HostRuntime) -> Result<(), Fail> {
    let heap = LocalHeap::new(rt.alloc(), 262_144)?;
    const THIRD: &[&[u8]] = &[CUT_TEXT, b"APRSBOOK 3 31\nEND 0\n", b"no log\n"];
    for &third in THIRD {
        assert!(rt; is_refused(rt.alloc(), &heap, third, false));
        assert!(rt; is_refused(rt.alloc(), &heap, third, true));
        assert!(rt; heap.used() == 0);
    }
    Ok(())
}
