//! Books that take receptions, merge and replay.

use aprs_book::{Book, Gap, Greatest, Join, Receivers, Step, join_all, replay, steps_fit};
use aprs_fixtures::{ANSWERED, DIRECT, REPEATED, heard, is_shown, joined_all, receiver};
use std::alloc::{Allocator, Global};
use std::test::Fail;

/// Takes what a receiver hears at a second of the hour.
fn take<A: Allocator + Copy>(
    book: &mut Book<A>,
    second: u64,
    name: &[u8],
    frame: &[u8],
) -> Result<(), Fail> {
    let x = heard(second, name, frame)?;
    Ok(book.take(&x).ok().ok_or("memory")?)
}

#[test]
fn rows_join_within_thirty_seconds(rt: HostRuntime) -> Result<(), Fail> {
    let alloc = rt.alloc();
    let mut book = Book::new(alloc);
    const CASES: &[(u64, &str)] = &[
        (0, "0-0 RX1 / RX1 6f; "),
        (61, "0-0 RX1 / RX1 6f; 61-61 RX1 / RX1 6f; "),
        (31, "0-0 RX1 / RX1 6f; 31-61 RX1 / RX1 6f; "),
        (30, "0-61 RX1 / RX1 6f; "),
        (40, "0-61 RX1 / RX1 6f; "),
    ];
    for &(second, rows) in CASES {
        take(&mut book, second, b"RX1", &DIRECT)?;
        assert!(rt; is_shown(alloc, &book, rows), "{second}");
    }
    Ok(())
}

/// The book that takes these, all of which are heard at once.
fn heard_at_once<A: Allocator + Copy>(alloc: A, all: &[(&[u8], &[u8])]) -> Result<Book<A>, Fail> {
    let mut book = Book::new(alloc);
    for (name, frame) in all {
        take(&mut book, 0, name, frame)?;
    }
    Ok(book)
}

#[test]
fn ties_go_by_receiver_then_frame(rt: HostRuntime) -> Result<(), Fail> {
    const DIRECT_ONE: (&[u8], &[u8]) = (b"RX1", &DIRECT);
    const REPEATED_ONE: (&[u8], &[u8]) = (b"RX1", &REPEATED);
    const OTHER: (&[u8], &[u8]) = (b"RX2", &REPEATED);
    const CASES: &[(&[(&[u8], &[u8])], &str)] = &[
        (&[REPEATED_ONE, DIRECT_ONE], "0-0 RX1 / RX1 6f; "),
        (&[DIRECT_ONE, REPEATED_ONE], "0-0 RX1 / RX1 6f; "),
        (&[REPEATED_ONE, DIRECT_ONE, OTHER], "0-0 RX1 RX2 / RX2 6e; "),
    ];
    for &(all, rows) in CASES {
        let book = heard_at_once(rt.alloc(), all)?;
        assert!(rt; is_shown(rt.alloc(), &book, rows), "{rows}");
    }
    Ok(())
}

#[test]
fn other_digipeaters_are_no_other_row(rt: HostRuntime) -> Result<(), Fail> {
    let alloc = rt.alloc();
    let mut book = Book::new(alloc);
    take(&mut book, 0, b"RX1", &DIRECT)?;
    take(&mut book, 5, b"RX2", &ANSWERED)?;
    assert!(rt; is_shown(alloc, &book, "0-5 RX1 RX2 / RX2 ee; "));
    Ok(())
}

/// Receivers of these names.
fn receivers_of<A: Allocator + Copy>(alloc: A, names: &[&[u8]]) -> Result<Receivers<A>, Fail> {
    let mut receivers = Receivers::new(alloc);
    for name in names {
        receivers.add(&receiver(name)?).ok().ok_or("memory")?;
    }
    Ok(receivers)
}

/// Whether these are their names.
fn are_names<A: Allocator + Copy>(receivers: &Receivers<A>, names: &[&[u8]]) -> bool {
    receivers.as_slice().len() == names.len()
        && receivers
            .as_slice()
            .iter()
            .zip(names)
            .all(|(receiver, name)| receiver.as_bytes() == *name)
}

#[test]
fn receivers_stand_once(rt: HostRuntime) -> Result<(), Fail> {
    let receivers = receivers_of(rt.alloc(), &[b"RX2", b"RX1", b"RX2"])?;
    assert!(rt; are_names(&receivers, &[b"RX1", b"RX2"]));
    let twice = receivers.join(&receivers).ok().ok_or("memory")?;
    assert!(rt; are_names(&twice, &[b"RX1", b"RX2"]));
    Ok(())
}

/// A book of receptions by one receiver at these seconds.
fn book_by<A: Allocator + Copy>(alloc: A, name: &[u8], seconds: &[u64]) -> Result<Book<A>, Fail> {
    let mut book = Book::new(alloc);
    for second in seconds {
        take(&mut book, *second, name, &DIRECT)?;
    }
    Ok(book)
}

/// Whether these are the rows of both together.
fn is_merged_to(alloc: Global, ours: &Book, theirs: &Book, rows: &str) -> bool {
    matches!(&ours.merge(theirs), Ok(both) if is_shown(alloc, both, rows))
}

#[test]
fn two_rows_bridge_three(rt: HostRuntime) -> Result<(), Fail> {
    let alloc = rt.alloc();
    let three = book_by(alloc, b"RX1", &[0, 60, 120])?;
    let two = book_by(alloc, b"RX2", &[30, 90])?;
    assert!(rt; is_merged_to(alloc, &three, &two, "0-120 RX1 RX2 / RX1 6f; "));
    assert!(rt; is_merged_to(alloc, &two, &three, "0-120 RX1 RX2 / RX1 6f; "));
    assert!(rt; three.len() == 3 && two.len() == 2);
    assert!(rt; !three.same(&two) && two.same(&two));
    Ok(())
}

/// Two books that take in turn, and merge both ways.
fn two_books<A: Allocator + Copy>(alloc: A) -> Result<Vec<Book<A>, A>, Fail> {
    let steps = [
        Step::Take(0, heard(0, b"RX1", &DIRECT)?),
        Step::Take(1, heard(20, b"RX2", &DIRECT)?),
        Step::Merge(0, 1),
        Step::Merge(1, 0),
        Step::Merge(0, 0),
    ];
    if !steps_fit(2, &steps) || steps_fit(1, &steps) {
        return Err("places".into());
    }
    Ok(
        replay(alloc, Gap::STANDARD, 2, &steps)
            .ok()
            .ok_or("memory")?,
    )
}

/// Whether the book stays the same where these are joined to it.
fn stays_joined<A: Allocator + Copy>(book: &Book<A>, items: &[Book<A>]) -> bool {
    match joined_all(book, items) {
        Some(all) => all.same(book),
        None => false,
    }
}

#[test]
fn replays_end_in_equal_books(rt: HostRuntime) -> Result<(), Fail> {
    let books = two_books(rt.alloc())?;
    let [first, second] = books.as_slice() else {
        return Err("two books".into());
    };
    assert!(rt; first.same(second));
    assert!(rt; is_shown(rt.alloc(), first, "0-20 RX1 RX2 / RX2 6f; "));
    assert!(rt; stays_joined(first, books.as_slice()) && stays_joined(first, &[]));
    Ok(())
}

/// The book of what was heard at these seconds of the hour. At 0 RX1 hears the frame, at 30 RX2
/// hears it over a digipeater, and at any other second RX2 hears it directly.
fn logged(alloc: Global, seconds: &[u64]) -> Result<Book, Fail> {
    let mut book = Book::new(alloc);
    for second in seconds {
        let (name, frame): (&[u8], &[u8]) = match *second {
            0 => (b"RX1", &DIRECT),
            30 => (b"RX2", &REPEATED),
            _ => (b"RX2", &DIRECT),
        };
        take(&mut book, *second, name, frame)?;
    }
    Ok(book)
}

/// The merge of two such books.
fn merged(alloc: Global, ours: &[u64], theirs: &[u64]) -> Result<Book, Fail> {
    let ours = logged(alloc, ours)?;
    let theirs = logged(alloc, theirs)?;
    Ok(ours.merge(&theirs).ok().ok_or("memory")?)
}

#[test]
fn orders_repeats_and_merges_do_not_matter(rt: HostRuntime) -> Result<(), Fail> {
    let alloc = rt.alloc();
    const CASES: &[[u64; 3]] = &[
        [0, 30, 3600],
        [0, 3600, 30],
        [30, 0, 3600],
        [30, 3600, 0],
        [3600, 0, 30],
        [3600, 30, 0],
    ];
    for &[a, b, c] in CASES {
        let taken = logged(alloc, &[a, b, c, a])?;
        assert!(rt; merged(alloc, &[a, b], &[c, a])?.same(&taken));
        assert!(rt; is_shown(alloc, &taken, "0-30 RX1 RX2 / RX2 6e; 0-0 RX2 / RX2 6f; "));
    }
    Ok(())
}

#[test]
fn greatest_receptions_join(rt: HostRuntime) -> Result<(), Fail> {
    let first = Greatest::new(&heard(0, b"RX1", &DIRECT)?);
    let second = Greatest::new(&heard(0, b"RX2", &REPEATED)?);
    let third = Greatest::new(&heard(0, b"RX1", &REPEATED)?);
    let all = join_all(&first, &[second, third]).ok().ok_or("memory")?;
    assert!(rt; *all.get() == heard(0, b"RX2", &REPEATED)?);
    Ok(())
}
