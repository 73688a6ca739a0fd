//! Memory that is refused in the midst of each call that joins books or lists what is in them.

use aprs_book::{Book, Gap, Join, Receivers, Step, all_fit, join_all, replay};
use aprs_fixtures::{SENT, book_of_sent, is_shown, receiver, sent, squeeze};
use bumpalo::Bump;
use std::alloc::{Allocator, Global};
use std::test::Fail;

/// Two books of what was sent, the second a minute later.
fn two_books<A: Allocator + Copy>(alloc: A, list: Global) -> Result<Vec<Book<A>>, Fail> {
    let mut books = Vec::new(list);
    books.push(book_of_sent(alloc, Gap::STANDARD, 0)?)?;
    books.push(book_of_sent(alloc, Gap::STANDARD, 60)?)?;
    Ok(books)
}

/// The same as steps of two books, which then merge.
fn steps(alloc: Global) -> Result<Vec<Step>, Fail> {
    let mut steps = Vec::new(alloc);
    for &(second, source, info) in SENT {
        steps.push(Step::Take(0, sent(second, source, info)?))?;
        steps.push(Step::Take(1, sent(second.saturating_add(60), source, info)?))?;
    }
    steps.push(Step::Merge(0, 1))?;
    Ok(steps)
}

/// A call that takes memory, and how many rows or entries it gives of those books.
#[derive(Clone, Copy)]
enum Call {
    Merge,
    Join,
    JoinAll,
    Replay,
    Stations,
    Objects,
    Messages,
}

const CALLS: &[(Call, usize)] = &[
    (Call::Merge, 10),
    (Call::Join, 10),
    (Call::JoinAll, 10),
    (Call::Replay, 10),
    (Call::Stations, 3),
    (Call::Objects, 2),
    (Call::Messages, 1),
];

/// How many rows the book has, if there is one.
fn rows_of<A: Allocator + Copy, E: Drop>(book: Result<Book<A>, E>) -> Option<usize> {
    Some(book.ok()?.len())
}

/// How many entries the list has, if there is one.
fn entries_of<T: Drop, A: Allocator, E: Drop>(list: Result<Vec<T, A>, E>) -> Option<usize> {
    Some(list.ok()?.len())
}

/// How many rows the two books have together, or nothing where memory was refused.
fn rows_together<A: Allocator + Copy>(call: Call, books: &[Book<A>]) -> Option<usize> {
    let [first, second] = books else {
        return None;
    };
    if !first.fits(second) || !all_fit(first, books) {
        return None;
    }
    match call {
        Call::Merge => rows_of(first.merge(second)),
        Call::Join => rows_of(first.join(second)),
        _ => rows_of(join_all(first, books)),
    }
}

/// How many entries the book's list has, or nothing where memory was refused.
fn entries_in<A: Allocator + Copy>(call: Call, book: &Book<A>) -> Option<usize> {
    match call {
        Call::Stations => entries_of(book.stations()),
        Call::Objects => entries_of(book.objects()),
        _ => entries_of(book.messages()),
    }
}

/// How many rows or entries the call gives, or nothing where memory was refused.
fn called<A: Allocator + Copy>(
    alloc: A,
    call: Call,
    books: &[Book<A>],
    steps: &[Step],
) -> Option<usize> {
    match call {
        Call::Merge | Call::Join | Call::JoinAll => rows_together(call, books),
        Call::Replay => replayed(alloc, steps),
        Call::Stations | Call::Objects | Call::Messages => entries_in(call, books.first()?),
    }
}

/// The number of rows of the first book after the steps.
fn replayed<A: Allocator + Copy>(alloc: A, steps: &[Step]) -> Option<usize> {
    if !aprs_book::steps_fit(2, steps) {
        return None;
    }
    let books = replay(alloc, Gap::STANDARD, 2, steps).ok()?;
    Some(books.first()?.len())
}

/// Whether the call was refused with so many units of room. Then the books are as before, and with
/// room again the call gives what it has to.
fn is_refused(
    alloc: Global,
    call: Call,
    want: usize,
    steps: &[Step],
    units: usize,
) -> Result<bool, Fail> {
    let bump = Bump::try_with_capacity(alloc, 524_288)?;
    let books = two_books(&bump, alloc)?;
    let answer = squeezed(&bump, call, units, books.as_slice(), steps)?;
    if answer == Some(want) {
        return Ok(false);
    }
    bump.set_allocation_limit(None);
    let again = called(&bump, call, books.as_slice(), steps);
    is_as_before(alloc, books.as_slice(), answer, again == Some(want))
}

/// `true` where the call gave nothing at first, gave with room what it has to, and the first book
/// is as before. Otherwise an error.
fn is_as_before(
    alloc: Global,
    books: &[Book<&Bump>],
    answer: Option<usize>,
    is_given: bool,
) -> Result<bool, Fail> {
    if answer.is_none() && is_given && has_rows(alloc, books) {
        Ok(true)
    } else {
        Err("another answer".into())
    }
}

/// Whether the first book has the rows of what was sent.
fn has_rows(alloc: Global, books: &[Book<&Bump>]) -> bool {
    books
        .first()
        .is_some_and(|first| is_shown(alloc, first, ROWS))
}

/// What the call gives with so many units of room.
fn squeezed<'a>(
    bump: &'a Bump,
    call: Call,
    units: usize,
    books: &[Book<&'a Bump>],
    steps: &[Step],
) -> Result<Option<usize>, Fail> {
    let _fill = squeeze(bump, units)?;
    Ok(called(bump, call, books, steps))
}

/// The rows of the first book.
pub const ROWS: &str = "0-0 RX1 / RX1 6f; 10-10 RX1 / RX1 6f; 40-40 RX1 / RX1 71; \
    30-30 RX1 / RX1 71; 20-20 RX1 / RX1 61; ";

/// With how many units of room the call is first granted.
fn first_granted(
    alloc: Global,
    call: Call,
    want: usize,
    steps: &[Step],
) -> Result<Option<usize>, Fail> {
    for units in 0..2048usize {
        if !is_refused(alloc, call, want, steps, units)? {
            return Ok(Some(units));
        }
    }
    Ok(None)
}

// Room for more and more units, until nothing is refused.
#[test]
fn refused_calls_change_nothing(rt: HostRuntime) -> Result<(), Fail> {
    let steps = steps(rt.alloc())?;
    for &(call, want) in CALLS {
        let granted = first_granted(rt.alloc(), call, want, steps.as_slice())?;
        assert!(rt; granted > Some(0));
    }
    Ok(())
}

/// Adds the name, once more with room where memory was refused, and returns whether it was.
fn is_refused_at_first<'a>(
    bump: &'a Bump,
    names: &mut Receivers<&'a Bump>,
    name: &[u8],
) -> Result<bool, Fail> {
    let name = receiver(name)?;
    let before = names.as_slice().len();
    if names.add(&name).is_ok() {
        return Ok(false);
    }
    assert_same(names.as_slice().len(), before)?;
    bump.set_allocation_limit(None);
    names.add(&name).ok().ok_or("memory")?;
    Ok(true)
}

/// Adds names to receivers that have room for so many units, and returns whether one was refused.
fn is_name_refused(alloc: Global, units: usize) -> Result<bool, Fail> {
    let bump = Bump::try_with_capacity(alloc, 65_536)?;
    let _fill = squeeze(&bump, units)?;
    let mut names = Receivers::new(&bump);
    let mut is_refused = false;
    for (i, name) in [b"RX2", b"RX1", b"RX3", b"RX1"].iter().enumerate() {
        if is_refused_at_first(&bump, &mut names, *name)? {
            is_refused = true;
        }
        assert_same(names.as_slice().len(), (i + 1).min(3))?;
    }
    Ok(is_refused)
}

fn assert_same(have: usize, want: usize) -> Result<(), Fail> {
    if have == want {
        Ok(())
    } else {
        Err("another number".into())
    }
}

#[test]
fn refused_names_are_not_added(rt: HostRuntime) -> Result<(), Fail> {
    let mut refused = 0u64;
    for units in 0..64usize {
        if is_name_refused(rt.alloc(), units)? {
            refused = refused.saturating_add(1);
        }
    }
    assert!(rt; refused > 0 && refused < 64);
    Ok(())
}

/// Receivers of these names.
fn receivers<A: Allocator + Copy>(alloc: A, names: &[&[u8]]) -> Result<Receivers<A>, Fail> {
    let mut receivers = Receivers::new(alloc);
    for name in names {
        receivers.add(&receiver(name)?).ok().ok_or("memory")?;
    }
    Ok(receivers)
}

/// How many names both have, or nothing where memory was refused.
fn joined<A: Allocator + Copy>(ours: &Receivers<A>, theirs: &Receivers<A>) -> Option<usize> {
    let both = ours.join(theirs).ok()?;
    Some(both.as_slice().len())
}

/// How many names both have without room, and then with room again.
fn joined_twice<'a>(
    bump: &'a Bump,
    ours: &Receivers<&'a Bump>,
    theirs: &Receivers<&'a Bump>,
) -> Result<(Option<usize>, Option<usize>), Fail> {
    let _fill = squeeze(bump, 0)?;
    let without_room = joined(ours, theirs);
    bump.set_allocation_limit(None);
    Ok((without_room, joined(ours, theirs)))
}

// With room again the join gives each name once.
#[test]
fn refused_names_are_not_joined(rt: HostRuntime) -> Result<(), Fail> {
    let bump = Bump::try_with_capacity(rt.alloc(), 4096)?;
    let ours = receivers(&bump, &[b"RX1", b"RX2"])?;
    let theirs = receivers(&bump, &[b"RX2", b"RX3"])?;
    assert!(rt; joined_twice(&bump, &ours, &theirs)? == (None, Some(3)));
    assert!(rt; ours.as_slice().len() == 2 && theirs.as_slice().len() == 2);
    Ok(())
}
