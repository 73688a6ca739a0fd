//! Books of other gaps than 30 seconds.

use aprs_book::{Book, Gap, MergeFault, WidenFault};
use aprs_booktext::BookCause;
use aprs_fixtures::{DIRECT, REPEATED, arena, heard, is_shown, squeeze};
use aprs_kiss::Counted;
use aprs_log::MAX_INPUT;
use aprs_tool::{Desk, InputFault, RunFault, merge_run, status_of, widen_run};
use bumpalo::Bump;
use std::alloc::{Allocator, Global};
use std::test::Fail;

/// A gap of so many seconds.
fn gap(seconds: u64) -> Result<Gap, Fail> {
    Ok(Gap::new(seconds).ok_or("a gap")?)
}

#[test]
fn gaps_are_1_to_3600_seconds(rt: HostRuntime) {
    assert!(rt; Gap::new(0).is_none() && Gap::new(3601).is_none());
    assert!(rt; Gap::new(1).is_some() && Gap::new(3600).is_some());
    assert!(rt; Gap::STANDARD.seconds() == 30);
}

/// The book of a frame that RX1 heard, RX2 45 seconds later, and RX1 again as long after that.
fn three_rows<A: Allocator + Copy>(alloc: A) -> Result<Book<A>, Fail> {
    let mut book = Book::new(alloc);
    const CASES: &[(u64, &[u8])] = &[(0, b"RX1"), (45, b"RX2"), (90, b"RX1")];
    for &(second, name) in CASES {
        let x = heard(second, name, &DIRECT)?;
        book.take(&x).ok().ok_or("memory")?;
    }
    Ok(book)
}

/// The rows of that book, and its one row under a gap of 45 seconds.
const THREE: &str = "0-0 RX1 / RX1 6f; 45-45 RX2 / RX2 6f; 90-90 RX1 / RX1 6f; ";

const WIDE: &str = "0-90 RX1 RX2 / RX1 6f; ";

/// Whether these are the rows of a book under this gap.
fn is_widened_to(alloc: Global, book: &Book, seconds: u64, rows: &str) -> bool {
    match Gap::new(seconds) {
        Some(gap) => matches!(&book.widen(gap), Ok(wide) if is_shown(alloc, wide, rows)),
        None => false,
    }
}

/// Whether a book has a wider gap than this one.
fn is_narrower<A: Allocator + Copy>(book: &Book<A>, seconds: u64) -> bool {
    match Gap::new(seconds) {
        Some(gap) => matches!(&book.widen(gap), Err(WidenFault::Narrower)),
        None => false,
    }
}

#[test]
fn rows_join_where_the_gap_reaches(rt: HostRuntime) -> Result<(), Fail> {
    let alloc = rt.alloc();
    let book = three_rows(alloc)?;
    const CASES: &[(u64, &str)] = &[(30, THREE), (44, THREE), (45, WIDE), (3600, WIDE)];
    for &(seconds, rows) in CASES {
        assert!(rt; is_widened_to(alloc, &book, seconds, rows), "{seconds}");
    }
    assert!(rt; is_narrower(&book, 29));
    assert!(rt; is_shown(alloc, &book, THREE));
    Ok(())
}

/// Whether the books are not merged since each has a gap of its own.
fn have_two_gaps<A: Allocator + Copy>(ours: &Book<A>, theirs: &Book<A>) -> bool {
    matches!(&ours.merge(theirs), Err(MergeFault::OtherGap))
}

#[test]
fn books_of_two_gaps_are_not_merged(rt: HostRuntime) -> Result<(), Fail> {
    let alloc = rt.alloc();
    let book = three_rows(alloc)?;
    let wide = book.widen(gap(45)?).ok().ok_or("a wide book")?;
    assert!(rt; have_two_gaps(&book, &wide) && have_two_gaps(&wide, &book));
    assert!(rt; !book.same(&wide));
    assert!(rt; is_shown(alloc, &book, THREE));
    assert!(rt; is_shown(alloc, &wide, WIDE));
    Ok(())
}

/// The book of another frame of the same key, which RX2 heard 130 seconds after the first, under
/// this gap.
fn later_row<A: Allocator + Copy>(alloc: A, seconds: u64) -> Result<Book<A>, Fail> {
    let mut book = Book::with_gap(alloc, gap(seconds)?);
    let x = heard(130, b"RX2", &REPEATED)?;
    book.take(&x).ok().ok_or("memory")?;
    Ok(book)
}

/// The two books merged, and then widened.
fn merged_first<A: Allocator + Copy>(alloc: A) -> Result<Book<A>, Fail> {
    let book = three_rows(alloc)?;
    let both = book.merge(&later_row(alloc, 30)?).ok().ok_or("a merge")?;
    Ok(both.widen(gap(45)?).ok().ok_or("a wide book")?)
}

/// The two books widened, and then merged.
fn widened_first<A: Allocator + Copy>(alloc: A) -> Result<Book<A>, Fail> {
    let wide = three_rows(alloc)?
        .widen(gap(45)?)
        .ok()
        .ok_or("a wide book")?;
    Ok(wide.merge(&later_row(alloc, 45)?).ok().ok_or("a merge")?)
}

#[test]
fn widening_and_merging_change_places(rt: HostRuntime) -> Result<(), Fail> {
    let alloc = rt.alloc();
    let first = merged_first(alloc)?;
    let second = widened_first(alloc)?;
    assert!(rt; first.same(&second));
    assert!(rt; is_shown(alloc, &first, "0-130 RX1 RX2 / RX2 6e; "));
    Ok(())
}

/// The texts of the book of three rows and of its one under a gap of 45 seconds.
const THREE_TEXT: &[u8] = b"APRSBOOK 3 30
T 2024-05-01T12:00:00.000Z 2024-05-01T12:00:00.000Z RX1 RX1 82a0a4a64040e09c60868298986f03f03e4869
T 2024-05-01T12:00:45.000Z 2024-05-01T12:00:45.000Z RX2 RX2 82a0a4a64040e09c60868298986f03f03e4869
T 2024-05-01T12:01:30.000Z 2024-05-01T12:01:30.000Z RX1 RX1 82a0a4a64040e09c60868298986f03f03e4869
END 3
";

const WIDE_TEXT: &[u8] = b"APRSBOOK 3 45
T 2024-05-01T12:00:00.000Z 2024-05-01T12:01:30.000Z RX1,RX2 RX1 \
    82a0a4a64040e09c60868298986f03f03e4869
END 1
";

/// A log of the same receptions.
const THREE_LOG: &[u8] = b"2024-05-01T12:00:00Z RX1 c00082a0a4a64040e09c60868298986f03f03e4869c0
2024-05-01T12:00:45Z RX2 c00082a0a4a64040e09c60868298986f03f03e4869c0
2024-05-01T12:01:30Z RX1 c00082a0a4a64040e09c60868298986f03f03e4869c0
";

/// What widening an input writes, and its answer.
fn widened<A: Allocator + Copy>(
    out: Global,
    alloc: A,
    input: &[u8],
    gap: Gap,
) -> (Vec<u8>, Result<(), RunFault>) {
    let mut w = Counted::new(Vec::new(out));
    let run = widen_run(alloc, MAX_INPUT, gap, &mut Counted::new(input), &mut w);
    (w.into_inner(), run)
}

#[test]
fn texts_are_widened(rt: HostRuntime) -> Result<(), Fail> {
    let alloc = rt.alloc();
    const CASES: &[(&[u8], u64, &[u8])] = &[
        (THREE_TEXT, 30, THREE_TEXT),
        (THREE_TEXT, 45, WIDE_TEXT),
        (WIDE_TEXT, 45, WIDE_TEXT),
        (THREE_LOG, 45, WIDE_TEXT),
        (THREE_LOG, 30, THREE_TEXT),
    ];
    for &(input, seconds, text) in CASES {
        let (written, run) = widened(alloc, alloc, input, gap(seconds)?);
        assert!(rt; run.is_ok());
        assert!(rt; written.as_slice() == text);
    }
    Ok(())
}

#[test]
fn a_text_is_not_narrowed(rt: HostRuntime) -> Result<(), Fail> {
    let alloc = rt.alloc();
    let (written, run) = widened(alloc, alloc, WIDE_TEXT, gap(44)?);
    assert!(rt; written.is_empty());
    let Err(fault) = run else {
        return Err("a fault".into());
    };
    assert!(rt;
        matches!(
            &fault,
            RunFault::Input {
                index: 0,
                fault: InputFault::Narrower
            }
        )
    );
    assert!(rt; status_of(&fault) == 1);
    Ok(())
}

/// Whether the desk does not take this input since its gap is another.
fn is_of_another_gap(desk: &mut Desk, input: &[u8]) -> bool {
    matches!(
        &desk.take_input(&mut Counted::new(input)),
        Err(InputFault::OtherGap)
    )
}

#[test]
fn a_desk_takes_no_book_of_another_gap(rt: HostRuntime) {
    let alloc = rt.alloc();
    let mut desk = Desk::new(alloc, MAX_INPUT);
    assert!(rt; desk.take_input(&mut Counted::new(THREE_LOG)).is_ok());
    assert!(rt; is_of_another_gap(&mut desk, WIDE_TEXT));
    assert!(rt; is_shown(alloc, desk.book(), THREE));
    // a fault of the text itself comes first
    let taken = desk.take_input(&mut Counted::new(&WIDE_TEXT[..20]));
    assert!(rt; matches!(&taken, Err(InputFault::Book(fault)) if fault.cause == BookCause::Ending));
    assert!(rt; is_shown(alloc, desk.book(), THREE));
}

#[test]
fn a_desk_has_its_gap(rt: HostRuntime) -> Result<(), Fail> {
    let alloc = rt.alloc();
    let mut desk = Desk::with_gap(alloc, MAX_INPUT, gap(45)?);
    const INPUTS: &[&[u8]] = &[THREE_LOG, WIDE_TEXT];
    for &input in INPUTS {
        assert!(rt; desk.take_input(&mut Counted::new(input)).is_ok());
        assert!(rt; is_shown(alloc, desk.book(), WIDE));
    }
    assert!(rt; is_of_another_gap(&mut desk, THREE_TEXT));
    Ok(())
}

/// The number of the input whose gap is another, for a merge under this gap that writes nothing.
fn refused_input(alloc: Global, seconds: u64) -> Result<Option<usize>, Fail> {
    let mut inputs = [Counted::new(THREE_TEXT), Counted::new(WIDE_TEXT)];
    let mut w = Counted::new(Vec::new(alloc));
    let run = merge_run(
        alloc,
        MAX_INPUT,
        gap(seconds)?,
        inputs.as_mut_slice(),
        &mut w,
    );
    match run {
        Err(
            RunFault::Input {
                index,
                fault: InputFault::OtherGap,
            },
        ) if w.into_inner().is_empty() => Ok(Some(index)),
        _ => Ok(None),
    }
}

#[test]
fn the_first_input_of_another_gap_is_reported(rt: HostRuntime) -> Result<(), Fail> {
    assert!(rt; refused_input(rt.alloc(), 30)? == Some(1));
    assert!(rt; refused_input(rt.alloc(), 45)? == Some(0));
    Ok(())
}

/// Whether the book under this gap has one row, or nothing where it is not widened.
fn is_wide(alloc: Global, book: &Book<&Bump>, gap: Gap) -> Option<bool> {
    let wide = book.widen(gap).ok()?;
    Some(is_shown(alloc, &wide, WIDE))
}

/// Whether a book is not widened with so many units of room. Then it is as before, and with room
/// again it is widened.
fn is_refused(alloc: Global, units: usize) -> Result<bool, Fail> {
    let bump = Bump::try_with_capacity(alloc, 65_536)?;
    let book = three_rows(&bump)?;
    let gap = gap(45)?;
    let _fill = squeeze(&bump, units)?;
    let answer = is_wide(alloc, &book, gap);
    bump.set_allocation_limit(None);
    match (answer, is_wide(alloc, &book, gap)) {
        (Some(true), Some(true)) => Ok(false),
        (None, Some(true)) if is_shown(alloc, &book, THREE) => Ok(true),
        _ => Err("other rows".into()),
    }
}

#[test]
fn widening_is_refused_for_memory(rt: HostRuntime) -> Result<(), Fail> {
    let mut refused = 0u64;
    let mut granted = 0u64;
    for units in 0..256usize {
        if is_refused(rt.alloc(), units)? {
            refused = refused.saturating_add(1);
        } else {
            granted = granted.saturating_add(1);
        }
    }
    assert!(rt; refused > 0 && granted > 0);
    Ok(())
}

/// Whether a widening that went well wrote its text, and one that was refused memory wrote nothing.
fn is_all_or_nothing(written: &[u8], run: &Result<(), RunFault>) -> bool {
    match run {
        Ok(()) => written == WIDE_TEXT,
        Err(fault) => written.is_empty() && status_of(fault) == 4,
    }
}

// The input's book is refused first, and then the wide one.
#[test]
fn a_widening_run_is_refused_for_memory(rt: HostRuntime) -> Result<(), Fail> {
    let alloc = rt.alloc();
    let gap = gap(45)?;
    let (mut granted, mut wide_refused, mut input_refused) = (false, false, false);
    for units in 0..512usize {
        let bump = arena(alloc, units)?;
        let (written, run) = widened(alloc, &bump, THREE_TEXT, gap);
        match &run {
            Ok(()) => granted = true,
            Err(RunFault::Memory) => wide_refused = true,
            Err(_) => input_refused = true,
        }
        assert!(rt; is_all_or_nothing(written.as_slice(), &run));
    }
    assert!(rt; granted && wide_refused && input_refused);
    Ok(())
}
