//! Folds of book files, and what of them is new to the first: what they take, and where memory or a
//! device fails.

use aprs_book::{Book, Gap};
use aprs_booktext::BookCause;
use aprs_fixtures::{
    DIRECT, EMPTY_TEXT, Failing, MERGED_TEXT, Tight, arena, callsign, heard, line_after, text_of,
};
use aprs_kiss::Counted;
use aprs_tool::{
    InputFault, MAX_BOOK, RunFault, SourceRange, check_books_run, fold_range_run, fold_run,
    news_run, status_of,
};
use linked_list_allocator::LocalHeap;
use std::alloc::{Allocator, Global};
use std::io::{Read, Write};
use std::test::Fail;

/// A reader that gives all its bytes, or so many of them before it fails, some at a time.
fn reader(bytes: &[u8], most: usize, good: usize) -> Counted<Failing<'_>> {
    Counted::new(Failing { bytes, most, good })
}

/// A run over several book files.
#[derive(Clone, Copy)]
enum Run {
    /// Their fold.
    Fold,
    /// What of it is new to the first.
    News,
}

impl Run {
    /// Runs over these inputs into this output.
    fn over<R: Read, W: Write, A: Allocator + Copy>(
        self,
        alloc: A,
        inputs: &mut [Counted<R>],
        w: &mut Counted<W>,
    ) -> Result<(), RunFault> {
        match self {
            Run::Fold => fold_run(alloc, MAX_BOOK, Gap::STANDARD, inputs, w),
            Run::News => {
                news_run(
                    alloc,
                    MAX_BOOK,
                    Gap::STANDARD,
                    &SourceRange::all(),
                    inputs,
                    w,
                )
            }
        }
    }
}

/// The text of a book of transmissions from one minute until another, one a minute.
fn minutes(alloc: Global, from: u64, until: u64) -> Result<Vec<u8>, Fail> {
    let mut book = Book::new(alloc);
    for minute in from..until {
        let x = heard(minute.saturating_mul(60), b"RX1", &DIRECT)?;
        book.take(&x).ok().ok_or("memory")?;
    }
    text_of(alloc, &book)
}

/// Whether a heap of so many bytes has room for the fold of a book with itself, or for what of it
/// is new, which is nothing. Its lines come in parts.
fn is_enough(alloc: Global, run: Run, size: usize, text: &[u8]) -> Result<bool, Fail> {
    let heap = LocalHeap::new(alloc, size)?;
    let mut inputs = [reader(text, 64, usize::MAX), reader(text, 64, usize::MAX)];
    let mut w = Counted::new(Vec::new(alloc));
    let wanted = match run {
        Run::Fold => text,
        Run::News => EMPTY_TEXT,
    };
    let outcome = run.over(&heap, inputs.as_mut_slice(), &mut w);
    Ok(outcome.is_ok() && w.into_inner().as_slice() == wanted)
}

/// Halves of 512, down to 1.
const STEPS: &[usize] = &[256, 128, 64, 32, 16, 8, 4, 2, 1];

/// The least heap that is enough, of those with 512 to 1,022 units of 64 bytes. What is enough
/// stays so where there is more.
fn least(alloc: Global, run: Run, text: &[u8]) -> Result<usize, Fail> {
    let mut short = 511usize;
    for &step in STEPS {
        let more = short.saturating_add(step);
        if !is_enough(alloc, run, more.saturating_mul(64), text)? {
            short = more;
        }
    }
    let size = short.saturating_add(1).saturating_mul(64);
    if !is_enough(alloc, run, size, text)? {
        return Err("no heap is enough".into());
    }
    Ok(size)
}

#[test]
fn ten_thousand_rows_take_what_a_hundred_take(rt: HostRuntime) -> Result<(), Fail> {
    let few = minutes(rt.alloc(), 0, 100)?;
    let many = minutes(rt.alloc(), 0, 10_000)?;
    for run in [Run::Fold, Run::News] {
        let size = least(rt.alloc(), run, few.as_slice())?;
        assert!(rt; is_enough(rt.alloc(), run, size, many.as_slice())?);
    }
    Ok(())
}

/// Whether this is the merged book's text without its end, or less, but more than nothing.
fn is_part(written: &[u8]) -> bool {
    !written.is_empty() && written.len() < MERGED_TEXT.len() && MERGED_TEXT.starts_with(written)
}

/// Whether a run is refused memory with so many units of 64 bytes of room. Then a part of the text
/// was written, and else all of it.
fn is_refused(alloc: Global, run: Run, units: usize) -> Result<bool, Fail> {
    let bump = arena(alloc, units)?;
    // The fold joins equal rows, and to an empty book all rows are new.
    let first = match run {
        Run::Fold => MERGED_TEXT,
        Run::News => EMPTY_TEXT,
    };
    let mut inputs = [Counted::new(first), Counted::new(MERGED_TEXT)];
    let mut w = Counted::new(Vec::new(alloc));
    let outcome = run.over(&bump, inputs.as_mut_slice(), &mut w);
    let written = w.into_inner();
    match outcome {
        Ok(()) if written.as_slice() == MERGED_TEXT => Ok(false),
        Err(fault) if status_of(&fault) == 4 && is_part(written.as_slice()) => Ok(true),
        _ => Err("another output or status".into()),
    }
}

#[test]
fn folds_write_a_part_where_memory_is_refused(rt: HostRuntime) -> Result<(), Fail> {
    for run in [Run::Fold, Run::News] {
        let mut refused = 0usize;
        while refused < 1024 && is_refused(rt.alloc(), run, refused)? {
            refused = refused.saturating_add(1);
        }
        assert!(rt; refused > 512 && refused < 1024);
    }
    Ok(())
}

/// The line of a failed read of the second input.
fn line_of(run: &Result<(), RunFault>) -> Option<u64> {
    match run {
        Err(
            RunFault::Input {
                index: 1,
                fault: InputFault::Book(fault),
            },
        ) => { (fault.cause == BookCause::Read).then_some(fault.line) }
        _ => None,
    }
}

/// Whether a run over this text and another ends at its second input, which fails after so many
/// bytes: at its line, asked once, and with a part written.
fn is_ended_after(alloc: Global, run: Run, first: &[u8], good: usize) -> bool {
    let mut inputs = [reader(first, 7, usize::MAX), reader(MERGED_TEXT, 7, good)];
    let mut w = Counted::new(Vec::new(alloc));
    let outcome = run.over(alloc, inputs.as_mut_slice(), &mut w);
    let is_at = line_of(&outcome) == Some(line_after(MERGED_TEXT, good));
    is_at && inputs[1].failures() == 1 && is_part(w.into_inner().as_slice())
}

/// Whether of a run so many bytes are written where the output takes no more.
fn is_written_up_to(alloc: Global, run: Run, room: usize) -> bool {
    let mut inputs = [Counted::new(EMPTY_TEXT), Counted::new(MERGED_TEXT)];
    let mut w = Counted::new(Tight {
        bytes: Vec::new(alloc),
        room,
    });
    let outcome = run.over(alloc, inputs.as_mut_slice(), &mut w);
    let is_refused = matches!(&outcome, Err(RunFault::Write)) && w.failures() == 1;
    is_refused && MERGED_TEXT.get(..room) == Some(w.into_inner().bytes.as_slice())
}

#[test]
fn folds_end_at_each_byte_of_a_device(rt: HostRuntime) {
    for good in 0..MERGED_TEXT.len() {
        assert!(rt;
            is_ended_after(rt.alloc(), Run::Fold, MERGED_TEXT, good),
            "{good}"
        );
        assert!(rt;
            is_ended_after(rt.alloc(), Run::News, MERGED_TEXT, good),
            "{good}"
        );
        assert!(rt;
            is_ended_after(rt.alloc(), Run::News, EMPTY_TEXT, good),
            "{good}"
        );
        assert!(rt; is_written_up_to(rt.alloc(), Run::Fold, good), "{good}");
        assert!(rt; is_written_up_to(rt.alloc(), Run::News, good), "{good}");
    }
}

/// Which of two inputs, each without its last byte, a check refuses.
fn refused_of(alloc: Global, first: &[u8], other: &[u8]) -> Option<usize> {
    let mut inputs = [
        Counted::new(first.split_last()?.1),
        Counted::new(other.split_last()?.1),
    ];
    match check_books_run(alloc, MAX_BOOK, Gap::STANDARD, inputs.as_mut_slice()) {
        Err(RunFault::Input { index, .. }) => Some(index),
        _ => None,
    }
}

#[test]
fn a_check_refuses_what_a_fold_comes_to_first(rt: HostRuntime) -> Result<(), Fail> {
    let (late, early) = (minutes(rt.alloc(), 0, 9)?, minutes(rt.alloc(), 0, 3)?);
    let (late, early) = (late.as_slice(), early.as_slice());
    assert!(rt; refused_of(rt.alloc(), late, early) == Some(1));
    assert!(rt; refused_of(rt.alloc(), early, late) == Some(0));
    Ok(())
}

/// What a run writes of two texts, in memory for any.
fn written(alloc: Global, run: Run, first: &[u8], other: &[u8]) -> Result<Vec<u8>, Fail> {
    let mut inputs = [Counted::new(first), Counted::new(other)];
    let mut w = Counted::new(Vec::new(alloc));
    if run.over(alloc, inputs.as_mut_slice(), &mut w).is_err() {
        return Err("the run fails".into());
    }
    Ok(w.into_inner())
}

#[test]
fn news_are_what_the_first_lacks(rt: HostRuntime) -> Result<(), Fail> {
    let old = minutes(rt.alloc(), 0, 1_000)?;
    let other = minutes(rt.alloc(), 500, 1_500)?;
    let news = written(rt.alloc(), Run::News, old.as_slice(), other.as_slice())?;
    assert!(rt; news == minutes(rt.alloc(), 1_000, 1_500)?);
    let whole = written(rt.alloc(), Run::Fold, old.as_slice(), news.as_slice())?;
    assert!(rt; whole == minutes(rt.alloc(), 0, 1_500)?);
    Ok(())
}

/// Whether of the merged book, whose rows are all of N0CALL-7, this text is written between these
/// sources.
fn is_written_within(alloc: Global, range: &SourceRange, text: &[u8]) -> bool {
    let mut inputs = [Counted::new(MERGED_TEXT), Counted::new(EMPTY_TEXT)];
    let mut w = Counted::new(Vec::new(alloc));
    let run = fold_range_run(
        alloc,
        MAX_BOOK,
        Gap::STANDARD,
        range,
        inputs.as_mut_slice(),
        &mut w,
    );
    run.is_ok() && w.into_inner().as_slice() == text
}

/// The range from this source until that one.
fn between(from: &[u8], until: &[u8]) -> Result<SourceRange, Fail> {
    Ok(SourceRange {
        from: Some(callsign(from)?),
        until: Some(callsign(until)?),
    })
}

#[test]
fn folds_of_ranges_are_whole_books(rt: HostRuntime) -> Result<(), Fail> {
    let with = between(b"N0CALL-7", b"N0CALL-8")?;
    let before = between(b"A", b"N0CALL-7")?;
    assert!(rt; is_written_within(rt.alloc(), &with, MERGED_TEXT));
    assert!(rt; is_written_within(rt.alloc(), &before, EMPTY_TEXT));
    Ok(())
}
