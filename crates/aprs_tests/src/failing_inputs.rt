//! Merges and listings of several inputs, over devices that fail at each byte.

use aprs_book::Gap;
use aprs_booktext::BookCause;
use aprs_fixtures::{
    DIRECT_TEXT, Failing, LOG, MERGED_TEXT, ONE_LINE, THREE_LINES, Tight, line_after,
};
use aprs_kiss::Counted;
use aprs_log::{LogCause, MAX_INPUT};
use aprs_tool::{InputFault, RunFault, merge_run, show_run};
use std::alloc::Global;

/// A reader that gives all its bytes, or so many of them before it fails.
fn reader(bytes: &[u8], good: usize) -> Counted<Failing<'_>> {
    Counted::new(Failing {
        bytes,
        most: 7,
        good,
    })
}

/// Whether of a merge so many bytes are written where the output takes no more.
fn is_merged_up_to(alloc: Global, room: usize) -> bool {
    let mut inputs = [Counted::new(THREE_LINES), Counted::new(MERGED_TEXT)];
    let mut w = Counted::new(Tight {
        bytes: Vec::new(alloc),
        room,
    });
    let run = merge_run(
        alloc,
        MAX_INPUT,
        Gap::STANDARD,
        inputs.as_mut_slice(),
        &mut w,
    );
    let is_refused = matches!(&run, Err(RunFault::Write)) && w.failures() == 1;
    is_refused && MERGED_TEXT.get(..room) == Some(w.into_inner().bytes.as_slice())
}

#[test]
fn a_merge_is_written_up_to_a_refused_byte(rt: HostRuntime) {
    for room in 0..MERGED_TEXT.len() {
        assert!(rt; is_merged_up_to(rt.alloc(), room));
    }
}

/// The line of a failed read of the second input.
fn line_of(run: &Result<(), RunFault>) -> Option<u64> {
    match run {
        Err(RunFault::Input { index: 1, fault }) => match fault {
            InputFault::Log(fault) => (fault.cause == LogCause::Read).then_some(fault.line),
            InputFault::Book(fault) => (fault.cause == BookCause::Read).then_some(fault.line),
            InputFault::Memory | InputFault::OtherGap | InputFault::Narrower => None,
        },
        _ => None,
    }
}

/// Whether a run over three inputs ends at the second, which fails after so many bytes: at its
/// line, asked once, and with nothing written.
fn is_ended_by(alloc: Global, second: &[u8], good: usize, is_listing: bool) -> bool {
    let mut inputs = [
        reader(ONE_LINE, usize::MAX),
        reader(second, good),
        reader(MERGED_TEXT, usize::MAX),
    ];
    let mut w = Counted::new(Vec::new(alloc));
    let run = if is_listing {
        show_run(alloc, MAX_INPUT, Gap::STANDARD, &mut inputs, &mut w)
    } else {
        merge_run(alloc, MAX_INPUT, Gap::STANDARD, &mut inputs, &mut w)
    };
    let is_at = line_of(&run) == Some(line_after(second, good));
    is_at && inputs[1].failures() == 1 && w.into_inner().is_empty()
}

#[test]
fn the_second_of_three_inputs_fails_at_each_byte(rt: HostRuntime) {
    const SECOND: &[&[u8]] = &[LOG, DIRECT_TEXT];
    for &second in SECOND {
        for good in 0..=second.len() {
            assert!(rt; is_ended_by(rt.alloc(), second, good, false), "{good}");
            assert!(rt; is_ended_by(rt.alloc(), second, good, true), "{good}");
        }
    }
}
