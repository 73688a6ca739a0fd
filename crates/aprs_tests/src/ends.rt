//! Inputs whose device gives nothing once, and then more bytes or a fault: it isn't asked again.

use crate::pieces::{RUNS, writes};
use crate::refused_runs::MERGED_LISTING;
use aprs_book::Gap;
use aprs_booktext::{BookCause, read_book};
use aprs_fixtures::{
    DIRECT_TEXT, EMPTY_TEXT, FIRST_LINE, Growing, MERGED_TEXT, ONE_LINE, THREE_LINES, is_written_as,
};
use aprs_log::MAX_INPUT;
use aprs_tool::{Counted, Desk, merge_run, read_input, show_run, widen_run};
use std::alloc::Global;

/// What comes after the end: nothing but a fault, or another line.
const MORE: &[&[u8]] = &[b"", ONE_LINE];

/// Inputs, and the text of the book of each, if it has no fault.
const INPUTS: &[(&[u8], Option<&[u8]>)] = &[
    (b"", Some(EMPTY_TEXT)),
    (b"2024", None),
    (ONE_LINE, Some(DIRECT_TEXT)),
    (FIRST_LINE, None),
    (THREE_LINES, Some(MERGED_TEXT)),
    (MERGED_TEXT, Some(MERGED_TEXT)),
    (b"APRSBOOK 3 30\n", None),
];

/// A device that goes on after its end.
fn growing<'a>(bytes: &'a [u8], more: &'a [u8]) -> Counted<Growing<'a>> {
    Counted::new(Growing::new(bytes, more))
}

/// Whether a device was asked for nothing after its end, to which it came.
fn is_asked_once(r: Counted<Growing<'_>>) -> bool {
    let device = r.into_inner();
    device.is_past && device.again == 0
}

#[test]
fn a_conversion_ends_at_the_first_end(rt: HostRuntime) {
    for &(run, input, text) in RUNS {
        for &more in MORE {
            let mut r = growing(input, more);
            assert!(rt; writes(rt.alloc(), rt.alloc(), run, &mut r, text));
            assert!(rt; is_asked_once(r));
        }
    }
}

/// Whether an input is read as this book, or refused where there is none.
fn is_read_as(alloc: Global, input: &[u8], more: &[u8], text: Option<&[u8]>) -> bool {
    let mut r = growing(input, more);
    let is_right = match (read_input(alloc, MAX_INPUT, Gap::STANDARD, &mut r), text) {
        (Ok(book), Some(text)) => is_written_as(alloc, &book, text),
        (Ok(_), None) | (Err(_), Some(_)) => false,
        (Err(_), None) => true,
    };
    is_right && is_asked_once(r)
}

#[test]
fn a_book_is_read_to_the_first_end(rt: HostRuntime) {
    for &(input, text) in INPUTS {
        for &more in MORE {
            assert!(rt; is_read_as(rt.alloc(), input, more, text));
        }
    }
}

/// Whether a desk takes an input to its first end, and has this book then.
fn is_taken_as(alloc: Global, input: &[u8], more: &[u8], text: Option<&[u8]>) -> bool {
    let mut r = growing(input, more);
    let mut desk = Desk::new(alloc, MAX_INPUT);
    let is_taken = desk.take_input(&mut r).is_ok();
    is_taken == text.is_some()
        && is_written_as(alloc, &desk.into_book(), text.unwrap_or(EMPTY_TEXT))
        && is_asked_once(r)
}

#[test]
fn a_desk_takes_an_input_to_its_first_end(rt: HostRuntime) {
    for &(input, text) in INPUTS {
        for &more in MORE {
            assert!(rt; is_taken_as(rt.alloc(), input, more, text));
        }
    }
}

/// The cause why what a device gives up to its end is no book.
fn cause_of(alloc: Global, r: &mut Counted<Growing<'_>>) -> Option<BookCause> {
    match read_book(alloc, MAX_INPUT, b"", r) {
        Ok(_) => None,
        Err(fault) => Some(fault.cause),
    }
}

#[test]
fn a_book_file_ends_at_the_first_end(rt: HostRuntime) {
    let cut = &MERGED_TEXT[..MERGED_TEXT.len() - 1];
    for &more in [b"\n".as_slice(), b""].as_slice() {
        let mut r = growing(MERGED_TEXT, more);
        assert!(rt; cause_of(rt.alloc(), &mut r).is_none());
        assert!(rt; is_asked_once(r));
        let mut r = growing(cut, more);
        assert!(rt; cause_of(rt.alloc(), &mut r) == Some(BookCause::Ending));
        assert!(rt; is_asked_once(r));
    }
}

/// Whether two inputs are merged, or listed, to their first ends.
fn is_gathered(alloc: Global, is_listing: bool, more: &[u8]) -> bool {
    let mut inputs = [growing(THREE_LINES, more), growing(MERGED_TEXT, more)];
    let mut w = Counted::new(Vec::new(alloc));
    let (gap, all) = (Gap::STANDARD, inputs.as_mut_slice());
    let (run, text) = if is_listing {
        (show_run(alloc, MAX_INPUT, gap, all, &mut w), MERGED_LISTING)
    } else {
        (merge_run(alloc, MAX_INPUT, gap, all, &mut w), MERGED_TEXT)
    };
    let [first, second] = inputs;
    run.is_ok()
        && w.into_inner().as_slice() == text
        && is_asked_once(first)
        && is_asked_once(second)
}

#[test]
fn inputs_are_gathered_to_their_first_ends(rt: HostRuntime) {
    for is_listing in [false, true] {
        for &more in MORE {
            assert!(rt; is_gathered(rt.alloc(), is_listing, more));
        }
    }
}

#[test]
fn a_book_is_widened_to_its_first_end(rt: HostRuntime) {
    for &more in MORE {
        let mut r = growing(MERGED_TEXT, more);
        let mut w = Counted::new(Vec::new(rt.alloc()));
        let run = widen_run(rt.alloc(), MAX_INPUT, Gap::STANDARD, &mut r, &mut w);
        assert!(rt; run.is_ok());
        assert!(rt; w.into_inner().as_slice() == MERGED_TEXT);
        assert!(rt; is_asked_once(r));
    }
}
