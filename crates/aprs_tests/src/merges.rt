//! Merges, and the inputs of one.
ghost use Rattle.std.specs.Prelude.{◌≤◌};

use aprs_book::Gap;
use aprs_booktext::{BookCause, BookFault, write_book};
use aprs_fixtures::{DIRECT_TEXT, EMPTY_TEXT, FIRST_LINE, MERGED_TEXT, ONE_LINE};
use aprs_kiss::Counted;
use aprs_log::{LogCause, LogFault, MAX_INPUT};
use aprs_tool::{Desk, InputFault, RunFault, merge_run, read_input, show_run, status_of};
use std::alloc::Global;
use std::io::{self, Read};
use std::test::Fail;

/// Logs of one line each: a frame at the first moment, and the same frame in the last second. The
/// third has one that came over a digipeater half a minute after the first moment.
const FIRST: &[u8] = b"1970-01-01T00:00:00Z RX1 c00082a0a4a64040e09c60868298986f03f03e4869c0\n";

const LAST: &[u8] = b"2099-12-31T23:59:59Z RX2 c00082a0a4a64040e09c60868298986f03f03e4869c0\n";

const NEAR: &[u8] =
    b"1970-01-01T00:00:30Z RX2 c00082a0a4a64040e09c60868298986eae92888a6240e303f03e4869c0\n";

/// What a merge writes, if it goes well.
fn merged(alloc: Global, texts: &[&[u8]]) -> Option<Vec<u8>> {
    let mut inputs = Vec::new(alloc);
    for text in texts {
        inputs.push(Counted::new(*text)).ok()?;
    }
    let mut w = Counted::new(Vec::new(alloc));
    match merge_run(
        alloc,
        MAX_INPUT,
        Gap::STANDARD,
        inputs.as_mut_slice(),
        &mut w,
    ) {
        Ok(()) => Some(w.into_inner()),
        Err(_) => None,
    }
}

/// Whether a merge of these goes well and writes this text.
pub fn is_merged_to(alloc: Global, texts: &[&[u8]], text: &[u8]) -> bool {
    matches!(&merged(alloc, texts), Some(written) if written.as_slice() == text)
}

#[test]
fn books_are_written(rt: HostRuntime) {
    let alloc = rt.alloc();
    assert!(rt; is_merged_to(alloc, &[ONE_LINE], DIRECT_TEXT));
    assert!(rt; is_merged_to(alloc, &[b"".as_slice()], EMPTY_TEXT));
    assert!(rt; is_merged_to(alloc, &[EMPTY_TEXT, EMPTY_TEXT], EMPTY_TEXT));
    const ORDERS: &[[&[u8]; 3]] = &[
        [FIRST, LAST, NEAR],
        [FIRST, NEAR, LAST],
        [LAST, FIRST, NEAR],
        [LAST, NEAR, FIRST],
        [NEAR, FIRST, LAST],
        [NEAR, LAST, FIRST],
    ];
    for texts in ORDERS {
        assert!(rt; is_merged_to(alloc, texts, MERGED_TEXT));
    }
    assert!(rt; is_merged_to(alloc, &[FIRST, LAST, FIRST, NEAR], MERGED_TEXT));
}

#[test]
fn a_merged_book_is_merged_with_a_log(rt: HostRuntime) -> Result<(), Fail> {
    let both = merged(rt.alloc(), &[FIRST, LAST]).ok_or("a merge")?;
    assert!(rt; is_merged_to(rt.alloc(), &[both.as_slice(), NEAR], MERGED_TEXT));
    Ok(())
}

/// The line and the name of the cause of an input's fault.
fn line_and_name(fault: &InputFault) -> Option<(u64, &'static str)> {
    match fault {
        InputFault::Log(fault) => Some((fault.line, fault.cause.name())),
        InputFault::Book(fault) => Some((fault.line, fault.cause.name())),
        InputFault::Memory | InputFault::OtherGap | InputFault::Narrower => None,
    }
}

/// The index, the line and the name of the cause of the fault of a merge or a listing of two
/// inputs, and its status, where nothing is written.
fn refusal(
    alloc: Global,
    first: &[u8],
    second: &[u8],
    is_listing: bool,
) -> Option<(usize, u64, &'static str, u8)> {
    let mut inputs = [Counted::new(first), Counted::new(second)];
    let mut w = Counted::new(Vec::new(alloc));
    let run = if is_listing {
        show_run(alloc, MAX_INPUT, Gap::STANDARD, &mut inputs, &mut w)
    } else {
        merge_run(alloc, MAX_INPUT, Gap::STANDARD, &mut inputs, &mut w)
    };
    let Err(fault) = run else {
        return None;
    };
    let status = status_of(&fault);
    match fault {
        RunFault::Input { index, fault } if w.into_inner().is_empty() => {
            let (line, name) = line_and_name(&fault)?;
            Some((index, line, name, status))
        }
        _ => None,
    }
}

/// A log whose third line is faulty.
const FAULTY: &[u8] = b"2024-05-01T12:00:00Z RX1 c00082a0a4a64040e09c60868298986f03f03e4869c0
2024-05-01T12:00:00Z RX1 c00082a0a4a64040e09c60868298986f03f03e4869c0
2024-05-01T12:00:00Z RX1 zz
";

#[test]
fn a_faulty_input_writes_nothing(rt: HostRuntime) {
    const CASES: &[(&[u8], &[u8], u64, &str)] = &[
        (DIRECT_TEXT, FAULTY, 3, "Hex"),
        (ONE_LINE, FIRST_LINE, 1, "NoNewline"),
    ];
    for &(first, second, line, name) in CASES {
        for is_listing in [false, true] {
            let refusal = refusal(rt.alloc(), first, second, is_listing);
            assert!(rt; refusal == Some((1, line, name, 1)));
        }
    }
}

/// The line and the name of the cause of the fault of an input under a limit, if it has one.
fn fault_within(alloc: Global, limit: u64, input: &[u8]) -> Option<(u64, &'static str)>
    requires { limit ≤ 1073741824 }
{
    match read_input(alloc, limit, Gap::STANDARD, &mut Counted::new(input)) {
        Ok(_) => None,
        Err(fault) => line_and_name(&fault),
    }
}

#[test]
fn short_inputs_are_logs(rt: HostRuntime) {
    assert!(rt; fault_within(rt.alloc(), MAX_INPUT, b"").is_none());
    for size in 1..8usize {
        let short = fault_within(rt.alloc(), MAX_INPUT, &DIRECT_TEXT[..size]);
        assert!(rt; short == Some((1, "NoNewline")));
        let long = fault_within(rt.alloc(), size as u64, DIRECT_TEXT);
        assert!(rt; long == Some((1, "TooLong")));
    }
}

#[test]
fn eight_bytes_say_what_an_input_is(rt: HostRuntime) {
    let log = fault_within(rt.alloc(), MAX_INPUT, b"APRS\nBO");
    assert!(rt; log == Some((1, "Moment")));
    let book = fault_within(rt.alloc(), MAX_INPUT, &DIRECT_TEXT[..8]);
    assert!(rt; book == Some((1, "Ending")));
}

/// A reader that gives one byte a call, and then fails, once.
#[derive(Drop)]
struct FailingOnce<'a> {
    bytes: &'a [u8],
    failed: bool,
}

impl Read for FailingOnce<'_> {
    fn read(&mut self, buf: &mut [u8]) -> io::Result<usize> {
        let n = buf.len().min(self.bytes.len()).min(1);
        if n == 0 && !buf.is_empty() && !self.failed {
            self.failed = true;
            return Err(io::Error::from(io::ErrorKind::Other));
        }
        let (given, rest) = self.bytes.split_at(n);
        buf[..n].copy_from_slice(given);
        self.bytes = rest;
        Ok(n)
    }
}

/// Whether a failed read of a book file or of a log is all that is wrong with these first bytes.
fn is_failed(alloc: Global, bytes: &[u8], is_book: bool) -> bool {
    let mut r = Counted::new(FailingOnce {
        bytes,
        failed: false,
    });
    let is_right = match read_input(alloc, MAX_INPUT, Gap::STANDARD, &mut r) {
        Err(InputFault::Book(fault)) => is_book && fault.cause == BookCause::Read,
        Err(InputFault::Log(fault)) => !is_book && fault.cause == LogCause::Read,
        _ => false,
    };
    is_right && r.failures() == 1
}

#[test]
fn a_reader_fails_at_each_byte(rt: HostRuntime) {
    for good in 0..=DIRECT_TEXT.len() {
        assert!(rt; is_failed(rt.alloc(), &DIRECT_TEXT[..good], good >= 8));
    }
    for good in 0..=ONE_LINE.len() {
        assert!(rt; is_failed(rt.alloc(), &ONE_LINE[..good], false));
    }
}

#[test]
fn a_desk_keeps_its_book_after_a_fault(rt: HostRuntime) -> Result<(), Fail> {
    let alloc = rt.alloc();
    let mut desk = Desk::new(alloc, MAX_INPUT);
    const TEXTS: &[&[u8]] = &[DIRECT_TEXT, b"APRSBOOK 9\n", ONE_LINE, b"x\n"];
    for &text in TEXTS {
        let _ = desk.take_input(&mut Counted::new(text));
        assert!(rt; desk.book().len() == 1);
    }
    let mut out = Counted::new(Vec::new(alloc));
    assert!(rt; write_book(&mut out, &desk.into_book()).is_ok());
    assert!(rt; out.into_inner().as_slice() == DIRECT_TEXT);
    Ok(())
}

/// The status of a run that ends at an input with this fault.
fn status(fault: InputFault) -> u8 {
    status_of(&RunFault::Input { index: 0, fault })
}

/// The same of a fault in the first line of a book file.
fn book_status(cause: BookCause) -> u8 {
    status(InputFault::Book(BookFault { line: 1, cause }))
}

#[test]
fn statuses_of_inputs(rt: HostRuntime) {
    let cause = LogCause::Memory;
    assert!(rt; status(InputFault::Memory) == 4);
    assert!(rt; status(InputFault::OtherGap) == 1 && status(InputFault::Narrower) == 1);
    assert!(rt; status(InputFault::Log(LogFault { line: 1, cause })) == 4);
    assert!(rt; book_status(BookCause::Memory) == 4 && book_status(BookCause::Read) == 1);
}
