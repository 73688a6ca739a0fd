//! Logs to their end or their first fault.

use aprs_fixtures::{Failing, LOG};
use aprs_kiss::Counted;
use aprs_log::{Line, LogCause, LogFault, LogReader, MAX_INPUT};
use std::io::Read;

/// A reader that gives all its bytes, one a call.
fn slowly(bytes: &[u8]) -> Counted<Failing<'_>> {
    Counted::new(Failing {
        bytes,
        most: 1,
        good: usize::MAX,
    })
}

/// Whether so many lines are heard, and after them this comes twice.
fn ends_with<R: Read>(
    reader: &mut LogReader<'_, R>,
    lines: u64,
    end: Option<(u64, LogCause)>,
) -> bool {
    for _ in 0..lines {
        if !matches!(&reader.next(), Ok(Some(Line::Heard(_)))) {
            return false;
        }
    }
    reader.line() == lines && is_at(reader, end) && is_at(reader, end)
}

/// Whether the end comes next, or this fault.
fn is_at<R: Read>(reader: &mut LogReader<'_, R>, end: Option<(u64, LogCause)>) -> bool {
    match (reader.next(), end) {
        (Ok(None), None) => true,
        (Err(fault), Some((line, cause))) => fault == LogFault { line, cause },
        _ => false,
    }
}

#[test]
fn a_reader_fails_at_each_byte(rt: HostRuntime) {
    for good in 0..LOG.len() {
        let mut device = Counted::new(Failing {
            bytes: LOG,
            most: 64,
            good,
        });
        let mut reader = LogReader::new(rt.alloc(), MAX_INPUT, b"", &mut device);
        let lines = good as u64 / 74;
        let is_right = ends_with(&mut reader, lines, Some((lines + 1, LogCause::Read)));
        assert!(rt; is_right && reader.failures() == 1, "at {good}");
    }
}

#[test]
fn logs_that_end(rt: HostRuntime) {
    const CASES: &[(u64, usize, usize, u64, Option<(u64, LogCause)>)] = &[
        (148, 0, 148, 2, None),
        (148, 8, 148, 2, None),
        (74, 0, 148, 1, Some((2, LogCause::TooLong))),
        (73, 0, 74, 0, Some((1, LogCause::TooLong))),
        (148, 0, 147, 1, Some((2, LogCause::NoNewline))),
        (148, 0, 74, 1, None),
        (0, 0, 0, 0, None),
    ];
    for &(limit, head, input, lines, end) in CASES {
        let mut device = slowly(&LOG[head..input]);
        let mut reader = LogReader::new(rt.alloc(), limit, &LOG[..head], &mut device);
        let is_right = ends_with(&mut reader, lines, end);
        assert!(rt; is_right && reader.failures() == 0, "{limit} {input}");
    }
}
