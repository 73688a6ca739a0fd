//! Moments to the second and to the millisecond, in lines, words, rows and texts of books.

use crate::merges::is_merged_to;
use crate::runs::converted;
use aprs_ax25::Frame;
use aprs_book::Book;
use aprs_fixtures::{
    DIRECT, DIRECT_LINE, DIRECT_TEXT, EMPTY_TEXT, MERGED_TEXT, OLD_DIRECT_TEXT, OLD_EMPTY_TEXT,
    OLD_MERGED_TEXT, ONE_LINE, WRITTEN_LINE, fault_of, receiver,
};
use aprs_log::{Line, LineFault, LogCause, MAX_INPUT, Moment, MomentForm, Reception, read_line};
use aprs_tool::{Form, Job, JobFault, job};
use std::alloc::Global;
use std::test::Fail;

/// 2024-05-01T12:00:00Z, in milliseconds since 1970 began.
const NOON: u64 = 1_714_564_800_000;

#[test]
fn moments_at_their_limits(rt: HostRuntime) -> Result<(), Fail> {
    const CASES: &[(u64, &[u8; 24])] = &[
        (0, b"1970-01-01T00:00:00.000Z"),
        (1, b"1970-01-01T00:00:00.001Z"),
        (999, b"1970-01-01T00:00:00.999Z"),
        (1000, b"1970-01-01T00:00:01.000Z"),
        (NOON + 500, b"2024-05-01T12:00:00.500Z"),
        (4_102_444_799_999, b"2099-12-31T23:59:59.999Z"),
    ];
    for &(millis, text) in CASES {
        let moment = Moment::from_millis(millis).ok_or("a moment")?;
        assert!(rt; moment.millis() == millis && moment.seconds() == millis / 1000);
        assert!(rt; moment.text() == *text && Moment::parse(text) == Some(moment));
    }
    assert!(rt; Moment::from_millis(4_102_444_800_000).is_none());
    assert!(rt; Moment::from_millis(u64::MAX).is_none());
    assert!(rt; Moment::new(NOON / 1000) == Moment::from_millis(NOON));
    Ok(())
}

/// Texts that are almost a moment's, but no moment's.
const NO_MOMENTS: &[&[u8]] = &[
    b"2024-05-01T12:00:00.5Z",
    b"2024-05-01T12:00:00.50Z",
    b"2024-05-01T12:00:00.5000Z",
    b"2024-05-01T12:00:60.000Z",
    b"2024-05-01T24:00:00.000Z",
    b"2023-02-29T00:00:00.000Z",
    b"2100-01-01T00:00:00.000Z",
    b"1969-12-31T23:59:59.999Z",
    b"2024-05-01T12:00:00.Z",
    b"2024-05-01T12:00:00.000",
    b"2024-05-01T12:00:00.000z",
    b"2024-05-01T12:00:00,000Z",
    b"2024-05-01T12:00:00.0000",
    b"2024-05-01T12:00:00.-01Z",
    b"2024-05-01T12:00:00:000Z",
    b"2024-05-01T12:00:60Z",
    b"2023-02-29T00:00:00Z",
    b"2100-01-01T00:00:00Z",
    b"1969-12-31T23:59:59Z",
    b"2024-05-01t12:00:00Z",
];

/// Whether this text is a moment's, in this form alone.
fn is_in_form(text: &[u8], form: MomentForm, other: MomentForm, moment: &Moment) -> bool {
    Moment::parse(text) == Some(moment.copy())
        && Moment::parse_in(form, text) == Some(moment.copy())
        && Moment::parse_in(other, text).is_none()
}

/// Whether this text is no moment's.
fn is_none(text: &[u8]) -> bool {
    Moment::parse(text).is_none()
        && Moment::parse_in(MomentForm::Seconds, text).is_none()
        && Moment::parse_in(MomentForm::Millis, text).is_none()
}

#[test]
fn moments_have_two_spellings(rt: HostRuntime) -> Result<(), Fail> {
    let (short, long) = (b"2024-05-01T12:00:00Z", b"2024-05-01T12:00:00.000Z");
    let (seconds, millis) = (MomentForm::Seconds, MomentForm::Millis);
    let moment = Moment::from_millis(NOON).ok_or("a moment")?;
    assert!(rt; is_in_form(short, seconds, millis, &moment));
    assert!(rt; is_in_form(long, millis, seconds, &moment));
    for &text in NO_MOMENTS {
        assert!(rt; is_none(text));
    }
    Ok(())
}

/// What is read of a line of this moment.
fn read_at(alloc: Global, moment: &[u8]) -> Result<Result<Line, LineFault>, Fail> {
    let mut line = Vec::new(alloc);
    line.extend_from_slice(moment)?;
    line.extend_from_slice(&DIRECT_LINE[20..])?;
    Ok(read_line(line.as_slice()))
}

/// What is heard in a line of this moment.
fn heard_at(alloc: Global, moment: &[u8]) -> Result<Reception, Fail> {
    match read_at(alloc, moment)? {
        Ok(Line::Heard(heard)) => Ok(heard),
        _ => Err("heard".into()),
    }
}

#[test]
fn lines_are_read_in_both_spellings(rt: HostRuntime) -> Result<(), Fail> {
    let alloc = rt.alloc();
    let short = heard_at(alloc, b"2024-05-01T12:00:00Z")?;
    const CASES: &[(&[u8], u64)] = &[
        (b"2024-05-01T12:00:00Z", NOON),
        (b"2024-05-01T12:00:00.000Z", NOON),
        (b"2024-05-01T12:00:00.001Z", NOON + 1),
        (b"2024-05-01T12:00:00.999Z", NOON + 999),
    ];
    for &(moment, millis) in CASES {
        let heard = heard_at(alloc, moment)?;
        assert!(rt; heard.moment().millis() == millis);
        assert!(rt; (heard == short) == (millis == NOON));
    }
    for &moment in NO_MOMENTS {
        assert!(rt; read_at(alloc, moment)? == Err(LineFault::Moment));
    }
    Ok(())
}

/// A log of the line of `ONE_LINE` half a second later.
const HALF: &[u8] = b"2024-05-01T12:00:00.500Z RX1 c00082a0a4a64040e09c60868298986f03f03e4869c0\n";

#[test]
fn lines_are_written_to_the_millisecond(rt: HostRuntime) {
    const CASES: &[(&[u8], &[u8])] = &[
        (ONE_LINE, WRITTEN_LINE),
        (WRITTEN_LINE, WRITTEN_LINE),
        (HALF, HALF),
    ];
    for &(log, written) in CASES {
        let (text, fault) = converted(&rt, MAX_INPUT, Form::Log, log);
        assert!(rt; text.as_slice() == written && written.len() == 74 && fault.is_none());
    }
    let faulty = b"2024-05-01T12:00:60.000Z RX1 c0\n".as_slice();
    let (text, fault) = converted(&rt, MAX_INPUT, Form::Log, faulty);
    assert!(rt; text.is_empty());
    assert!(rt; fault == Some((1, LogCause::Moment)));
}

/// What is asked for by words that capture at this moment.
fn capture_at(rt: &HostRuntime, moment: &'static str) -> Result<Job, JobFault> {
    let words = [
        "aprsbook",
        "convert",
        "capture",
        "--receiver",
        "RX1",
        "--moment",
        moment,
    ];
    job(rt.alloc(), &words)
}

/// Whether words that capture at this moment ask for it.
fn is_captured(rt: &HostRuntime, moment: &'static str, millis: u64) -> Result<bool, Fail> {
    let form = Form::Capture {
        receiver: receiver(b"RX1")?,
        moment: Moment::from_millis(millis).ok_or("a moment")?,
    };
    Ok(matches!(&capture_at(rt, moment), Ok(Job::Convert(asked, _)) if *asked == form))
}

/// Whether words that capture at this moment are refused.
fn is_no_moment(rt: &HostRuntime, moment: &'static str) -> bool {
    matches!(&capture_at(rt, moment), Err(JobFault::Options))
}

#[test]
fn captures_are_of_a_moment_in_either_spelling(rt: HostRuntime) -> Result<(), Fail> {
    const CASES: &[(&str, u64, bool)] = &[
        ("2024-05-01T12:00:00Z", NOON, true),
        ("2024-05-01T12:00:00.000Z", NOON, true),
        ("2024-05-01T12:00:00.250Z", NOON + 250, true),
        ("2024-05-01T12:00:00.250Z", NOON, false),
    ];
    for &(moment, millis, is) in CASES {
        assert!(rt; is_captured(&rt, moment, millis)? == is);
    }
    const NONE: &[&str] = &[
        "2024-05-01T12:00:00.5Z",
        "2024-05-01T12:00:00.5000Z",
        "2024-05-01T12:00:60.000Z",
        "2024-05-01T12:00:00.000z",
    ];
    for &moment in NONE {
        assert!(rt; is_no_moment(&rt, moment), "{moment}");
    }
    Ok(())
}

/// The frame that RX1 hears so many milliseconds after noon.
fn heard_after(millis: u64) -> Result<Reception, Fail> {
    Ok(Reception::new(
        Moment::from_millis(NOON.saturating_add(millis)).ok_or("moment")?,
        receiver(b"RX1")?,
        Frame::read(&DIRECT).ok().ok_or("frame")?,
    ))
}

/// The number of rows of a book that takes the frame twice, each so many milliseconds after noon.
fn rows_of(alloc: Global, first: u64, second: u64) -> Result<usize, Fail> {
    let mut book = Book::new(alloc);
    book.take(&heard_after(first)?).ok().ok_or("memory")?;
    book.take(&heard_after(second)?).ok().ok_or("memory")?;
    Ok(book.len())
}

#[test]
fn rows_are_thirty_thousand_milliseconds_apart(rt: HostRuntime) -> Result<(), Fail> {
    const CASES: &[(u64, usize)] = &[(0, 1), (1, 1), (29_999, 1), (30_000, 1), (30_001, 2)];
    for &(millis, rows) in CASES {
        assert!(rt; rows_of(rt.alloc(), 0, millis)? == rows);
        assert!(rt; rows_of(rt.alloc(), millis, 0)? == rows);
    }
    Ok(())
}

/// Logs of the frame at noon and half a minute later, to the millisecond, and their books.
const NEAR_LOG: &[u8] = b"2024-05-01T12:00:00Z RX1 c00082a0a4a64040e09c60868298986f03f03e4869c0
2024-05-01T12:00:30.000Z RX1 c00082a0a4a64040e09c60868298986f03f03e4869c0
";

const NEAR_BOOK: &[u8] = b"APRSBOOK 3 30
T 2024-05-01T12:00:00.000Z 2024-05-01T12:00:30.000Z RX1 RX1 82a0a4a64040e09c60868298986f03f03e4869
END 1
";

const FAR_LOG: &[u8] = b"2024-05-01T12:00:00Z RX1 c00082a0a4a64040e09c60868298986f03f03e4869c0
2024-05-01T12:00:30.001Z RX1 c00082a0a4a64040e09c60868298986f03f03e4869c0
";

const FAR_BOOK: &[u8] = b"APRSBOOK 3 30
T 2024-05-01T12:00:00.000Z 2024-05-01T12:00:00.000Z RX1 RX1 82a0a4a64040e09c60868298986f03f03e4869
T 2024-05-01T12:00:30.001Z 2024-05-01T12:00:30.001Z RX1 RX1 82a0a4a64040e09c60868298986f03f03e4869
END 2
";

// Books of each version are written in version 3, and that is merged to the same bytes.
#[test]
fn each_version_is_merged_to_the_third(rt: HostRuntime) {
    let alloc = rt.alloc();
    assert!(rt; DIRECT_TEXT.len() == 119);
    const CASES: &[(&[u8], &[u8])] = &[
        (OLD_EMPTY_TEXT, EMPTY_TEXT),
        (EMPTY_TEXT, EMPTY_TEXT),
        (OLD_DIRECT_TEXT, DIRECT_TEXT),
        (DIRECT_TEXT, DIRECT_TEXT),
        (OLD_MERGED_TEXT, MERGED_TEXT),
        (MERGED_TEXT, MERGED_TEXT),
        (NEAR_LOG, NEAR_BOOK),
        (NEAR_BOOK, NEAR_BOOK),
        (FAR_LOG, FAR_BOOK),
        (FAR_BOOK, FAR_BOOK),
    ];
    for &(input, text) in CASES {
        assert!(rt; is_merged_to(alloc, &[input], text));
        assert!(rt; is_merged_to(alloc, &[input, text], text));
    }
}

// A version's rows have its moments alone.
#[test]
fn each_version_has_one_form_of_moments(rt: HostRuntime) {
    const CASES: &[(&[u8], (u64, &str))] = &[
        (
            b"APRSBOOK 2
T 2024-05-01T12:00:00Z 2024-05-01T12:00:00Z RX1 RX1 82a0a4a64040e09c60868298986f03f03e4869
END 1
",
            (2, "RowSyntax"),
        ),
        (
            b"APRSBOOK 1
T 2024-05-01T12:00:00.000Z 2024-05-01T12:00:00.000Z RX1 RX1 82a0a4a64040e09c60868298986f03f03e4869
END 1
",
            (2, "RowSyntax"),
        ),
        (
            b"APRSBOOK 2
T 2024-05-01T12:00:00.000Z 2024-05-01T12:00:00Z RX1 RX1 82a0a4a64040e09c60868298986f03f03e4869
END 1
",
            (2, "RowSyntax"),
        ),
        (
            b"APRSBOOK 1
T 2024-05-01T12:00:00Z 2024-05-01T12:00:00.000Z RX1 RX1 82a0a4a64040e09c60868298986f03f03e4869
END 1
",
            (2, "RowSyntax"),
        ),
    ];
    for &(text, fault) in CASES {
        assert!(rt; fault_of(rt.alloc(), text) == Some(fault));
    }
}

#[test]
fn any_other_header_is_refused(rt: HostRuntime) {
    const CASES: &[&[u8]] = &[
        b"APRSBOOK 0\nEND 0\n",
        b"APRSBOOK 3\nEND 0\n",
        b"APRSBOOK 3 0\nEND 0\n",
        b"APRSBOOK 3 030\nEND 0\n",
        b"APRSBOOK 3 3601\nEND 0\n",
        b"APRSBOOK 02\nEND 0\n",
        b"APRSBOOK 2 \nEND 0\n",
        b"APRSBOOK 12\nEND 0\n",
    ];
    for &text in CASES {
        assert!(rt; fault_of(rt.alloc(), text) == Some((1, "Header")));
    }
}

/// Two rows in version 1, half a minute apart, and a second more. In version 2 two rows half a
/// minute apart, and one that ends before it begins.
const OLD_NEAR_TEXT: &[u8] = b"APRSBOOK 1
T 2024-05-01T12:00:00Z 2024-05-01T12:00:00Z RX1 RX1 82a0a4a64040e09c60868298986f03f03e4869
T 2024-05-01T12:00:30Z 2024-05-01T12:00:30Z RX1 RX1 82a0a4a64040e09c60868298986f03f03e4869
END 2
";

const OLD_FAR_TEXT: &[u8] = b"APRSBOOK 1
T 2024-05-01T12:00:00Z 2024-05-01T12:00:00Z RX1 RX1 82a0a4a64040e09c60868298986f03f03e4869
T 2024-05-01T12:00:31Z 2024-05-01T12:00:31Z RX1 RX1 82a0a4a64040e09c60868298986f03f03e4869
END 2
";

const NEAR_TEXT: &[u8] = b"APRSBOOK 2
T 2024-05-01T12:00:00.000Z 2024-05-01T12:00:00.000Z RX1 RX1 82a0a4a64040e09c60868298986f03f03e4869
T 2024-05-01T12:00:30.000Z 2024-05-01T12:00:30.000Z RX1 RX1 82a0a4a64040e09c60868298986f03f03e4869
END 2
";

const BACKWARD_TEXT: &[u8] = b"APRSBOOK 2
T 2024-05-01T12:00:00.001Z 2024-05-01T12:00:00.000Z RX1 RX1 82a0a4a64040e09c60868298986f03f03e4869
END 1
";

#[test]
fn near_rows_are_refused_to_the_millisecond(rt: HostRuntime) {
    const CASES: &[(&[u8], Option<(u64, &str)>)] = &[
        (NEAR_TEXT, Some((3, "Near"))),
        (FAR_BOOK, None),
        (OLD_NEAR_TEXT, Some((3, "Near"))),
        (OLD_FAR_TEXT, None),
        (BACKWARD_TEXT, Some((2, "Span"))),
    ];
    for &(text, fault) in CASES {
        assert!(rt; fault_of(rt.alloc(), text) == fault);
    }
}
