//! Texts that are no book's.
ghost use Rattle.std.specs.Prelude.{◌≤◌};

use aprs_booktext::BookCause;
use aprs_fixtures::{
    DIRECT_TEXT, MERGED_TEXT, OLD_DIRECT_TEXT, OLD_MERGED_TEXT, are_refused_or_written_back,
    fault_of, fault_within, line_after,
};
use std::alloc::Global;
use std::test::Fail;

/// A text of a header, these lines, and this last line.
fn text_of(alloc: Global, lines: &[&[u8]], last: &[u8]) -> Result<Vec<u8>, Fail> {
    let mut text = Vec::new(alloc);
    text.extend_from_slice(b"APRSBOOK 3 30\n")?;
    for line in lines {
        text.extend_from_slice(line)?;
        text.push(b'\n')?;
    }
    text.extend_from_slice(last)?;
    Ok(text)
}

/// Whether the text of these lines has this fault, or none.
fn has_fault(
    alloc: Global,
    lines: &[&[u8]],
    last: &[u8],
    fault: Option<(u64, &str)>,
) -> Result<bool, Fail> {
    let text = text_of(alloc, lines, last)?;
    Ok(fault_of(alloc, text.as_slice()) == fault)
}

/// Lines in the place of the one row, each with the fault of its text, if there is one.
const JUDGED_LINES: &[(&[u8], Option<(u64, &str)>)] = &[
    (
        b"T 2024-05-01T12:00:00.000Z 2024-05-01T12:00:00.000Z RX1,RX2 RX1 \
        82a0a4a64040e09c60868298986f03f03e4869",
        Some((2, "NotGreatest")),
    ),
    (
        b"T 2024-05-01T11:59:59.000Z 2024-05-01T12:00:00.000Z RX1,RX2 RX1 \
        82a0a4a64040e09c60868298986f03f03e4869",
        None,
    ),
    (
        b"T 2024-05-01T12:00:00.000Z 2024-05-01T12:00:00.000Z RX2,RX1 RX1 \
        82a0a4a64040e09c60868298986f03f03e4869",
        Some((2, "Receivers")),
    ),
    (
        b"T 2024-05-01T12:00:00.000Z 2024-05-01T12:00:00.000Z RX1 RX1 \
        82A0a4a64040e09c60868298986f03f03e4869",
        Some((2, "RowSyntax")),
    ),
    (
        b"T 2024-05-01T12:00:00.000Z 2024-05-01T12:00:00.000Z RX1 RX1 \
        82a0a4a64040e09c60868298986f13f03e4869",
        Some((2, "Frame")),
    ),
    (
        b"T 2024-05-01T12:00:01.000Z 2024-05-01T12:00:00.000Z RX1 RX1 \
        82a0a4a64040e09c60868298986f03f03e4869",
        Some((2, "Span")),
    ),
    (b"END 2", Some((2, "Ending"))),
    (b"", Some((2, "RowSyntax"))),
];

#[test]
fn each_fault_of_a_line(rt: HostRuntime) -> Result<(), Fail> {
    let alloc = rt.alloc();
    for &(line, fault) in JUDGED_LINES {
        assert!(rt; has_fault(alloc, &[line], b"END 1\n", fault)?);
    }
    assert!(rt; fault_of(alloc, b"APRSBOOK 9\nEND 0\n") == Some((1, "Header")));
    Ok(())
}

/// A row of RX1 alone, at noon.
const ROW: &[u8] = b"T 2024-05-01T12:00:00.000Z 2024-05-01T12:00:00.000Z RX1 RX1 \
    82a0a4a64040e09c60868298986f03f03e4869";

/// Last lines after one row, each with its fault.
const LAST_LINES: &[(&[u8], Option<(u64, &str)>)] = &[
    (b"END 1\n", None),
    (b"END +1\n", Some((3, "Ending"))),
    (b"END 01\n", Some((3, "Ending"))),
    (b"END 2\n", Some((3, "Ending"))),
    (b"END 1 \n", Some((3, "Ending"))),
    (b"END 1\r\n", Some((3, "Ending"))),
    (b"END \r1\n", Some((3, "Ending"))),
    (b"END\r1\n", Some((3, "Ending"))),
    (b"END\n", Some((3, "Ending"))),
    (b"EN\rD 1\n", Some((3, "RowSyntax"))),
    (b"\rEND 1\n", Some((3, "RowSyntax"))),
    (b"end 1\n", Some((3, "RowSyntax"))),
    (b"END 1\n\n", Some((4, "After"))),
];

// What begins with END is a last line, if a wrong one; whatever else differs is no row.
#[test]
fn last_lines_have_one_spelling(rt: HostRuntime) -> Result<(), Fail> {
    for &(last, fault) in LAST_LINES {
        assert!(rt; has_fault(rt.alloc(), &[ROW], last, fault)?);
    }
    Ok(())
}

/// Lines that are almost a row, each with the cause of its fault.
const MISSPELLED_LINES: &[(&[u8], &str)] = &[
    (
        b"t 2024-05-01T12:00:00.000Z 2024-05-01T12:00:00.000Z RX1 RX1 \
        82a0a4a64040e09c60868298986f03f03e4869",
        "RowSyntax",
    ),
    (
        b"T 2024-05-01t12:00:00.000Z 2024-05-01T12:00:00.000Z RX1 RX1 \
        82a0a4a64040e09c60868298986f03f03e4869",
        "RowSyntax",
    ),
    (
        b"T 2024-05-01T12:00:00.000Z 2024-05-01T12:00:00.000z RX1 RX1 \
        82a0a4a64040e09c60868298986f03f03e4869",
        "RowSyntax",
    ),
    (
        b"T 2024-05-01T12:00:00.000Z 2024-05-01T12:00:00.000Z rx1 RX1 \
        82a0a4a64040e09c60868298986f03f03e4869",
        "Receivers",
    ),
    (
        b"T 2024-05-01T12:00:00.000Z 2024-05-01T12:00:00.000Z RX1,RX1 RX1 \
        82a0a4a64040e09c60868298986f03f03e4869",
        "Receivers",
    ),
    (
        b"T 2024-05-01T12:00:00.000Z 2024-05-01T12:00:00.000Z RX1 RX1 \
        82A0A4A64040E09C60868298986F03F03E4869",
        "RowSyntax",
    ),
    (
        b"T 2024-05-01T12:00:00.000Z 2024-05-01T12:00:00.000Z RX1 RX1 \
        82a0a4a64040e09c60868298986f03f03e4869 ",
        "RowSyntax",
    ),
];

// Lower case and upper case don't stand for each other, and names ascend, each once.
#[test]
fn fields_have_one_spelling(rt: HostRuntime) -> Result<(), Fail> {
    let alloc = rt.alloc();
    for &(line, cause) in MISSPELLED_LINES {
        assert!(rt; has_fault(alloc, &[line], b"END 1\n", Some((2, cause)))?);
    }
    Ok(())
}

/// The direct frame's rows 30 and 31 seconds after `ROW`.
const NEAR: &[u8] = b"T 2024-05-01T12:00:30.000Z 2024-05-01T12:00:30.000Z RX1 RX1 \
    82a0a4a64040e09c60868298986f03f03e4869";

const FAR: &[u8] = b"T 2024-05-01T12:00:31.000Z 2024-05-01T12:00:31.000Z RX1 RX1 \
    82a0a4a64040e09c60868298986f03f03e4869";

/// Rows of two keys that come before the key of `ROW`, by the SSID of the source: two of each, 30
/// seconds apart.
const LOW: &[u8] = b"T 2024-05-01T12:00:00.000Z 2024-05-01T12:00:00.000Z RX1 RX1 \
    82a0a4a64040e09c60868298986103f03e4869";

const NEAR_LOW: &[u8] = b"T 2024-05-01T12:00:30.000Z 2024-05-01T12:00:30.000Z RX1 RX1 \
    82a0a4a64040e09c60868298986103f03e4869";

const MIDDLE: &[u8] = b"T 2024-05-01T12:00:00.000Z 2024-05-01T12:00:00.000Z RX1 RX1 \
    82a0a4a64040e09c60868298986303f03e4869";

const NEAR_MIDDLE: &[u8] = b"T 2024-05-01T12:00:30.000Z 2024-05-01T12:00:30.000Z RX1 RX1 \
    82a0a4a64040e09c60868298986303f03e4869";

/// Rows, the last line after them, and the fault of their text.
const ROWS: &[(&[&[u8]], &[u8], Option<(u64, &str)>)] = &[
    (&[ROW, NEAR], b"END 2\n", Some((3, "Near"))),
    (&[ROW, FAR], b"END 2\n", None),
    (&[ROW, ROW], b"END 2\n", Some((3, "Order"))),
    (&[FAR, ROW], b"END 2\n", Some((3, "Order"))),
    (&[LOW, MIDDLE, ROW], b"END 3\n", None),
    (&[LOW, NEAR_LOW, MIDDLE, ROW], b"END 4\n", Some((3, "Near"))),
    (
        &[LOW, MIDDLE, NEAR_MIDDLE, ROW],
        b"END 4\n",
        Some((4, "Near")),
    ),
    (&[LOW, MIDDLE, ROW, NEAR], b"END 4\n", Some((5, "Near"))),
    (
        &[LOW, NEAR_LOW, MIDDLE, NEAR_MIDDLE, ROW, NEAR],
        b"END 4\n",
        Some((3, "Near")),
    ),
];

// A row of one key or of several is near to the one before it, or out of order: the line of that
// row is at fault.
#[test]
fn rows_are_near_or_out_of_order(rt: HostRuntime) -> Result<(), Fail> {
    for &(lines, last, fault) in ROWS {
        assert!(rt; has_fault(rt.alloc(), lines, last, fault)?);
    }
    Ok(())
}

/// Rows after `ROW`, each with the fault of the text of both. A row is refused for the first of
/// these that it doesn't meet. `Frame`: its frame is a UI frame. `Order`: it comes after the last
/// row, by key and first moment. `Span`: it doesn't end before it begins. `Near`: if the last row
/// has the same key, it begins more than the gap after that row ends. `Receivers`: its receivers
/// ascend, and the greatest reception's receiver is one of them. `NotGreatest`: if it has one
/// moment alone, that receiver is the last of them.
const NEXT_ROWS: &[(&[u8], Option<(u64, &str)>)] = &[
    (
        b"T 2024-05-01T12:00:00.000Z 2024-05-01T12:00:00.000Z RX1 RX1 \
        82a0a4a64040e09c60868298986f03f03e4869",
        Some((3, "Order")),
    ),
    (
        b"T 2024-05-01T12:00:30.000Z 2024-05-01T12:00:29.999Z RX1 RX1 \
        82a0a4a64040e09c60868298986f03f03e4869",
        Some((3, "Span")),
    ),
    (
        b"T 2024-05-01T12:00:30.000Z 2024-05-01T12:00:30.000Z RX2,RX1 RX1 \
        82a0a4a64040e09c60868298986f03f03e4869",
        Some((3, "Near")),
    ),
    (
        b"T 2024-05-01T12:00:30.001Z 2024-05-01T12:00:30.001Z RX2,RX1 RX1 \
        82a0a4a64040e09c60868298986f03f03e4869",
        Some((3, "Receivers")),
    ),
    (
        b"T 2024-05-01T12:00:30.001Z 2024-05-01T12:00:30.001Z RX1,RX2 RX3 \
        82a0a4a64040e09c60868298986f03f03e4869",
        Some((3, "Receivers")),
    ),
    (
        b"T 2024-05-01T12:00:30.001Z 2024-05-01T12:00:30.001Z RX1,RX2 RX1 \
        82a0a4a64040e09c60868298986f03f03e4869",
        Some((3, "NotGreatest")),
    ),
    (
        b"T 2024-05-01T12:00:30.001Z 2024-05-01T12:00:30.001Z RX1,RX2 RX2 \
        82a0a4a64040e09c60868298986f03f03e4869",
        None,
    ),
    (
        b"T 2024-05-01T12:00:30.001Z 2024-05-01T12:00:30.002Z RX1,RX2 RX1 \
        82a0a4a64040e09c60868298986f03f03e4869",
        None,
    ),
];

// Each row misses what it is refused for, and what comes after that in the order of judging.
#[test]
fn rows_are_refused_for_the_first_that_they_miss(rt: HostRuntime) -> Result<(), Fail> {
    for &(line, fault) in NEXT_ROWS {
        assert!(rt; has_fault(rt.alloc(), &[ROW, line], b"END 2\n", fault)?);
    }
    Ok(())
}

// The fault is of the line in which the text ends.
#[test]
fn texts_cut_short(rt: HostRuntime) {
    const CASES: &[&[u8]] = &[DIRECT_TEXT, MERGED_TEXT, OLD_DIRECT_TEXT, OLD_MERGED_TEXT];
    for &text in CASES {
        for cut in 0..text.len() {
            let fault = fault_of(rt.alloc(), &text[..cut]);
            assert!(rt; fault == Some((line_after(text, cut), "Ending")));
        }
    }
}

#[test]
fn texts_grown_or_beyond_the_limit(rt: HostRuntime) -> Result<(), Fail> {
    let alloc = rt.alloc();
    let mut more = Vec::new(alloc);
    more.extend_from_slice(DIRECT_TEXT)?;
    more.push(b'\n')?;
    assert!(rt; fault_of(alloc, more.as_slice()) == Some((4, "After")));
    assert!(rt; fault_within(alloc, 119, more.as_slice()) == Some((4, "TooLong")));
    assert!(rt; fault_within(alloc, 118, DIRECT_TEXT) == Some((3, "TooLong")));
    Ok(())
}

/// A byte of each kind that a text tells apart.
const KINDS: &[u8] = b"\0\t\n\r ,-:09AFGZafgz~\x7f\x80\xff";

#[test]
fn other_bytes_in_a_text_of_one_row(rt: HostRuntime) -> Result<(), Fail> {
    assert!(rt; are_refused_or_written_back(rt.alloc(), DIRECT_TEXT, 0, 119, KINDS)?);
    Ok(())
}

#[test]
fn other_bytes_in_a_text_of_two_rows(rt: HostRuntime) -> Result<(), Fail> {
    assert!(rt; are_refused_or_written_back(rt.alloc(), MERGED_TEXT, 0, 236, KINDS)?);
    Ok(())
}

#[test]
fn causes_have_names(rt: HostRuntime) {
    assert!(rt; BookCause::Header.number() == 1 && BookCause::Memory.number() == 13);
    assert!(rt; BookCause::NotGreatest.name() == "NotGreatest");
}
