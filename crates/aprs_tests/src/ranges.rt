//! The rows of a range of sources, of texts in memory.

use aprs_fixtures::{MERGED_TEXT, OLD_MERGED_TEXT, callsign};
use aprs_fold::{BookRange, SourceRange};
use std::alloc::Global;
use std::io::Read;
use std::test::Fail;

/// A book of transmissions of N0CALL-2, N0CALL-7 and N0CALL-10, in the order of these numbers.
const THREE_SOURCES: &[u8] = b"APRSBOOK 3 30
T 2024-05-01T12:00:00.000Z 2024-05-01T12:00:00.000Z RX1 RX1 82a0a4a64040e09c608682989865\
    03f03e4869
T 2024-05-01T12:00:00.000Z 2024-05-01T12:00:00.000Z RX1 RX1 82a0a4a64040e09c60868298986f\
    03f03e4869
T 2024-05-01T12:00:00.000Z 2024-05-01T12:00:00.000Z RX1 RX1 82a0a4a64040e09c608682989875\
    03f03e4869
END 3
";

/// That of N0CALL-7 alone.
const SECOND_SOURCE: &[u8] = b"APRSBOOK 3 30
T 2024-05-01T12:00:00.000Z 2024-05-01T12:00:00.000Z RX1 RX1 82a0a4a64040e09c60868298986f\
    03f03e4869
END 1
";

/// Texts, the ends of a range, and what is lent: nothing of a text that is no book, or whose last
/// line isn't there.
const CASES: &[(&[u8], &[u8], &[u8], &[u8])] = &[
    (THREE_SOURCES, b"N0CALL-7", b"N0CALL-10", SECOND_SOURCE),
    (THREE_SOURCES, b"N0CALL-3", b"N0CALL-8", SECOND_SOURCE),
    (THREE_SOURCES, b"N0CALL", b"N0CALL-11", THREE_SOURCES),
    (
        THREE_SOURCES,
        b"N0CALL-11",
        b"W1AW",
        b"APRSBOOK 3 30\nEND 0\n",
    ),
    (MERGED_TEXT, b"N0CALL-7", b"N0CALL-8", MERGED_TEXT),
    (OLD_MERGED_TEXT, b"N0CALL-7", b"N0CALL-8", OLD_MERGED_TEXT),
    (OLD_MERGED_TEXT, b"A", b"N0CALL-7", b"APRSBOOK 1\nEND 0\n"),
    (
        b"APRSBOOK 3 30\nEND 0\n",
        b"A",
        b"B",
        b"APRSBOOK 3 30\nEND 0\n",
    ),
    (b"APRSBOOK 3 30\n", b"A", b"B", b""),
    (b"a picture", b"A", b"B", b""),
    (b"", b"A", b"B", b""),
];

/// What is lent of the text between these sources, read seven bytes at a time, or nothing.
fn lent_between(alloc: Global, text: &[u8], from: &[u8], until: &[u8]) -> Result<Vec<u8>, Fail> {
    let range = SourceRange {
        from: Some(callsign(from)?),
        until: Some(callsign(until)?),
    };
    let mut lent = Vec::new(alloc);
    if let Ok(mut found) = BookRange::find(alloc, text, &range) {
        let mut piece = [0; 7];
        for _ in 0..text.len() {
            let count = found.read(&mut piece).ok().ok_or("a read failed")?;
            lent.extend_from_slice(&piece[..count])?;
        }
    }
    Ok(lent)
}

#[test]
fn ranges_have_the_rows_of_their_sources(rt: HostRuntime) -> Result<(), Fail> {
    for &(text, from, until, expected) in CASES {
        let lent = lent_between(rt.alloc(), text, from, until)?;
        assert!(rt; lent.as_slice() == expected);
    }
    Ok(())
}
