//! Logs and book files in one merge, in each order.

use crate::merges::is_merged_to;
use aprs_book::Book;
use aprs_fixtures::{DIRECT, EMPTY_TEXT, MERGED_TEXT, heard, text_of};
use std::alloc::Global;
use std::test::Fail;

/// The three lines of `THREE_LINES`: one as a log, one as a book, one as a book in version 1.
const FIRST: &[u8] = b"1970-01-01T00:00:00Z RX1 c00082a0a4a64040e09c60868298986f03f03e4869c0\n";

const LAST: &[u8] = b"APRSBOOK 3 30
T 2099-12-31T23:59:59.000Z 2099-12-31T23:59:59.000Z RX2 RX2 82a0a4a64040e09c60868298986f03f03e4869
END 1
";

const NEAR: &[u8] = b"APRSBOOK 1
T 1970-01-01T00:00:30Z 1970-01-01T00:00:30Z RX2 RX2 \
    82a0a4a64040e09c60868298986eae92888a6240e303f03e4869
END 1
";

/// A row that joins three of the four rows of another file, and what the files are together.
const LONG: &[u8] = b"APRSBOOK 3 30
T 2024-05-01T12:00:00.000Z 2024-05-01T12:10:00.000Z RX1,RX3 RX1 \
    82a0a4a64040e09c60868298986f03f03e4869
END 1
";

const PARTS: &[u8] = b"APRSBOOK 3 30
T 2024-05-01T11:59:30.000Z 2024-05-01T11:59:30.000Z RX2 RX2 82a0a4a64040e09c60868298986f03f03e4869
T 2024-05-01T12:03:00.000Z 2024-05-01T12:03:00.000Z RX3 RX3 82a0a4a64040e09c60868298986f03f03e4869
T 2024-05-01T12:09:59.999Z 2024-05-01T12:10:30.000Z RX0,RX2 RX2 \
    82a0a4a64040e09c60868298986f03f03e4869
T 2024-05-01T12:11:00.001Z 2024-05-01T12:11:00.001Z RX2 RX2 82a0a4a64040e09c60868298986f03f03e4869
END 4
";

const WHOLE: &[u8] = b"APRSBOOK 3 30
T 2024-05-01T11:59:30.000Z 2024-05-01T12:10:30.000Z RX0,RX1,RX2,RX3 RX2 \
    82a0a4a64040e09c60868298986f03f03e4869
T 2024-05-01T12:11:00.001Z 2024-05-01T12:11:00.001Z RX2 RX2 82a0a4a64040e09c60868298986f03f03e4869
END 2
";

/// Rows of one key and first moment, of the same names in part, and what they are together.
const TIED: &[u8] = b"APRSBOOK 3 30
T 2024-05-01T12:00:00.000Z 2024-05-01T12:00:00.000Z RX1,RX3 RX3 \
    82a0a4a64040e09c60868298986f03f03e4869
END 1
";

const LONGER: &[u8] = b"APRSBOOK 3 30
T 2024-05-01T12:00:00.000Z 2024-05-01T12:00:10.000Z RX2,RX3 RX2 \
    82a0a4a64040e09c60868298986f03f03e4869
END 1
";

const JOINED: &[u8] = b"APRSBOOK 3 30
T 2024-05-01T12:00:00.000Z 2024-05-01T12:00:10.000Z RX1,RX2,RX3 RX2 \
    82a0a4a64040e09c60868298986f03f03e4869
END 1
";

/// Whether the three become this text in each order, and with the first of them twice.
fn are_merged_to(alloc: Global, texts: [&[u8]; 3], text: &[u8]) -> bool {
    let [a, b, c] = texts;
    for texts in [
        [a, b, c],
        [a, c, b],
        [b, a, c],
        [b, c, a],
        [c, a, b],
        [c, b, a],
    ] {
        if !is_merged_to(alloc, &texts, text) {
            return false;
        }
    }
    is_merged_to(alloc, &[a, b, c, a], text) && is_merged_to(alloc, &[a, text, b, c], text)
}

#[test]
fn logs_and_books_in_each_order(rt: HostRuntime) {
    let alloc = rt.alloc();
    assert!(rt; are_merged_to(alloc, [FIRST, LAST, NEAR], MERGED_TEXT));
    assert!(rt; are_merged_to(alloc, [LONG, PARTS, EMPTY_TEXT], WHOLE));
    assert!(rt; are_merged_to(alloc, [TIED, LONGER, b"".as_slice()], JOINED));
}

/// What a hundred books of ten minutes are together, each a second later.
const TEN_MINUTES: &[u8] = b"APRSBOOK 3 30
T 2024-05-01T12:00:00.000Z 2024-05-01T12:10:39.000Z RX1 RX1 82a0a4a64040e09c60868298986f03f03e4869
END 1
";

/// The text of the book of ten minutes from this second of the hour on.
fn ten_minutes(alloc: Global, first: u64) -> Result<Vec<u8>, Fail> {
    let mut book = Book::new(alloc);
    for minute in 0..10u64 {
        let x = heard(first.saturating_add(minute * 60), b"RX1", &DIRECT)?;
        book.take(&x).ok().ok_or("memory")?;
    }
    text_of(alloc, &book)
}

#[test]
fn a_hundred_books_are_merged(rt: HostRuntime) -> Result<(), Fail> {
    let alloc = rt.alloc();
    let mut texts = Vec::new(alloc);
    for second in 0..100u64 {
        texts.push(ten_minutes(alloc, second)?)?;
    }
    let mut inputs = Vec::new(alloc);
    for text in texts.iter() {
        inputs.push(text.as_slice())?;
    }
    assert!(rt; is_merged_to(alloc, inputs.as_slice(), TEN_MINUTES));
    Ok(())
}
