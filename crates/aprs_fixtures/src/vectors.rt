//! Frames, lines of logs and texts of books.

/// N0CALL-7>APRS:>Hi
pub const DIRECT: [u8; 19] = [
    0x82, 0xa0, 0xa4, 0xa6, 0x40, 0x40, 0xe0, 0x9c, 0x60, 0x86, 0x82, 0x98, 0x98, 0x6f, 0x03, 0xf0,
    0x3e, 0x48, 0x69,
];

/// N0CALL-7>APRS,WIDE1-1*:>Hi
pub const REPEATED: [u8; 26] = [
    0x82, 0xa0, 0xa4, 0xa6, 0x40, 0x40, 0xe0, 0x9c, 0x60, 0x86, 0x82, 0x98, 0x98, 0x6e, 0xae, 0x92,
    0x88, 0x8a, 0x62, 0x40, 0xe3, 0x03, 0xf0, 0x3e, 0x48, 0x69,
];

/// `REPEATED` with the C bits the other way round.
pub const ANSWERED: [u8; 26] = [
    0x82, 0xa0, 0xa4, 0xa6, 0x40, 0x40, 0x60, 0x9c, 0x60, 0x86, 0x82, 0x98, 0x98, 0xee, 0xae, 0x92,
    0x88, 0x8a, 0x62, 0x40, 0xe3, 0x03, 0xf0, 0x3e, 0x48, 0x69,
];

/// N0CALL-7>APRS:>Hi, as one receiver heard it.
pub const DIRECT_LINE: &[u8] =
    b"2024-05-01T12:00:00Z RX1 c00082a0a4a64040e09c60868298986f03f03e4869c0";

/// `DIRECT_LINE` at the first moment.
pub const FIRST_LINE: &[u8] =
    b"1970-01-01T00:00:00Z RX1 c00082a0a4a64040e09c60868298986f03f03e4869c0";

/// `DIRECT_LINE` as another receiver heard it in the last second.
pub const LAST_LINE: &[u8] =
    b"2099-12-31T23:59:59Z RX2 c00082a0a4a64040e09c60868298986f03f03e4869c0";

/// N0CALL-7>APRS,WIDE1-1*:>Hi, half a minute after `FIRST_LINE`.
pub const REPEATED_LINE: &[u8] =
    b"1970-01-01T00:00:30Z RX2 c00082a0a4a64040e09c60868298986eae92888a6240e303f03e4869c0";

/// A log of `DIRECT_LINE` alone, to the second.
pub const ONE_LINE: &[u8] =
    b"2024-05-01T12:00:00Z RX1 c00082a0a4a64040e09c60868298986f03f03e4869c0\n";

/// `ONE_LINE` as it is written.
pub const WRITTEN_LINE: &[u8] =
    b"2024-05-01T12:00:00.000Z RX1 c00082a0a4a64040e09c60868298986f03f03e4869c0\n";

/// A log of `DIRECT_LINE` twice, each line of 70 bytes with its LF.
pub const SHORT_LOG: &[u8] = b"2024-05-01T12:00:00Z RX1 c00082a0a4a64040e09c60868298986f03f03e4869c0
2024-05-01T12:00:00Z RX1 c00082a0a4a64040e09c60868298986f03f03e4869c0
";

/// `SHORT_LOG` as it is written, each line of 74 bytes with its LF.
pub const LOG: &[u8] = b"2024-05-01T12:00:00.000Z RX1 c00082a0a4a64040e09c60868298986f03f03e4869c0
2024-05-01T12:00:00.000Z RX1 c00082a0a4a64040e09c60868298986f03f03e4869c0
";

/// A log of `FIRST_LINE`, `LAST_LINE` and `REPEATED_LINE`. `MERGED_TEXT` is the text of its book.
pub const THREE_LINES: &[u8] =
    b"1970-01-01T00:00:00Z RX1 c00082a0a4a64040e09c60868298986f03f03e4869c0
2099-12-31T23:59:59Z RX2 c00082a0a4a64040e09c60868298986f03f03e4869c0
1970-01-01T00:00:30Z RX2 c00082a0a4a64040e09c60868298986eae92888a6240e303f03e4869c0
";

/// The text of the empty book, as it is written.
pub const EMPTY_TEXT: &[u8] = b"APRSBOOK 3 30\nEND 0\n";

/// The text of the book of `ONE_LINE`.
pub const DIRECT_TEXT: &[u8] = b"APRSBOOK 3 30
T 2024-05-01T12:00:00.000Z 2024-05-01T12:00:00.000Z RX1 RX1 82a0a4a64040e09c60868298986f03f03e4869
END 1
";

/// The text of the book of `THREE_LINES`.
pub const MERGED_TEXT: &[u8] = b"APRSBOOK 3 30
T 1970-01-01T00:00:00.000Z 1970-01-01T00:00:30.000Z RX1,RX2 RX2 \
    82a0a4a64040e09c60868298986eae92888a6240e303f03e4869
T 2099-12-31T23:59:59.000Z 2099-12-31T23:59:59.000Z RX2 RX2 82a0a4a64040e09c60868298986f03f03e4869
END 2
";

/// The empty book in version 1.
pub const OLD_EMPTY_TEXT: &[u8] = b"APRSBOOK 1\nEND 0\n";

/// The book of `DIRECT_TEXT` in version 1.
pub const OLD_DIRECT_TEXT: &[u8] = b"APRSBOOK 1
T 2024-05-01T12:00:00Z 2024-05-01T12:00:00Z RX1 RX1 82a0a4a64040e09c60868298986f03f03e4869
END 1
";

/// The book of `MERGED_TEXT` in version 1.
pub const OLD_MERGED_TEXT: &[u8] = b"APRSBOOK 1
T 1970-01-01T00:00:00Z 1970-01-01T00:00:30Z RX1,RX2 RX2 \
    82a0a4a64040e09c60868298986eae92888a6240e303f03e4869
T 2099-12-31T23:59:59Z 2099-12-31T23:59:59Z RX2 RX2 82a0a4a64040e09c60868298986f03f03e4869
END 2
";

/// The line, from 1, in which a text ends after so many bytes. Takes no memory.
pub fn line_after(text: &[u8], good: usize) -> u64 {
    let mut line = 1u64;
    for byte in text.iter().take(good) {
        if *byte == b'\n' {
            line = line.saturating_add(1);
        }
    }
    line
}
