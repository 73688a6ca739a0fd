//! Books and their texts.

use aprs_book::Book;
use aprs_booktext::{BookCause, read_book, write_book};
use aprs_fixtures::{
    DIRECT_LINE, DIRECT_TEXT, EMPTY_TEXT, FIRST_LINE, Failing, LAST_LINE, MERGED_TEXT, NOON,
    REPEATED_LINE, Tight, callsign, is_written_as,
};
use aprs_kiss::{Counted, WriteFault};
use aprs_log::{Line, MAX_INPUT, read_line};
use std::alloc::Global;
use std::test::Fail;

/// The book of what these lines of a log report.
fn book_of(alloc: Global, lines: &[&[u8]]) -> Result<Book, Fail> {
    let mut book = Book::new(alloc);
    for line in lines {
        let Ok(Line::Heard(heard)) = read_line(line) else {
            return Err("heard".into());
        };
        book.take(&heard).ok().ok_or("memory")?;
    }
    Ok(book)
}

#[test]
fn books_and_their_texts(rt: HostRuntime) -> Result<(), Fail> {
    let alloc = rt.alloc();
    const CASES: &[(&[&[u8]], &[u8])] = &[
        (&[], EMPTY_TEXT),
        (&[DIRECT_LINE], DIRECT_TEXT),
        (&[FIRST_LINE, LAST_LINE, REPEATED_LINE], MERGED_TEXT),
        (
            &[REPEATED_LINE, FIRST_LINE, LAST_LINE, FIRST_LINE],
            MERGED_TEXT,
        ),
    ];
    for &(lines, text) in CASES {
        let book = book_of(alloc, lines)?;
        assert!(rt; is_written_as(alloc, &book, text));
    }
    assert!(rt; EMPTY_TEXT.len() == 20 && DIRECT_TEXT.len() == 119 && MERGED_TEXT.len() == 236);
    Ok(())
}

/// Whether of the book's text so many bytes are written where a writer takes no more.
fn is_written_up_to(alloc: Global, book: &Book, room: usize) -> bool {
    let mut out = Counted::new(Tight {
        bytes: Vec::new(alloc),
        room,
    });
    let is_refused = write_book(&mut out, book) == Err(WriteFault) && out.failures() == 1;
    is_refused && MERGED_TEXT.get(..room) == Some(out.into_inner().bytes.as_slice())
}

#[test]
fn a_writer_fails_at_each_byte(rt: HostRuntime) -> Result<(), Fail> {
    let book = book_of(rt.alloc(), &[FIRST_LINE, LAST_LINE, REPEATED_LINE])?;
    for room in 0..MERGED_TEXT.len() {
        assert!(rt; is_written_up_to(rt.alloc(), &book, room));
    }
    Ok(())
}

const TEXTS: &[&[u8]] = &[EMPTY_TEXT, DIRECT_TEXT, MERGED_TEXT];

/// Whether a text is read as its book.
fn is_read_back(alloc: Global, text: &[u8]) -> bool {
    let read = read_book(alloc, MAX_INPUT, b"", &mut Counted::new(text));
    matches!(&read, Ok(book) if is_written_as(alloc, book, text))
}

/// The same where its first eight bytes were read before, and the limit is its length.
fn is_read_on(alloc: Global, text: &[u8]) -> bool {
    if text.len() < 8 || text.len() > 1000 {
        return false;
    }
    let (head, rest) = text.split_at(8);
    let read = read_book(alloc, text.len() as u64, head, &mut Counted::new(rest));
    matches!(&read, Ok(book) if is_written_as(alloc, book, text))
}

#[test]
fn texts_are_read_back(rt: HostRuntime) {
    for &text in TEXTS {
        assert!(rt; is_read_back(rt.alloc(), text) && is_read_on(rt.alloc(), text));
    }
}

#[test]
fn texts_are_read_byte_by_byte(rt: HostRuntime) {
    let alloc = rt.alloc();
    for &text in TEXTS {
        let mut source = Counted::new(Failing {
            bytes: text,
            most: 1,
            good: usize::MAX,
        });
        let read = read_book(alloc, MAX_INPUT, b"", &mut source);
        assert!(rt; matches!(&read, Ok(book) if is_written_as(alloc, book, text)));
        assert!(rt; source.failures() == 0);
    }
}

#[test]
fn a_reader_fails_at_each_byte(rt: HostRuntime) {
    for good in 0..=MERGED_TEXT.len() {
        let mut source = Counted::new(Failing {
            bytes: MERGED_TEXT,
            most: 1,
            good,
        });
        let line = if good <= 13 {
            1
        } else if good <= 130 {
            2
        } else if good <= 229 {
            3
        } else if good <= 235 {
            4
        } else {
            5
        };
        let read = read_book(rt.alloc(), MAX_INPUT, b"", &mut source);
        assert!(rt;
            matches!(&read, Err(fault) if fault.line == line && fault.cause == BookCause::Read)
        );
        assert!(rt; source.failures() == 1);
    }
}

/// A row of two receivers, the greatest reception of which is by the first of them.
const SPAN_TEXT: &[u8] = b"APRSBOOK 1
T 2024-05-01T11:59:59Z 2024-05-01T12:00:00Z RX1,RX2 RX1 82a0a4a64040e09c60868298986f03f03e4869
END 1
";

const EARLY_LINE: &[u8] = b"2024-05-01T11:59:59Z RX1 c00082a0a4a64040e09c60868298986f03f03e4869c0";

const EARLY_OTHER_LINE: &[u8] =
    b"2024-05-01T11:59:59Z RX2 c00082a0a4a64040e09c60868298986f03f03e4869c0";

/// The book of a text.
fn read_text(alloc: Global, text: &[u8]) -> Result<Book, Fail> {
    let read = read_book(alloc, MAX_INPUT, b"", &mut Counted::new(text));
    Ok(read.ok().ok_or("a book")?)
}

/// Receptions that the row of `SPAN_TEXT` may stand for, in each order.
const ORDERS: &[[&[u8]; 3]] = &[
    [EARLY_LINE, DIRECT_LINE, EARLY_OTHER_LINE],
    [EARLY_LINE, EARLY_OTHER_LINE, DIRECT_LINE],
    [DIRECT_LINE, EARLY_LINE, EARLY_OTHER_LINE],
    [DIRECT_LINE, EARLY_OTHER_LINE, EARLY_LINE],
    [EARLY_OTHER_LINE, EARLY_LINE, DIRECT_LINE],
    [EARLY_OTHER_LINE, DIRECT_LINE, EARLY_LINE],
];

// In each order the receptions make the book of the row.
#[test]
fn a_read_row_stands_for_receptions(rt: HostRuntime) -> Result<(), Fail> {
    let alloc = rt.alloc();
    let book = read_text(alloc, SPAN_TEXT)?;
    for lines in ORDERS {
        assert!(rt; book_of(alloc, lines)?.same(&book));
    }
    assert!(rt; book.merge(&book).ok().ok_or("a merge")?.same(&book));
    Ok(())
}

#[test]
fn what_is_known_of_a_read_row(rt: HostRuntime) -> Result<(), Fail> {
    let book = read_text(rt.alloc(), SPAN_TEXT)?;
    let station = callsign(b"N0CALL-7")?;
    assert!(rt; book.position(&station).is_none());
    let status = book.status(&station).ok_or("a status")?;
    assert!(rt; status.moment.seconds() == NOON);
    assert!(rt; status.receiver.as_bytes() == b"RX1".as_slice());
    Ok(())
}
