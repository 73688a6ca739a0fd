//! A book as a line of text, and as its text.

use aprs_book::{Book, Row};
use aprs_booktext::write_book;
use aprs_kiss::Counted;
use aprs_log::Receiver;
use std::alloc::{Allocator, Global};
use std::fmt::Write;
use std::test::Fail;

/// Puts a name and a space.
fn name_text(text: &mut String, name: &Receiver) -> Option<()> {
    for byte in name.as_bytes() {
        text.push(char::from(*byte)).ok()?;
    }
    text.push(' ').ok()
}

/// Puts a row.
fn row_text(text: &mut String, row: &Row<'_>) -> Option<()> {
    let first = row.first.seconds() % 3600;
    let last = row.last.seconds() % 3600;
    write!(text, "{first}-{last} ").ok()?;
    for name in row.receivers {
        name_text(text, name)?;
    }
    text.push_str("/ ").ok()?;
    name_text(text, row.receiver)?;
    let octet = row.frame.bytes().get(13).copied().unwrap_or(0);
    write!(text, "{octet:02x}; ").ok()
}

/// A book's rows, each by its first and last second in its hour, its receivers, the greatest
/// reception's receiver and the last octet of its frame's source. Nothing where memory is refused.
pub fn shown<A: Allocator + Copy>(alloc: Global, book: &Book<A>) -> Option<String> {
    let mut text = String::new(alloc);
    for row in book.rows() {
        row_text(&mut text, &row)?;
    }
    Some(text)
}

/// Whether these are a book's rows. Takes memory for them: `false` also where it is refused.
pub fn is_shown<A: Allocator + Copy>(alloc: Global, book: &Book<A>, rows: &str) -> bool {
    matches!(&shown(alloc, book), Some(text) if text.as_str() == rows)
}

/// Whether a book is written as this text. Takes memory for it: `false` also where it is refused.
pub fn is_written_as<A: Allocator + Copy>(alloc: Global, book: &Book<A>, text: &[u8]) -> bool {
    let mut out = Counted::new(Vec::new(alloc));
    write_book(&mut out, book).is_ok() && out.into_inner().as_slice() == text
}

/// The text of a book. It fails where memory is refused.
pub fn text_of<A: Allocator + Copy>(alloc: A, book: &Book<A>) -> Result<Vec<u8, A>, Fail> {
    let mut out = Counted::new(Vec::new(alloc));
    write_book(&mut out, book).ok().ok_or("memory")?;
    Ok(out.into_inner())
}
