//! The fault of a book's text, and texts with other bytes.
ghost use Rattle.std.specs.Prelude.{◌≤◌};

use crate::texts::text_of;
use aprs_booktext::{BookFault, read_book};
use aprs_kiss::Counted;
use aprs_log::MAX_INPUT;
use std::alloc::Global;
use std::test::Fail;

/// The line and the name of the cause of a text's fault, or nothing.
pub fn fault_of(alloc: Global, text: &[u8]) -> Option<(u64, &'static str)> {
    fault_within(alloc, MAX_INPUT, text)
}

/// The same of a text under a limit.
pub fn fault_within(alloc: Global, limit: u64, text: &[u8]) -> Option<(u64, &'static str)>
    requires { limit ≤ 1073741824 }
{
    match read_book(alloc, limit, b"", &mut Counted::new(text)) {
        Ok(_) => None,
        Err(BookFault { line, cause }) => Some((line, cause.name())),
    }
}

/// Whether a text with this byte at this place is refused, or the book of it is written as the same
/// text.
fn is_refused_or_written_back(
    alloc: Global,
    text: &[u8],
    place: usize,
    byte: u8,
) -> Result<bool, Fail> {
    let mut changed = Vec::new(alloc);
    changed.extend_from_slice(text)?;
    *changed.get_mut(place).ok_or("a place")? = byte;
    match read_book(alloc, MAX_INPUT, b"", &mut Counted::new(changed.as_slice())) {
        Err(_) => Ok(true),
        Ok(book) => Ok(text_of(alloc, &book)?.as_slice() == changed.as_slice()),
    }
}

/// Whether that holds of each of these bytes at each of these places.
pub fn are_refused_or_written_back(
    alloc: Global,
    text: &[u8],
    from: usize,
    to: usize,
    bytes: &[u8],
) -> Result<bool, Fail> {
    for place in from..to {
        for &byte in bytes {
            if !is_refused_or_written_back(alloc, text, place, byte)? {
                return Ok(false);
            }
        }
    }
    Ok(true)
}
