//! A log that grows, taken part by part.

use crate::take_log;
use aprs_book::Book;
use aprs_io::Counted;
use memchr::memrchr;
use std::alloc::{Allocator, Global};
use std::test::Fail;

/// Takes the lines that a log got after its first `taken` bytes, and returns how many bytes are
/// taken then. A line that is not whole yet is left for the next time.
fn take_more(alloc: Global, book: &mut Book, log: &[u8], taken: usize) -> Option<usize> {
    let (_, more) = log.split_at_checked(taken)?;
    let Some(last) = memrchr(b'\n', more) else {
        return Some(taken);
    };
    let (lines, _) = more.split_at_checked(last + 1)?;
    take_log(book, alloc, &mut Counted::new(lines)).ok()?;
    Some(taken + lines.len())
}

/// A line, and what has come of the next one; then all of it.
const LOG: &[u8] = b"2024-05-01T12:00:00Z RX1 c00082a0a4a64040e09c60868298986f03f03e4869c0
2024-05-01T12:01:00Z RX1 c00082a0a4a64040e09c60868298986f03f03e4869c0
";

#[test]
fn a_log_that_grows_is_taken_once(rt: HostRuntime) -> Result<(), Fail> {
    let mut book = Book::new(rt.alloc());
    let (begun, _) = LOG.split_at(100);
    let taken = take_more(rt.alloc(), &mut book, begun, 0).ok_or("begun")?;
    assert!(rt; taken == 70 && book.len() == 1);
    let taken = take_more(rt.alloc(), &mut book, LOG, taken).ok_or("grown")?;
    assert!(rt; taken == 140 && book.len() == 2);
    Ok(())
}
