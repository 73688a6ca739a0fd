//! The program of docs/library.md: it reads a log on standard input, and writes the log's book.
#![tactic(auto)]

use aprs_book::Book;
use aprs_booktext::write_book;
use aprs_io::Counted;
use aprs_log::{Line, LogReader, MAX_INPUT};
use linked_list_allocator::LocalHeap;
use std::alloc::Allocator;
use std::io::Read;
use std::process::ExitCode;

/// Takes a log into a book to its end, or to the line at fault: then its number and the cause are
/// returned, and the lines before it are taken.
fn take_log<A: Allocator + Copy, R: Read>(
    book: &mut Book<A>,
    alloc: A,
    log: &mut Counted<R>,
) -> Result<(), (u64, &'static str)> {
    let mut lines = LogReader::new(alloc, MAX_INPUT, b"", log);
    // No log has more lines than bytes.
    for _ in 0..MAX_INPUT {
        match lines.next() {
            Ok(Some(Line::Heard(heard))) => {
                if book.take(&heard).is_err() {
                    return Err((lines.line(), "Memory"));
                }
            }
            Ok(Some(Line::Passed(_))) => {}
            Ok(None) => break,
            Err(fault) => return Err((fault.line, fault.cause.name())),
        }
    }
    Ok(())
}

/// Writes what of the log its book can hold in a megabyte.
fn main(rt: HostRuntime) -> ExitCode {
    let Ok(heap) = LocalHeap::new(rt.alloc(), 1_048_576) else {
        return ExitCode::FAILURE;
    };
    let mut book = Book::new(&heap);
    let taken = take_log(&mut book, &heap, &mut Counted::new(rt.stdin()));
    if let Err((line, cause)) = taken {
        let _ = eprintln!(rt; "line {line}: {cause}");
    }
    // This asks for no memory: the book is written also where it is full.
    let written = write_book(&mut Counted::new(rt.stdout()), &book);
    if taken.is_ok() && written.is_ok() {
        ExitCode::SUCCESS
    } else {
        ExitCode::FAILURE
    }
}

#[cfg(test)]
mod growing;
