//! The rows of an input, which is a log or a book file.
//!
//! Words of the contracts here:
//! - Of an input a text is got, at most `limit` bytes, and how it then ended. `OfGot` and
//!   `HoldsOfGot` say something of these two; `OfGot` only where the input's bytes are known.
//! - An input stands for a set of receptions: a log for those of its lines, a book file for each
//!   set whose book it is.
//! - `TakesInput`: rows that were the book of any set are now that of it and the input's; or the
//!   input is refused for this fault.
//! - `ReadsRows`, `ReadsLog`: the input has no fault, and its rows or receptions joined the book;
//!   or it is refused for this fault. Where an allocation failed, a faultless one may be refused.
//! - `AsksRows`: the input was read to its end, or to the fault, and no further.
ghost use Rattle.std.specs.Prelude.{◌≡◌, ◌<◌, ◌≤◌, [], ◌∷◌, ◌++◌, false, length, map, IfSome, OnOk};
ghost use Rattle.std.specs.List.{list_any};
ghost use Rattle.std.specs.Result.{result_err};
ghost use Rattle.aprs_io.specs.Device.{device_of};
ghost use Rattle.aprs_io.specs.Input.{last_of_ending, most_input};
ghost use Rattle.aprs_log.specs.LogAnswers.{end_with, is_lf, log_answers, receptions_of};
ghost use Rattle.aprs_transmissions.specs.JoinRow.{single};
ghost use Rattle.aprs_convert.specs.Got.{OfGot};
ghost use Rattle.aprs_runs.specs.declared.head.TheConstants.{HEAD_LEN};
ghost use Rattle.aprs_runs.specs.Devices.{AsksRows};
ghost use Rattle.aprs_runs.specs.Gathered.{with_rows};
ghost use Rattle.aprs_runs.specs.Head.{last_of_short};
ghost use Rattle.aprs_runs.specs.InputBook.{TakesInput};
ghost use Rattle.aprs_runs.specs.InputRows.{HoldsOfGot, ReadsLog, ReadsRows};

use crate::fault::InputFault;
use crate::gathered::{Gathered, add_rows};
use crate::head::{ShortInput, read_head};
use aprs_bookfile::read_rows;
use aprs_io::{Counted, InputEnd};
use aprs_log::{Line, LogCause, LogFault, LogReader};
use aprs_rows::{BookStore, Memory, PackedRows};
use aprs_transmissions::Gap;
use std::alloc::Allocator;
use std::io::Read;
use std::mem::replace;

/// The text of a book begins so.
pub const BOOK_MARK: &[u8] = b"APRSBOOK";

/// Adds the receptions of an input to the book that is gathered: if this was the book of a set of
/// receptions, it is now that of this set and of the input's receptions. Fails with the input's
/// first fault, with `OtherGap` for a faultless book file of another gap, or where an allocation
/// failed. After a fault any rows may be in the book; its gap stays. Reads at most `limit` bytes,
/// and one more at `TooLong`.
pub(crate) fn read_into<R: Read, A: Allocator + Copy>(
    alloc: A,
    limit: u64,
    gathered: &mut Gathered<A>,
    r: &mut Counted<R>,
) -> Result<(), InputFault>
    requires { limit ≤ most_input }
    // Where the input's bytes are known, this holds of what was got of it, and of its ending.
    ensures reads { OfGot limit (R.remaining (device_of r.old)) (R.remaining (device_of r.new))
        (TakesInput gathered.old.gap result gathered.old.rows gathered.new.rows) }
    ensures gap { gathered.new.gap ≡ gathered.old.gap }
    ensures calls { AsksRows result r.old r.new }
{
    let gap = gathered.store.gap();
    let own = read_input_rows(alloc, limit, gathered, r)?;
    if own != gap {
        return Err(InputFault::OtherGap);
    }
    Ok(())
}

/// Adds the rows of an input to the book that is gathered, and returns the input's gap: a book
/// file's own, or for a log that of the book. Each reception of a log is a row. Reads at most
/// `limit` bytes, and one more at `TooLong`. Fails with the input's first fault, or where an
/// allocation failed; after that any rows may be in the book. Holds the book, the rows of a book
/// file and one line.
pub(crate) fn read_input_rows<R: Read, A: Allocator + Copy>(
    alloc: A,
    limit: u64,
    gathered: &mut Gathered<A>,
    r: &mut Counted<R>,
) -> Result<Gap, InputFault>
    requires { limit ≤ most_input }
    ensures reads { OfGot limit (R.remaining (device_of r.old)) (R.remaining (device_of r.new))
        (ReadsRows gathered.old.gap result gathered.old gathered.new) }
    ensures gap { gathered.new.gap ≡ gathered.old.gap }
    ensures calls { AsksRows result r.old r.new }
{
    let gap = gathered.store.gap();
    let file = replace(&mut gathered.file, PackedRows::new(alloc));
    add_rows(&mut gathered.store, file)?;
    match read_head(limit, r) {
        Ok(head) if head.as_slice() == BOOK_MARK => {
            let mut rows = PackedRows::new(alloc);
            let own = read_rows(alloc, limit, BOOK_MARK, r, &mut rows)?;
            gathered.file = rows;
            Ok(own)
        }
        Ok(head) => {
            read_log(alloc, limit, head.as_slice(), &mut gathered.store, r)?;
            Ok(gap)
        }
        Err(short) => {
            read_short(&short)?;
            Ok(gap)
        }
    }
}

/// Adds the receptions of a log to the book of a store. The log's first bytes, `head`, were read
/// before; `r` gives the others. At most `limit` bytes are read, `head` among them, and one more at
/// `TooLong`. Fails with the log's first fault, or with `Memory` where an allocation failed; after
/// that any receptions may have joined the book.
pub fn read_log<R: Read, A: Allocator + Copy>(
    alloc: A,
    limit: u64,
    head: &[u8],
    store: &mut BookStore<A>,
    r: &mut Counted<R>,
) -> Result<(), InputFault>
    requires limit { limit ≤ most_input }
    requires head { length head.now ≤ HEAD_LEN }
    requires within { length head.now ≤ limit }

    // The text is `head` and what `r` gives after it.
    ensures reads { IfSome (R.remaining (device_of r.old))
        (λ input. HoldsOfGot limit (head.now ++ input) (R.remaining (device_of r.new))
        (ReadsLog result store.old store.new)) }
    ensures gap { store.new.gap ≡ store.old.gap }

    ensures calls { AsksRows result r.old r.new }
{
    let mut reader = LogReader::new(alloc, limit, head, r);
    'lines: loop {
        if !reader.advance()? {
            return Ok(());
        }
        push_heard(store, reader.current())?;
    }
}

/// Adds the reception of a line, if it has one, to the book of a store.
fn push_heard<A: Allocator + Copy>(store: &mut BookStore<A>, line: &Line) -> Result<(), Memory>
    ensures pushed { OnOk result (store.new
        ≡ with_rows store.old (map single (receptions_of (line.now ∷ [])))) }
    ensures gap { store.new.gap ≡ store.old.gap }
{
    match line {
        Line::Heard(x) => store.push_reception(x),
        Line::Passed(_) => Ok(()),
    }
}

/// The answer, as for a log, for an input of which fewer than eight bytes came, none of them an LF.
/// It is `Ok` where the input ended without any byte, and else a fault of line 1.
pub fn read_short(short: &ShortInput) -> Result<(), LogFault>
    requires few { length short.now.bytes.items < HEAD_LEN }
    requires one { list_any is_lf short.now.bytes.items ≡ false }
    // A log of these bytes that ends so has no line, and this fault or none.
    ensures answers { log_answers short.now.bytes.items short.now.ending
        ≡ end_with (result_err result) }
    // From the answer alone one sees what the reader answered last, as the ending says it.
    ensures last { last_of_short result ≡ last_of_ending short.now.ending }
{
    match short.ending {
        InputEnd::Read => Err(first_line_fault(LogCause::Read)),
        InputEnd::TooLong => Err(first_line_fault(LogCause::TooLong)),
        InputEnd::End if short.bytes.is_empty() => Ok(()),
        InputEnd::End => Err(first_line_fault(LogCause::NoNewline)),
    }
}

/// The fault with this cause in the first line.
fn first_line_fault(cause: LogCause) -> LogFault
    ensures { result ≡ record { line = 1; cause = cause } }
{
    LogFault { line: 1, cause }
}
