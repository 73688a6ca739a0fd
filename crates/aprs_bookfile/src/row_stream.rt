//! The rows of a book's text, read one after another.
//!
//! Words of the contracts here:
//! - `HasGot`: since the input was `first`, the text of these rows was got, `head` among it, of at
//!   most `limit` bytes, and no call answered a fault or the end. `HasGotText`: the same, whatever
//!   is kept of the rows. `HoldsTo`, `HoldsText` say it of the stream alone.
//! - `GetsOne`: one row more was got; or they are all, and the input has ended. `StepsTo`: one row
//!   more or none.
//! - `IsFaultyAfter`: this fault is the answer for what was read since the input was `first`.
//! - `StopsFrom`: if memory was refused and each row is kept, the fault names the line after those
//!   of the rows that are kept.
//! - `IsAnswered`: the answer is that for the text that was got, and the reader was asked no
//!   further.
//! - `TakesLast`: the row that is taken is the last one of those that were got before.
//! - `front_of` a stream has its row that was read last, or none. `is_ended`: the last line was
//!   read.
//! - `stream_size` counts rows that were read, bytes that are held, and bytes that may be read yet.
//!   `stream_ahead` grows less with each step.
ghost use Rattle.std.specs.Prelude.{◌≡◌, ◌≢◌, ◌≤◌, ◌<◌, ◌+◌, ◌++◌, ◌∷◌, ℕ, [], None, Some, List, false, true, length, IfErr, IfOk, IfSome, IfNone, OnOk};
ghost use Rattle.std.specs.List.{last_or};
ghost use Rattle.aprs_io.specs.declared.device.Counted.{Counted as CountedValue};
ghost use Rattle.aprs_transmissions.specs.Row.{Row};
ghost use Rattle.aprs_transmissions.specs.Sound.{IsSoundRow};
ghost use Rattle.aprs_rows.specs.Packed.{IsShort};
ghost use Rattle.aprs_bookfile.specs.Reader.{IsFault};
ghost use Rattle.aprs_bookfile.specs.Reading.{IsAnswered};
ghost use Rattle.aprs_bookfile.specs.Piece.{bytes_left};
ghost use Rattle.aprs_bookfile.specs.RowReader.{answer_read, most_stream, HasReadText, KeepsVersion, MovesOn};
ghost use Rattle.aprs_bookfile.specs.RowStream as Spec;
ghost use Rattle.aprs_bookfile.specs.TextFault.{most_ahead};

use crate::cut::cut;
use crate::fault::{BookCause, BookFault};
use crate::lent_row::LentRow;
use crate::piece::Piece;
use crate::row_reader::{Keeping, RowReader};
use aprs_io::Counted;
use aprs_rows::{HasFront, Memory, PackedRows, RowView};
use aprs_transmissions::Gap;
use std::alloc::Allocator;
use std::io::Read;

/// A stream of the rows of a book's text that is read of a source. It keeps the row that was read
/// last, or each row.
#[derive(Drop)]
pub struct RowStream<A: Allocator> {
    reader: RowReader<A>,
    piece: Piece<A>,
    /// How many bytes may still be read.
    left: u64,
}

impl<A: Allocator + Copy> RowStream<A> {
    /// The rows of a text of at most `limit` bytes, of which nothing was read. Takes memory for a
    /// piece of 16,384 bytes. `advance` requires a limit of at most 9,223,372,036,854,775,807.
    pub fn new(alloc: A, limit: u64) -> Result<RowStream<A>, Memory>
        ensures holds { IfOk result (λ stream. Spec.HoldsTo stream [] []) }
        ensures left { IfOk result (λ stream. stream.left ≡ limit) }
        ensures size { IfOk result (λ stream. Spec.stream_size stream ≡ limit) }
        ensures going { IfOk result (λ stream. Spec.is_ended stream ≡ false) }
        ensures keeping { IfOk result (λ stream. stream.reader.keeping ≡ Keeping.Last) }
    {
        RowStream::with_head(alloc, limit, &[], Keeping::Last)
    }

    /// The rows of a text of at most `limit` bytes, which begins with `head`. Each row is kept.
    /// Fails with `Memory` in the first line where an allocation failed. Requires a head of at most
    /// 8 bytes and at most `limit`.
    pub fn keeping_each(alloc: A, limit: u64, head: &[u8]) -> Result<RowStream<A>, BookFault>
        requires few { length head.now ≤ 8 }
        requires within { length head.now ≤ limit }
        ensures holds { IfOk result (λ stream. Spec.HoldsTo stream [] head.now) }
        ensures left { IfOk result (λ stream. length head.now + stream.left ≡ limit) }
        ensures size { IfOk result (λ stream. Spec.stream_size stream ≡ limit) }
        ensures keeping { IfOk result (λ stream. stream.reader.keeping ≡ Keeping.Each) }
        ensures first { IfErr result (λ fault.
            fault ≡ record { line = 1; cause = BookCause.Memory }) }
    {
        match RowStream::with_head(alloc, limit, head, Keeping::Each) {
            Ok(stream) => Ok(stream),
            Err(_) => Err(BookFault {
                line: 1,
                cause: BookCause::Memory,
            }),
        }
    }

    /// The rows of a text of at most `limit` bytes, which begins with `head`. `keeping` says which
    /// rows are kept. Requires a head of at most 8 bytes and at most `limit`.
    pub(crate) fn with_head(
        alloc: A,
        limit: u64,
        head: &[u8],
        keeping: Keeping,
    ) -> Result<RowStream<A>, Memory>
        requires few { length head.now ≤ 8 }
        requires within { length head.now ≤ limit }
        ensures holds { IfOk result (λ stream. Spec.HoldsTo stream [] head.now) }
        ensures left { IfOk result (λ stream. length head.now + stream.left ≡ limit) }
        ensures size { IfOk result (λ stream. Spec.stream_size stream ≡ limit) }
        ensures going { IfOk result (λ stream. Spec.is_ended stream ≡ false) }
        ensures keeping { IfOk result (λ stream. stream.reader.keeping ≡ keeping) }
    {
        let piece = Piece::new(alloc, head)?;
        Ok(RowStream {
            reader: RowReader::new(alloc, keeping),
            piece,
            left: limit - head.len() as u64,
        })
    }

    /// The gap of the text's book, as the header says; before that is read, the standard gap.
    pub fn gap(&self) -> Gap
        ensures { result ≡ Spec.gap_of_stream self.now }
    {
        self.reader.gap()
    }

    /// The row that was read last, or `None` before the first row, or once the last line was read.
    pub fn row(&self) -> Option<RowView<'_>>
        ensures some { IfSome result (λ x. last_or None (Spec.front_of self.now) ≡ Some x) }
        ensures none { IfNone result (Spec.front_of self.now ≡ []) }
        // A row is sound by itself, and its receivers' names have fewer than 4,294,967,296 bytes.
        ensures own { IfSome result (λ x. IsSoundRow x × IsShort x) }
    {
        self.reader.row()
    }

    /// The row that was read last, with its line where that is kept. `None` before the first row,
    /// or once the last line was read. Takes no memory.
    pub fn front(&self) -> Option<LentRow<'_>>
        ensures some { IfSome result (λ x. last_or None (Spec.front_of self.now) ≡ Some x) }
        ensures none { IfNone result (Spec.front_of self.now ≡ []) }
        // A row is sound by itself, and its receivers' names have fewer than 4,294,967,296 bytes.
        ensures own { IfSome result (λ x. IsSoundRow x × IsShort x) }
    {
        self.reader.front()
    }

    /// The row that was in front before the last `advance`, with its line where that is kept, or
    /// `None` where there was none. The stream has to keep the last row alone. Takes no memory.
    pub fn taken(&self) -> Option<LentRow<'_>>
        ensures some { IfSome result (λ x. Spec.taken_of self.now ≡ x ∷ []) }
        ensures none { IfNone result (Spec.taken_of self.now ≡ []) }
        // A row is sound by itself, and its receivers' names have fewer than 4,294,967,296 bytes.
        ensures own { IfSome result (λ x. IsSoundRow x × IsShort x) }
    {
        self.reader.taken()
    }

    /// Reads on to the next row, or to the end of the book and of the source, and then there is no
    /// row. Fails with the text's first fault, or with `Memory` where an allocation failed or a
    /// row's names have 4 GiB or more. After a fault `row` may be any row, or `None`. Requires that
    /// the end wasn't reached before, that no fault came, and a limit of at most
    /// 9,223,372,036,854,775,807.
    pub fn advance<R: Read>(&mut self, source: &mut Counted<R>) -> Result<(), BookFault>
        requires few { Spec.stream_size self.old ≤ most_stream }
        requires going { Spec.is_ended self.old ≡ false }
        ensures one { OnOk result ((limit : ℕ) (head : List ℕ) (first : CountedValue R)
            (rows : List Row)
            → Spec.HasGot R.remaining limit head first source.old self.old rows
            → Spec.GetsOne R.remaining limit head first source.new self.new rows) }
        ensures version { OnOk result
            (KeepsVersion self.old.reader.stage self.new.reader.stage) }
        ensures size { OnOk result (Spec.stream_size self.new ≤ Spec.stream_size self.old) }
        ensures less { OnOk result (Spec.is_ended self.new ≡ false
            → Spec.stream_ahead self.new < Spec.stream_ahead self.old) }
        ensures keeping { self.new.reader.keeping ≡ self.old.reader.keeping }
        ensures taken { OnOk result
            (Spec.TakesLast R.remaining source.old self.old self.new) }
        ensures fault { IfErr result (λ fault.
            Spec.IsFaultyAfter R.remaining fault source.old source.new self.old) }
    {
        while !self.reader.is_done() {
            if self.step(source)? {
                return Ok(());
            }
        }
        self.end(source)
    }

    /// Reads on to the end of the last line. The stream has to keep each row. Fails with the text's
    /// first fault, or with `Memory` where an allocation failed. After `Memory` the rows are those
    /// of the lines before the one that the fault names.
    pub fn read_lines<R: Read>(&mut self, source: &mut Counted<R>) -> Result<(), BookFault>
        requires few { Spec.stream_size self.old ≤ most_stream }
        requires each { self.old.reader.keeping ≡ Keeping.Each }
        ensures all { OnOk result ((limit : ℕ) (head : List ℕ) (first : CountedValue R)
            (rows : List Row)
            → Spec.HasGot R.remaining limit head first source.old self.old rows
            → Spec.HasGot R.remaining limit head first source.new self.new self.new.reader.rows) }
        ensures size { OnOk result (Spec.stream_size self.new ≤ Spec.stream_size self.old) }
        ensures none { OnOk result (bytes_left self.new.piece ≡ []) }
        ensures done { OnOk result (Spec.is_ended self.new ≡ true) }
        ensures keeping { self.new.reader.keeping ≡ self.old.reader.keeping }
        ensures fault { IfErr result (λ fault.
            Spec.IsFaultyAfter R.remaining fault source.old source.new self.old) }
        ensures stops { IfErr result (λ fault.
            Spec.StopsFrom R.remaining fault source.old self.old self.new) }
    {
        while !self.reader.is_done() {
            self.step(source)?;
        }
        self.refuse_rest()
    }

    /// The rows that are kept, which then are kept no more.
    pub fn take_rows(&mut self, alloc: A) -> PackedRows<A>
        ensures rows { result ≡ self.old.reader.rows }
        ensures text { (rows : List Row) (got : List ℕ) → Spec.HoldsText self.old rows got
            → Spec.HoldsText self.new rows got }
        ensures left { self.new.left ≡ self.old.left }
        ensures piece { self.new.piece ≡ self.old.piece }
        ensures stage { self.new.reader.stage ≡ self.old.reader.stage }
        ensures size { Spec.stream_size self.new ≡ Spec.stream_size self.old }
    {
        self.reader.take_rows(alloc)
    }

    /// The fault where memory is refused after the last line was read. It is in that line.
    pub fn memory_at_last(&self) -> BookFault
        requires { Spec.stream_size self.now ≤ most_stream }
        ensures { result ≡ record { line = self.now.reader.count + 2; cause = BookCause.Memory } }
    {
        self.reader.memory_at_last()
    }

    /// Judges the next line where its end is among the bytes that are here, and returns whether it
    /// is a row's. Otherwise keeps these bytes, reads some more and returns `false`.
    fn step<R: Read>(&mut self, source: &mut Counted<R>) -> Result<bool, BookFault>
        requires few { Spec.stream_size self.old ≤ most_stream }
        requires going { Spec.is_ended self.old ≡ false }
        ensures steps { IfOk result (λ is_row. (limit : ℕ) (head : List ℕ)
            (first : CountedValue R) (rows : List Row)
            → Spec.HasGot R.remaining limit head first source.old self.old rows
            → Spec.StepsTo R.remaining is_row limit head first source.new self.new rows) }
        ensures version { OnOk result
            (KeepsVersion self.old.reader.stage self.new.reader.stage) }
        ensures keeping { self.new.reader.keeping ≡ self.old.reader.keeping }
        ensures moves { IfOk result (λ is_row. self.old.reader.keeping ≡ Keeping.Last
            → MovesOn is_row self.new.reader.stage self.old.reader.rows self.new.reader.rows
            self.new.reader.taken) }
        ensures size { OnOk result (Spec.stream_size self.new ≤ Spec.stream_size self.old) }
        ensures less { OnOk result (Spec.stream_ahead self.new < Spec.stream_ahead self.old) }
        ensures fault { IfErr result (λ fault.
            Spec.IsFaultyAfter R.remaining fault source.old source.new self.old) }
        ensures stops { IfErr result (λ fault.
            Spec.StopsFrom R.remaining fault source.old self.old self.new) }
    {
        let bytes = self.piece.as_slice();
        match cut(bytes, b'\n') {
            Some((part, after)) => {
                let size = bytes.len() - after.len();
                let is_row = self.reader.end_line(part)?;
                self.piece.consume(size);
                Ok(is_row)
            }
            None => {
                self.reader.append(bytes)?;
                match self.piece.refill(source, self.left) {
                    Ok(count) => {
                        self.left -= count;
                        Ok(false)
                    }
                    Err(ending) => Err(self.reader.fault_of_ending(ending)),
                }
            }
        }
    }

    /// `Ok` where no bytes are held after the last line, and else the fault `After`.
    fn refuse_rest(&self) -> Result<(), BookFault>
        requires few { Spec.stream_size self.now ≤ most_stream }
        requires done { Spec.is_ended self.now ≡ true }
        ensures none { OnOk result (bytes_left self.now.piece ≡ []) }
        ensures fault { IfErr result (λ fault. (fault.cause ≡ BookCause.After)
            × ((rows : List Row) (t : List ℕ) → HasReadText self.now.reader rows t
            → IsFault most_ahead fault (t ++ bytes_left self.now.piece))) }
    {
        if self.piece.as_slice().is_empty() {
            return Ok(());
        }
        Err(self.reader.fault(BookCause::After))
    }

    /// Reads once more after the last line. Fails with `After` where bytes are there, with
    /// `TooLong` where the first of them is past the limit, and with `Read` where the read fails.
    pub fn end<R: Read>(&mut self, source: &mut Counted<R>) -> Result<(), BookFault>
        requires few { Spec.stream_size self.old ≤ most_stream }
        requires done { Spec.is_ended self.old ≡ true }
        ensures answer { (limit : ℕ) (head : List ℕ) (first : CountedValue R) (rows : List Row)
            → Spec.HasGotText R.remaining limit head first source.old self.old rows
            → IsAnswered R.remaining limit head
            (answer_read result (Spec.gap_of_stream self.old) rows) first source.new }
        ensures refused { IfErr result (λ fault. fault.cause ≢ BookCause.Memory) }
        ensures reader { self.new.reader ≡ self.old.reader }
        ensures size { OnOk result (Spec.stream_size self.new ≤ Spec.stream_size self.old) }
    {
        self.refuse_rest()?;
        match self.piece.refill(source, self.left) {
            Ok(_) => Err(self.reader.fault(BookCause::After)),
            Err(ending) => self.reader.finish(ending),
        }
    }
}

impl<A: Allocator + Copy> HasFront for RowStream<A> {
    ghost front = { λ stream. last_or None (Spec.front_of stream) };

    #[inline(always)]
    fn has_row(&self) -> bool {
        self.row().is_some()
    }

    #[inline(always)]
    fn is_before(&self, other: &Self) -> bool {
        let Some(row) = self.row() else {
            return false;
        };
        let Some(next) = other.row() else {
            return true;
        };
        row.order(&next).is_lt()
    }
}
