//! A reader of the rows of a range of sources in a book file.
//!
//! Words of the contracts here:
//! - The text that is lent is a book's: the header, the lines of the range's rows, and a last line.
//! - `left_of range bytes`: what is yet to be lent, if these are the file's bytes. `lent`: the
//!   same, where they are known.
//! - `LendsRange`: if the file's bytes are the text of a book, what is lent is that of its rows
//!   whose sources are within the range.
//! - `EndsWithLast`: the bytes end with the last line of a book's text, after an LF.
ghost use Rattle.std.specs.Prelude.{◌≡◌, ◌≤◌, ◌<◌, ◌++◌, ℕ, false, List, length, take, Some, IfErr, IfOk, OnErr, OnOk};
ghost use Rattle.std.specs.Io.{ReadsAtMost};
ghost use Rattle.aprs_bookfile.specs.RowLines.{ended_by_lf};
ghost use Rattle.aprs_bookfile.specs.Version.{header_of};
ghost use Rattle.aprs_fold.specs.Lent as Spec;

use crate::range::SourceRange;
use crate::range::cut::count_lines;
use crate::range::find::{Stretch, find_stretch};
use crate::range::read_at::ReadAt;
use aprs_bookfile::{Version, end_line_and_lf};
use aprs_io::push_all;
use arrayvec::ArrayVec;
use std::alloc::Allocator;
use std::io::{self, Error, ErrorKind, Read};

/// The room for a header or a last line, in bytes.
const LINE: usize = 64;

/// A book file that is read as if it had the rows of a range of sources alone. What is read is its
/// header, the lines of these rows, and a last line with their number. Reads take no memory.
#[derive(Drop)]
pub struct BookRange<R> {
    source: R,
    /// The header, or the last line.
    line: ArrayVec<u8, LINE>,
    /// How many bytes of this line were lent.
    given: usize,
    is_last: bool,
    /// Where the rows' lines that weren't lent yet begin and end.
    at: u64,
    end: u64,
    /// How many rows' lines were lent.
    rows: usize,
}

impl<R: ReadAt> BookRange<R> {
    /// The rows of this range in a book file, which are found by bisection: only some lines are
    /// read. Returns the source as `Err` where it isn't found to be a book file, a read failed or
    /// memory was refused. It may do so too where a line that is read has 16 MiB or more. Faults of
    /// rows out of the range, and most faults of rows within it, aren't looked for. Takes memory
    /// for the longest line that is read.
    pub fn find<A: Allocator>(alloc: A, source: R, range: &SourceRange) -> Result<BookRange<R>, R>
        ensures lends { IfOk result (λ found. Spec.LendsRange range.now (R.bytes source)
            (Spec.lent R.bytes found)) }
        // A file that doesn't end with a last line isn't taken.
        ensures ends { OnOk result ((bytes : List ℕ) → R.bytes source ≡ Some bytes
            → Spec.EndsWithLast bytes) }
        ensures stays { IfErr result (λ same. R.bytes same ≡ R.bytes source) }
    {
        let mut source = source;
        match find_stretch(alloc, &mut source, range) {
            Some(stretch) => Ok(BookRange::of_stretch(source, stretch)),
            None => Err(source),
        }
    }

    /// The book file. Takes no memory.
    pub fn into_source(self) -> R
        ensures { result ≡ Spec.lent_from self }
    {
        self.source
    }

    /// A reader of the rows' lines of this stretch, of which nothing was lent yet.
    fn of_stretch(source: R, stretch: Stretch) -> BookRange<R>
        ensures line { result.line.items ≡ ended_by_lf (header_of stretch.version) }
        ensures rest { result ≡ record {
          source = source;
          line = result.line;
          given = 0;
          is_last = false;
          at = stretch.from;
          end = stretch.until;
          rows = 0;
        } }
    {
        BookRange {
            source,
            line: header_and_lf(stretch.version),
            given: 0,
            is_last: false,
            at: stretch.from,
            end: stretch.until,
            rows: 0,
        }
    }

    /// Copies the next bytes of the line in hand to the start of `buf`, and returns how many.
    fn give_line(&mut self, buf: &mut [u8]) -> usize
        requires { self.old.given ≤ length self.old.line.items }
        ensures bound { result ≤ length buf.new }
        ensures some { 0 < length buf.new → self.old.given < length self.old.line.items
            → 0 < result }
        ensures gives { (bytes : List ℕ) → Spec.left_of self.old bytes
            ≡ take result buf.new ++ Spec.left_of self.new bytes }
        ensures source { self.new.source ≡ self.old.source }
    {
        let rest = &self.line.as_slice()[self.given..];
        let count = rest.len().min(buf.len());
        buf[..count].copy_from_slice(&rest[..count]);
        self.given += count;
        count
    }

    /// Reads bytes of the rows' lines from the file to the start of `buf`, and returns how many, at
    /// least one. The header has to be given, and some of these bytes have to be left. Fails where
    /// the read fails or no byte comes, or where the rows would be 2^64.
    fn read_lines(&mut self, buf: &mut [u8]) -> io::Result<usize>
        requires given { length self.old.line.items ≤ self.old.given }
        requires more { self.old.is_last ≡ false }
        requires before { self.old.at < self.old.end }
        ensures bound { ReadsAtMost result buf.new }
        ensures some { IfOk result (λ n. 0 < n) }
        ensures gives { IfOk result (λ n. (bytes : List ℕ)
            → R.bytes self.old.source ≡ Some bytes
            → Spec.left_of self.old bytes ≡ take n buf.new ++ Spec.left_of self.new bytes) }
        ensures keeps { OnErr result ((bytes : List ℕ)
            → Spec.left_of self.new bytes ≡ Spec.left_of self.old bytes) }
        ensures stays { R.bytes self.new.source ≡ R.bytes self.old.source }
    {
        let most = (self.end - self.at).min(buf.len() as u64) as usize;
        let count = self.source.read_at(self.at, &mut buf[..most])?;
        if count == 0 {
            return Err(Error::from(ErrorKind::UnexpectedEof));
        }
        let Some(rows) = self.rows.checked_add(count_lines(&buf[..count])) else {
            return Err(Error::from(ErrorKind::InvalidData));
        };
        self.rows = rows;
        self.at += count as u64;
        Ok(count)
    }

    /// Takes the last line in hand, where all rows' lines were lent. What is yet to be lent stays
    /// the same.
    fn end_lines(&mut self)
        requires given { length self.old.line.items ≤ self.old.given }
        requires more { self.old.is_last ≡ false }
        requires ended { self.old.end ≤ self.old.at }
        ensures keeps { (bytes : List ℕ) → Spec.left_of self.new bytes
            ≡ Spec.left_of self.old bytes }
        ensures source { self.new.source ≡ self.old.source }
        ensures given { self.new.given < length self.new.line.items }
    {
        self.line = end_line_and_lf(self.rows);
        self.given = 0;
        self.is_last = true;
    }
}

impl<R: ReadAt> Read for BookRange<R> {
    ghost remaining = { Spec.lent R.bytes };

    fn read(&mut self, buf: &mut [u8]) -> io::Result<usize> {
        if self.given < self.line.len() {
            return Ok(self.give_line(buf));
        }
        if self.is_last || buf.is_empty() {
            return Ok(0);
        }
        if self.at < self.end {
            return self.read_lines(buf);
        }
        self.end_lines();
        Ok(self.give_line(buf))
    }
}

/// The first line of a text of this version, with its LF.
fn header_and_lf(version: Version) -> ArrayVec<u8, LINE>
    ensures { result.items ≡ ended_by_lf (header_of version) }
{
    let mut line = ArrayVec::new();
    push_all(&mut line, version.header().as_slice());
    push_all(&mut line, b"\n");
    line
}
