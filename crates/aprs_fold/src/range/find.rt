//! Where the rows of a range of sources stand in a book file.
//!
//! Rows ascend by source, so that those before a source come first. `before` is such a source. A
//! row comes before it where its own source does, and any row does where there is no such source.
//!
//! Words of the contracts here:
//! - `R.bytes` are the file's bytes, where they are known.
//! - `CutsRows test bytes start at`: if a book's rows stand from `start` on, those up to `at` have
//!   sources that pass the test, and those from there on don't.
//! - `IsLow`: the place is `start`, or right after the line of a row that comes before `before`.
//! - `HasStretch`: if the bytes are a book's text, the stretch has the lines of the range's rows.
//! - `EndsWithLast`: the bytes end with the last line of a book's text.
//! - `BeginsLine`, `ReadsLine`: a line begins at this place; it is this line, and ends at that
//!   place.
ghost use Rattle.std.specs.Prelude.{◌≡◌, ◌<◌, ℕ, List, length, Some, IfSome, not};
ghost use Rattle.aprs_fold.specs.Range.{is_from, is_until};
ghost use Rattle.aprs_fold.specs.Cuts.{BeginsLine, CutsRows, HasStretch, IsLow};
ghost use Rattle.aprs_fold.specs.Lent.{EndsWithLast};
ghost use Rattle.aprs_fold.specs.Lines.{ReadsLine};

use crate::range::SourceRange;
use crate::range::judge::is_before;
use crate::range::line::read_line;
use crate::range::read_at::ReadAt;
use crate::range::tail::last_line;
use aprs_ax25::Callsign;
use aprs_bookfile::Version;
use std::alloc::Allocator;

/// Where the lines of a range's rows stand in a book file.
#[derive(Clone, Copy)]
pub struct Stretch {
    /// The version that the file's header says.
    pub version: Version,
    /// The place where the lines begin, counted in bytes from 0.
    pub from: u64,
    /// The place after their end.
    pub until: u64,
}

/// Where a bisection looks for the end of the rows that come before a given source.
#[derive(Clone, Copy)]
struct Bounds {
    /// A line begins at this place. All rows before it have sources that come before the given one.
    low: u64,
    /// The first line that begins at this place or later is no such row's.
    high: u64,
}

/// Where the lines of the range's rows stand in the book file. `None` where it seems to be no book
/// file, a read failed or memory was refused. It may also be `None` where a line that is read has
/// 16 MiB or more. Only some of the file's lines are read. Takes memory for the longest of them.
pub fn find_stretch<R: ReadAt, A: Allocator>(
    alloc: A,
    source: &mut R,
    range: &SourceRange,
) -> Option<Stretch>
    ensures finds { IfSome result (λ s. (bytes : List ℕ) → R.bytes source.old ≡ Some bytes
        → HasStretch range.now bytes s) }
    ensures ends { IfSome result (λ s. (bytes : List ℕ) → R.bytes source.old ≡ Some bytes
        → EndsWithLast bytes) }
    ensures stays { R.bytes source.new ≡ R.bytes source.old }
{
    let size = source.size().ok()?;
    find_in(alloc, source, size, range)
}

/// Does what `find_stretch` does, in a book file that has `size` bytes.
fn find_in<R: ReadAt, A: Allocator>(
    alloc: A,
    source: &mut R,
    size: u64,
    range: &SourceRange,
) -> Option<Stretch>
    ensures finds { IfSome result (λ s. (bytes : List ℕ) → R.bytes source.old ≡ Some bytes
        → size ≡ length bytes → HasStretch range.now bytes s) }
    ensures ends { IfSome result (λ s. (bytes : List ℕ) → R.bytes source.old ≡ Some bytes
        → size ≡ length bytes → EndsWithLast bytes) }
    ensures stays { R.bytes source.new ≡ R.bytes source.old }
{
    let end = last_line(source, size)?;
    let mut line = Vec::new(alloc);
    let start = read_line(source, 0, &mut line)?;
    let version = Version::of_header(line.as_slice())?;
    let from = find_first(source, &mut line, start, end, &range.from)?;
    let until = find_cut(source, &mut line, from, end, &range.until)?;
    Some(Stretch {
        version,
        from,
        until,
    })
}

/// The place in a book file where the rows that come before `first` end. The first of them stands
/// at `start`, if there is one. Without `first` no row comes before it, and the place is `start`.
/// `None` as from `find_cut`.
fn find_first<R: ReadAt, A: Allocator>(
    source: &mut R,
    line: &mut Vec<u8, A>,
    start: u64,
    end: u64,
    first: &Option<Callsign>,
) -> Option<u64>
    ensures finds { IfSome result (λ at. (bytes : List ℕ) → R.bytes source.old ≡ Some bytes
        → CutsRows (λ call. not (is_from first.now call)) bytes start at) }
    ensures stays { R.bytes source.new ≡ R.bytes source.old }
{
    match first {
        Some(_) => find_cut(source, line, start, end, first),
        None => Some(start),
    }
}

/// The place in a book file where the rows that come before `before` end. The first of them stands
/// at `start`, if there is one. The bisection looks no further than `end`. `None` as from `bisect`,
/// and where the line that it finds can't be read or judged, or is still such a row's.
fn find_cut<R: ReadAt, A: Allocator>(
    source: &mut R,
    line: &mut Vec<u8, A>,
    start: u64,
    end: u64,
    before: &Option<Callsign>,
) -> Option<u64>
    ensures finds { IfSome result (λ at. (bytes : List ℕ) → R.bytes source.old ≡ Some bytes
        → CutsRows (is_until before.now) bytes start at) }
    ensures stays { R.bytes source.new ≡ R.bytes source.old }
{
    let low = bisect(source, line, start, end, before)?;
    read_line(source, low, line)?;
    if is_before(line.as_slice(), before)? {
        return None;
    }
    Some(low)
}

/// The place `start`, or one right after the line of a row that comes before `before`. In a book
/// file it is where such rows end. `None` where `read_line` or `is_before` gives that for a line on
/// the way.
fn bisect<R: ReadAt, A: Allocator>(
    source: &mut R,
    line: &mut Vec<u8, A>,
    start: u64,
    end: u64,
    before: &Option<Callsign>,
) -> Option<u64>
    ensures low { IfSome result (λ low. (bytes : List ℕ) → R.bytes source.old ≡ Some bytes
        → IsLow before.now bytes start low) }
    ensures stays { R.bytes source.new ≡ R.bytes source.old }
{
    let mut bounds = Bounds {
        low: start,
        high: end,
    };
    for _ in 0..u64::BITS {
        if bounds.low >= bounds.high {
            break;
        }
        bounds = halve(source, line, bounds, before)?;
    }
    Some(bounds.low)
}

/// The bounds after the line in the middle was judged. `None` where it can't be read or judged.
fn halve<R: ReadAt, A: Allocator>(
    source: &mut R,
    line: &mut Vec<u8, A>,
    bounds: Bounds,
    before: &Option<Callsign>,
) -> Option<Bounds>
    requires { bounds.low < bounds.high }
    ensures low { IfSome result (λ halved. (bytes : List ℕ) → R.bytes source.old ≡ Some bytes
        → (start : ℕ) → IsLow before.now bytes start bounds.low
        → IsLow before.now bytes start halved.low) }
    ensures stays { R.bytes source.new ≡ R.bytes source.old }
{
    let middle = bounds.low + (bounds.high - bounds.low) / 2;
    let next = read_first_line(source, line, bounds.low, middle)?;
    if is_before(line.as_slice(), before)? {
        return Some(Bounds {
            low: next,
            high: bounds.high,
        });
    }
    Some(Bounds {
        low: bounds.low,
        high: middle,
    })
}

/// Reads the first line that begins at `middle` or later into `line`; or that at `low`, where a
/// line begins, if `middle` isn't after it. Returns the place after the line's LF. `None` as from
/// `read_line`.
fn read_first_line<R: ReadAt, A: Allocator>(
    source: &mut R,
    line: &mut Vec<u8, A>,
    low: u64,
    middle: u64,
) -> Option<u64>
    ensures reads { IfSome result (λ next. (bytes : List ℕ) → R.bytes source.old ≡ Some bytes
        → ((at : ℕ) × BeginsLine bytes low at × ReadsLine bytes at line.new.items next)) }
    ensures stays { R.bytes source.new ≡ R.bytes source.old }
{
    let at = line_start(source, line, low, middle)?;
    read_line(source, at, line)
}

/// The place of the first line that begins at `middle` or later; or `low`, where a line begins, if
/// `middle` isn't after it. `None` as from `read_line`.
fn line_start<R: ReadAt, A: Allocator>(
    source: &mut R,
    line: &mut Vec<u8, A>,
    low: u64,
    middle: u64,
) -> Option<u64>
    ensures begins { IfSome result (λ at. (bytes : List ℕ) → R.bytes source.old ≡ Some bytes
        → BeginsLine bytes low at) }
    ensures stays { R.bytes source.new ≡ R.bytes source.old }
{
    if middle <= low {
        return Some(low);
    }
    read_line(source, middle - 1, line)
}
