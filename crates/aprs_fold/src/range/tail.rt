//! The last line of a book file.
ghost use Rattle.std.specs.Prelude.{◌≡◌, ◌∷◌, ℕ, List, length, Some, IfSome};
ghost use Rattle.aprs_bookfile.specs.RowLines.{ended_by_lf};
ghost use Rattle.aprs_bookfile.specs.Text.{end_line};
ghost use Rattle.aprs_fold.specs.Lent.{EndsWithLast};

use crate::range::read_at::ReadAt;
use aprs_bookfile::end_line_and_lf;
use aprs_io::push_all;
use arrayvec::ArrayVec;
use memchr::memrchr;

/// How many bytes are read at the end of a file: more than a last line has, with the LF before it.
const TAIL: usize = 72;

/// The place of the last line of a file of this size. `None` where the file doesn't end with an LF
/// and the last line of a book file, or where the read fails or doesn't reach the end. Where the
/// size is 0 it is `None` and nothing is read, since a device may say that size.
pub fn last_line<R: ReadAt>(source: &mut R, size: u64) -> Option<u64>
    ensures ends { IfSome result (λ at. (bytes : List ℕ) → R.bytes source.old ≡ Some bytes
        → size ≡ length bytes → EndsWithLast bytes) }
    ensures stays { R.bytes source.new ≡ R.bytes source.old }
{
    let mut tail = [0; TAIL];
    let at = size.saturating_sub(TAIL as u64);
    if at == size {
        return None;
    }
    let count = source.read_at(at, &mut tail).ok()?;
    if size - at != count as u64 {
        return None;
    }
    let len = last_line_len(&tail[..count])?;
    size.checked_sub(len as u64)
}

/// How many bytes the last line has, with its LF, or `None` where it isn't the last line of a book
/// file or no LF stands before it.
fn last_line_len(tail: &[u8]) -> Option<usize>
    ensures { IfSome result (λ len. EndsWithLast tail.now) }
{
    let before = tail.len().checked_sub(1)?;
    let lf = memrchr(b'\n', &tail[..before])?;
    rows_of_end(&tail[lf..])?;
    Some(tail.len() - lf - 1)
}

/// How many rows a last line says, where these bytes are an LF, then that line, then its LF.
/// Otherwise `None`.
fn rows_of_end(rest: &[u8]) -> Option<usize>
    ensures { IfSome result (λ rows. rest.now ≡ 10 ∷ ended_by_lf (end_line rows)) }
{
    let rows = rows_in(rest)?;
    let mut end: ArrayVec<u8, TAIL> = ArrayVec::new();
    push_all(&mut end, b"\n");
    push_all(&mut end, end_line_and_lf(rows).as_slice());
    if rest == end.as_slice() {
        Some(rows)
    } else {
        None
    }
}

/// The number between the first five bytes and the last one, or `None` where no number below 2^64
/// is there. Neither the five bytes, which should be an LF and `END `, nor the last are looked at.
fn rows_in(rest: &[u8]) -> Option<usize> {
    if rest.len() < 6 {
        return None;
    }
    let digits = std::str::from_utf8(&rest[5..rest.len() - 1]).ok()?;
    digits.parse::<usize>().ok()
}
