//! Lines that are read at their places.
ghost use Rattle.std.specs.Prelude.{◌≡◌, ℕ, List, Some, IfSome};
ghost use Rattle.aprs_fold.specs.Lines.{ReadsLine};

use crate::range::cut::line_len;
use crate::range::read_at::ReadAt;
use std::alloc::Allocator;

/// The bytes that are read at once.
const PIECE: usize = 1024;

/// From how many bytes on a line may be refused: 16 MiB. It is twenty times the line of a row that
/// 60,000 receivers heard.
const MAX_LINE: usize = 16_777_216;

/// Reads the line that begins at place `at` into `line`, without its LF. What `line` held is lost.
/// Returns the place after the LF. `None` where no LF comes before the end, a read failed or memory
/// was refused. It may be `None` too where the line has 16 MiB or more.
pub fn read_line<R: ReadAt, A: Allocator>(
    source: &mut R,
    at: u64,
    line: &mut Vec<u8, A>,
) -> Option<u64>
    ensures reads { IfSome result (λ next. (bytes : List ℕ) → R.bytes source.old ≡ Some bytes
        → ReadsLine bytes at line.new.items next) }
    ensures stays { R.bytes source.new ≡ R.bytes source.old }
{
    line.clear();
    let mut next = at;
    let mut piece = [0; PIECE];
    while line.len() < MAX_LINE {
        let count = source.read_at(next, &mut piece).ok()?;
        let read = &piece[..count];
        if read.is_empty() {
            return None;
        }
        if let Some(len) = line_len(read) {
            line.extend_from_slice(&read[..len]).ok()?;
            return next.checked_add(len as u64 + 1);
        }
        line.extend_from_slice(read).ok()?;
        next = next.checked_add(count as u64)?;
    }
    None
}
