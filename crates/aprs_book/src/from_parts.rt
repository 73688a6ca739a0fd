//! A book made of many rows.
ghost use Rattle.std.specs.Prelude.{◌≡◌, ◌<◌, ℕ, [], length, take, IsOk, IfOk, IfErr, OnOk};
ghost use Rattle.aprs_transmissions.specs.Gap.{millis_of};
ghost use Rattle.aprs_transmissions.specs.Sound.{Sound};
ghost use Rattle.aprs_book.specs.RowsFault.{IsRowsFault, AreSoundOrFaulty, SoundRowsAreFaultless, HaveOneRowsFault};

use crate::{Book, Gap, RowCause, RowParts};
use std::alloc::Allocator;

/// Why rows are not those of a book: the place of the first row that is refused, from 0, and why.
#[derive(Clone, Copy, Debug, PartialEq, Eq)]
pub struct RowsFault {
    /// The place of the row, from 0.
    pub place: usize,
    /// Why it isn't added after the rows before it.
    pub cause: RowCause,
}

/// The book of these rows under this gap, pushed one after another; or, as `Err`, the first row
/// that is refused, and why. Sound rows are a book unless memory is refused, and a book's rows are
/// sound. Takes memory for the rows, their receivers and the indexes; a book that isn't finished
/// is dropped.
pub fn from_rows<A: Allocator + Copy>(
    alloc: A,
    gap: Gap,
    rows: &[RowParts<A>],
) -> Result<Book<A>, RowsFault>
    ensures gap { IfOk result (λ book. book.gap ≡ gap) }
    ensures rows { IfOk result (λ book. book.rows ≡ rows.now) }
    ensures sound { IsOk result → Sound (millis_of gap) rows.now }

    ensures memory { Sound (millis_of gap) rows.now
        → IfErr result (λ f. f.cause ≡ RowCause.Memory) }
    ensures fault { IfErr result (IsRowsFault (millis_of gap) rows.now) }
{
    let mut book = Book::with_gap(alloc, gap);
    push_rows(&mut book, rows)?;
    Ok(book)
}

/// Pushes these rows onto a book that has to be empty, one after another, up to the first that is
/// refused. `Err` has the place and the cause of that row, and then the book has the rows before
/// it.
fn push_rows<A: Allocator + Copy>(book: &mut Book<A>, rows: &[RowParts<A>]) -> Result<(), RowsFault>
    requires { book.old.rows ≡ [] }

    ensures rows { OnOk result (book.new.rows ≡ rows.now) }
    ensures sound { OnOk result (Sound (millis_of book.old.gap) rows.now) }

    ensures place { IfErr result (λ f. f.place < length rows.now) }
    ensures reached { IfErr result (λ f. book.new.rows ≡ take f.place rows.now) }
    ensures memory { Sound (millis_of book.old.gap) rows.now
        → IfErr result (λ f. f.cause ≡ RowCause.Memory) }
    ensures fault { IfErr result (IsRowsFault (millis_of book.old.gap) rows.now) }

    ensures gap { book.new.gap ≡ book.old.gap }
{
    for (place, row) in rows.iter().enumerate() {
        if let Err(cause) = book.push_row(row) {
            return Err(RowsFault { place, cause });
        }
    }
    Ok(())
}

/// Rows that aren't sound have exactly one fault that isn't of memory: the first row that a cause
/// refuses. Any other fault is of memory, at a row before that one. Sound rows have no faults but
/// those of memory.
pub fn rows_are_sound_or_have_one_fault()
    ensures some { (gap : ℕ) → AreSoundOrFaulty gap }
    ensures one { (gap : ℕ) → HaveOneRowsFault gap }
    ensures none { (gap : ℕ) → SoundRowsAreFaultless gap }
{}
