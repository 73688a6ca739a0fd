//! The fold of book files.
//!
//! Words of the contracts here:
//! - `AreBooks`: each input was read to its end, and is the whole text of a book of this gap. These
//!   are the books' rows.
//! - `book_of_sources`: the book of all these rows, of which it has those of the range's sources.
//! - `IsWhole`: the rows are those of a book. `IsFoldedBook`: so are those of the range's sources
//!   among the rows that were folded. `PutsRows`: the lines of such rows were put, and there are so
//!   many.
//! - `IsRefused`: the input that the fault names has it as a book file, as far as it was read.
//! - `IsLeft`, `LeavesText`, `LeavesRows`: what was written or put before the fold ended early is a
//!   part of a book's text, of rows of the range that no later row could join.
//! - `AreAsked`: of each input at most `limit` bytes were got, and it wasn't asked after its end.
ghost use Rattle.std.specs.Prelude.{◌≡◌, ◌≤◌, [], List, IfErr, IfOk, OnOk};
ghost use Rattle.aprs_io.specs.Device.{Sends};
ghost use Rattle.aprs_io.specs.Outlet.{Puts, held_of};
ghost use Rattle.aprs_transmissions.specs.Gap.{IsGap};
ghost use Rattle.aprs_transmissions.specs.Row.{Row};
ghost use Rattle.aprs_bookfile.specs.RowLines.{ended_by_lf};
ghost use Rattle.aprs_bookfile.specs.RowReader.{most_stream};
ghost use Rattle.aprs_bookfile.specs.Text.{written_text};
ghost use Rattle.aprs_bookfile.specs.Version.{header_of};
ghost use Rattle.aprs_bookfile.specs.declared.version.Version.TheVariants.{Three};
ghost use Rattle.aprs_fold.specs.Fold as Spec;
ghost use Rattle.aprs_fold.specs.Inputs.{AreAsked, AreBooks, IsRefused};
ghost use Rattle.aprs_fold.specs.Range.{book_of_sources};

use crate::fault::FoldFault;
use crate::last_row::LastRow;
use crate::opening::{advance, open_all};
use crate::range::SourceRange;
use crate::taking::{count_after, has_line, put_last, take_front};
use aprs_bookfile::{WrittenRow, end_line_and_lf, header_line};
use aprs_io::{Counted, Outlet, WriteFault};
use aprs_rows::Tournament;
use aprs_transmissions::Gap;
use std::alloc::Allocator;
use std::io::{Read, Write};

/// The greatest limit that a caller may set for a book file that is folded: 2^63 - 1 bytes.
pub const MAX_BOOK: u64 = 9_223_372_036_854_775_807;

/// Writes, in version 3, the text of the book of all inputs. These have to be book files of this
/// gap, in any version, of at most `limit` bytes each. Of the book's rows the text has those whose
/// sources are within the range. The inputs are read side by side to their ends, and the rows are
/// written as they come. Memory is taken for each input (a piece of 16 KiB, its longest line three
/// times and its longest row twice) and for one row more, whatever the number of rows. Requires a
/// limit of at most `MAX_BOOK` (9,223,372,036,854,775,807). The header is sent before an input is
/// read.
/// Where an input is at fault or an allocation fails, the header and a part of the rows' lines were
/// written. They are no book's text, since the last line isn't there. At `Write` a prefix of the
/// text was written.
pub fn fold_books<R: Read, W: Write, A: Allocator + Copy>(
    alloc: A,
    limit: u64,
    gap: Gap,
    range: &SourceRange,
    inputs: &mut [Counted<R>],
    w: &mut Counted<W>,
) -> Result<(), FoldFault>
    requires { limit ≤ most_stream }

    // At `Ok` each input is the whole text of a book of this gap. What was written is the text of
    // the range's rows of the book of all their rows, and can be read back.
    ensures folds { OnOk result ((rows : List (List Row))
        × AreBooks R.remaining limit gap inputs.old inputs.new rows
        × Sends W.contents result w.old w.new (written_text (book_of_sources range.now gap rows))
        × Spec.IsWhole gap (book_of_sources range.now gap rows).rows) }

    // At a fault of an input, that input has it. What was written is a part of a book's text, of
    // the rows that no later row could join. The output answered a fault at `Write` alone, in its
    // last call.
    ensures refuses { IfErr result (λ fault.
        IsRefused R.remaining limit gap fault inputs.old inputs.new) }
    ensures left { IfErr result (λ fault. Spec.IsLeft R.remaining W.contents limit gap range.now
        fault inputs.old inputs.new w.old w.new) }

    // Of each input at most `limit` bytes were got, and one more was taken at `TooLong`. None is
    // asked after its end or a fault.
    ensures asks { AreAsked R.remaining limit inputs.old inputs.new }
{
    let mut out = Outlet::new(w);
    put_text(alloc, limit, gap, range, inputs, &mut out)?;
    Ok(out.flush()?)
}

/// Puts the text of the range's rows of the book of all rows into `out`, from its header to its
/// last line. `out` sends the header before an input is read.
fn put_text<R: Read, W: Write, A: Allocator + Copy>(
    alloc: A,
    limit: u64,
    gap: Gap,
    range: &SourceRange,
    inputs: &mut [Counted<R>],
    out: &mut Outlet<'_, W>,
) -> Result<(), FoldFault>
    requires few { limit ≤ most_stream }
    requires gap { IsGap gap }
    ensures folds { OnOk result ((rows : List (List Row))
        × AreBooks R.remaining limit gap inputs.old inputs.new rows
        × Puts W.contents result out.old out.new
        (written_text (book_of_sources range.now gap rows))
        × Spec.IsFoldedBook R.remaining limit gap range.now inputs.old inputs.new
        (book_of_sources range.now gap rows).rows) }
    ensures refuses { IfErr result (λ fault.
        IsRefused R.remaining limit gap fault inputs.old inputs.new) }
    ensures left { IfErr result (λ fault. Spec.LeavesText R.remaining W.contents limit gap
        range.now fault inputs.old inputs.new out.old out.new) }
    ensures asks { AreAsked R.remaining limit inputs.old inputs.new }
{
    put_header(gap, out)?;
    let count = put_rows(alloc, limit, gap, range, inputs, out)?;
    Ok(out.put(end_line_and_lf(count).as_slice())?)
}

/// Puts the header of a book of this gap, and sends all that `out` holds.
pub(crate) fn put_header<W: Write>(gap: Gap, out: &mut Outlet<'_, W>) -> Result<(), WriteFault>
    ensures puts { Puts W.contents result out.old out.new (ended_by_lf (header_of (Three gap))) }
    ensures empty { OnOk result (held_of out.new ≡ []) }
{
    out.put(header_line(gap).as_slice())?;
    out.flush()
}

/// Puts the lines of the range's rows of the book of all inputs into `out`, and returns their
/// number.
fn put_rows<R: Read, W: Write, A: Allocator + Copy>(
    alloc: A,
    limit: u64,
    gap: Gap,
    range: &SourceRange,
    inputs: &mut [Counted<R>],
    out: &mut Outlet<'_, W>,
) -> Result<usize, FoldFault>
    requires few { limit ≤ most_stream }
    requires gap { IsGap gap }
    ensures folds { IfOk result (λ count. (rows : List (List Row))
        × AreBooks R.remaining limit gap inputs.old inputs.new rows
        × Spec.PutsRows R.remaining W.contents limit gap range.now inputs.old inputs.new count
        out.old out.new (book_of_sources range.now gap rows).rows) }
    ensures refuses { IfErr result (λ fault.
        IsRefused R.remaining limit gap fault inputs.old inputs.new) }
    ensures left { IfErr result (λ fault. Spec.LeavesRows R.remaining W.contents limit gap
        range.now fault inputs.old inputs.new out.old out.new) }
    ensures asks { AreAsked R.remaining limit inputs.old inputs.new }
{
    let mut opened = open_all(alloc, limit, gap, inputs)?;
    let streams = opened.as_mut_slice();
    let mut tournament = Tournament::new(alloc, streams)?;
    let mut room = WrittenRow::new();
    let mut last = LastRow::new(alloc);
    let mut count = 0;
    while let Some(index) = tournament.first(streams) {
        let wrote = take_front(gap, range, streams, index, &mut last, out, &mut room)?;
        count = count_after(count, wrote)?;
        advance(index, streams, inputs)?;
        tournament.play_again(streams, index);
    }
    let all = count_after(count, has_line(range, last.row(streams)))?;
    put_last(range, last.row(streams), out, &mut room)?;
    Ok(all)
}
