//! What of a fold of book files is new to the first of them.
//!
//! Words of the contracts here:
//! - `AreBooks`: each input was read to its end, and is the whole text of a book of this gap. These
//!   are the books' rows.
//! - `news_of_sources`: the rows of their book that are of the range's sources, and that the first
//!   of the books hasn't as they are.
//! - `IsWhole`, `PutsNews`: the rows are a book's, and so many lines were put.
//! - `IsRefused`: the input that the fault names has it as a book file, as far as it was read.
//! - `LeavesPart`, `LeavesNewsText`, `LeavesNews`: what was written or put before the fold ended
//!   early is a part of a book's text.
//! - `AreAsked`: of each input at most `limit` bytes were got, and it wasn't asked after its end.
ghost use Rattle.std.specs.Prelude.{◌≡◌, ◌≤◌, [], IfErr, IfOk, List, OnOk};
ghost use Rattle.aprs_io.specs.Device.{Sends};
ghost use Rattle.aprs_io.specs.Outlet.{Puts};
ghost use Rattle.aprs_transmissions.specs.Gap.{IsGap};
ghost use Rattle.aprs_transmissions.specs.Row.{Row};
ghost use Rattle.aprs_bookfile.specs.RowReader.{most_stream};
ghost use Rattle.aprs_bookfile.specs.Text.{written_text};
ghost use Rattle.aprs_fold.specs.Fold.{IsWhole};
ghost use Rattle.aprs_fold.specs.Inputs.{AreAsked, AreBooks, IsRefused};
ghost use Rattle.aprs_fold.specs.Known.{PutsNews};
ghost use Rattle.aprs_fold.specs.News as Spec;

use crate::fault::FoldFault;
use crate::fold::put_header;
use crate::last_row::LastRow;
use crate::opening::{advance, open_all};
use crate::range::SourceRange;
use crate::taking::count_after;
use crate::taking_new::{put_open_new, take_front_new};
use aprs_bookfile::{WrittenRow, end_line_and_lf};
use aprs_io::{Counted, Outlet};
use aprs_rows::Tournament;
use aprs_transmissions::Gap;
use std::alloc::Allocator;
use std::io::{Read, Write};

/// Writes of the book that `fold_books` writes those rows that the first input hasn't as they are:
/// a whole book's text in version 3. Whoever has taken the first input's book needs nothing else of
/// the inputs. It is read with the others, and only once, and takes no memory beside theirs. Of no
/// inputs nothing is new. Requires a limit of at most `MAX_BOOK`.
/// Where an input is at fault or an allocation fails, the header and a part of the rows' lines were
/// written. They are no book's text, since the last line isn't there. At `Write` a prefix of a
/// book's text was written.
pub fn fold_news<R: Read, W: Write, A: Allocator + Copy>(
    alloc: A,
    limit: u64,
    gap: Gap,
    range: &SourceRange,
    inputs: &mut [Counted<R>],
    w: &mut Counted<W>,
) -> Result<(), FoldFault>
    requires { limit ≤ most_stream }

    // At `Ok` each input is the whole text of a book of this gap. What was written is the text of
    // what is new to the first in the book of all, and can be read back.
    ensures news { OnOk result ((rows : List (List Row))
        × AreBooks R.remaining limit gap inputs.old inputs.new rows
        × Sends W.contents result w.old w.new
        (written_text (Spec.news_of_sources range.now gap rows))
        × IsWhole gap (Spec.news_of_sources range.now gap rows).rows) }

    // At a fault of an input, that input has it. What was written is a part of a book's text.
    ensures refuses { IfErr result (λ fault.
        IsRefused R.remaining limit gap fault inputs.old inputs.new) }
    ensures left { IfErr result (λ fault. Spec.LeavesPart W.contents gap fault w.old w.new) }

    // Of each input at most `limit` bytes were got, and one more was taken at `TooLong`. None is
    // asked after its end or a fault.
    ensures asks { AreAsked R.remaining limit inputs.old inputs.new }
{
    let mut out = Outlet::new(w);
    put_news_text(alloc, limit, gap, range, inputs, &mut out)?;
    Ok(out.flush()?)
}

/// Puts the text of what is new into `out`, from its header to its last line. `out` sends the
/// header before an input is read.
fn put_news_text<R: Read, W: Write, A: Allocator + Copy>(
    alloc: A,
    limit: u64,
    gap: Gap,
    range: &SourceRange,
    inputs: &mut [Counted<R>],
    out: &mut Outlet<'_, W>,
) -> Result<(), FoldFault>
    requires few { limit ≤ most_stream }
    requires gap { IsGap gap }
    ensures news { OnOk result ((rows : List (List Row))
        × AreBooks R.remaining limit gap inputs.old inputs.new rows
        × Puts W.contents result out.old out.new
        (written_text (Spec.news_of_sources range.now gap rows))
        × IsWhole gap (Spec.news_of_sources range.now gap rows).rows) }
    ensures refuses { IfErr result (λ fault.
        IsRefused R.remaining limit gap fault inputs.old inputs.new) }
    ensures left { IfErr result (λ fault.
        Spec.LeavesNewsText W.contents gap fault out.old out.new) }
    ensures asks { AreAsked R.remaining limit inputs.old inputs.new }
{
    put_header(gap, out)?;
    let count = put_news(alloc, limit, gap, range, inputs, out)?;
    Ok(out.put(end_line_and_lf(count).as_slice())?)
}

/// Puts the lines of what is new into `out`, and returns their number.
fn put_news<R: Read, W: Write, A: Allocator + Copy>(
    alloc: A,
    limit: u64,
    gap: Gap,
    range: &SourceRange,
    inputs: &mut [Counted<R>],
    out: &mut Outlet<'_, W>,
) -> Result<usize, FoldFault>
    requires few { limit ≤ most_stream }
    requires gap { IsGap gap }
    ensures news { IfOk result (λ count. (rows : List (List Row))
        × AreBooks R.remaining limit gap inputs.old inputs.new rows
        × PutsNews W.contents gap count out.old out.new
        (Spec.news_of_sources range.now gap rows).rows) }
    ensures refuses { IfErr result (λ fault.
        IsRefused R.remaining limit gap fault inputs.old inputs.new) }
    ensures left { IfErr result (λ fault. Spec.LeavesNews W.contents gap fault out.old out.new) }
    ensures asks { AreAsked R.remaining limit inputs.old inputs.new }
{
    let mut opened = open_all(alloc, limit, gap, inputs)?;
    let streams = opened.as_mut_slice();
    let mut tournament = Tournament::new(alloc, streams)?;
    let mut room = WrittenRow::new();
    let mut last = LastRow::new(alloc);
    let mut count = 0;
    while let Some(index) = tournament.first(streams) {
        let wrote = take_front_new(gap, range, streams, index, &mut last, out, &mut room)?;
        count = count_after(count, wrote)?;
        advance(index, streams, inputs)?;
        tournament.play_again(streams, index);
    }
    let some = put_open_new(range, streams, &last, out, &mut room)?;
    let all = count_after(count, some)?;
    Ok(all)
}
