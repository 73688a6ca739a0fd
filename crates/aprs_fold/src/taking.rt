//! Rows that are taken in order and written, once no later row can join them.
//!
//! Words of the contracts here:
//! - A row is sound by itself (`IsSoundRow`) if its first moment isn't after its last, its
//!   receivers strictly ascend, and that of its greatest reception is among them, the last of them
//!   where both moments are equal.
//! - `IsShort`: the names of a row's receivers, with commas between, have fewer than 4,294,967,296
//!   bytes.
//! - `last_row`: the row that was taken last. It is still open: later rows may join it. A next row
//!   that is near joins it. Any other closes it, so that its line is put, and takes its place.
//! - `Takes`: the next row was taken so. `wrote` says whether the last row's line was put, which is
//!   only where its source is within the range.
//! - `HasPut`: the lines of these rows were put. `IsThere`: there is one such row if the boolean is
//!   true, and none if it is false.
//! - `FailsPut`: the output was refused, and a prefix of these lines went out. `FailsTaking`: so it
//!   was of the last row's line, or at `Memory` that line was put, or nothing was.
//! - `last_row_after`: the row that was taken last, once the stream of this one is read on.
//!   `IsOfStream`: if a stream lends it, that is the one of this number.
//! - `IsFirst`: the stream of this number has a row in front, and no other's comes before it.
ghost use Rattle.std.specs.Prelude.{◌≡◌, ◌+◌, Some, IfErr, IfOk, OnOk, if◌then◌else◌};
ghost use Rattle.aprs_transmissions.specs.Gap.{millis_of};
ghost use Rattle.aprs_transmissions.specs.Row.{Row};
ghost use Rattle.aprs_transmissions.specs.Sound.{IsSoundRow};
ghost use Rattle.aprs_rows.specs.Packed.{IsShort};
ghost use Rattle.aprs_bookfile.specs.RowReader.{list_of_row};
ghost use Rattle.aprs_fold.specs.Fronts.{IsFirst, row_at};
ghost use Rattle.aprs_fold.specs.LastRow.{IsOfStream, last_row, last_row_after};
ghost use Rattle.aprs_fold.specs.Range.{rows_of_sources};
ghost use Rattle.aprs_fold.specs.Taking as Spec;

use crate::fault::FoldFault;
use crate::last_row::LastRow;
use crate::range::SourceRange;
use aprs_bookfile::{LentRow, RowStream, WrittenRow};
use aprs_io::Outlet;
use aprs_rows::RowView;
use aprs_transmissions::Gap;
use std::alloc::Allocator;
use std::io::Write;

/// Takes the row in front of the stream of this number, as `take` does. Requires that there is one,
/// and that no other stream's comes before it. The stream has to be read on then.
pub(crate) fn take_front<W: Write, A: Allocator + Copy>(
    gap: Gap,
    range: &SourceRange,
    streams: &[RowStream<A>],
    index: usize,
    last: &mut LastRow<A>,
    out: &mut Outlet<'_, W>,
    room: &mut WrittenRow,
) -> Result<bool, FoldFault>
    requires first { IsFirst streams.now index }
    ensures takes { IfOk result (λ wrote. (x : Row) → row_at streams.now index ≡ Some x
        → IsSoundRow x × IsOfStream index last.new.stream
        × Spec.Takes W.contents range.now wrote (millis_of gap) out.old out.new
        (last_row last.old streams.now) x (last_row_after last.new x)) }
    ensures fails { IfErr result (λ fault. (x : Row) → row_at streams.now index ≡ Some x
        → IsSoundRow x × Spec.FailsTaking W.contents range.now (millis_of gap) fault
        out.old out.new (last_row last.old streams.now) x) }
{
    match streams[index].row() {
        Some(next) => take(gap, range, streams, index, &next, last, out, room),
        None => Ok(false),
    }
}

/// Lets the next row, which is in front of the stream of this number, join the last one where it is
/// near. Otherwise puts the line of the last one into `out`, if there is one within the range, and
/// has the next in its place. Returns whether a line was put.
fn take<W: Write, A: Allocator + Copy>(
    gap: Gap,
    range: &SourceRange,
    streams: &[RowStream<A>],
    index: usize,
    next: &RowView<'_>,
    last: &mut LastRow<A>,
    out: &mut Outlet<'_, W>,
    room: &mut WrittenRow,
) -> Result<bool, FoldFault>
    requires sound { IsSoundRow next.now }
    requires short { IsShort next.now }
    ensures takes { IfOk result (λ wrote. Spec.Takes W.contents range.now wrote (millis_of gap)
        out.old out.new (last_row last.old streams.now) next.now
        (last_row_after last.new next.now)) }
    ensures lends { OnOk result (IsOfStream index last.new.stream) }
    ensures fails { IfErr result (λ fault. Spec.FailsTaking W.contents range.now (millis_of gap)
        fault out.old out.new (last_row last.old streams.now) next.now) }
{
    if last.join(gap, streams, next)? {
        return Ok(false);
    }
    let wrote = put_last(range, last.row(streams), out, room)?;
    last.take(index);
    Ok(wrote)
}

/// Puts the line of the last row into `out`, if there is one and it is within the range. Returns
/// whether a line was put.
#[inline(always)]
pub(crate) fn put_last<W: Write>(
    range: &SourceRange,
    last: Option<LentRow<'_>>,
    out: &mut Outlet<'_, W>,
    room: &mut WrittenRow,
) -> Result<bool, FoldFault>
    ensures wrote { IfOk result (λ wrote.
        Spec.IsThere wrote (rows_of_sources range.now (list_of_row last.entry))) }
    ensures puts { OnOk result (Spec.HasPut W.contents out.old out.new
        (rows_of_sources range.now (list_of_row last.entry))) }
    ensures fails { IfErr result (λ fault. Spec.FailsPut W.contents fault out.old out.new
        (rows_of_sources range.now (list_of_row last.entry))) }
{
    let Some(row) = last else {
        return Ok(false);
    };
    if !range.contains_row(row.row()) {
        return Ok(false);
    }
    row.put(out, room)?;
    Ok(true)
}

/// Whether there is a last row that is within the range.
pub(crate) fn has_line(range: &SourceRange, last: Option<LentRow<'_>>) -> bool
    ensures { Spec.IsThere result (rows_of_sources range.now (list_of_row last.entry)) }
{
    match last {
        Some(row) => range.contains_row(row.row()),
        None => false,
    }
}

/// The count, with one more where a line was put. `Memory` where that would be 2^64.
pub(crate) fn count_after(count: usize, wrote: bool) -> Result<usize, FoldFault>
    ensures counts { IfOk result (λ n. n ≡ (if wrote then count + 1 else count)) }
    ensures fails { IfErr result (λ fault. fault ≡ FoldFault.Memory) }
{
    if !wrote {
        return Ok(count);
    }
    match count.checked_add(1) {
        Some(more) => Ok(more),
        None => Err(FoldFault::Memory),
    }
}
