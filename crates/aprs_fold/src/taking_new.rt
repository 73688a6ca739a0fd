//! Rows that are taken in order, of which those are written that are new to a known book.
//!
//! Words of the contracts here:
//! - The known row is the one that was taken last of the known book, which is the first input.
//!   `new_rows known rows` are those of the rows that aren't rows of `known`.
//! - `PutsNew`: the last row's line was put, if it is within the range and isn't the known row.
//!   `wrote` says whether it was.
//! - `TakesNew`: the next row joined the last one, or closed it, so that it was put by `PutsNew`.
//! - `FailsNew`: at `Memory` the last row was put by `PutsNew`, or nothing was; at `Write` a prefix
//!   of its line went out.
//! - `HasPut`: the lines of these rows were put. `FailsPut`: a prefix of them went out, at `Write`.
//! - `IsThere`: there is one such row if the boolean is true, and none if it is false.
//! - `last_row`: the row that was taken last. `last_row_after`: the same, once the stream of this
//!   one is read on. `row_taken_at`: the row that was taken last of the stream of this number.
//!   `IsOfStream`: if a stream lends the last row, that is the one of this number.
ghost use Rattle.std.specs.Prelude.{◌≡◌, ◌∷◌, [], Some, IfErr, IfOk, OnOk};
ghost use Rattle.aprs_transmissions.specs.Gap.{millis_of};
ghost use Rattle.aprs_transmissions.specs.Row.{Row};
ghost use Rattle.aprs_transmissions.specs.Sound.{IsSoundRow};
ghost use Rattle.aprs_rows.specs.Packed.{IsShort};
ghost use Rattle.aprs_bookfile.specs.RowReader.{list_of_row};
ghost use Rattle.aprs_fold.specs.NewRows.{new_rows};
ghost use Rattle.aprs_fold.specs.Fronts.{IsFirst, row_at};
ghost use Rattle.aprs_fold.specs.Known as Spec;
ghost use Rattle.aprs_fold.specs.LastRow.{IsOfStream, last_row, last_row_after, row_taken_at};
ghost use Rattle.aprs_fold.specs.Range.{rows_of_sources};
ghost use Rattle.aprs_fold.specs.Taking.{FailsPut, HasPut, IsThere};

use crate::fault::FoldFault;
use crate::known::is_known;
use crate::last_row::{LastRow, row_taken};
use crate::range::SourceRange;
use aprs_bookfile::{LentRow, RowStream, WrittenRow};
use aprs_io::Outlet;
use aprs_rows::RowView;
use aprs_transmissions::Gap;
use std::alloc::Allocator;
use std::io::Write;

/// Takes the row in front of the stream of this number, as `take_new` does. Requires that there is
/// one, and that no other stream's comes before it. The stream has to be read on then.
pub(crate) fn take_front_new<W: Write, A: Allocator + Copy>(
    gap: Gap,
    range: &SourceRange,
    streams: &[RowStream<A>],
    index: usize,
    last: &mut LastRow<A>,
    out: &mut Outlet<'_, W>,
    room: &mut WrittenRow,
) -> Result<bool, FoldFault>
    requires first { IsFirst streams.now index }
    ensures takes { IfOk result (λ wrote. (x : Row) → row_at streams.now index ≡ Some x
        → IsSoundRow x × IsOfStream index last.new.stream
        × Spec.TakesNew W.contents range.now wrote (millis_of gap) (row_taken_at streams.now 0)
        out.old out.new (last_row last.old streams.now) x (last_row_after last.new x)) }
    ensures fails { IfErr result (λ fault. Spec.FailsNew W.contents range.now fault
        (row_taken_at streams.now 0) out.old out.new (last_row last.old streams.now)) }
{
    match streams[index].row() {
        Some(next) => take_new(gap, range, streams, index, &next, last, out, room),
        None => Ok(false),
    }
}

/// Takes the next row, which is in front of the stream of this number. It joins the last one where
/// it is near: of the same key, and at most the gap after it. Otherwise this puts the line of the
/// last one as `put_open_new` does, and has the next in its place. Returns whether a line was put.
fn take_new<W: Write, A: Allocator + Copy>(
    gap: Gap,
    range: &SourceRange,
    streams: &[RowStream<A>],
    index: usize,
    next: &RowView<'_>,
    last: &mut LastRow<A>,
    out: &mut Outlet<'_, W>,
    room: &mut WrittenRow,
) -> Result<bool, FoldFault>
    requires sound { IsSoundRow next.now }
    requires short { IsShort next.now }
    ensures takes { IfOk result (λ wrote. Spec.TakesNew W.contents range.now wrote (millis_of gap)
        (row_taken_at streams.now 0) out.old out.new (last_row last.old streams.now) next.now
        (last_row_after last.new next.now)) }
    ensures lends { OnOk result (IsOfStream index last.new.stream) }
    ensures fails { IfErr result (λ fault. Spec.FailsNew W.contents range.now fault
        (row_taken_at streams.now 0) out.old out.new (last_row last.old streams.now)) }
{
    if last.join(gap, streams, next)? {
        return Ok(false);
    }
    let wrote = put_open_new(range, streams, last, out, room)?;
    last.take(index);
    Ok(wrote)
}

/// Puts the line of the row that was taken last, as `put_last_new` does. The known one is that of
/// the first stream.
pub(crate) fn put_open_new<W: Write, A: Allocator + Copy>(
    range: &SourceRange,
    streams: &[RowStream<A>],
    last: &LastRow<A>,
    out: &mut Outlet<'_, W>,
    room: &mut WrittenRow,
) -> Result<bool, FoldFault>
    ensures puts { IfOk result (λ wrote. Spec.PutsNew W.contents range.now wrote
        (row_taken_at streams.now 0) out.old out.new (last_row last.now streams.now)) }
    ensures fails { IfErr result (λ fault. FailsPut W.contents fault out.old out.new
        (rows_of_sources range.now (last_row last.now streams.now))) }
{
    put_last_new(range, last.row(streams), row_taken(streams, 0), out, room)
}

/// Puts the line of the last row into `out`, if there is one, it is within the range, and it isn't
/// the known one. Returns whether a line was put.
fn put_last_new<W: Write>(
    range: &SourceRange,
    last: Option<LentRow<'_>>,
    known: Option<LentRow<'_>>,
    out: &mut Outlet<'_, W>,
    room: &mut WrittenRow,
) -> Result<bool, FoldFault>
    ensures puts { IfOk result (λ wrote. Spec.PutsNew W.contents range.now wrote
        (list_of_row known.entry) out.old out.new (list_of_row last.entry)) }
    ensures fails { IfErr result (λ fault. FailsPut W.contents fault out.old out.new
        (rows_of_sources range.now (list_of_row last.entry))) }
{
    let Some(row) = last else {
        return Ok(false);
    };
    if !range.contains_row(row.row()) {
        return Ok(false);
    }
    put_new(&row, known, out, room)
}

/// Puts the row's line unless it is the known one. Returns whether it was put.
fn put_new<W: Write>(
    row: &LentRow<'_>,
    known: Option<LentRow<'_>>,
    out: &mut Outlet<'_, W>,
    room: &mut WrittenRow,
) -> Result<bool, FoldFault>
    ensures wrote { IfOk result (λ wrote.
        IsThere wrote (new_rows (list_of_row known.entry) (row.now ∷ []))) }
    ensures puts { OnOk result (HasPut W.contents out.old out.new
        (new_rows (list_of_row known.entry) (row.now ∷ []))) }
    ensures fails { IfErr result (λ fault. FailsPut W.contents fault out.old out.new
        (row.now ∷ [])) }
{
    if is_known(row.row(), known) {
        return Ok(false);
    }
    row.put(out, room)?;
    Ok(true)
}
