//! The row that was taken last of several streams, which later rows may still join.
//!
//! Words of the contracts here:
//! - `last_row`: the row that was taken last, or none. `row_taken_at`: that of the stream of this
//!   number.
//! - `last_row_after`: the row that was taken last, once this one was taken and its stream is read
//!   on. `IsOfStream`: if a stream lends it, that is the one of this number.
//! - A row is sound by itself (`IsSoundRow`) if its first moment isn't after its last, its
//!   receivers strictly ascend, and that of its greatest reception is among them, the last of them
//!   where both moments are equal.
//! - `IsShort`: the names of a row's receivers, with commas between, have fewer than 4,294,967,296
//!   bytes.
ghost use Rattle.std.specs.Prelude.{◌≡◌, [], true, List, None, Some, IfOk, IfSome};
ghost use Rattle.aprs_transmissions.specs.Gap.{millis_of};
ghost use Rattle.aprs_transmissions.specs.Sound.{IsSoundRow};
ghost use Rattle.aprs_rows.specs.OpenRow.{JoinsOrNot};
ghost use Rattle.aprs_rows.specs.Packed.{IsShort};
ghost use Rattle.aprs_bookfile.specs.RowReader.{list_of_row};
ghost use Rattle.aprs_bookfile.specs.declared.row_stream.RowStream.{RowStream as RowStreamValue};
ghost use Rattle.aprs_fold.specs.LastRow.{last_row, row_taken_at};

use aprs_bookfile::{LentRow, RowStream};
use aprs_rows::{Memory, OpenRow, RowView};
use aprs_transmissions::Gap;
use std::alloc::Allocator;

/// The row that was taken last, or none. Its stream lends it until another row joins it.
#[derive(Drop)]
pub(crate) struct LastRow<A: Allocator> {
    /// The number of the stream that lends the row.
    stream: Option<usize>,
    /// The row where no stream lends it, since it was joined, or none.
    joined: OpenRow<A>,
}

impl<A: Allocator + Copy> LastRow<A> {
    /// No row. Takes no memory.
    pub(crate) fn new(alloc: A) -> LastRow<A>
        ensures { (streams : List (RowStreamValue A)) → last_row result streams ≡ [] }
    {
        LastRow {
            stream: None,
            joined: OpenRow::new(alloc),
        }
    }

    /// The row, or `None` where there is none. Takes no memory.
    pub(crate) fn row<'r>(&'r self, streams: &'r [RowStream<A>]) -> Option<LentRow<'r>>
        ensures { list_of_row result ≡ last_row self.now streams.now }
    {
        match self.stream {
            Some(index) => row_taken(streams, index),
            None => match self.joined.row() {
                Some(row) => Some(LentRow::without_line(row)),
                None => None,
            },
        }
    }

    /// Whether the next row in order is near to the row here: then it joins that, and otherwise
    /// nothing changes. Without a row none is near. Requires that the next row is sound by itself,
    /// and that its receivers' names with commas between have fewer than 4,294,967,296 bytes.
    /// `Memory` also where the joined row's names would have more.
    pub(crate) fn join(
        &mut self,
        gap: Gap,
        streams: &[RowStream<A>],
        next: &RowView<'_>,
    ) -> Result<bool, Memory>
        requires sound { IsSoundRow next.now }
        requires short { IsShort next.now }
        ensures joins { IfOk result (λ joined. JoinsOrNot joined (millis_of gap)
            (last_row self.old streams.now) next.now (last_row self.new streams.now)) }
        ensures joined { IfOk result (λ joined. joined ≡ true → self.new.stream ≡ None) }
    {
        let Some(index) = self.stream else {
            return self.joined.join(gap, next);
        };
        let Some(own) = row_taken(streams, index) else {
            return Ok(false);
        };
        let is_near = self.joined.put_joined(gap, own.row(), next)?;
        if is_near {
            self.stream = None;
        }
        Ok(is_near)
    }

    /// Has in its place the row that the stream of this number has in front, which that lends once
    /// it is read on.
    pub(crate) fn take(&mut self, index: usize)
        ensures { self.new.stream ≡ Some index }
    {
        self.stream = Some(index);
    }
}

/// The row that was taken last of the stream of this number, or `None` where none was.
pub(crate) fn row_taken<A: Allocator + Copy>(
    streams: &[RowStream<A>],
    index: usize,
) -> Option<LentRow<'_>>
    ensures value { list_of_row result ≡ row_taken_at streams.now index }
    ensures own { IfSome result (λ x. IsSoundRow x × IsShort x) }
{
    if index >= streams.len() {
        return None;
    }
    streams[index].taken()
}
