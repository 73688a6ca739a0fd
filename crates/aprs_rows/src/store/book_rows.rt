//! The rows of a book, one after another.
//!
//! Words of the contracts here:
//! - `HasNamesAndFrame`: a row's receivers have names, and its greatest reception has a name and a
//!   UI frame.
//! - `IsSoundBook`: the gap is one that books have, and the rows are sound under it.
ghost use Rattle.std.specs.Prelude.{◌≡◌, ◌<◌, ◌≤◌, [], ◌∷◌, min, length, All, IfOk, IfSome, IfNone, OnErr};
ghost use Rattle.std.specs.Iterator.{YieldsFirst, item_count};
ghost use Rattle.aprs_transmissions.specs.BookValue.{IsSoundBook};
ghost use Rattle.aprs_transmissions.specs.Gap.{millis_of};
ghost use Rattle.aprs_transmissions.specs.JoinRow.{greater};
ghost use Rattle.aprs_transmissions.specs.Sound.{AreSoundRows};
ghost use Rattle.aprs_transmissions.specs.Together.{book_together};
ghost use Rattle.aprs_rows.specs.Packed.{room_of};
ghost use Rattle.aprs_rows.specs.Told.{HasNamesAndFrame};

use crate::Memory;
use crate::row::name_room::NameRoom;
use crate::row::row_view::RowView;
use crate::store::merger::Merger;
use aprs_log::Moment;
use aprs_transmissions::Gap;
use std::alloc::{Allocator, Global};
use std::marker::Model;

/// The rows of a book that are still to come, in order, with its gap. Rows of a store come one
/// after another, and near ones are joined as they come.
#[derive(Drop)]
pub struct BookRows<'a, A: Allocator = Global> {
    gap: Gap,
    merger: Merger<'a, A>,
    names: NameRoom<'a, A>,
}

impl<'a, A: Allocator> Model for BookRows<'a, A> {
    ghost use Rattle.aprs_transmissions.specs.BookValue.{BookValue};
    ghost use Rattle.aprs_transmissions.specs.Gap.{millis_of};
    ghost use Rattle.aprs_transmissions.specs.Together.{book_together};
    ghost use Rattle.aprs_rows.specs.BookRows.{AreToCome};

    ghost Value = { BookValue };

    ghost view = { λ b. record { gap = b.gap; rows = book_together (millis_of b.gap) b.merger } };

    ghost invariant = { λ b. AreToCome b.gap b.merger b.names };
}

impl<'a, A: Allocator + Copy> BookRows<'a, A> {
    /// The rows of the book, under this gap, of the merger's rows. Takes all memory that the walk
    /// needs beside the room. The names of all receivers, with a comma after each, have to fit in
    /// the room.
    pub(crate) fn new(
        alloc: A,
        gap: Gap,
        merger: Merger<'a, A>,
        room: &'a mut [u8],
    ) -> Result<BookRows<'a, A>, Memory>
        requires sound { AreSoundRows merger }
        requires room { room_of merger ≤ length room.old }
        ensures book { IfOk result (λ rows. rows
            ≡ record { gap = gap; rows = book_together (millis_of gap) merger.entry }) }
        ensures some { OnErr result (0 < length room.old) }
    {
        let names = NameRoom::new(alloc, room)?;
        Ok(BookRows { gap, merger, names })
    }

    /// The gap of the book. Takes no memory.
    pub fn gap(&self) -> Gap
        ensures value { result ≡ self.now.gap }
        ensures sound { IsSoundBook self.now }
        ensures told { All HasNamesAndFrame self.now.rows }
    {
        self.merger.told();
        self.gap
    }

    /// At least as many as rows still come. Takes no memory.
    pub fn most_rows(&self) -> usize
        ensures { length self.now.rows ≤ result }
    {
        self.names.left()
    }

    /// The next row, or `None` after the last. Takes no memory.
    fn take(&mut self) -> Option<RowView<'a>>
        ensures some { IfSome result (λ x. self.old.rows ≡ x ∷ self.new.rows) }
        ensures none { IfNone result ((self.old.rows ≡ []) × (self.new.rows ≡ [])) }
    {
        let row = self.merger.take()?;
        let first = row.first();
        let Some(near) = self.merger.take_near(self.gap, first, &row) else {
            return Some(row);
        };
        self.names.gather(row.receivers());
        self.names.gather(near.receivers());
        let (mut first, mut greatest) = grown(first, row, near);
        while let Some(row) = self.merger.take_near(self.gap, first, &greatest) {
            self.names.gather(row.receivers());
            let (start, greater) = grown(first, greatest, row);
            first = start;
            greatest = greater;
        }
        Some(greatest.with_first_and_names(first, self.names.unite()))
    }
}

impl<'a, A: Allocator + Copy> Iterator for BookRows<'a, A> {
    type Item = RowView<'a>;

    ghost next_gives = { YieldsFirst (λ book. book.rows) };

    ghost remaining = { item_count (λ book. book.rows) };

    fn next(&mut self) -> Option<RowView<'a>> {
        self.take()
    }
}

/// The earlier of the first moments of two rows, and the row that has the greater of their greatest
/// receptions.
pub(crate) fn grown<'a>(
    first: Moment,
    greatest: RowView<'a>,
    row: RowView<'a>,
) -> (Moment, RowView<'a>)
    ensures first { result.0 ≡ min first row.entry.first }
    ensures greatest { result.1.greatest ≡ greater greatest.entry.greatest row.entry.greatest }
{
    let start = if row.first().millis() < first.millis() {
        row.first()
    } else {
        first
    };
    if greatest.greatest().order(&row.greatest()).is_lt() {
        (start, row)
    } else {
        (start, greatest)
    }
}
