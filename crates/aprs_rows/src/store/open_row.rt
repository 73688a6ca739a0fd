//! A row that later ones may still join.
ghost use Rattle.std.specs.Prelude.{◌≡◌, [], ◌∷◌, true, IfOk, IfSome, IfNone, OnOk};
ghost use Rattle.std.specs.Ordering.{is_eq};
ghost use Rattle.aprs_transmissions.specs.Gap.{IsGap, millis_of};
ghost use Rattle.aprs_transmissions.specs.JoinRow.{combine, compare_near};
ghost use Rattle.aprs_transmissions.specs.Sound.{IsSoundRow};
ghost use Rattle.aprs_rows.specs.OpenRow.{JoinsOrNot, PutsJoined};
ghost use Rattle.aprs_rows.specs.Packed.{IsShort};

use crate::Memory;
use crate::row::name_room::NameRoom;
use crate::row::near::are_near;
use crate::row::row_view::RowView;
use crate::store::book_rows::grown;
use crate::store::packed::PackedRows;
use aprs_transmissions::Gap;
use std::alloc::{Allocator, Global};
use std::marker::Model;
use std::mem::swap;

/// A row in memory of its own, or none. Later rows in order join it where they are near.
pub struct OpenRow<A: Allocator = Global> {
    alloc: A,
    row: PackedRows<A>,
    /// Room for the joined row, while `row` is still needed.
    spare: PackedRows<A>,
    /// Room for the names of two rows.
    names: Vec<u8, A>,
}

impl<A: Allocator> Drop for OpenRow<A> {
    fn drop(self) {
        let OpenRow {
            alloc: _,
            row,
            spare,
            names,
        } = self;
        drop(row);
        drop(spare);
        drop(names);
    }
}

impl<A: Allocator> Model for OpenRow<A> {
    ghost use Rattle.std.specs.Prelude.{List, ◌≤◌, length};
    ghost use Rattle.aprs_transmissions.specs.Row.{Row};

    ghost Value = { List Row };

    ghost view = { λ o. o.row };

    ghost invariant = { λ o. length o.row ≤ 1 };
}

impl<A: Allocator + Copy> OpenRow<A> {
    /// No row. Takes no memory.
    pub fn new(alloc: A) -> OpenRow<A>
        ensures { result ≡ [] }
    {
        OpenRow {
            alloc,
            row: PackedRows::new(alloc),
            spare: PackedRows::new(alloc),
            names: Vec::new(alloc),
        }
    }

    /// The row, or `None` where there is none. Takes no memory.
    pub fn row(&self) -> Option<RowView<'_>>
        ensures some { IfSome result (λ x. self.now ≡ x ∷ []) }
        ensures none { IfNone result (self.now ≡ []) }
    {
        self.row.last()
    }

    /// Puts a row in the place of the one that is there. Requires that it is sound by itself, and
    /// that its receivers' names with commas between have fewer than 4,294,967,296 bytes. After
    /// `Memory` there may be any row, or none.
    pub fn put(&mut self, row: &RowView<'_>) -> Result<(), Memory>
        requires sound { IsSoundRow row.now }
        requires short { IsShort row.now }
        ensures { OnOk result (self.new ≡ row.now ∷ []) }
    {
        self.row.set(row)
    }

    /// Whether the next row in order is near to the row here: then it joins that, and otherwise
    /// nothing changes. Without a row none is near. Requires that the next row is sound by itself,
    /// and that its receivers' names with commas between have fewer than 4,294,967,296 bytes.
    /// `Memory` also where the joined row's names would have more. After `Memory` there may be any
    /// row, or none.
    #[inline(always)]
    pub fn join(&mut self, gap: Gap, next: &RowView<'_>) -> Result<bool, Memory>
        requires sound { IsSoundRow next.now }
        requires short { IsShort next.now }
        ensures { IfOk result (λ joined.
            JoinsOrNot joined (millis_of gap) self.old next.now self.new) }
    {
        self.row.sound();
        let Some(own) = self.row.last() else {
            return Ok(false);
        };
        if !are_near(gap, own.first(), &own, next) {
            return Ok(false);
        }
        join_into(self.alloc, gap, &mut self.spare, &mut self.names, own, next)?;
        swap(&mut self.row, &mut self.spare);
        Ok(true)
    }

    /// Whether the next row in order is near to `own`, which lies elsewhere: then the row of both
    /// is put in the place of what is here, and otherwise nothing changes. Requires of both rows
    /// what `join` does of the next. `Memory` also where the joined row's names would have more
    /// bytes. After `Memory` there may be any row, or none.
    pub fn put_joined(
        &mut self,
        gap: Gap,
        own: &RowView<'_>,
        next: &RowView<'_>,
    ) -> Result<bool, Memory>
        requires sound { IsSoundRow own.now × IsSoundRow next.now }
        requires short { IsShort own.now × IsShort next.now }
        ensures { IfOk result (λ joined.
            PutsJoined joined (millis_of gap) self.old own.now next.now self.new) }
    {
        if !are_near(gap, own.first(), own, next) {
            return Ok(false);
        }
        join_into(
            self.alloc,
            gap,
            &mut self.spare,
            &mut self.names,
            own.copy(),
            next,
        )?;
        swap(&mut self.row, &mut self.spare);
        Ok(true)
    }
}

/// The most bytes that the names of a row's receivers have, with commas between, since more don't
/// fit where rows are kept.
pub const MOST_NAMES: usize = 4_294_967_295;

/// Puts the one row that a row and the next one are, which have to be near, into `spare`. Writes
/// over `names`. `Memory` also where its receivers' names would have more than `MOST_NAMES` bytes.
#[inline(never)]
fn join_into<A: Allocator + Copy>(
    alloc: A,
    gap: Gap,
    spare: &mut PackedRows<A>,
    names: &mut Vec<u8, A>,
    own: RowView<'_>,
    next: &RowView<'_>,
) -> Result<(), Memory>
    requires range { IsGap gap }
    requires sound { IsSoundRow own × IsSoundRow next.now }
    requires short { IsShort own × IsShort next.now }
    requires near { is_eq (compare_near (millis_of gap) own next.now) ≡ true }
    ensures { OnOk result (spare.new ≡ combine own.entry next.now ∷ []) }
{
    let (ours, theirs) = (own.receivers(), next.receivers());
    names.resize(ours.len() + theirs.len() + 2, 0)?;
    let mut room = NameRoom::new(alloc, names.as_mut_slice())?;
    room.gather(ours);
    room.gather(theirs);
    let both = room.unite();
    if both.len() > MOST_NAMES {
        return Err(Memory::past_all_sizes());
    }
    let (first, greatest) = grown(own.first(), own, next.copy());
    spare.set(&greatest.with_first_and_names(first, both))
}
