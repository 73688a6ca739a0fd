//! The book of what is put into a store.
ghost use Rattle.std.specs.Prelude.{◌≡◌, ◌≢◌, ◌-◌, ◌^◌, [], min, IfOk, OnOk, OnErr};
ghost use Rattle.std.specs.List.{AllByRecursion};
ghost use Rattle.aprs_transmissions.specs.BookValue.{IsSoundBook};
ghost use Rattle.aprs_transmissions.specs.Coalescing.{AreInOrder};
ghost use Rattle.aprs_transmissions.specs.Gap.{millis_of};
ghost use Rattle.aprs_transmissions.specs.JoinRow.{join_row, merge, single};
ghost use Rattle.aprs_transmissions.specs.Lists.{SameMembers};
ghost use Rattle.aprs_rows.specs.BookStore.{all_rows};
ghost use Rattle.aprs_rows.specs.Packed.{room_of};

use crate::Memory;
use crate::growth::reserve;
use crate::store::book_rows::BookRows;
use crate::store::merger::{Merger, put_list};
use crate::store::packed::PackedRows;
use crate::store::walk_room::WalkRoom;
use aprs_log::Reception;
use aprs_transmissions::Gap;
use std::alloc::{Allocator, Global};
use std::marker::Model;

/// How many receptions are sorted at a time, so that they stay in the cache.
const CHUNK: usize = 8192;

/// A book under a gap, as rows that lie in few bytes. Near rows are joined when the rows of the
/// book are asked for.
pub struct BookStore<A: Allocator = Global> {
    alloc: A,
    gap: Gap,
    sorted: Vec<PackedRows<A>, A>,
    /// The last receptions, which aren't sorted yet.
    chunk: PackedRows<A>,
}

impl<A: Allocator> Drop for BookStore<A> {
    fn drop(self) {
        let BookStore {
            alloc: _,
            gap: _,
            sorted,
            chunk,
        } = self;
        drop(sorted);
        drop(chunk);
    }
}

impl<A: Allocator> Model for BookStore<A> {
    ghost use Rattle.aprs_transmissions.specs.BookValue.{BookValue};
    ghost use Rattle.aprs_rows.specs.BookStore.{book_stored, IsStored};

    ghost Value = { BookValue };

    ghost view = { λ s. book_stored s.gap s.sorted.items s.chunk };

    ghost invariant = { λ s. IsStored s.gap s.sorted.items s.chunk };
}

impl<A: Allocator + Copy> BookStore<A> {
    /// The book of no rows. Takes no memory.
    pub fn new(alloc: A, gap: Gap) -> BookStore<A>
        ensures { result ≡ record { gap = gap; rows = [] } }
    {
        BookStore {
            alloc,
            gap,
            sorted: Vec::new(alloc),
            chunk: PackedRows::new(alloc),
        }
    }

    /// The gap of the book. Takes no memory.
    pub fn gap(&self) -> Gap
        ensures value { result ≡ self.now.gap }
        ensures sound { IsSoundBook self.now }
    {
        self.gap
    }

    /// Adds a reception to the book, in which it joins the rows that it is near to. The store
    /// itself joins rows where they are asked for. After `Memory` the book is as before.
    pub fn push_reception(&mut self, x: &Reception) -> Result<(), Memory>
        ensures pushed { OnOk result (self.new ≡ record {
          gap = self.old.gap;
          rows = join_row (millis_of self.old.gap) self.old.rows (single x.now);
        }) }
        ensures unchanged { OnErr result (self.new ≡ self.old) }
    {
        self.close_full()?;
        self.chunk.push_reception(x)
    }

    /// Adds rows, which have to be in order, and each of which joins those that it is near to.
    /// After `Memory` the book is as before.
    pub fn add(&mut self, rows: PackedRows<A>) -> Result<(), Memory>
        requires { AreInOrder rows }
        ensures added { OnOk result (self.new ≡ record {
          gap = self.old.gap;
          rows = merge (millis_of self.old.gap) self.old.rows rows;
        }) }
        ensures unchanged { OnErr result (self.new ≡ self.old) }
    {
        rows.sound();
        reserve(&mut self.sorted, 1)?;
        self.sorted.push_reserved(rows);
        Ok(())
    }

    /// The rows of the book, which come one after another. Takes all memory that the walk needs;
    /// what is in the room is written over. Where the book has no rows, takes none.
    pub fn rows<'s>(&'s self, room: &'s mut WalkRoom<A>) -> Result<BookRows<'s, A>, Memory>
        ensures book { IfOk result (λ rows. rows ≡ self.now) }
        ensures some { OnErr result (self.now.rows ≢ []) }
    {
        let WalkRoom { sorted, names } = room;
        *sorted = self.chunk.in_order()?;
        let (merger, size) = merged(self.alloc, self.sorted.as_slice(), sorted)?;
        names.resize(size, 0)?;
        BookRows::new(self.alloc, self.gap, merger, names.as_mut_slice())
    }

    /// Sorts the chunk where it is full. The book stays as it is, also after `Memory`.
    fn close_full(&mut self) -> Result<(), Memory>
        ensures { self.new ≡ self.old }
    {
        if self.chunk.len() < CHUNK {
            return Ok(());
        }
        close(&mut self.sorted, &mut self.chunk)
    }
}

/// Sorts the rows of the chunk and puts them to the lists that are sorted; then the chunk has no
/// rows. After `Memory` all rows are there still.
fn close<A: Allocator + Copy>(
    sorted: &mut Vec<PackedRows<A>, A>,
    chunk: &mut PackedRows<A>,
) -> Result<(), Memory>
    ensures members { SameMembers (all_rows sorted.old.items chunk.old)
        (all_rows sorted.new.items chunk.new) }
    ensures ordered { AllByRecursion AreInOrder sorted.old.items
        → AllByRecursion AreInOrder sorted.new.items }
    ensures closed { OnOk result (chunk.new ≡ []) }
{
    reserve(sorted, 1)?;
    let rows = chunk.in_order()?;
    sorted.push_reserved(rows);
    chunk.clear();
    Ok(())
}

/// The rows of the chunk and of all lists, and how many bytes the names of all receivers have, with
/// a comma after each, or `usize::MAX` where they have more. The chunk and the lists have to be in
/// order. Takes no memory where there are no rows.
fn merged<'a, A: Allocator + Copy>(
    alloc: A,
    sorted: &'a [PackedRows<A>],
    chunk: &'a PackedRows<A>,
) -> Result<(Merger<'a, A>, usize), Memory>
    requires lists { AllByRecursion AreInOrder sorted.now }
    requires chunk { AreInOrder chunk.now }
    ensures members { IfOk result (λ m. SameMembers (all_rows sorted.now chunk.now) m.0) }
    ensures room { IfOk result (λ m. m.1 ≡ min (room_of m.0) (2 ^ 64 - 1)) }
    ensures some { OnErr result (all_rows sorted.now chunk.now ≢ []) }
{
    let mut fronts = Vec::new(alloc);
    put_list(&mut fronts, chunk.rows())?;
    let mut room = chunk.room();
    for packed in sorted {
        put_list(&mut fronts, packed.rows())?;
        room = room.saturating_add(packed.room());
    }
    let merger = Merger::new(alloc, fronts)?;
    Ok((merger, room))
}
