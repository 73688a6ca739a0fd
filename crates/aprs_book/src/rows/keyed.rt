//! The rows of a book by the prefixes of their keys.
ghost use Rattle.std.specs.Prelude.{◌≡◌, ◌+◌, [], ◌∷◌, ◌++◌, length, true, IsOk, OnOk, OnErr};
ghost use Rattle.aprs_book.specs.Keyed.{LastKeyIsUpTo, IsEndOf};
ghost use Rattle.aprs_rows.specs.Refusal.{refusal};
ghost use Rattle.aprs_transmissions.specs.Inserted.{insert_heard, has_place_for};
ghost use Rattle.aprs_transmissions.specs.Sound.{Sound};

use crate::rows::kept_row::KeptRow;
use crate::rows::millis::Millis;
use crate::rows::push::first_cause;
use crate::rows::slot::{grow_by_one, put};
use crate::rows::walk::Walk;
use crate::{Memory, RowCause, RowParts};
use aprs_log::Reception;
use aprs_rows::KeyPrefix;
use std::alloc::{Allocator, Global};
use std::collections::{BTreeMap, VecDeque};
use std::marker::Model;

/// The rows of a book in a map: under each prefix (the beginning of a key, as numbers) lie the rows
/// whose keys have that prefix, in order. No prefix is without rows. Prefixes lie in the map, so
/// that most keys are told apart without a look at their frames.
pub(crate) struct KeyedRows<A: Allocator = Global> {
    map: BTreeMap<KeyPrefix, VecDeque<KeptRow<A>, A>, A>,
    /// The number of the rows of all keys.
    count: usize,
    alloc: A,
}

impl<A: Allocator> Drop for KeyedRows<A> {
    fn drop(self) {
        let KeyedRows {
            map,
            count: _,
            alloc: _,
        } = self;
        drop(map);
    }
}

impl<A: Allocator> Model for KeyedRows<A> {
    ghost use Rattle.std.specs.Prelude.{◌≡◌, List, length};
    ghost use Rattle.aprs_transmissions.specs.Row.{Row as RowValue};
    ghost use Rattle.aprs_book.specs.Keyed.{rows_by_key, AreKept};

    ghost Value = { List RowValue };

    ghost view = { λ b. rows_by_key (λ v. v.items) b.map.entries };

    ghost invariant = { λ b. AreKept (λ v. v.items) b.map.entries
        × (b.count ≡ length (rows_by_key (λ v. v.items) b.map.entries)) };
}

impl<A: Allocator + Copy> KeyedRows<A> {
    /// The rows of an empty book. Takes no memory.
    pub(crate) fn new(alloc: A) -> KeyedRows<A>
        ensures { result ≡ [] }
    {
        KeyedRows {
            map: BTreeMap::new(alloc),
            count: 0,
            alloc,
        }
    }

    /// The number of rows.
    pub(crate) fn len(&self) -> usize
        ensures { result ≡ length self.now }
    {
        self.count
    }

    /// Where the rows' memory comes from.
    pub(crate) fn allocator(&self) -> A {
        self.alloc
    }

    /// The rows one after another.
    pub(crate) fn walk(&self) -> Walk<'_, A>
        ensures { result ≡ self.now }
    {
        Walk::of(self.map.values())
    }

    /// Rows of the last key prefix, with which all rows end; or no rows, where there are none at
    /// all.
    fn last_rows(&self) -> &[KeptRow<A>]
        ensures { IsEndOf result.now self.now }
    {
        match self.map.last_key_value() {
            Some((_, rows)) => last_part(rows),
            None => &[],
        }
    }

    /// Puts a row after all others. The key of the last of these must not be above its key. What
    /// needs memory is made before the first change: after `Memory` the rows are as before.
    pub(crate) fn append(&mut self, row: KeptRow<A>) -> Result<(), Memory>
        requires { LastKeyIsUpTo row self.old }
        ensures added { OnOk result (self.new ≡ self.old ++ row ∷ []) }
        ensures unchanged { OnErr result (self.new ≡ self.old) }
    {
        let head = KeyPrefix::of_frame(row.greatest().frame());
        let mut count = self.count;
        if let Some(rows) = self.map.get_mut(&head) {
            let pushed = push_one(rows, &mut count, row);
            self.count = count;
            return pushed;
        }
        let mut rows = VecDeque::new(self.alloc);
        push_one(&mut rows, &mut count, row)?;
        self.map.insert(head, rows)?;
        self.count = count;
        Ok(())
    }

    /// The first cause that refuses a row of these parts after all others, or `None` where it may
    /// be added. Looks at the last row alone.
    pub(crate) fn refusal(&self, gap: Millis, parts: &RowParts<A>) -> Option<RowCause>
        ensures { result ≡ refusal gap self.now parts.now }
    {
        first_cause(gap, self.last_rows(), parts)
    }

    /// Adds a reception to sound rows: it becomes a new row in its place, or a near row grows, or
    /// two near rows become one. Takes no memory where exactly one row is near and lists its
    /// receiver. After `Memory` the rows are as before.
    pub(crate) fn insert(&mut self, gap: Millis, x: &Reception) -> Result<(), Memory>
        requires { Sound gap self.old }
        ensures inserted { OnOk result (self.new ≡ insert_heard gap x.now self.old) }
        ensures in_place { has_place_for gap x.now self.old ≡ true → IsOk result }
        ensures unchanged { OnErr result (self.new ≡ self.old) }
    {
        let head = KeyPrefix::of_frame(x.frame());
        let mut count = self.count;
        if let Some(rows) = self.map.get_mut(&head) {
            let taken = put(gap, rows, &mut count, x);
            self.count = count;
            return taken;
        }
        let mut rows = VecDeque::new(self.alloc);
        put(gap, &mut rows, &mut count, x)?;
        self.map.insert(head, rows)?;
        self.count = count;
        Ok(())
    }
}

/// Of the two slices in which rows lie the one with which they end.
fn last_part<A: Allocator + Copy>(rows: &VecDeque<KeptRow<A>, A>) -> &[KeptRow<A>]
    ensures { IsEndOf result.now rows.now.items }
{
    let (front, back) = rows.as_slices();
    if back.is_empty() {
        return front;
    }
    back
}

/// Puts a row after the others of its prefix, and adds 1 to `count`, the number of the rows of all
/// keys. `Memory` is also returned where `count` has no room. After it both are as before.
fn push_one<A: Allocator + Copy>(
    rows: &mut VecDeque<KeptRow<A>, A>,
    count: &mut usize,
    row: KeptRow<A>,
) -> Result<(), Memory>
    ensures added { OnOk result (rows.new.items ≡ rows.old.items ++ row ∷ []) }
    ensures unchanged { OnErr result (rows.new.items ≡ rows.old.items) }
    ensures counted { count.new + length rows.old.items ≡ count.old + length rows.new.items }
{
    let Some(more) = count.checked_add(1) else {
        return Err(Memory::past_all_sizes());
    };
    grow_by_one(rows)?;
    rows.push_back(row)?;
    *count = more;
    Ok(())
}
