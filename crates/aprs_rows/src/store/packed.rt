//! Rows packed in bytes.
ghost use Rattle.std.specs.Prelude.{◌≡◌, ◌≢◌, ◌↔◌, ◌<◌, ◌+◌, [], ◌∷◌, ◌++◌, None, Some, length, IfOk, IfSome, IfNone, IsTrue, OnOk, OnErr};
ghost use Rattle.std.specs.Iterator.{YieldsFirst, item_count};
ghost use Rattle.std.specs.List.{join_with_byte, last_or, AllByRecursion};
ghost use Rattle.aprs_transmissions.specs.Coalescing.{AreInOrder};
ghost use Rattle.aprs_transmissions.specs.JoinRow.{single};
ghost use Rattle.aprs_transmissions.specs.Lists.{SameMembers};
ghost use Rattle.aprs_transmissions.specs.Sound.{AreSoundRows, IsSoundRow};
ghost use Rattle.aprs_rows.specs.Packed.{AreShort, room_of};
ghost use Rattle.aprs_rows.specs.Told.{HasNamesAndFrame};

use crate::Memory;
use crate::growth::{put, reserve};
use crate::row::row_view::RowView;
use crate::store::mark::Mark;
use aprs_log::{Reception, ReceptionRef};
use std::alloc::{Allocator, Global};
use std::marker::Model;

/// Rows in the order in which they came, in few bytes. Each has 24, the names of its receivers, and
/// the receiver's name and the frame of its greatest reception.
pub struct PackedRows<A: Allocator = Global> {
    alloc: A,
    marks: Vec<Mark, A>,
    bytes: Vec<u8, A>,
    /// How many bytes the names of all receivers have, with a comma after each.
    room: usize,
}

impl<A: Allocator> Drop for PackedRows<A> {
    fn drop(self) {
        let PackedRows {
            alloc: _,
            marks,
            bytes,
            room: _,
        } = self;
        drop(marks);
        drop(bytes);
    }
}

impl<A: Allocator> Model for PackedRows<A> {
    ghost use Rattle.std.specs.Prelude.{List, ◌≡◌};
    ghost use Rattle.aprs_transmissions.specs.Row.{Row};
    ghost use Rattle.aprs_rows.specs.Packed.{AreMarks, room_of, rows_of_marks};

    ghost Value = { List Row };

    ghost view = { λ p. rows_of_marks p.marks.items p.bytes.items };

    ghost invariant = { λ p. AreMarks p.marks.items p.bytes.items
        × (p.room ≡ room_of (rows_of_marks p.marks.items p.bytes.items)) };
}

impl<A: Allocator + Copy> PackedRows<A> {
    /// No rows. Takes no memory.
    pub fn new(alloc: A) -> PackedRows<A>
        ensures { result ≡ [] }
    {
        PackedRows {
            alloc,
            marks: Vec::new(alloc),
            bytes: Vec::new(alloc),
            room: 0,
        }
    }

    /// Whether there are no rows. Takes no memory.
    pub fn is_empty(&self) -> bool
        ensures { IsTrue result ↔ (self.now ≡ []) }
    {
        self.marks.is_empty()
    }

    /// The number of rows. Takes no memory.
    pub fn len(&self) -> usize
        ensures { result ≡ length self.now }
    {
        self.marks.len()
    }

    /// The row that was put last, or `None` where there are no rows. Takes no memory.
    pub fn last(&self) -> Option<RowView<'_>>
        ensures some { IfSome result (λ row. last_or None self.now ≡ Some row) }
        ensures none { IfNone result (self.now ≡ []) }
    {
        let mark = self.marks.last()?;
        let (_, own) = self.bytes.split_at(self.bytes.len() - mark.size());
        Some(RowView::of_mark(mark, own))
    }

    /// Each row is sound by itself, and its receivers' names with commas between have fewer than
    /// 4,294,967,296 bytes. Does nothing: who calls it may then rely on that.
    pub fn sound(&self)
        ensures sound { AreSoundRows self.now }
        ensures short { AreShort self.now }
    {
        self.rows();
    }

    /// Puts a reception after the rows, as a row of its own. After `Memory` the rows are as before.
    pub fn push_reception(&mut self, x: &Reception) -> Result<(), Memory>
        ensures pushed { OnOk result (self.new ≡ self.old ++ single x.now ∷ []) }
        ensures unchanged { OnErr result (self.new ≡ self.old) }
    {
        let heard = ReceptionRef::of(x);
        self.push(&RowView::new(heard.moment(), heard.receiver(), heard))
    }

    /// Puts a row after the others. Requires that it is sound by itself, and that its receivers'
    /// names with commas between have fewer than 4,294,967,296 bytes. After `Memory` the rows are
    /// as before.
    pub fn push(&mut self, row: &RowView<'_>) -> Result<(), Memory>
        requires sound { IsSoundRow row.now }
        requires short { length (join_with_byte 44 row.now.receivers) < 4294967296 }
        ensures pushed { OnOk result (self.new ≡ self.old ++ row.now ∷ []) }
        ensures unchanged { OnErr result (self.new ≡ self.old) }
    {
        let (receivers, receiver, frame) = (row.receivers(), row.receiver(), row.frame().bytes());
        let size = receivers.len() + receiver.len() + frame.len();
        reserve(&mut self.marks, 1)?;
        reserve(&mut self.bytes, size)?;
        self.room += receivers.len() + 1;
        self.marks.push_reserved(row.mark());
        put(&mut self.bytes, receivers);
        put(&mut self.bytes, receiver);
        put(&mut self.bytes, frame);
        Ok(())
    }

    /// Puts a row in the place of all rows. Requires what `push` does. After `Memory` there are no
    /// rows. Takes memory only where the row is longer than any that was here before.
    pub fn set(&mut self, row: &RowView<'_>) -> Result<(), Memory>
        requires sound { IsSoundRow row.now }
        requires short { length (join_with_byte 44 row.now.receivers) < 4294967296 }
        ensures set { OnOk result (self.new ≡ row.now ∷ []) }
        ensures none { OnErr result (self.new ≡ []) }
    {
        self.clear();
        self.push(row)
    }

    /// The rows, which lend the bytes here. Takes no memory, nor does the walk.
    pub(crate) fn rows(&self) -> Unpacked<'_>
        ensures value { result ≡ self.now }
        ensures sound { AreSoundRows self.now }
        ensures told { AllByRecursion HasNamesAndFrame self.now }
        ensures short { AreShort self.now }
    {
        Unpacked {
            marks: self.marks.as_slice(),
            bytes: self.bytes.as_slice(),
        }
    }

    /// How many bytes the names of all receivers have, with a comma after each.
    pub(crate) fn room(&self) -> usize
        ensures { result ≡ room_of self.now }
    {
        self.room
    }

    /// The same rows in the order of key and first moment, in no more memory than they need.
    pub(crate) fn in_order(&self) -> Result<PackedRows<A>, Memory>
        ensures same { IfOk result (SameMembers self.now) }
        ensures ordered { IfOk result AreInOrder }
        ensures some { OnErr result (self.now ≢ []) }
    {
        if self.is_empty() {
            return Ok(PackedRows::new(self.alloc));
        }
        let mut rows = Vec::with_capacity(self.alloc, self.marks.len())?;
        for row in self.rows() {
            rows.push(row)?;
        }
        rows.sort_unstable_by(|row, other| row.order(other));
        self.repack(rows.as_slice())
    }

    /// The same rows as `rows` has them, in no more memory than they need.
    fn repack(&self, rows: &[RowView<'_>]) -> Result<PackedRows<A>, Memory>
        requires sound { AreSoundRows rows.now }
        requires short { AreShort rows.now }
        ensures { IfOk result (λ packed. packed ≡ rows.now) }
    {
        let mut packed = PackedRows {
            alloc: self.alloc,
            marks: Vec::with_capacity(self.alloc, self.marks.len())?,
            bytes: Vec::with_capacity(self.alloc, self.bytes.len())?,
            room: 0,
        };
        for row in rows {
            packed.push(row)?;
        }
        Ok(packed)
    }

    /// Takes all rows out. The memory stays for others.
    pub fn clear(&mut self)
        ensures { self.new ≡ [] }
    {
        self.marks.clear();
        self.bytes.clear();
        self.room = 0;
    }
}

/// Rows that are still to come.
#[derive(Drop)]
pub(crate) struct Unpacked<'a> {
    marks: &'a [Mark],
    bytes: &'a [u8],
}

impl<'a> Model for Unpacked<'a> {
    ghost use Rattle.std.specs.Prelude.{List};
    ghost use Rattle.aprs_transmissions.specs.Row.{Row as RowValue};
    ghost use Rattle.aprs_rows.specs.Packed.{AreMarks, rows_of_marks};

    ghost Value = { List RowValue };

    ghost view = { λ r. rows_of_marks r.marks.now r.bytes.now };

    ghost invariant = { λ r. AreMarks r.marks.now r.bytes.now };
}

impl<'a> Iterator for Unpacked<'a> {
    type Item = RowView<'a>;

    ghost next_gives = { YieldsFirst (λ rows. rows) };

    ghost remaining = { item_count (λ rows. rows) };

    fn next(&mut self) -> Option<RowView<'a>> {
        let (mark, marks) = self.marks.split_first()?;
        let (own, bytes) = self.bytes.split_at(mark.size());
        self.marks = marks;
        self.bytes = bytes;
        Some(RowView::of_mark(mark, own))
    }
}
