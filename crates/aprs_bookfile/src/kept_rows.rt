//! The rows that are kept of a text, and the line of the last.
//!
//! Words of the contracts here:
//! - A row is sound by itself (`IsSoundRow`) if its first moment isn't after its last, its
//!   receivers strictly ascend, and that of its greatest reception is among them, the last of them
//!   where both moments are equal.
//! - `IsShort`: the names of a row's receivers, with commas between, have fewer than 4,294,967,296
//!   bytes.
ghost use Rattle.std.specs.Prelude.{◌≡◌, [], ◌∷◌, ◌++◌, None, Some, IfNone, IfSome, OnErr, OnOk};
ghost use Rattle.std.specs.List.{last_or};
ghost use Rattle.aprs_transmissions.specs.Sound.{AreSoundRows, IsSoundRow};
ghost use Rattle.aprs_rows.specs.Packed.{AreShort, IsShort};
ghost use Rattle.aprs_bookfile.specs.Text.{row_line};

use crate::lent_row::LentRow;
use aprs_log::MomentForm;
use aprs_rows::{Memory, PackedRows, RowView};
use std::alloc::Allocator;
use std::marker::Model;

/// Rows in the order in which they came. Of the last one the line may be kept too, so that it need
/// not be made again where it is written.
#[derive(Drop)]
pub(crate) struct KeptRows<A: Allocator> {
    rows: PackedRows<A>,
    /// The last row's line as it is written, without its LF. Empty where it isn't kept.
    line: Vec<u8, A>,
}

impl<A: Allocator> Model for KeptRows<A> {
    ghost use Rattle.std.specs.Prelude.{List, None};
    ghost use Rattle.std.specs.List.{last_or};
    ghost use Rattle.aprs_transmissions.specs.Row.{Row};
    ghost use Rattle.aprs_bookfile.specs.KeptLine.{IsKeptLine};

    ghost Value = { List Row };

    ghost view = { λ k. k.rows };

    ghost invariant = { λ k. IsKeptLine k.line.items (last_or None k.rows) };
}

impl<A: Allocator + Copy> KeptRows<A> {
    /// No rows. Takes no memory.
    pub(crate) fn new(alloc: A) -> KeptRows<A>
        ensures { result ≡ [] }
    {
        KeptRows {
            rows: PackedRows::new(alloc),
            line: Vec::new(alloc),
        }
    }

    /// The row that was put last, or `None` where there are no rows.
    pub(crate) fn last(&self) -> Option<RowView<'_>>
        ensures some { IfSome result (λ row. last_or None self.now ≡ Some row) }
        ensures none { IfNone result (self.now ≡ []) }
    {
        self.rows.last()
    }

    /// The row that was put last, with its line where that is kept, or `None` where there are no
    /// rows.
    pub(crate) fn last_lent(&self) -> Option<LentRow<'_>>
        ensures some { IfSome result (λ row. last_or None self.now ≡ Some row) }
        ensures none { IfNone result (self.now ≡ []) }
    {
        match self.rows.last() {
            Some(row) => Some(LentRow::new(row, self.line.as_slice())),
            None => None,
        }
    }

    /// Each row is sound by itself, and its receivers' names with commas between have fewer than
    /// 4,294,967,296 bytes. Does nothing.
    pub(crate) fn sound(&self)
        ensures sound { AreSoundRows self.now }
        ensures short { AreShort self.now }
    {
        self.rows.sound();
    }

    /// Puts a row after the others. Requires that it is sound by itself, and that its receivers'
    /// names with commas between have fewer than 4,294,967,296 bytes (`IsShort`). After `Memory`
    /// the rows are as before.
    pub(crate) fn push(&mut self, row: &RowView<'_>) -> Result<(), Memory>
        requires sound { IsSoundRow row.now }
        requires short { IsShort row.now }
        ensures pushed { OnOk result (self.new ≡ self.old ++ row.now ∷ []) }
        ensures unchanged { OnErr result (self.new ≡ self.old) }
    {
        self.line.clear();
        self.rows.push(row)
    }

    /// Puts a row, whose line in this form is `line`, in the place of all rows. The line is kept
    /// where the form is `Millis`, in which rows are written. Requires what `push` does. After
    /// `Memory` there may be any rows.
    pub(crate) fn set(
        &mut self,
        row: &RowView<'_>,
        form: MomentForm,
        line: &[u8],
    ) -> Result<(), Memory>
        requires sound { IsSoundRow row.now }
        requires short { IsShort row.now }
        requires spelled { line.now ≡ row_line form row.now }
        ensures { OnOk result (self.new ≡ row.now ∷ []) }
    {
        self.line.clear();
        self.rows.set(row)?;
        match form {
            MomentForm::Millis => self.line.extend_from_slice(line)?,
            MomentForm::Seconds => {}
        }
        Ok(())
    }

    /// The rows alone.
    pub(crate) fn into_rows(self) -> PackedRows<A>
        ensures { result ≡ self }
    {
        self.rows
    }
}
