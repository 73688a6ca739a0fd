//! The book.
//!
//! Words of the contracts here:
//! - `Holds S book`: the book is that of the receptions S, under its gap.
//! - `TakesIn`, `MergesInto`, `WidensTo` say, of whatever sets the books were, of which set the new
//!   one is: with the reception, of both sets, or of the same set.
//! - `AreJoined`: the third book is that of what the first two hold, under their one gap.
//! - `IsSoundBook`: the rows ascend, rows of one key lie further apart than the gap, and each is
//!   sound by itself.
//! - `FitsInPlace`: exactly one row is near to the reception, and it lists its receiver.
//! - `AreIndexesOf`: the indexes have of each station, object and item its greatest report in the
//!   rows.
ghost use Rattle.std.specs.Prelude.{◌≡◌, ◌↔◌, [], ◌∷◌, ◌++◌, ◌<◌, ◌≤◌, length, IsTrue, IsOk, IfOk, OnOk, OnErr, IsOkUnless, MatchOption, Err, None};
ghost use Rattle.aprs_transmissions.specs.Gap.{standard_gap, millis_of};
ghost use Rattle.aprs_transmissions.specs.BookValue.{Holds, IsSoundBook, HaveOneGap, AreJoined, widened_to};
ghost use Rattle.aprs_transmissions.specs.Sound.{Sound};
ghost use Rattle.aprs_transmissions.specs.Inserted.{FitsInPlace};
ghost use Rattle.aprs_transmissions.proofs.Joins.{gap_laws};
ghost use Rattle.aprs_book.specs.Changes.{TakesIn, MergesInto, WidensTo};
ghost use Rattle.aprs_rows.specs.Refusal.{refusal};
ghost use Rattle.aprs_summary.specs.Known.{AreIndexesOf};

use crate::rows::kept_row::KeptRow;
use crate::rows::keyed::KeyedRows;
use crate::rows::millis::Millis;
use crate::rows::walk::Walk;
use crate::stored::{add_rows, book_of};
use crate::{Gap, Join, Memory, MergeFault, RowCause, RowParts, Rows, WidenFault};
use aprs_log::{Reception, ReceptionRef};
use aprs_rows::BookStore;
use aprs_summary::{Indexes, Subject};
use std::alloc::{Allocator, Global};
use std::marker::Model;

/// The book of a set of receptions: one row for each transmission, ascending by key (source,
/// destination, information), then first moment. Receptions of one key are one transmission as long
/// as each comes at most the book's gap after the one before it.
pub struct Book<A: Allocator = Global> {
    gap: Gap,
    rows: KeyedRows<A>,
    indexes: Indexes<Reception, A>,
}

impl<A: Allocator> Drop for Book<A> {
    fn drop(self) {
        let Book {
            gap: _,
            rows,
            indexes,
        } = self;
        drop(rows);
        drop(indexes);
    }
}

impl<A: Allocator> Model for Book<A> {
    ghost use Rattle.aprs_transmissions.specs.BookValue.{BookValue, IsSoundBook};
    ghost use Rattle.aprs_summary.specs.Known.{AreIndexesOf};

    ghost Value = { BookValue };

    ghost view = { λ b. record { gap = b.gap; rows = b.rows } };

    ghost invariant = { λ b. IsSoundBook (record { gap = b.gap; rows = b.rows })
        × AreIndexesOf b.rows b.indexes };
}

impl<A: Allocator + Copy> Book<A> {
    /// The book of no receptions, with a gap of 30 seconds. Takes no memory.
    pub fn new(alloc: A) -> Book<A>
        ensures gap { result.gap ≡ standard_gap }
        ensures rows { result.rows ≡ [] }
        ensures book { Holds [] result }
    {
        Book::with_gap(alloc, Gap::STANDARD)
    }

    /// The book of no receptions, with this gap. Takes no memory.
    pub fn with_gap(alloc: A, gap: Gap) -> Book<A>
        ensures gap { result.gap ≡ gap }
        ensures rows { result.rows ≡ [] }
        ensures book { Holds [] result }
    {
        Book {
            gap,
            rows: KeyedRows::new(alloc),
            indexes: Indexes::new(alloc),
        }
    }

    /// The book of this gap and these rows. They have to be sound, and the indexes have to be those
    /// of these rows.
    pub(crate) fn of_kept(gap: Gap, rows: KeyedRows<A>, indexes: Indexes<Reception, A>) -> Book<A>
        requires sound { IsSoundBook (record { gap = gap; rows = rows }) }
        requires indexes { AreIndexesOf rows indexes }
        ensures { result ≡ record { gap = gap; rows = rows } }
    {
        Book { gap, rows, indexes }
    }

    /// The gap: neighbouring receptions of one key are of one transmission if they are at most
    /// this far apart. Takes no memory.
    pub fn gap(&self) -> Gap
        ensures { result ≡ self.now.gap }
    {
        self.gap
    }

    /// The number of rows. Takes no memory.
    pub fn len(&self) -> usize
        ensures { result ≡ length self.now.rows }
    {
        self.rows.len()
    }

    /// The rows, ascending by key, then first moment. `sound` says that they are those of a book.
    /// Takes no memory, nor does walking over them.
    pub fn rows(&self) -> Rows<'_, A>
        ensures rows { result ≡ self.now.rows }
        ensures sound { IsSoundBook self.now }
    {
        Rows::of(self.walk())
    }

    /// Adds a reception: the book of a set becomes the book of that set and the reception. Takes no
    /// memory where exactly one row of its key is at most the gap from its moment (a moment between
    /// first and last counts) and lists its receiver. After `Memory` the book is as before.
    pub fn take(&mut self, x: &Reception) -> Result<(), Memory>
        ensures taken { OnOk result
            (TakesIn (millis_of self.old.gap) self.old.rows x.now self.new.rows) }
        ensures in_place { FitsInPlace (millis_of self.old.gap) self.old.rows x.now → IsOk result }
        ensures gap { self.new.gap ≡ self.old.gap }
        ensures unchanged { OnErr result (self.new ≡ self.old) }
    {
        let heard = ReceptionRef::of(x);
        let subject = Subject::of_heard(&heard);
        self.indexes.reserve(&subject)?;
        // If no memory is left for this, an empty entry may stay, which says nothing.
        self.rows.insert(Millis::of(self.gap), x)?;
        self.indexes.note(&subject, &heard);
        Ok(())
    }

    /// Adds a row after all others, or returns the first cause that refuses it. `Ok`, or the cause
    /// `Memory` where an allocation failed, is returned exactly if the rows with it are sound.
    /// Looks at the last row alone. After an error the book is as before.
    pub fn push_row(&mut self, parts: &RowParts<A>) -> Result<(), RowCause>
        ensures added { OnOk result (self.new.rows ≡ self.old.rows ++ parts.now ∷ []) }

        ensures sound { IsOkUnless result RowCause.Memory
            ↔ Sound (millis_of self.old.gap) (self.old.rows ++ parts.now ∷ []) }
        // Where a cause refuses the row, that is returned; otherwise `Ok` or `Memory`.
        ensures cause { MatchOption (refusal (millis_of self.old.gap) self.old.rows parts.now)
            (IsOkUnless result RowCause.Memory) (λ cause. result ≡ Err cause) }

        ensures gap { self.new.gap ≡ self.old.gap }
        ensures unchanged { OnErr result (self.new ≡ self.old) }
    {
        if let Some(cause) = self.rows.refusal(Millis::of(self.gap), parts) {
            return Err(cause);
        }
        if self.add(parts).is_err() {
            return Err(RowCause::Memory);
        }
        Ok(())
    }

    /// Adds a row after all others, and notes what it reports. Requires that no cause refuses the
    /// row. After `Memory` the book is as before.
    fn add(&mut self, parts: &RowParts<A>) -> Result<(), Memory>
        requires { refusal (millis_of self.old.gap) self.old.rows parts.now ≡ None }
        ensures added { OnOk result (self.new.rows ≡ self.old.rows ++ parts.now ∷ []) }
        ensures gap { self.new.gap ≡ self.old.gap }
        ensures unchanged { OnErr result (self.new ≡ self.old) }
    {
        let heard = parts.heard();
        let subject = Subject::of_heard(&heard);
        self.indexes.reserve(&subject)?;
        // If no memory is left for this, an empty entry may stay, which says nothing.
        self.rows
            .append(KeptRow::of(self.rows.allocator(), parts)?)?;
        self.indexes.note(&subject, &heard);
        Ok(())
    }

    /// The book of the receptions of both books, which stay as they are. `book` says it by the sets
    /// of receptions, `joined` by the rows. `OtherGap` comes exactly where the gaps differ, and
    /// before any memory is taken. Beside the new book it takes memory for a store of the rows of
    /// both, and gives that back. `Memory` comes where an allocation failed, and where a row's
    /// names of receivers have 4 GiB or more, commas among them. Both books are sound.
    pub fn merge(&self, other: &Book<A>) -> Result<Book<A>, MergeFault>
        ensures joined { IfOk result (AreJoined self.now other.now) }
        ensures book { IfOk result (λ both.
            MergesInto (millis_of self.now.gap) self.now.rows other.now.rows both.rows) }

        ensures other_gap { (result ≡ Err MergeFault.OtherGap)
            ↔ (HaveOneGap self.now other.now → ⊥) }

        ensures sound { IsSoundBook self.now }
        ensures sound_other { IsSoundBook other.now }
    {
        if self.gap != other.gap {
            return Err(MergeFault::OtherGap);
        }
        match self.unite(other) {
            Ok(both) => Ok(both),
            Err(_) => Err(MergeFault::Memory),
        }
    }

    /// The book of the receptions of both books, whose gaps have to be equal, by way of a store.
    /// `book` says it by the sets of receptions, `joined` by the rows. All three books are sound.
    fn unite(&self, other: &Book<A>) -> Result<Book<A>, Memory>
        requires { HaveOneGap self.now other.now }

        ensures joined { IfOk result (AreJoined self.now other.now) }
        ensures book { IfOk result (λ both.
            MergesInto (millis_of self.now.gap) self.now.rows other.now.rows both.rows) }
        ensures sound_result { IfOk result IsSoundBook }

        ensures sound { IsSoundBook self.now }
        ensures sound_other { IsSoundBook other.now }
    {
        let alloc = self.rows.allocator();
        let (ours, theirs) = (self.walk(), other.walk());
        let mut store = BookStore::new(alloc, self.gap());
        add_rows(alloc, &mut store, ours)?;
        add_rows(alloc, &mut store, theirs)?;
        book_of(alloc, store)
    }

    /// The book of the same set of receptions under a gap that is not less. `Narrower` comes just
    /// where the gap is less, before any memory is taken: rows don't say what lies between their
    /// moments. Beside the new book it takes memory for a store of the rows, and gives that back.
    /// `Memory` comes as from `merge`. This book stays as it is.
    pub fn widen(&self, gap: Gap) -> Result<Book<A>, WidenFault>
        ensures wide { IfOk result (λ wide. wide ≡ widened_to gap self.now) }
        ensures gap { IfOk result (λ wide. wide.gap ≡ gap) }
        ensures book { IfOk result (WidensTo self.now) }
        ensures equal { gap ≡ self.now.gap → IfOk result (λ wide. wide ≡ self.now) }

        ensures narrower { (result ≡ Err WidenFault.Narrower) ↔ (gap < self.now.gap) }
    {
        if gap.seconds() < self.gap.seconds() {
            return Err(WidenFault::Narrower);
        }
        match self.widen_to(gap) {
            Ok(wide) => Ok(wide),
            Err(_) => Err(WidenFault::Memory),
        }
    }

    /// The book of the same set of receptions under a gap that has to be at least this book's, by
    /// way of a store.
    fn widen_to(&self, gap: Gap) -> Result<Book<A>, Memory>
        requires { self.now.gap ≤ gap }
        ensures wide { IfOk result (λ wide. wide ≡ widened_to gap self.now) }
        ensures sound { IsSoundBook self.now }
    {
        let alloc = self.rows.allocator();
        let mut store = BookStore::new(alloc, gap);
        add_rows(alloc, &mut store, self.walk())?;
        book_of(alloc, store)
    }

    /// The rows as they are kept, one after another.
    pub(crate) fn walk(&self) -> Walk<'_, A>
        ensures rows { result ≡ self.now.rows }
        ensures sound { IsSoundBook self.now }
    {
        self.rows.walk()
    }

    /// The indexes of what is last known, which are those of the rows.
    pub(crate) fn indexes(&self) -> &Indexes<Reception, A>
        ensures { AreIndexesOf self.now.rows result.now }
    {
        &self.indexes
    }

    /// Where the book's memory comes from.
    pub(crate) fn allocator(&self) -> A {
        self.rows.allocator()
    }

    /// Whether both have the same gap and the same rows. Takes no memory.
    pub fn same(&self, other: &Book<A>) -> bool
        ensures { IsTrue result ↔ (self.now ≡ other.now) }
    {
        if !self.fits(other) {
            return false;
        }
        same_rows(self.walk(), other.walk())
    }
}

impl<A: Allocator + Copy> Join for Book<A> {
    ghost valid = { IsSoundBook };

    ghost alike = { HaveOneGap };

    ghost joined = { AreJoined };

    ghost laws = { gap_laws };

    /// Whether both books have the same gap.
    fn fits(&self, other: &Book<A>) -> bool {
        other.gap == self.gap
    }

    /// The book of the receptions of both books, whose gaps have to be equal. `Memory` comes as
    /// from `merge`.
    fn join(&self, other: &Book<A>) -> Result<Book<A>, Memory> {
        self.unite(other)
    }
}

/// Whether both walks give the same rows, and as many.
fn same_rows<A: Allocator + Copy>(ours: Walk<'_, A>, mut theirs: Walk<'_, A>) -> bool
    ensures { IsTrue result ↔ (ours.entry ≡ theirs.entry) }
{
    for row in ours {
        match theirs.next() {
            Some(other) if row.equals(other) => {}
            _ => return false,
        }
    }
    theirs.next().is_none()
}
