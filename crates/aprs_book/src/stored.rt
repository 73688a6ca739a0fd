//! Rows of books by way of a store.
ghost use Rattle.std.specs.Prelude.{◌≡◌, ◌++◌, ◌∷◌, [], All, IfOk, OnErr, OnOk};
ghost use Rattle.std.specs.List.{join_with_byte};
ghost use Rattle.aprs_log.specs.Receiver.{IsName};
ghost use Rattle.aprs_transmissions.specs.Coalescing.{AreInOrder};
ghost use Rattle.aprs_transmissions.specs.Gap.{millis_of};
ghost use Rattle.aprs_transmissions.specs.JoinRow.{merge};
ghost use Rattle.aprs_transmissions.specs.Sound.{AreSoundRows, IsSoundRow};

use crate::rows::kept_row::KeptRow;
use crate::rows::walk::Walk;
use crate::{Book, Memory};
use aprs_log::ReceptionRef;
use aprs_rows::{BookStore, PackedRows, RowView, WalkRoom, put_names};
use std::alloc::Allocator;

/// The book in a store. Takes memory beside the book for the walk over its rows, and gives it back.
pub(crate) fn book_of<A: Allocator + Copy>(alloc: A, store: BookStore<A>) -> Result<Book<A>, Memory>
    ensures { IfOk result (λ book. book ≡ store) }
{
    let mut room = WalkRoom::new(alloc);
    let rows = store.rows(&mut room)?;
    Book::of_rows(alloc, rows)
}

/// Adds the rows of a walk to the book in a store. They have to be in order, and each sound by
/// itself. `Memory` comes also where `put_row` returns it; after it the book is as before.
pub(crate) fn add_rows<A: Allocator + Copy>(
    alloc: A,
    store: &mut BookStore<A>,
    rows: Walk<'_, A>,
) -> Result<(), Memory>
    requires order { AreInOrder rows }
    requires sound { AreSoundRows rows }
    ensures added { OnOk result (store.new ≡ record {
      gap = store.old.gap;
      rows = merge (millis_of store.old.gap) store.old.rows rows.entry;
    }) }
    ensures unchanged { OnErr result (store.new ≡ store.old) }
{
    let mut packed = PackedRows::new(alloc);
    let mut text = Vec::new(alloc);
    for row in rows {
        put_row(&mut packed, &mut text, row)?;
    }
    store.add(packed)
}

/// Puts a row after the others. It has to be sound by itself. `text` is written over; it is
/// kept from row to row. `Memory` is also returned where the names of the row's receivers, with
/// commas between, have 4,294,967,296 bytes or more. After `Memory` the rows are as before.
fn put_row<A: Allocator + Copy>(
    packed: &mut PackedRows<A>,
    text: &mut Vec<u8, A>,
    row: &KeptRow<A>,
) -> Result<(), Memory>
    requires { IsSoundRow row.now }
    ensures put { OnOk result (packed.new ≡ packed.old ++ row.now ∷ []) }
    ensures unchanged { OnErr result (packed.new ≡ packed.old) }
{
    put_names(text, row.names())?;
    if text.len() > u32::MAX as usize {
        return Err(Memory::past_all_sizes());
    }
    packed.push(&view_of(row, text.as_slice()))
}

/// A row as a store takes it, with the text of its receivers' names, which commas part. The row has
/// to be sound by itself.
fn view_of<'t, A: Allocator + Copy>(row: &'t KeptRow<A>, text: &'t [u8]) -> RowView<'t>
    requires sound { IsSoundRow row.now }
    requires text { text.now ≡ join_with_byte 44 row.now.receivers }
    requires names { All IsName row.now.receivers }
    ensures { result ≡ row.now }
{
    RowView::new(row.first(), text, ReceptionRef::of(row.greatest()))
}
