//! Rows that come one after another, as a book.
ghost use Rattle.std.specs.Prelude.{◌≡◌, IfOk};

use crate::rows::kept_row::KeptRow;
use crate::rows::keyed::KeyedRows;
use crate::{Book, Memory};
use aprs_rows::BookRows;
use aprs_summary::{Notes, Sender, Subject, info_of};
use std::alloc::Allocator;

impl<A: Allocator + Copy> Book<A> {
    /// The book of these rows, in memory of its own. Where an allocation fails, the unfinished
    /// book is dropped.
    pub fn of_rows(alloc: A, rows: BookRows<'_, A>) -> Result<Book<A>, Memory>
        ensures { IfOk result (λ book. book ≡ rows.entry) }
    {
        let gap = rows.gap();
        let mut kept = KeyedRows::new(alloc);
        let mut notes = Notes::new(alloc);
        let mut before = None;
        for row in rows {
            let heard = row.greatest();
            // The row's source. It isn't read again where the row before has the same octets.
            let sender = Sender::after(before, &heard);
            notes.take(Subject::of(sender.call(), info_of(&heard)), heard)?;
            kept.append(KeptRow::of_view(alloc, &row)?)?;
            before = Some(sender);
        }
        Ok(Book::of_kept(gap, kept, notes.into_indexes()?))
    }
}
