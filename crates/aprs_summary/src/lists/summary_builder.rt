//! What rows say, as they are taken one after another.
ghost use Rattle.std.specs.Prelude.{◌≡◌, ◌<◌, ◌≤◌, List, [], ◌∷◌, ◌++◌, IfOk, OnOk, length};
ghost use Rattle.aprs_transmissions.specs.Row.{Row};
ghost use Rattle.aprs_summary.specs.StationRows.{source_of};
ghost use Rattle.aprs_summary.specs.SummaryBuilder.{IsBuilderOf, rows_taken_of};

use crate::known::notes::Notes;
use crate::known::subject::{Subject, info_of};
use crate::lists::exchange::Exchange;
use crate::lists::sender::Sender;
use crate::lists::summary::Summary;
use crate::lists::tally::Counting;
use aprs_ax25::Callsign;
use aprs_log::ReceptionRef;
use aprs_rows::{BookRows, BookStore, Memory, RowView};
use std::alloc::{Allocator, Global};

/// What some rows report, how many each station has, and the messages and answers among them. It
/// becomes a summary, for callers who do more in the one pass over the rows.
#[derive(Drop)]
pub struct SummaryBuilder<'t, A: Allocator = Global> {
    notes: Notes<'t, ReceptionRef<'t>, A>,
    tallies: Counting<A>,
    exchange: Exchange<'t, A>,
}

impl<'t, A: Allocator + Copy> SummaryBuilder<'t, A> {
    /// A builder of no rows. Takes no memory.
    pub fn new(alloc: A) -> SummaryBuilder<'t, A>
        ensures { IsBuilderOf [] result }
    {
        SummaryBuilder {
            notes: Notes::new(alloc),
            tallies: Counting::new(alloc),
            exchange: Exchange::new(alloc),
        }
    }

    /// Adds one more row: the builder of some rows becomes that of these rows and this one.
    /// `sender` has to be the station that sent the row, and has to have fewer than 2^64 - 1 rows
    /// so far. Takes memory for what is new: a station, an object, an item, a message or an answer.
    /// Nothing is promised of the builder after `Memory`.
    pub fn take(&mut self, sender: &Callsign, row: &RowView<'t>) -> Result<(), Memory>
        requires sender { sender.now ≡ source_of row.now }
        requires room { rows_taken_of sender.now self.old < 18446744073709551615 }
        ensures { OnOk result ((rows : List Row) → IsBuilderOf rows self.old
            → IsBuilderOf (rows ++ row.now ∷ []) self.new) }
    {
        let heard = row.greatest();
        self.tallies.add(sender)?;
        self.exchange.take(sender, row.first(), &heard)?;
        let subject = Subject::of(sender, info_of(&heard));
        self.notes.take(subject, heard)
    }

    /// The summary of the book in this store, whose rows have to be those that were taken. Takes
    /// memory for the last station, and for what was reported last.
    pub fn into_summary(self, store: &'t BookStore<A>) -> Result<Summary<'t, A>, Memory>
        requires { IsBuilderOf store.now.rows self }
        ensures { IfOk result (λ summary. summary ≡ store.now) }
    {
        let SummaryBuilder {
            notes,
            tallies,
            exchange,
        } = self;
        let indexes = notes.into_indexes()?;
        let tallies = tallies.into_map()?;
        Ok(Summary {
            store,
            indexes,
            tallies,
            exchange,
        })
    }
}

/// A builder of these rows, in one pass over them. At most `most` of them may come, which the
/// contract alone reads: so no station's number of rows overflows.
pub(crate) fn summarize<'t, A: Allocator + Copy>(
    alloc: A,
    rows: BookRows<'t, A>,
    most: usize,
) -> Result<SummaryBuilder<'t, A>, Memory>
    requires { length rows.rows ≤ most }
    ensures { IfOk result (IsBuilderOf rows.entry.rows) }
{
    let mut builder = SummaryBuilder::new(alloc);
    let mut before = None;
    for row in rows {
        let sender = Sender::after(before, &row.greatest());
        builder.take(sender.call(), &row)?;
        before = Some(sender);
    }
    Ok(builder)
}
