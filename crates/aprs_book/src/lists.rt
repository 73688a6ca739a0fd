//! What is listed of a book: its stations, its objects and items, and its messages.
//!
//! Words of the contracts here:
//! - `ReportsStations`: whatever receptions the rows are the book of, the list has each of their
//!   sources once, ascending, with the number of its rows and its last known position and status.
ghost use Rattle.std.specs.Prelude.{◌≡◌, IfOk, length};
ghost use Rattle.aprs_transmissions.specs.Gap.{millis_of};
ghost use Rattle.aprs_summary.specs.Exchange.{IsExchangeOf};
ghost use Rattle.aprs_summary.specs.Messages.{ReportsMessages};
ghost use Rattle.aprs_summary.specs.Names.{ReportsNamed};
ghost use Rattle.aprs_summary.specs.StationRows.{AreTallies};
ghost use Rattle.aprs_summary.specs.Stations.{ReportsStations};

use crate::rows::walk::Walk;
use crate::{Book, Memory, MessageRow, Named, Station};
use aprs_ax25::Callsign;
use aprs_log::ReceptionRef;
use aprs_summary::{Counting, Exchange, Sender, messages_of, objects_of, stations_of};
use std::alloc::Allocator;
use std::collections::BTreeMap;

impl<A: Allocator + Copy> Book<A> {
    /// The stations that were heard, ascending by callsign. Takes memory for the list and, while it
    /// is made, for each station.
    pub fn stations(&self) -> Result<Vec<Station<'_>, A>, Memory>
        ensures { IfOk result (λ stations.
            ReportsStations (millis_of self.now.gap) self.now.rows stations.items) }
    {
        let tallies = tallies(self.allocator(), self.walk(), self.len())?;
        stations_of(self.allocator(), &tallies, self.indexes())
    }

    /// The last report of each object, ascending by name, and then of each item, ascending by
    /// name. Killed ones are among them. Takes memory for the list.
    pub fn objects(&self) -> Result<Vec<Named<'_>, A>, Memory>
        ensures { IfOk result (λ named.
            ReportsNamed (millis_of self.now.gap) self.now.rows named.items) }
    {
        objects_of(self.allocator(), self.indexes())
    }

    /// The messages that were heard, ascending by source, addressee, text and id; one without an
    /// id comes before those with one. Those inside third-party frames are left out. Takes memory
    /// for the list and, while it is made, for each message and answer.
    pub fn messages(&self) -> Result<Vec<MessageRow<'_>, A>, Memory>
        ensures { IfOk result (λ messages.
            ReportsMessages (millis_of self.now.gap) self.now.rows messages.items) }
    {
        let exchange = exchange_of(self.allocator(), self.walk())?;
        messages_of(self.allocator(), &exchange)
    }
}

/// How many rows of a book each station has. `len` has to be the number of all rows, which
/// only the contract uses: so no station's number of rows overflows.
pub(crate) fn tallies<A: Allocator + Copy>(
    alloc: A,
    rows: Walk<'_, A>,
    len: usize,
) -> Result<BTreeMap<Callsign, u64, A>, Memory>
    requires { length rows ≡ len }
    ensures { IfOk result (λ tallies. AreTallies rows.entry tallies.entries) }
{
    let mut tallies = Counting::new(alloc);
    let mut before = None;
    for row in rows {
        let sender = Sender::after(before, &ReceptionRef::of(row.greatest()));
        tallies.add(sender.call())?;
        before = Some(sender);
    }
    tallies.into_map()
}

/// The messages and answers of a book's rows, in one pass over these.
pub(crate) fn exchange_of<'t, A: Allocator + Copy>(
    alloc: A,
    rows: Walk<'t, A>,
) -> Result<Exchange<'t, A>, Memory>
    ensures { IfOk result (IsExchangeOf rows.entry) }
{
    let mut exchange = Exchange::new(alloc);
    let mut before = None;
    for row in rows {
        let heard = ReceptionRef::of(row.greatest());
        let sender = Sender::after(before, &heard);
        exchange.take(sender.call(), row.first(), &heard)?;
        before = Some(sender);
    }
    Ok(exchange)
}
