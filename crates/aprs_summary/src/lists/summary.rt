//! What the rows of a book say together.
ghost use Rattle.std.specs.Prelude.{◌≡◌, List, IfOk, map};
ghost use Rattle.aprs_transmissions.specs.Gap.{millis_of};
ghost use Rattle.aprs_summary.specs.declared.lists.named.Named.{Named};
ghost use Rattle.aprs_summary.specs.Messages.{ReportsMessages};
ghost use Rattle.aprs_summary.specs.Names.{ReportsNamed, shown_report};
ghost use Rattle.aprs_summary.specs.Stations.{ReportsStations};

use crate::known::indexes::Indexes;
use crate::lists::exchange::Exchange;
use crate::lists::message_walk::MessageWalk;
use crate::lists::named_walk::NamedWalk;
use crate::lists::station_walk::StationWalk;
use crate::lists::summary_builder::summarize;
use aprs_ax25::Callsign;
use aprs_log::ReceptionRef;
use aprs_rows::{BookStore, Memory, WalkRoom};
use std::alloc::{Allocator, Global};
use std::collections::BTreeMap;
use std::marker::Model;

/// What the rows of the book in a store say. Their frames stay where they lie.
pub struct Summary<'t, A: Allocator = Global> {
    pub(crate) store: &'t BookStore<A>,
    pub(crate) indexes: Indexes<ReceptionRef<'t>, A>,
    pub(crate) tallies: BTreeMap<Callsign, u64, A>,
    pub(crate) exchange: Exchange<'t, A>,
}

impl<'t, A: Allocator> Drop for Summary<'t, A> {
    fn drop(self) {
        let Summary {
            store: _,
            indexes,
            tallies,
            exchange,
        } = self;
        drop(indexes);
        drop(tallies);
        drop(exchange);
    }
}

impl<'t, A: Allocator> Model for Summary<'t, A> {
    ghost use Rattle.aprs_transmissions.specs.BookValue.{BookValue};
    ghost use Rattle.aprs_summary.specs.Exchange.{IsExchangeOf};
    ghost use Rattle.aprs_summary.specs.Known.{AreIndexesOf};
    ghost use Rattle.aprs_summary.specs.StationRows.{AreTallies};

    ghost Value = { BookValue };

    ghost view = { λ s. s.store.now };

    ghost invariant = { λ s. AreIndexesOf s.store.now.rows s.indexes
        × AreTallies s.store.now.rows s.tallies.entries
        × IsExchangeOf s.store.now.rows s.exchange };
}

impl<'t, A: Allocator + Copy> Summary<'t, A> {
    /// What the rows of this store say, in one pass over them. Takes memory for the walk over them,
    /// each station, object, item, message and answer. The room has to last as long as the summary.
    pub fn of(
        alloc: A,
        store: &'t BookStore<A>,
        room: &'t mut WalkRoom<A>,
    ) -> Result<Summary<'t, A>, Memory>
        ensures { IfOk result (λ summary. summary ≡ store.now) }
    {
        let rows = store.rows(room)?;
        let most = rows.most_rows();
        let builder = summarize(alloc, rows, most)?;
        builder.into_summary(store)
    }

    /// The stations that were heard, ascending by callsign. Takes no memory, nor does the walk.
    pub fn stations(&self) -> StationWalk<'_, 't, A>
        ensures { ReportsStations (millis_of self.now.gap) self.now.rows result }
    {
        StationWalk::of(&self.tallies, &self.indexes)
    }

    /// The last report of each object, ascending by name, and then of each item, ascending by
    /// name. Killed ones are among them. Takes no memory, nor does the walk.
    pub fn objects(&self) -> NamedWalk<'_, 't, A>
        // Whichever list shows these things and receptions is that of the objects and items.
        ensures { (xs : List Named) → map shown_report xs ≡ result
            → ReportsNamed (millis_of self.now.gap) self.now.rows xs }
    {
        NamedWalk::of(&self.indexes)
    }

    /// The messages that were heard, ascending by source, addressee, text and id; one without an id
    /// comes before those with one. Those inside third-party frames are left out. Takes no memory,
    /// nor does the walk.
    pub fn messages(&self) -> MessageWalk<'_, 't, A>
        ensures { ReportsMessages (millis_of self.now.gap) self.now.rows result }
    {
        MessageWalk::of(&self.exchange)
    }
}
