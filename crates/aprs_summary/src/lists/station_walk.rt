//! The walk over the stations of a summary.
ghost use Rattle.std.specs.Prelude.{◌≡◌, [], ◌∷◌, MatchOption, map};
ghost use Rattle.aprs_transmissions.specs.Lists.{Ordered};
ghost use Rattle.aprs_summary.specs.StationRows.{IsStationBefore, station_in};

use crate::Station;
use crate::known::heard::heard_in;
use crate::known::indexes::Indexes;
use crate::lists::heard_room::HeardRoom;
use aprs_ax25::Callsign;
use aprs_log::ReceptionRef;
use std::alloc::{Allocator, Global};
use std::collections::BTreeMap;
use std::collections::btree_map::Iter;
use std::marker::Model;

/// The stations that are still to come, ascending by callsign.
#[derive(Drop)]
pub struct StationWalk<'s, 't, A: Allocator = Global> {
    tallies: Iter<'s, Callsign, u64>,
    indexes: &'s Indexes<ReceptionRef<'t>, A>,
}

impl<'s, 't, A: Allocator> Model for StationWalk<'s, 't, A> {
    ghost use Rattle.std.specs.Prelude.{List, map};
    ghost use Rattle.aprs_summary.specs.declared.lists.station.Station.{Station};
    ghost use Rattle.aprs_summary.specs.StationRows.{station_in};

    ghost Value = { List Station };

    ghost view = { λ w. map (station_in w.indexes.now) w.tallies };
}

impl<'s, 't, A: Allocator + Copy> StationWalk<'s, 't, A> {
    /// The stations of these tallies and indexes.
    pub(crate) fn of(
        tallies: &'s BTreeMap<Callsign, u64, A>,
        indexes: &'s Indexes<ReceptionRef<'t>, A>,
    ) -> StationWalk<'s, 't, A>
        ensures stations { result ≡ map (station_in indexes.now) tallies.now.entries }
        ensures ascending { Ordered IsStationBefore tallies.now.entries }
    {
        StationWalk {
            tallies: tallies.iter(),
            indexes,
        }
    }

    /// The next station, or `None` after the last. What is last known of it is read into the room.
    /// Takes no memory.
    pub fn next<'r>(&mut self, room: &'r mut HeardRoom) -> Option<Station<'r>>
        ensures { MatchOption result (self.old ≡ []) (λ x. self.old ≡ x ∷ self.new) }
    {
        let (call, transmissions) = self.tallies.next()?;
        Some(Station {
            call: call.copy(),
            transmissions: *transmissions,
            position: heard_in(&mut room.first, self.indexes.position(call)),
            status: heard_in(&mut room.second, self.indexes.status(call)),
        })
    }
}
