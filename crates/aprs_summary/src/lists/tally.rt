//! How many rows each station has.
ghost use Rattle.std.specs.Prelude.{◌≡◌, ◌<◌, [], IfOk, OnOk};
ghost use Rattle.aprs_summary.specs.StationRows as Spec;

use aprs_ax25::Callsign;
use aprs_rows::Memory;
use std::alloc::{Allocator, Global};
use std::collections::BTreeMap;
use std::marker::Model;

/// A station, and how many of its rows came one after another.
#[derive(Drop)]
pub(crate) struct Tally {
    station: Callsign,
    rows: u64,
}

/// How many rows each station has. The station that was counted last is put into the map where
/// another follows it, since most rows follow one of their own station. Most stations come once so,
/// and then one search is enough.
pub struct Counting<A: Allocator = Global> {
    map: BTreeMap<Callsign, u64, A>,
    last: Option<Tally>,
}

impl<A: Allocator> Drop for Counting<A> {
    fn drop(self) {
        let Counting { map, last: _ } = self;
        drop(map);
    }
}

impl<A: Allocator> Model for Counting<A> {
    ghost use Rattle.std.specs.Prelude.{ℕ, List};
    ghost use Rattle.aprs_ax25.specs.Callsign.{Call};
    ghost use Rattle.aprs_summary.specs.StationRows.{LastFits, with_last};

    ghost Value = { List (Call × ℕ) };

    ghost view = { λ t. with_last t.last t.map.entries };

    ghost invariant = { λ t. LastFits t.last t.map.entries };
}

impl<A: Allocator + Copy> Counting<A> {
    /// No rows were counted yet. Takes no memory.
    pub fn new(alloc: A) -> Counting<A>
        ensures { result ≡ [] }
    {
        Counting {
            map: BTreeMap::new(alloc),
            last: None,
        }
    }

    /// Counts one more row of this station, whose number of rows has to be below 2^64 - 1. The
    /// last station is kept beside the map until another comes. After `Memory` its number may be
    /// lost.
    pub fn add(&mut self, station: &Callsign) -> Result<(), Memory>
        requires { Spec.tally_of station.now self.old < 18446744073709551615 }
        ensures { OnOk result (self.new ≡ Spec.with_one_more station.now self.old) }
    {
        let last = match self.last.take() {
            Some(last) if last.station.cmp(station).is_eq() => {
                self.last = Some(Tally {
                    station: last.station,
                    rows: last.rows + 1,
                });
                return Ok(());
            }
            last => last,
        };
        put(&mut self.map, last)?;
        self.last = Some(Tally {
            station: station.copy(),
            rows: 1,
        });
        Ok(())
    }

    /// The number of rows of each station, ascending by callsign.
    pub fn into_map(self) -> Result<BTreeMap<Callsign, u64, A>, Memory>
        ensures { IfOk result (λ map. map.entries ≡ self) }
    {
        let Counting { mut map, last } = self;
        put(&mut map, last)?;
        Ok(map)
    }
}

/// Adds the rows of the station that was counted last to those that it has in the map. Their number
/// has to be below 2^64. Without such a station the map stays.
fn put<A: Allocator + Copy>(
    map: &mut BTreeMap<Callsign, u64, A>,
    last: Option<Tally>,
) -> Result<(), Memory>
    requires { Spec.LastFits last map.old.entries }
    ensures { OnOk result (map.new.entries ≡ Spec.with_last last map.old.entries) }
{
    if let Some(Tally { station, rows }) = last {
        let again = station.copy();
        if let Some(before) = map.insert(station, rows)? {
            map.insert(again, before + rows)?;
        }
    }
    Ok(())
}
