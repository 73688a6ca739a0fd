//! Stations that were heard.
ghost use Rattle.std.specs.Prelude.{◌≡◌, ℕ, List, IfOk};
ghost use Rattle.aprs_summary.specs.Known.{AreIndexesOf};
ghost use Rattle.aprs_transmissions.specs.Row.{Row};
ghost use Rattle.aprs_summary.specs.Stations.{ReportsStations};
ghost use Rattle.aprs_summary.specs.StationRows.{AreTallies, station_in};

use crate::Heard;
use crate::known::heard::heard_of;
use crate::known::indexes::Indexes;
use aprs_ax25::Callsign;
use aprs_log::Reception;
use aprs_rows::Memory;
use std::alloc::Allocator;
use std::collections::BTreeMap;

/// A station that was heard.
#[derive(Drop)]
pub struct Station<'a> {
    /// Its callsign.
    pub call: Callsign,
    /// The number of its rows in the book, 1 at least.
    pub transmissions: u64,
    /// Its last known position, by its position reports. A Mic-E position is none of these.
    pub position: Option<Heard<'a>>,
    /// Its last known status.
    pub status: Option<Heard<'a>>,
}

/// The stations of any rows that have these tallies and indexes, ascending by callsign, each with
/// its number of rows and what is last known of it.
pub fn stations_of<'a, A: Allocator + Copy>(
    alloc: A,
    tallies: &BTreeMap<Callsign, u64, A>,
    indexes: &'a Indexes<Reception, A>,
) -> Result<Vec<Station<'a>, A>, Memory>
    ensures { (gap : ℕ) (rows : List Row) → AreTallies rows tallies.now.entries
        → AreIndexesOf rows indexes.now
        → IfOk result (λ stations. ReportsStations gap rows stations.items) }
{
    let mut list = Vec::new(alloc);
    for (call, transmissions) in tallies.iter() {
        list.push(station_of(call, *transmissions, indexes))?;
    }
    Ok(list)
}

/// The row of a station with this number of rows in the book: its position and its status are what
/// the indexes know, or `None`.
fn station_of<'a, A: Allocator + Copy>(
    call: &Callsign,
    transmissions: u64,
    indexes: &'a Indexes<Reception, A>,
) -> Station<'a>
    ensures { result ≡ station_in indexes.now (call.now, transmissions) }
{
    Station {
        call: call.copy(),
        transmissions,
        position: heard_of(indexes.position(call)),
        status: heard_of(indexes.status(call)),
    }
}
