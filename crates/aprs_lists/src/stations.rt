//! The table of a book's stations.
ghost use Rattle.std.specs.Prelude.{◌≡◌, ◌≤◌, ◌∷◌, ◌++◌, ℕ, List, [], IfOk, length, map};
ghost use Rattle.std.specs.List.{flat_map};
ghost use Rattle.std.specs.Option.{option_copied};
ghost use Rattle.aprs_io.specs.Device.{Sends};
ghost use Rattle.aprs_io.specs.Outlet.{Puts};
ghost use Rattle.aprs_transmissions.specs.Gap.{millis_of};
ghost use Rattle.aprs_summary.specs.Stations.{ReportsStations};
ghost use Rattle.aprs_summary.specs.SummaryBuilder.{IsBuilderOf};
ghost use Rattle.aprs_summary.specs.declared.lists.station.Station.{Station};
ghost use Rattle.aprs_table.specs.Cells.{cell_text};
ghost use Rattle.aprs_lists.specs.Activity.{AreActivities, heard_kept, passed_kept};
ghost use Rattle.aprs_lists.specs.Stations as Spec;
ghost use Rattle.aprs_lists.specs.Told.{moment_or_nothing};

use crate::activity::{Activities, Activity, count_row};
use crate::line::put_long_line;
use crate::table::{Lines, write_table};
use crate::told::moment_cell;
use aprs_ax25::Callsign;
use aprs_io::{Counted, Outlet, WriteFault};
use aprs_log::Moment;
use aprs_report::Report;
use aprs_rows::{BookRows, BookStore, Memory, WalkRoom};
use aprs_summary::{Heard, HeardRoom, Sender, Station, StationWalk, Summary, SummaryBuilder};
use aprs_table::Cell;
use itoa::Buffer;
use std::alloc::{Allocator, Global};
use std::collections::BTreeMap;
use std::io::Write;
use std::marker::Model;

/// The names of the columns.
const COLUMNS: &[u8] = b"\
    source\ttransmissions\tlast\treceiver\tstamp\tlatitude\tlongitude\tambiguity\tcompressed\t\
    symbol\ttext\tstatus_last\tstatus_receiver\tstatus_stamp\tstatus_text\theard\tpassed\n";

/// The stations that were heard in the book of a store: what is last known of each, and how active
/// it was. Their frames stay where they lie.
pub struct HeardStations<'t, A: Allocator = Global> {
    summary: Summary<'t, A>,
    activities: BTreeMap<Callsign, Activity, A>,
}

impl<'t, A: Allocator> Drop for HeardStations<'t, A> {
    fn drop(self) {
        let HeardStations {
            summary,
            activities,
        } = self;
        drop(summary);
        drop(activities);
    }
}

impl<'t, A: Allocator> Model for HeardStations<'t, A> {
    ghost use Rattle.aprs_transmissions.specs.BookValue.{BookValue};
    ghost use Rattle.aprs_lists.specs.Activity.{AreActivities};

    ghost Value = { BookValue };

    ghost view = { λ s. s.summary };

    ghost invariant = { λ s. AreActivities s.summary.rows s.activities.entries };
}

impl<'t, A: Allocator + Copy> HeardStations<'t, A> {
    /// The stations of the book in this store, in one pass over its rows. Takes memory for the walk
    /// over them, for the book's summary and for each station. The room has to last as long as the
    /// stations.
    pub fn of(
        alloc: A,
        store: &'t BookStore<A>,
        room: &'t mut WalkRoom<A>,
    ) -> Result<HeardStations<'t, A>, Memory>
        ensures { IfOk result (λ stations. stations ≡ store.now) }
    {
        let rows = store.rows(room)?;
        let most = rows.most_rows();
        let Gathered {
            builder,
            activities,
        } = gather(alloc, rows, most)?;
        let summary = builder.into_summary(store)?;
        Ok(HeardStations {
            summary,
            activities,
        })
    }

    /// The lines of their table.
    fn lines(&self) -> StationLines<'_, 't, A>
        ensures { (stations : List Station)
            × ReportsStations (millis_of self.now.gap) self.now.rows stations
            × (result ≡ flat_map (Spec.station_table_line self.now.rows) stations) }
    {
        StationLines {
            walk: self.summary.stations(),
            activities: &self.activities,
        }
    }
}

/// What was gathered of the rows of a book, and how active each station was by them.
#[derive(Drop)]
struct Gathered<'t, A: Allocator = Global> {
    builder: SummaryBuilder<'t, A>,
    activities: BTreeMap<Callsign, Activity, A>,
}

/// What these rows say, and how active each of their stations was, in one pass over them. At most
/// `most` of them may come, which the contracts alone read: so no number overflows.
fn gather<'t, A: Allocator + Copy>(
    alloc: A,
    rows: BookRows<'t, A>,
    most: usize,
) -> Result<Gathered<'t, A>, Memory>
    requires { length rows.rows ≤ most }
    ensures said { IfOk result (λ gathered. IsBuilderOf rows.entry.rows gathered.builder) }
    ensures active { IfOk result (λ gathered.
        AreActivities rows.entry.rows gathered.activities.entries) }
{
    let mut builder = SummaryBuilder::new(alloc);
    let mut activities = Activities::new(alloc);
    let mut before = None;
    for row in rows {
        let sender = Sender::after(before, &row.greatest());
        builder.take(sender.call(), &row)?;
        count_row(&mut activities, sender.call(), &row)?;
        before = Some(sender);
    }
    let activities = activities.into_map()?;
    Ok(Gathered {
        builder,
        activities,
    })
}

/// Writes the table of the stations of a book: the names of the columns, and exactly one line for
/// each station, ascending by callsign, with its last known position and status, when it was heard
/// last, and how many frames of others it passed on. Mic-E positions and frames that are passed on
/// give no position or status. At a fault a prefix of this went out. Takes no memory.
pub fn write_stations<W: Write, A: Allocator + Copy>(
    w: &mut Counted<W>,
    stations: &HeardStations<'_, A>,
) -> Result<(), WriteFault>
    ensures { (text : List ℕ) × Spec.IsStationsTable stations.now text
        × Sends W.contents result w.old w.new text }
{
    write_table(w, COLUMNS, stations.lines())
}

/// The lines of stations, with how active they were.
#[derive(Drop)]
struct StationLines<'s, 't, A: Allocator = Global> {
    walk: StationWalk<'s, 't, A>,
    activities: &'s BTreeMap<Callsign, Activity, A>,
}

impl<'s, 't, A: Allocator> Model for StationLines<'s, 't, A> {
    ghost use Rattle.std.specs.Prelude.{ℕ, List};
    ghost use Rattle.std.specs.List.{flat_map};
    ghost use Rattle.aprs_lists.specs.Stations.{station_line_in};

    ghost Value = { List ℕ };

    ghost view = { λ l. flat_map (station_line_in l.activities.now.entries) l.walk };
}

impl<'s, 't, A: Allocator + Copy> Lines for StationLines<'s, 't, A> {
    ghost lines = { λ text. text };

    /// Puts the lines of the stations, in their order.
    fn put_lines<W: Write>(self, out: &mut Outlet<'_, W>) -> Result<(), WriteFault> {
        put_stations(out, self.walk, self.activities)
    }
}

/// Puts the lines of stations, in their order, each with what is kept of how active it was. Fails
/// where the output is refused.
fn put_stations<W: Write, A: Allocator + Copy>(
    out: &mut Outlet<'_, W>,
    mut walk: StationWalk<'_, '_, A>,
    activities: &BTreeMap<Callsign, Activity, A>,
) -> Result<(), WriteFault>
    ensures { Puts W.contents result out.old out.new
        (flat_map (Spec.station_line_in activities.now.entries) walk.entry) }
{
    let mut room = HeardRoom::new();
    while let Some(station) = walk.next(&mut room) {
        put_station(out, &station, activities.get(&station.call))?;
    }
    Ok(())
}

/// Puts the line of a station. Fails where the output is refused.
fn put_station<W: Write>(
    out: &mut Outlet<'_, W>,
    station: &Station<'_>,
    activity: Option<&Activity>,
) -> Result<(), WriteFault>
    ensures { Puts W.contents result out.old out.new
        (Spec.station_line_by station.now (option_copied activity.entry)) }
{
    let (heard, passed) = heard_and_passed(activity);
    let mut buffer = Buffer::new();
    let passed = buffer.format(passed).as_bytes();
    let activity = activity_cells(heard, passed);
    put_known(out, station, &activity)
}

/// When a station was heard last, and the number of frames of others that it passed on.
fn activity_cells<'a>(heard: Option<Moment>, passed: &'a [u8]) -> [Cell<'a>; 2]
    ensures { map cell_text result ≡ moment_or_nothing heard ∷ passed.now ∷ [] }
{
    [moment_cell(heard), Cell::Plain(passed)]
}

/// Puts the line of a station, with these last fields. Fails where the output is refused.
fn put_known<W: Write>(
    out: &mut Outlet<'_, W>,
    station: &Station<'_>,
    activity: &[Cell<'_>],
) -> Result<(), WriteFault>
    ensures { Puts W.contents result out.old out.new
        (Spec.station_line_with station.now (map cell_text activity.now)) }
{
    let mut buffer = Buffer::new();
    let transmissions = buffer.format(station.transmissions).as_bytes();
    let source = Cell::Call(station.call.copy());
    let position = position_cells(transmissions, &station.position);
    let status = status_cells(&station.status);
    put_long_line(out, &source, &position, &status, activity)
}

/// When a station was heard last, and how many frames of others it passed on; never, and none,
/// where nothing is kept of it.
fn heard_and_passed(activity: Option<&Activity>) -> (Option<Moment>, u64)
    ensures heard { result.0 ≡ heard_kept (option_copied activity.entry) }
    ensures passed { result.1 ≡ passed_kept (option_copied activity.entry) }
{
    match activity {
        Some(activity) => (Some(activity.heard), activity.passed),
        None => (None, 0),
    }
}

/// How many transmissions a station has, and its last known position; nothing of it where none is
/// known.
fn position_cells<'a>(transmissions: &'a [u8], known: &Option<Heard<'a>>) -> [Cell<'a>; 10]
    ensures { map cell_text result ≡ transmissions.now ∷ Spec.position_fields known.now }
{
    match known {
        Some(heard) => heard_position(transmissions, heard),
        None => no_position(transmissions),
    }
}

/// How many transmissions a station has, and nothing of a position.
fn no_position<'a>(transmissions: &'a [u8]) -> [Cell<'a>; 10]
    ensures { map cell_text result ≡ transmissions.now ∷ Spec.no_position }
{
    [
        Cell::Plain(transmissions),
        Cell::Plain(b""),
        Cell::Plain(b""),
        Cell::Plain(b""),
        Cell::Plain(b""),
        Cell::Plain(b""),
        Cell::Plain(b""),
        Cell::Plain(b""),
        Cell::Plain(b""),
        Cell::Plain(b""),
    ]
}

/// How many transmissions a station has, and the position that was heard. Where another report was
/// heard, the fields of a position are empty.
fn heard_position<'a>(transmissions: &'a [u8], heard: &Heard<'a>) -> [Cell<'a>; 10]
    ensures { map cell_text result ≡ transmissions.now ∷ Spec.heard_position heard.now }
{
    match heard.report {
        Report::Position {
            stamp,
            place,
            symbol,
            comment,
            ..
        } => [
            Cell::Plain(transmissions),
            Cell::Moment(heard.moment),
            Cell::Plain(heard.receiver.as_bytes()),
            Cell::Stamp(stamp),
            Cell::Latitude(Some(place)),
            Cell::Longitude(Some(place)),
            Cell::Ambiguity(Some(place)),
            Cell::Compressed(Some(place)),
            Cell::Symbol(Some(symbol)),
            Cell::Shown(comment),
        ],
        _ => no_position(transmissions),
    }
}

/// The last known status of a station; nothing of it where none is known.
fn status_cells<'a>(known: &Option<Heard<'a>>) -> [Cell<'a>; 4]
    ensures { map cell_text result ≡ Spec.status_fields known.now }
{
    match known {
        Some(heard) => heard_status(heard),
        None => no_status(),
    }
}

/// Four empty fields, where no status is known.
fn no_status<'a>() -> [Cell<'a>; 4]
    ensures { map cell_text result ≡ Spec.no_status }
{
    [
        Cell::Plain(b""),
        Cell::Plain(b""),
        Cell::Plain(b""),
        Cell::Plain(b""),
    ]
}

/// The status that was heard; four empty fields where another report was heard.
fn heard_status<'a>(heard: &Heard<'a>) -> [Cell<'a>; 4]
    ensures { map cell_text result ≡ Spec.heard_status heard.now }
{
    match heard.report {
        Report::Status { stamp, text } => [
            Cell::Moment(heard.moment),
            Cell::Plain(heard.receiver.as_bytes()),
            Cell::Stamp(stamp),
            Cell::Shown(text),
        ],
        _ => no_status(),
    }
}
