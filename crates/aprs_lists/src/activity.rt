//! How active stations were.
ghost use Rattle.std.specs.Prelude.{◌≡◌, ◌<◌, [], IfOk, OnOk};
ghost use Rattle.std.specs.Option.{option_copied};
ghost use Rattle.aprs_transmissions.specs.Row.{last_moment};
ghost use Rattle.aprs_lists.specs.Activity as Spec;

use aprs_ax25::Callsign;
use aprs_details::ThirdParty;
use aprs_log::Moment;
use aprs_rows::{Memory, RowView};
use std::alloc::Allocator;
use std::collections::BTreeMap;
use std::marker::Model;

/// When a station was heard last, and how many frames of others it passed on.
#[derive(Drop)]
pub(crate) struct Activity {
    /// The last moment of its transmissions, whatever they say.
    pub heard: Moment,
    /// How many of its transmissions pass on the frame of another station.
    pub passed: u64,
}

/// A station, and how active it was.
#[derive(Drop)]
pub(crate) struct Active {
    station: Callsign,
    activity: Activity,
}

/// How active each station was by the rows that were counted. The station that was counted last is
/// put into the map where another follows it, since most rows follow one of their own station.
pub(crate) struct Activities<A: Allocator> {
    map: BTreeMap<Callsign, Activity, A>,
    last: Option<Active>,
}

impl<A: Allocator> Drop for Activities<A> {
    fn drop(self) {
        let Activities { map, last: _ } = self;
        drop(map);
    }
}

impl<A: Allocator> Model for Activities<A> {
    ghost use Rattle.std.specs.Prelude.{List};
    ghost use Rattle.aprs_ax25.specs.Callsign.{Call};
    ghost use Rattle.aprs_lists.specs.Activity.{with_last};
    ghost use Rattle.aprs_lists.specs.declared.activity.Activity.{Activity as ActivityValue};

    ghost Value = { List (Call × ActivityValue) };

    ghost view = { λ a. with_last a.last a.map.entries };
}

impl<A: Allocator + Copy> Activities<A> {
    /// No rows were counted yet. Takes no memory.
    pub(crate) fn new(alloc: A) -> Activities<A>
        ensures { result ≡ [] }
    {
        Activities {
            map: BTreeMap::new(alloc),
            last: None,
        }
    }

    /// Counts one more row of this station, which has to have passed on fewer than 2^64 - 1 frames
    /// so far. After `Memory` what is kept of the last station may be lost.
    fn add(&mut self, station: &Callsign, moment: Moment, passes: bool) -> Result<(), Memory>
        requires { Spec.passed_kept (Spec.kept_of station.now self.old) < 18446744073709551615 }
        ensures { OnOk result (self.new ≡ Spec.with_one_more station.now moment passes self.old) }
    {
        let last = match self.last.take() {
            Some(last) if last.station.cmp(station).is_eq() => {
                self.last = Some(Active {
                    activity: with_row(Some(&last.activity), moment, passes),
                    station: last.station,
                });
                return Ok(());
            }
            last => last,
        };
        put(&mut self.map, last)?;
        let activity = with_row(self.map.get(station), moment, passes);
        self.last = Some(Active {
            station: station.copy(),
            activity,
        });
        Ok(())
    }

    /// How active each station was, ascending by callsign.
    pub(crate) fn into_map(self) -> Result<BTreeMap<Callsign, Activity, A>, Memory>
        ensures { IfOk result (λ map. map.entries ≡ self) }
    {
        let Activities { mut map, last } = self;
        put(&mut map, last)?;
        Ok(map)
    }
}

/// Puts the station that was counted last into the map. Without such a station the map stays.
fn put<A: Allocator + Copy>(
    map: &mut BTreeMap<Callsign, Activity, A>,
    last: Option<Active>,
) -> Result<(), Memory>
    ensures { OnOk result (map.new.entries ≡ Spec.with_last last map.old.entries) }
{
    if let Some(Active { station, activity }) = last {
        map.insert(station, activity)?;
    }
    Ok(())
}

/// Adds one more row to what is kept of this station, which sent it, and has to have passed on
/// fewer than 2^64 - 1 frames so far.
#[tactic(auto, unfolding(aprs_transmissions::specs::Key::key_of))]
pub(crate) fn count_row<A: Allocator + Copy>(
    activities: &mut Activities<A>,
    sender: &Callsign,
    row: &RowView<'_>,
) -> Result<(), Memory>
    requires { Spec.passed_kept (Spec.kept_of sender.now activities.old) < 18446744073709551615 }
    ensures { OnOk result (activities.new ≡ Spec.with_one_more sender.now (last_moment row.now)
        (Spec.passes_on row.now) activities.old) }
{
    let passes = ThirdParty::read(row.frame().info()).is_some();
    activities.add(sender, row.last(), passes)
}

/// What is kept of a station after one more row that was heard last at this moment.
fn with_row(known: Option<&Activity>, moment: Moment, passes: bool) -> Activity
    requires { Spec.passed_kept (option_copied known) < 18446744073709551615 }
    ensures { result ≡ Spec.with_row (option_copied known.entry) moment passes }
{
    let more = if passes { 1 } else { 0 };
    match known {
        Some(before) => Activity {
            heard: moment.max(before.heard),
            passed: before.passed + more,
        },
        None => Activity {
            heard: moment,
            passed: more,
        },
    }
}
