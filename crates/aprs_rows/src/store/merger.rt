//! Rows of several lists in order, taken out in the order of all.
//!
//! Words of the contracts here:
//! - `IsRun`: rows in order, each sound by itself, with names of receivers and a UI frame
//!   (`HasNamesAndFrame`). `AreRuns`: those of each list are one. `HaveRows`: each list has rows.
//! - `all_ahead`: the rows of all lists, one list after another.
//! - `IsTakenOut`: this row was taken out and the others remain, none of which it comes after.
//! - `IsByTest`: whether a row is near to that of this first moment and the greatest reception of
//!   `latest`. `NoneIsNear`: the first row in order isn't, or there is none.
//! - `ComesFirst`: the list of this number has a row, and no other's comes before it. `TakesAt`:
//!   the row is its first, and those after it stay. `IsPlayed`: each match of the lists was played.
ghost use Rattle.std.specs.Prelude.{◌≡◌, ◌≢◌, ◌++◌, true, [], All, IfOk, IfSome, IfNone, is_some, OnOk, OnErr};
ghost use Rattle.aprs_transmissions.specs.Gap.{millis_of};
ghost use Rattle.aprs_transmissions.specs.Sound.{AreSoundRows};
ghost use Rattle.aprs_rows.specs.Fronts.{ComesFirst};
ghost use Rattle.aprs_rows.specs.Matches.{IsPlayed};
ghost use Rattle.aprs_rows.specs.Merger.{all_ahead, first_in, AreRuns, HaveRows, IsByTest, IsRun, IsTakenOut, NoneIsNear, TakesAt};
ghost use Rattle.aprs_rows.specs.Told.{HasNamesAndFrame};

use crate::Memory;
use crate::row::near::are_near;
use crate::row::row_view::RowView;
use crate::store::front::Front;
use crate::store::packed::Unpacked;
use crate::store::tournament::Tournament;
use aprs_log::Moment;
use aprs_transmissions::Gap;
use std::alloc::Allocator;
use std::marker::Model;

/// The rows of some lists in order that are still to come. Nothing moves but the row that is taken.
#[derive(Drop)]
pub(crate) struct Merger<'a, A: Allocator> {
    fronts: Vec<Front<'a>, A>,
    tournament: Tournament<A>,
}

impl<'a, A: Allocator> Model for Merger<'a, A> {
    ghost use Rattle.std.specs.Prelude.{List};
    ghost use Rattle.aprs_transmissions.specs.Row.{Row};
    ghost use Rattle.aprs_rows.specs.Matches.{IsPlayed};
    ghost use Rattle.aprs_rows.specs.Merger.{all_ahead, first_in, AreRuns};

    ghost Value = { List Row };

    ghost view = { λ m. all_ahead m.fronts.items };

    ghost invariant = { λ m. AreRuns m.fronts.items
        × IsPlayed first_in m.fronts.items m.tournament };
}

impl<'a, A: Allocator + Copy> Merger<'a, A> {
    /// The rows of these lists, each of which has rows. Takes memory for the number of lists alone.
    pub(crate) fn new(alloc: A, fronts: Vec<Front<'a>, A>) -> Result<Merger<'a, A>, Memory>
        requires runs { AreRuns fronts.items }
        requires rows { HaveRows fronts.items }
        ensures value { IfOk result (λ merger. merger ≡ all_ahead fronts.entry.items) }
        ensures some { OnErr result (all_ahead fronts.entry.items ≢ []) }
    {
        let tournament = Tournament::new(alloc, fronts.as_slice())?;
        Ok(Merger { fronts, tournament })
    }

    /// Each row that is still to come has names of receivers and a UI frame. Does nothing: who
    /// calls it may then rely on that.
    pub(crate) fn told(&self)
        ensures { All HasNamesAndFrame self.now }
    {
        let _fronts = &self.fronts;
    }

    /// Takes out the next row in order, or `None` after the last. Takes no memory.
    pub(crate) fn take(&mut self) -> Option<RowView<'a>>
        ensures some { IfSome result (λ x. IsTakenOut self.old x self.new) }
        ensures none { IfNone result ((self.old ≡ []) × (self.new ≡ [])) }
        ensures sound { AreSoundRows self.old }
    {
        let index = self.tournament.first(self.fronts.as_slice())?;
        take_at(self.fronts.as_mut_slice(), &mut self.tournament, index)
    }

    /// Takes out the next row in order if it is near to a row of this first moment and the greatest
    /// reception of `latest`. Takes no memory.
    pub(crate) fn take_near(
        &mut self,
        gap: Gap,
        first: Moment,
        latest: &RowView<'_>,
    ) -> Option<RowView<'a>>
        ensures some { IfSome result (λ x. IsTakenOut self.old x self.new
            × IsByTest true (millis_of gap) first latest.now x) }
        ensures none { IfNone result ((self.new ≡ self.old)
            × NoneIsNear (millis_of gap) first latest.now self.old) }
    {
        let index = self.tournament.first(self.fronts.as_slice())?;
        let row = self.fronts.as_slice()[index].first()?;
        if !are_near(gap, first, latest, row) {
            return None;
        }
        take_at(self.fronts.as_mut_slice(), &mut self.tournament, index)
    }
}

/// Takes the first row out of the list of this number, whose matches are then played again. The
/// list has to be the one whose row comes first of all.
#[inline(always)]
fn take_at<'a, A: Allocator + Copy>(
    fronts: &mut [Front<'a>],
    tournament: &mut Tournament<A>,
    index: usize,
) -> Option<RowView<'a>>
    requires first { ComesFirst first_in fronts.old index }
    requires played { IsPlayed first_in fronts.old tournament.old }
    ensures some { IfSome result (λ x. TakesAt fronts.old index x fronts.new) }
    ensures none { is_some result ≡ true }
    ensures played { IsPlayed first_in fronts.new tournament.new }
{
    let row = fronts[index].take();
    tournament.play_again(fronts, index);
    row
}

/// Puts rows after the other lists, unless there are none. They have to be in order and sound each
/// by itself, with names of receivers and UI frames.
pub(crate) fn put_list<'a, A: Allocator>(
    fronts: &mut Vec<Front<'a>, A>,
    rows: Unpacked<'a>,
) -> Result<(), Memory>
    requires { IsRun rows }
    ensures rows { OnOk result
        (all_ahead fronts.new.items ≡ all_ahead fronts.old.items ++ rows.entry) }
    ensures runs { AreRuns fronts.old.items → AreRuns fronts.new.items }
    ensures have { HaveRows fronts.old.items → HaveRows fronts.new.items }
    ensures some { OnErr result (rows.entry ≢ []) }
{
    if let Some(front) = Front::of(rows) {
        fronts.push(front)?;
    }
    Ok(())
}
