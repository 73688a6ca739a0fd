//! Of several lists or streams of rows the one whose row comes first, found in few comparisons.
//!
//! Words of the contracts here:
//! - The streams play in pairs, and the winners again in pairs, up to match 1. A match is won by
//!   the stream whose row in front doesn't come after the other's.
//! - `IsPlayed`: each match was won so. `IsPlayedBut`: each, but for those of which this holds.
//! - `IsAbove`: the matches that come after this number, from the next one to the last.
//! - `AreWithin`: the winners are numbers of streams. `NotAfter`: the one row doesn't come after
//!   the other; a row that isn't there comes after all.
//! - `ComesFirst`: the stream of this number has a row in front, and no other's comes before it.
ghost use Rattle.std.specs.Prelude.{◌≡◌, ◌≢◌, ◌<◌, ◌+◌, ◌⊎◌, ℕ, [], true, false, is_some, IfNone, IfOk, IfSome, OnErr, None, Option, length};
ghost use Rattle.aprs_transmissions.specs.Row.{Row};
ghost use Rattle.aprs_rows.specs.Fronts.{front_at, ComesFirst, NotAfter};
ghost use Rattle.aprs_rows.specs.Matches as Spec;

use crate::Memory;
use std::alloc::Allocator;
use std::marker::Model;

/// What may have a row in front: a stream or a list of rows.
pub trait HasFront: Drop {
    /// The row in front, if there is one.
    ghost front: { Self → Option Row };

    /// Whether there is a row in front. Takes no memory.
    fn has_row(&self) -> bool
        ensures { result ≡ is_some (front self.now) };

    /// Whether the row in front comes before the other's. A row that isn't there comes after all.
    /// Of two equal rows either may pass for the earlier one. Takes no memory.
    fn is_before(&self, other: &Self) -> bool
        ensures before { result ≡ true → NotAfter (front self.now) (front other.now) }
        ensures after { result ≡ false → NotAfter (front other.now) (front self.now) };
}

/// Matches between streams, of two of which the one wins whose row in front comes first. Match 1 is
/// the last one; match `n` is between the winners of the matches `2 * n` and `2 * n + 1`. Where
/// there are `c` streams, the number `c + k` is no match's, but stands for stream `k`.
#[derive(Drop)]
pub struct Tournament<A: Allocator> {
    /// The stream that won each match; there is no match 0.
    winners: Vec<usize, A>,
}

impl<A: Allocator> Model for Tournament<A> {
    ghost use Rattle.std.specs.Prelude.{List, ℕ};

    ghost Value = { List ℕ };

    ghost view = { λ t. t.winners.items };
}

impl<A: Allocator + Copy> Tournament<A> {
    /// The tournament of these streams, with each match played. Takes memory for their number
    /// alone, or fails with `Memory`.
    pub fn new<T: HasFront>(alloc: A, streams: &[T]) -> Result<Tournament<A>, Memory>
        ensures played { IfOk result (Spec.IsPlayed T.front streams.now) }
        ensures some { OnErr result (streams.now ≢ []) }
    {
        let mut winners = Vec::new(alloc);
        winners.resize(streams.len(), 0)?;
        play_all(winners.as_mut_slice(), streams);
        Ok(Tournament { winners })
    }

    /// The number of the stream whose row comes first of all, or `None` where none has a row. Takes
    /// no memory.
    pub fn first<T: HasFront>(&self, streams: &[T]) -> Option<usize>
        requires { Spec.IsPlayed T.front streams.now self.now }
        ensures some { IfSome result (ComesFirst T.front streams.now) }
        ensures none { IfNone result ((k : ℕ) → front_at T.front streams.now k ≡ None) }
    {
        if streams.is_empty() {
            return None;
        }
        let first = winner_of(self.winners.as_slice(), 1);
        if streams[first].has_row() {
            Some(first)
        } else {
            None
        }
    }

    /// Plays again the matches of the stream of this number, whose row is another than before.
    /// Takes no memory.
    pub fn play_again<T: HasFront>(&mut self, streams: &[T], index: usize)
        requires there { index < length streams.now }
        requires played { Spec.IsPlayedBut T.front streams.now self.old
            (Spec.IsAbove (length streams.now + index)) }
        ensures { Spec.IsPlayed T.front streams.now self.new }
    {
        play_above(self.winners.as_mut_slice(), streams, index);
    }
}

/// Plays all matches, from the first ones to the last.
fn play_all<T: HasFront>(winners: &mut [usize], streams: &[T])
    requires each { length winners.old ≡ length streams.now }
    requires within { Spec.AreWithin winners.old (length streams.now) }
    ensures { Spec.IsPlayed T.front streams.now winners.new }
{
    let mut number = streams.len();
    while number > 1 {
        number -= 1;
        play(winners, streams, number);
    }
}

/// Plays the matches of the stream of this number, from its first one to the last.
fn play_above<T: HasFront>(winners: &mut [usize], streams: &[T], index: usize)
    requires there { index < length streams.now }
    requires played { Spec.IsPlayedBut T.front streams.now winners.old
        (Spec.IsAbove (length streams.now + index)) }
    ensures { Spec.IsPlayed T.front streams.now winners.new }
{
    let mut number = streams.len() + index;
    while number > 1 {
        number /= 2;
        play(winners, streams, number);
    }
}

/// Plays one match, between the winners of the two before it.
#[inline(always)]
fn play<T: HasFront>(winners: &mut [usize], streams: &[T], number: usize)
    requires each { length winners.old ≡ length streams.now }
    requires within { Spec.AreWithin winners.old (length streams.now) }
    requires there { number < length streams.now }
    requires some { 0 < number }
    ensures won { Spec.IsWon T.front streams.now winners.new number }
    ensures others { (k : ℕ) → k ≢ number
        → Spec.winner_of winners.new k ≡ Spec.winner_of winners.old k }
    ensures each { length winners.new ≡ length streams.now }
{
    let one = winner_of(winners, 2 * number);
    let other = winner_of(winners, 2 * number + 1);
    winners[number] = earlier(streams, one, other);
}

/// The stream that won the match of this number, or for which this number stands.
fn winner_of(winners: &[usize], number: usize) -> usize
    ensures { result ≡ Spec.winner_of winners.now number }
{
    if number < winners.len() {
        winners[number]
    } else {
        number - winners.len()
    }
}

/// Of two streams one whose row doesn't come after the other's. A stream without a row comes after
/// all others.
fn earlier<T: HasFront>(streams: &[T], one: usize, other: usize) -> usize
    requires one { one < length streams.now }
    requires other { other < length streams.now }
    ensures either { (result ≡ one) ⊎ (result ≡ other) }
    ensures one { NotAfter (front_at T.front streams.now result)
        (front_at T.front streams.now one) }
    ensures other { NotAfter (front_at T.front streams.now result)
        (front_at T.front streams.now other) }
{
    if streams[other].is_before(&streams[one]) {
        other
    } else {
        one
    }
}
