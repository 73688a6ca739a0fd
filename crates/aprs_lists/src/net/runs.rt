//! Runs of copies.
ghost use Rattle.std.specs.Prelude.{◌≡◌, ◌≤◌, ◌∷◌, [], IfNone, IfSome, drop, length, map};
ghost use Rattle.std.specs.Iterator.{YieldsFirstBy, item_count};
ghost use Rattle.aprs_transmissions.specs.Gap.{IsGap, millis_of};
ghost use Rattle.aprs_lists.specs.Copies.{copy_of, message_named};
ghost use Rattle.aprs_lists.specs.Runs as Spec;

use crate::net::copies::MessageCopy;
use aprs_log::Moment;
use aprs_transmissions::Gap;
use std::marker::Model;

/// A message that was sent once, however often it was repeated.
#[derive(Drop)]
pub struct MessageRun<'s, 't> {
    /// Its first copy.
    pub copy: &'s MessageCopy<'t>,
    /// The last moment at which a copy of it was heard.
    pub last: Moment,
    /// When the message was sent the next time, if it was.
    pub until: Option<Moment>,
}

/// The runs that are still to come, of copies in order.
#[derive(Drop)]
pub struct MessageRuns<'s, 't> {
    gap: Gap,
    copies: &'s [MessageCopy<'t>],
    /// How many of the copies are of runs that came.
    at: usize,
}

impl<'s, 't> Model for MessageRuns<'s, 't> {
    ghost use Rattle.std.specs.Prelude.{◌≤◌, List, drop, length, map};
    ghost use Rattle.aprs_transmissions.specs.Gap.{millis_of};
    ghost use Rattle.aprs_lists.specs.Copies.{copy_of};
    ghost use Rattle.aprs_lists.specs.Runs.{Sent, runs_of};

    ghost Value = { List Sent };

    ghost view = { λ r. runs_of (millis_of r.gap) (map copy_of (drop r.at r.copies.now)) };

    ghost invariant = { λ r. r.at ≤ length r.copies.now };
}

impl<'s, 't> MessageRuns<'s, 't> {
    /// The runs, under this gap, of these copies, which have to be in order. Takes no memory, nor
    /// does the walk.
    pub fn of(gap: Gap, copies: &'s [MessageCopy<'t>]) -> MessageRuns<'s, 't>
        ensures runs { result ≡ Spec.runs_of (millis_of gap) (map copy_of copies.now) }
        ensures range { IsGap gap }
    {
        MessageRuns { gap, copies, at: 0 }
    }
}

impl<'s, 't> Iterator for MessageRuns<'s, 't> {
    type Item = MessageRun<'s, 't>;

    ghost next_gives = { YieldsFirstBy Spec.sent_of (λ runs. runs) };

    ghost remaining = { item_count (λ runs. runs) };

    fn next(&mut self) -> Option<MessageRun<'s, 't>> {
        let (_, copies) = self.copies.split_at(self.at);
        let Some((run, len)) = first_run(self.gap, copies) else {
            return None;
        };
        self.at += len;
        Some(run)
    }
}

/// The first run of copies in order, and how many of them it has; `None` where there are no copies.
fn first_run<'s, 't>(gap: Gap, copies: &'s [MessageCopy<'t>]) -> Option<(MessageRun<'s, 't>, usize)>
    ensures none { IfNone result (Spec.runs_of (millis_of gap) (map copy_of copies.now) ≡ []) }
    ensures within { IfSome result (λ x. x.1 ≤ length copies.now) }
    ensures some { IfSome result (λ x. Spec.runs_of (millis_of gap) (map copy_of copies.now)
        ≡ Spec.sent_of x.0 ∷ Spec.runs_of (millis_of gap) (map copy_of (drop x.1 copies.now))) }
{
    let (copy, others) = copies.split_first()?;
    let (last, more) = run_end(gap, copy, others);
    let (_, rest) = others.split_at(more);
    let until = next_begin(copy, rest);
    Some((MessageRun { copy, last, until }, more + 1))
}

/// When the run that begins with a copy ends, and how many of the copies behind it are of it.
fn run_end(gap: Gap, first: &MessageCopy<'_>, copies: &[MessageCopy<'_>]) -> (Moment, usize)
    ensures within { result.1 ≤ length copies.now }
    ensures ended { Spec.runs_after (millis_of gap) (Spec.sent_first (copy_of first.now))
        (map copy_of copies.now)
        ≡ Spec.ended (Spec.sent_up_to result.0 (copy_of first.now))
        (map copy_of (drop result.1 copies.now))
        ∷ Spec.runs_of (millis_of gap) (map copy_of (drop result.1 copies.now)) }
{
    let mut last = first.last;
    for (i, next) in copies.iter().enumerate() {
        if !goes_on(gap, first, last, next) {
            return (last, i);
        }
        last = last.max(next.last);
    }
    (last, copies.len())
}

/// Whether a copy goes on the run that began with `first` and lasts up to `last`: it is of the same
/// message, and begins at most the gap after its end.
fn goes_on(gap: Gap, first: &MessageCopy<'_>, last: Moment, next: &MessageCopy<'_>) -> bool
    ensures { result ≡ Spec.goes_on (millis_of gap) (Spec.sent_up_to last (copy_of first.now))
        (copy_of next.now) }
{
    is_same(first, next) && next.first.millis() <= last.millis() + gap.seconds() * 1000
}

/// When the next run begins after that which began with `first`, if the copies after it begin with
/// one of the same message.
fn next_begin(first: &MessageCopy<'_>, rest: &[MessageCopy<'_>]) -> Option<Moment>
    ensures { result ≡ Spec.next_begin (message_named first.now.message) (map copy_of rest.now) }
{
    match rest.first() {
        Some(next) if is_same(first, next) => Some(next.first),
        _ => None,
    }
}

/// Whether both copies are of one message.
fn is_same(copy: &MessageCopy<'_>, other: &MessageCopy<'_>) -> bool
    ensures { result
        ≡ Spec.is_same (message_named copy.now.message) (message_named other.now.message) }
{
    copy.message.cmp(&other.message).is_eq()
}
