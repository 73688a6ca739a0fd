//! Messages and their answers, of rows that are taken one after another.
//!
//! Words of the contracts here:
//! - `IsExchangeOf rows`: there is one span for each message of the rows, and one greatest
//!   reception for each of their answers. `AreSpans` and `AreAnswers` say it of either.
//! - `message_in key`: the message that frames of this key report. `GivesAnswer`: they give this
//!   answer, as an ack or rej, or by a reply-ack.
ghost use Rattle.std.specs.Prelude.{◌≡◌, ◌↔◌, List, [], ◌∷◌, ◌++◌, Some, OnOk};
ghost use Rattle.aprs_transmissions.specs.Key.{key_of};
ghost use Rattle.aprs_transmissions.specs.Row.{Row, row_key, last_moment};
ghost use Rattle.aprs_summary.specs.Messages.{message_in};
ghost use Rattle.aprs_summary.specs.MessageRows as Spec;
ghost use Rattle.aprs_summary.specs.Exchange.{IsExchangeOf};

use crate::known::greater::greater_known;
use crate::known::subject::info_of;
use crate::lists::message_key::{
    AnswerKey, MessageKey, Span, answer_in, is_addressed, message_in, reply_in, span_with,
};
use aprs_ax25::Callsign;
use aprs_log::{Moment, ReceptionRef};
use aprs_rows::Memory;
use std::alloc::{Allocator, Global};
use std::collections::BTreeMap;

/// Each message of some rows with its moments, and the greatest reception of each answer,
/// reply-acks among them.
pub struct Exchange<'t, A: Allocator = Global> {
    pub(crate) spans: BTreeMap<MessageKey<'t>, Span, A>,
    pub(crate) answers: BTreeMap<AnswerKey<'t>, ReceptionRef<'t>, A>,
}

impl<'t, A: Allocator> Drop for Exchange<'t, A> {
    fn drop(self) {
        let Exchange { spans, answers } = self;
        drop(spans);
        drop(answers);
    }
}

impl<'t, A: Allocator + Copy> Exchange<'t, A> {
    /// The exchange of no rows: no messages and no answers.
    pub fn new(alloc: A) -> Exchange<'t, A>
        ensures { IsExchangeOf [] result }
    {
        Exchange {
            spans: BTreeMap::new(alloc),
            answers: BTreeMap::new(alloc),
        }
    }

    /// Adds one more row, by its station, its first moment and its greatest reception: the
    /// exchange of some rows becomes that of these rows and this one. A row that is neither
    /// message nor answer changes nothing. `sender` has to be the source of the reception's frame.
    /// Nothing is promised of the exchange after `Memory`.
    pub fn take(
        &mut self,
        sender: &Callsign,
        first: Moment,
        heard: &ReceptionRef<'t>,
    ) -> Result<(), Memory>
        requires { sender.now ≡ (key_of heard.now.frame).source }
        ensures { OnOk result ((rows : List Row) (r : Row) → IsExchangeOf rows self.old
            → first ≡ r.first → heard.now ≡ r.greatest
            → IsExchangeOf (rows ++ r ∷ []) self.new) }
    {
        if !is_addressed(info_of(heard)) {
            return Ok(());
        }
        if let Some(message) = message_in(sender, heard) {
            put_reply(&mut self.answers, &message, heard)?;
            let last = heard.moment();
            return put_span(&mut self.spans, message, &Span { first, last });
        }
        match answer_in(sender, heard) {
            Some(key) => put_answer(&mut self.answers, key, heard),
            None => Ok(()),
        }
    }
}

/// Widens the span of a message by `more`, the moments of one more row, or begins the span with
/// these. The span is inserted first, and mended where one was there: most messages come once, and
/// then one search is enough.
fn put_span<'t, A: Allocator + Copy>(
    spans: &mut BTreeMap<MessageKey<'t>, Span, A>,
    message: MessageKey<'t>,
    more: &Span,
) -> Result<(), Memory>
    // The spans of some rows become those of these rows and r, which reports this message.
    ensures { OnOk result ((rows : List Row) (r : Row) → Spec.AreSpans rows spans.old.entries
        → message_in (row_key r) ≡ Some (Spec.message_of message.entry)
        → more.now.first ≡ r.first → more.now.last ≡ last_moment r
        → Spec.AreSpans (rows ++ r ∷ []) spans.new.entries) }
{
    let again = message.copy();
    let known = match spans.insert(message, *more) {
        Ok(Some(known)) => known,
        Ok(None) => return Ok(()),
        Err(failed) => return Err(Memory::from(failed)),
    };
    spans.insert(again, span_with(&known, more))?;
    Ok(())
}

/// Keeps this reception as the answer that its message gives by a reply-ack, unless one is kept
/// that is as great or greater. A message that gives none changes nothing.
fn put_reply<'t, A: Allocator + Copy>(
    answers: &mut BTreeMap<AnswerKey<'t>, ReceptionRef<'t>, A>,
    message: &MessageKey<'t>,
    heard: &ReceptionRef<'t>,
) -> Result<(), Memory>
    // The answers of some rows become those of these rows and r, which reports this message.
    ensures { OnOk result ((rows : List Row) (r : Row) → Spec.AreAnswers rows answers.old.entries
        → message_in (row_key r) ≡ Some (Spec.message_of message.now)
        → heard.now ≡ r.greatest
        → Spec.AreAnswers (rows ++ r ∷ []) answers.new.entries) }
{
    match reply_in(message) {
        Some(key) => put_answer(answers, key, heard),
        None => Ok(()),
    }
}

/// Keeps this reception as the answer under this key, unless one is kept there that is as great or
/// greater.
fn put_answer<'t, A: Allocator + Copy>(
    answers: &mut BTreeMap<AnswerKey<'t>, ReceptionRef<'t>, A>,
    key: AnswerKey<'t>,
    heard: &ReceptionRef<'t>,
) -> Result<(), Memory>
    // The answers of some rows become those of these rows and r, which gives this answer alone.
    ensures { OnOk result ((rows : List Row) (r : Row) → Spec.AreAnswers rows answers.old.entries
        → ((a : Spec.Answer) → Spec.GivesAnswer a (row_key r)
        ↔ (Some (Spec.answer_of key.entry) ≡ Some a))
        → heard.now ≡ r.greatest
        → Spec.AreAnswers (rows ++ r ∷ []) answers.new.entries) }
{
    let answer = greater_known(answers.get(&key), heard.copy());
    answers.insert(key, answer)?;
    Ok(())
}
