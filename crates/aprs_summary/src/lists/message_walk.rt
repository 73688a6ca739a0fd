//! The walk over the messages of a summary. An answer is an ack or a rej, and the greatest is the
//! one that was heard last.
ghost use Rattle.std.specs.Prelude.{◌≡◌, ℕ, List, map};
ghost use Rattle.std.specs.Iterator.{YieldsFirst, item_count};
ghost use Rattle.std.specs.Option.{option_copied};
ghost use Rattle.aprs_transmissions.specs.Row.{Row};
ghost use Rattle.aprs_report.specs.Reader.{reading_of};
ghost use Rattle.aprs_summary.specs.Exchange.{IsExchangeOf};
ghost use Rattle.aprs_summary.specs.Messages.{ReportsMessages, answered_by, reported_state, state_by};
ghost use Rattle.aprs_summary.specs.MessageRows as Spec;

use crate::known::subject::info_of;
use crate::lists::exchange::Exchange;
use crate::lists::message_key::{AnswerKey, MessageKey, Span, awaited_in};
use crate::lists::reply_ack::reply_ack_by;
use crate::{MessageRow, MessageState, ReplyAck};
use aprs_ax25::Callsign;
use aprs_log::{Moment, ReceptionRef};
use aprs_report::Report;
use std::alloc::{Allocator, Global};
use std::collections::BTreeMap;
use std::collections::btree_map::Iter;
use std::marker::Model;

/// The messages that are still to come, ascending by source, addressee, text and id.
#[derive(Drop)]
pub struct MessageWalk<'s, 't, A: Allocator = Global> {
    spans: Iter<'s, MessageKey<'t>, Span>,
    answers: &'s BTreeMap<AnswerKey<'t>, ReceptionRef<'t>, A>,
}

impl<'s, 't, A: Allocator> Model for MessageWalk<'s, 't, A> {
    ghost use Rattle.std.specs.Prelude.{List, map};
    ghost use Rattle.aprs_summary.specs.declared.lists.message.MessageRow.{MessageRow};
    ghost use Rattle.aprs_summary.specs.MessageRows.{row_in};

    ghost Value = { List MessageRow };

    ghost view = { λ w. map (row_in w.answers.now.entries) w.spans };
}

impl<'s, 't, A: Allocator + Copy> MessageWalk<'s, 't, A> {
    /// The messages of any rows that have this exchange.
    pub(crate) fn of(exchange: &'s Exchange<'t, A>) -> MessageWalk<'s, 't, A>
        ensures rows { result
            ≡ map (Spec.row_in exchange.now.answers.entries) exchange.now.spans.entries }
        ensures messages { (gap : ℕ) (rows : List Row) → IsExchangeOf rows exchange.now
            → ReportsMessages gap rows result }
    {
        MessageWalk {
            spans: exchange.spans.iter(),
            answers: &exchange.answers,
        }
    }
}

impl<'s, 't, A: Allocator + Copy> Iterator for MessageWalk<'s, 't, A> {
    type Item = MessageRow<'t>;

    ghost next_gives = { YieldsFirst (λ messages. messages) };

    ghost remaining = { item_count (λ messages. messages) };

    /// The next message, or `None` after the last. Takes no memory.
    fn next(&mut self) -> Option<MessageRow<'t>> {
        let (message, span) = self.spans.next()?;
        Some(row_of(message, span, self.answers))
    }
}

/// The row of a message: its moments, and what came of it by the greatest answer and the greatest
/// reply-ack. A message without an id is `Unnumbered`.
fn row_of<'t, A: Allocator + Copy>(
    message: &MessageKey<'t>,
    span: &Span,
    answers: &BTreeMap<AnswerKey<'t>, ReceptionRef<'t>, A>,
) -> MessageRow<'t>
    ensures { result ≡ Spec.row_in answers.now.entries (message.now, span.now) }
{
    let (state, answered) = match message.id {
        Some(id) => outcome_by(span.first, greatest_answer(message, id, false, answers)),
        None => (MessageState::Unnumbered, None),
    };
    MessageRow {
        source: message.source.copy(),
        addressee: message.addressee,
        text: message.text,
        id: message.id,
        first: span.first,
        last: span.last,
        state,
        answered,
        reply_ack: reply_ack_of(message, span.first, answers),
    }
}

/// What reply-acks say of a message first heard at this moment, by the greatest one. A message
/// without a number awaits none.
fn reply_ack_of<'t, A: Allocator + Copy>(
    message: &MessageKey<'t>,
    first: Moment,
    answers: &BTreeMap<AnswerKey<'t>, ReceptionRef<'t>, A>,
) -> ReplyAck
    ensures { result ≡ Spec.reply_ack_in answers.now.entries (Spec.message_of message.now) first }
{
    match awaited_in(message) {
        Some(number) => reply_ack_by(first, greatest_answer(message, number, true, answers)),
        None => ReplyAck::NotAwaited,
    }
}

/// The greatest answer to this id of a message, or, where `is_reply`, the greatest reply-ack to
/// this number of it. `None` where there is none, or the addressee is no callsign.
fn greatest_answer<'t, 'b, A: Allocator + Copy>(
    message: &MessageKey<'t>,
    id: &'t [u8],
    is_reply: bool,
    answers: &'b BTreeMap<AnswerKey<'t>, ReceptionRef<'t>, A>,
) -> Option<&'b ReceptionRef<'t>>
    ensures { option_copied result
        ≡ Spec.answer_to answers.now.entries (Spec.message_of message.now) id.now is_reply }
{
    match Callsign::parse(message.addressee) {
        Ok(addressee) => {
            let key = AnswerKey {
                source: message.source.copy(),
                addressee,
                id,
                is_reply,
            };
            answers.get(&key)
        }
        Err(_) => None,
    }
}

/// What came of a message first heard at this moment, by its greatest answer, and when that was
/// heard: `Unanswered` where there is none, or only one from before that moment.
fn outcome_by(first: Moment, answer: Option<&ReceptionRef<'_>>) -> (MessageState, Option<Moment>)
    ensures state { result.0 ≡ state_by first (option_copied answer.entry) }
    ensures answered { result.1 ≡ answered_by first (option_copied answer.entry) }
{
    match answer {
        Some(x) if x.moment() >= first => (reported_state(info_of(x)), Some(x.moment())),
        _ => (MessageState::Unanswered, None),
    }
}

/// The state of a message whose answer has this information: `Rejected` by a rej, otherwise
/// `Acknowledged`.
fn reported_state(info: &[u8]) -> MessageState
    ensures { result ≡ reported_state (reading_of info.now) }
{
    match Report::read(info) {
        Report::Rej { .. } => MessageState::Rejected,
        _ => MessageState::Acknowledged,
    }
}
