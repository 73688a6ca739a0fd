//! What makes messages one, and what answers them.
//!
//! Words of the contracts here:
//! - An answer names whose message is answered, who answers, the id or number, and whether it is a
//!   reply-ack.
//! - `IsOfAnswer`: frames of this key are an ack or rej that gives this answer. `GivesReply`: this
//!   message gives it by a reply-ack.
//! - `HoldsOnly P option`: P holds of what the option has, and of nothing else.
ghost use Rattle.std.specs.Prelude.{◌≡◌, ◌↔◌, Some};
ghost use Rattle.std.specs.Option.{option_map};
ghost use Rattle.aprs_transmissions.specs.Key.{key_of};
ghost use Rattle.aprs_report.specs.Reader.{reading_of};
ghost use Rattle.aprs_summary.specs.Messages.{HasNumber, message_in};
ghost use Rattle.aprs_summary.specs.MessageRows as Spec;
ghost use Rattle.aprs_summary.specs.ReplyTexts.{HoldsOnly};

use crate::known::subject::info_of;
use crate::lists::reply_text::{acknowledged_in, number_in};
use aprs_ax25::Callsign;
use aprs_log::{Moment, ReceptionRef};
use aprs_report::Report;

/// A message: receptions that agree in all of these fields are of one message.
#[derive(PartialEq, Eq, PartialOrd, Ord, Drop)]
pub(crate) struct MessageKey<'a> {
    pub source: Callsign,
    pub addressee: &'a [u8],
    pub text: &'a [u8],
    pub id: Option<&'a [u8]>,
}

impl<'a> MessageKey<'a> {
    /// A copy.
    pub(crate) fn copy(&self) -> MessageKey<'a>
        ensures { result ≡ self.now }
    {
        MessageKey {
            source: self.source.copy(),
            addressee: self.addressee,
            text: self.text,
            id: self.id,
        }
    }
}

/// From the first to the last moment.
#[derive(Clone, Copy)]
pub(crate) struct Span {
    pub first: Moment,
    pub last: Moment,
}

/// What an answer names: the source and the addressee of the message that it answers, so that the
/// addressee is who answers; the id, or the number of a reply-ack; and whether it is a reply-ack.
#[derive(PartialEq, Eq, PartialOrd, Ord, Drop)]
pub(crate) struct AnswerKey<'a> {
    pub source: Callsign,
    pub addressee: Callsign,
    pub id: &'a [u8],
    pub is_reply: bool,
}

/// The message that a reception reports, or `None` where it reports none. `sender` has to be the
/// source of its frame.
#[tactic(auto, unfolding(aprs_transmissions::specs::Key::key_of))]
pub(crate) fn message_in<'a>(sender: &Callsign, heard: &ReceptionRef<'a>) -> Option<MessageKey<'a>>
    requires { sender.now ≡ (key_of heard.now.frame).source }
    ensures { option_map Spec.message_of result ≡ message_in (key_of heard.now.frame) }
{
    match Report::read(info_of(heard)) {
        Report::Message {
            addressee,
            text,
            id,
        } => Some(MessageKey {
            source: sender.copy(),
            addressee,
            text,
            id,
        }),
        _ => None,
    }
}

/// From the earlier first to the later last moment of both.
pub(crate) fn span_with(known: &Span, more: &Span) -> Span
    ensures { result ≡ Spec.span_with (Some known.now) more.now }
{
    Span {
        first: known.first.min(more.first),
        last: known.last.max(more.last),
    }
}

/// What a reception answers, or `None` where it is no ack or rej, or not to a callsign. `sender`,
/// who answers, has to be the source of its frame.
pub(crate) fn answer_in<'a>(sender: &Callsign, heard: &ReceptionRef<'a>) -> Option<AnswerKey<'a>>
    requires { sender.now ≡ (key_of heard.now.frame).source }
    ensures { (a : Spec.Answer) → Spec.IsOfAnswer a (key_of heard.now.frame)
        ↔ (option_map Spec.answer_of result ≡ Some a) }
{
    let (addressee, id) = answer_fields(info_of(heard))?;
    match Callsign::parse(addressee) {
        Ok(source) => Some(AnswerKey {
            source,
            addressee: sender.copy(),
            id,
            is_reply: false,
        }),
        Err(_) => None,
    }
}

/// What a message answers by a reply-ack. `None` where its text acknowledges no number, where it
/// has an id, or where it isn't to a callsign.
pub(crate) fn reply_in<'a>(message: &MessageKey<'a>) -> Option<AnswerKey<'a>>
    ensures { (a : Spec.Answer) → Spec.GivesReply a (Spec.message_of message.now)
        ↔ (option_map Spec.answer_of result ≡ Some a) }
{
    if message.id.is_some() {
        return None;
    }
    let id = acknowledged_in(message.text)?;
    match Callsign::parse(message.addressee) {
        Ok(answered) => Some(AnswerKey {
            source: answered,
            addressee: message.source.copy(),
            id,
            is_reply: true,
        }),
        Err(_) => None,
    }
}

/// The number that a message has for reply-acks, or `None` where it has none. One with an id has
/// none.
pub(crate) fn awaited_in<'a>(message: &MessageKey<'a>) -> Option<&'a [u8]>
    ensures { HoldsOnly (HasNumber (Spec.message_of message.now)) (option_map (λ x. x.now) result) }
{
    if message.id.is_some() {
        return None;
    }
    number_in(message.text)
}

/// The addressee and the id of an ack or a rej that has this information; `None` where it is
/// neither.
fn answer_fields(info: &[u8]) -> Option<(&[u8], &[u8])>
    ensures { option_map (λ x. (x.0.now, x.1.now)) result
        ≡ Spec.reported_answer (reading_of info.now) }
{
    match Report::read(info) {
        Report::Ack { addressee, id } => Some((addressee, id)),
        Report::Rej { addressee, id } => Some((addressee, id)),
        _ => None,
    }
}

/// Whether information begins with the data type of messages and their answers (APRS Protocol
/// Reference 1.0.1, chapter 14). Most doesn't, and needn't be read.
pub(crate) fn is_addressed(info: &[u8]) -> bool
    ensures { result ≡ Spec.begins_with_colon info.now }
{
    matches!(info, [b':', ..])
}
