//! Answers to messages.
//!
//! Words of the contracts here:
//! - `reply_of`: an answer as contracts see it; `reply_cmp`: their order, by what they are for,
//!   then moment, an acknowledgement before a rejection.
//! - `IsFirstAnswer`: the first of the answers for this in that time, or none. `first_in_time`: the
//!   same, as it is found among answers in order.
ghost use Rattle.std.specs.Prelude.{◌≡◌, map, false};
ghost use Rattle.std.specs.Option.{option_copied, option_map};
ghost use Rattle.std.specs.Ordering.{is_eq, on};
ghost use Rattle.aprs_transmissions.specs.Lists.{Ordered};
ghost use Rattle.aprs_transmissions.specs.Order.{IsUpTo};
ghost use Rattle.aprs_lists.specs.Answers as Spec;
ghost use Rattle.aprs_lists.specs.Chosen.{chosen};

use crate::net::packed_call::PackedCall;
use aprs_log::Moment;

/// What an answer is for.
#[derive(PartialEq, Eq, PartialOrd, Ord, Drop)]
pub struct Question<'t> {
    /// Who sent the message.
    pub source: PackedCall,
    /// To whom, who answers.
    pub answerer: PackedCall,
    /// The id of the message, or the number that its text has for reply-acks.
    pub number: &'t [u8],
    /// Whether the answer is a reply-ack.
    pub is_reply: bool,
}

/// An answer that was heard. Answers are ordered by what they are for, then moment, then an
/// acknowledgement before a rejection.
#[derive(PartialEq, Eq, PartialOrd, Ord, Drop)]
pub struct Answer<'t> {
    /// What it is for.
    pub question: Question<'t>,
    /// The first moment at which it was heard.
    pub moment: Moment,
    /// Whether it rejects the message, and doesn't acknowledge it.
    pub is_rejection: bool,
}

/// The first of the answers, which have to be in order, that is for what `least` is for, and was
/// heard at its moment or later, and before `until`. `least` has to be an acknowledgement. Takes no
/// memory.
pub fn first_answer<'s, 't>(
    answers: &'s [Answer<'t>],
    least: &Answer<'_>,
    until: Option<Moment>,
) -> Option<&'s Answer<'t>>
    requires ordered { Ordered (IsUpTo (on Spec.reply_of Spec.reply_cmp)) answers.now }
    requires least { least.now.is_rejection ≡ false }
    ensures first { Spec.IsFirstAnswer (map Spec.reply_of answers.now)
        (Spec.reply_of least.now).asked least.now.moment until
        (option_map Spec.reply_of (option_copied result)) }
    ensures found { option_map Spec.reply_of (option_copied result)
        ≡ Spec.first_in_time (Spec.reply_of least.now) until (map Spec.reply_of answers.now) }
{
    let at = answers.partition_point(|answer| answer.cmp(least).is_lt());
    let (_, later) = answers.split_at(at);
    chosen(later, least, until)
}

/// The first of these answers, if it is for what `least` is for, and was heard before `until`.
fn chosen<'s, 't>(
    later: &'s [Answer<'t>],
    least: &Answer<'_>,
    until: Option<Moment>,
) -> Option<&'s Answer<'t>>
    ensures { option_copied result ≡ chosen least.now until later.now }
{
    match later.first() {
        Some(answer) if is_for(answer, least) && is_before(answer.moment, until) => Some(answer),
        _ => None,
    }
}

/// Whether both answers are for the same.
fn is_for(answer: &Answer<'_>, least: &Answer<'_>) -> bool
    ensures { result ≡ is_eq (Spec.asked_cmp (Spec.reply_of answer.now).asked
        (Spec.reply_of least.now).asked) }
{
    answer.question.cmp(&least.question).is_eq()
}

/// Whether a moment is before another, if there is one.
fn is_before(moment: Moment, until: Option<Moment>) -> bool
    ensures { result ≡ Spec.is_before until moment }
{
    match until {
        Some(until) => moment.millis() < until.millis(),
        None => true,
    }
}
