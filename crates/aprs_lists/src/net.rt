//! The table of the messages of a net: each time that one was sent.
//!
//! Words of the contracts here:
//! - A run is a message as it was sent once, with its copies that lie near to each other.
//! - `reply_of`: an answer as contracts see it; `reply_cmp`: the order of answers.
//! - `found_line`, `told_found`, `answer_found`: a run's line, what it tells, and the first answer
//!   to it, as they are found among answers in order.
ghost use Rattle.std.specs.Prelude.{◌≡◌, ◌-◌, ℕ, Bool, List, [], map};
ghost use Rattle.std.specs.List.{flat_map};
ghost use Rattle.std.specs.Option.{option_copied, option_map};
ghost use Rattle.std.specs.Ordering.{on};
ghost use Rattle.aprs_io.specs.Device.{Sends};
ghost use Rattle.aprs_io.specs.Outlet.{Puts};
ghost use Rattle.aprs_transmissions.specs.Gap.{millis_of};
ghost use Rattle.aprs_transmissions.specs.Lists.{Ordered};
ghost use Rattle.aprs_transmissions.specs.Order.{IsUpTo};
ghost use Rattle.aprs_lists.specs.Answers.{reply_cmp, reply_of};
ghost use Rattle.aprs_lists.specs.Runs.{sent_of};
ghost use Rattle.aprs_lists.specs.Net as Net;
ghost use Rattle.aprs_lists.specs.Told as Spec;

pub(crate) mod answers;
pub(crate) mod copies;
pub(crate) mod packed_call;
pub(crate) mod runs;
pub(crate) mod sort;

use crate::net::answers::{Answer, Question, first_answer};
use crate::net::packed_call::PackedCall;
use crate::net::runs::{MessageRun, MessageRuns};
use crate::said::call_in;
use crate::table::{Lines, write_table};
use crate::told::{MESSAGE_COLUMNS, MessageLine, number_of, put_message};
use crate::traffic::Traffic;
use aprs_ax25::Callsign;
use aprs_io::{Counted, Outlet, WriteFault};
use aprs_log::Moment;
use aprs_summary::{MessageState, ReplyAck, number_in};
use aprs_transmissions::Gap;
use std::alloc::Allocator;
use std::io::Write;
use std::marker::Model;

/// Writes the table of the messages of a net, from the traffic of a book: the names of the columns,
/// and exactly one line for each time that a message was sent. That is a run of copies, each of
/// which begins at most the message gap after the end of those before it. Lines ascend by source,
/// addressee, text, id and first moment. Copies and answers that a gate passed on count. At a fault
/// a prefix of this went out. Takes no memory.
pub fn write_net_messages<W: Write, A: Allocator + Copy>(
    w: &mut Counted<W>,
    traffic: &Traffic<'_, A>,
    message_gap: Gap,
) -> Result<(), WriteFault>
    ensures { (text : List ℕ) × Net.IsNetTable message_gap traffic.now text
        × Sends W.contents result w.old w.new text }
{
    let lines = RunLines {
        gap: traffic.gap(),
        answers: traffic.answers(),
        runs: MessageRuns::of(message_gap, traffic.copies()),
    };
    write_table(w, MESSAGE_COLUMNS, lines)
}

/// The lines of runs, with the answers to them.
#[derive(Drop)]
struct RunLines<'s, 't> {
    gap: Gap,
    answers: &'s [Answer<'t>],
    runs: MessageRuns<'s, 't>,
}

impl<'s, 't> Model for RunLines<'s, 't> {
    ghost use Rattle.std.specs.Prelude.{ℕ, List, map};
    ghost use Rattle.std.specs.List.{flat_map};
    ghost use Rattle.std.specs.Ordering.{on};
    ghost use Rattle.aprs_transmissions.specs.Gap.{millis_of};
    ghost use Rattle.aprs_transmissions.specs.Lists.{Ordered};
    ghost use Rattle.aprs_transmissions.specs.Order.{IsUpTo};
    ghost use Rattle.aprs_lists.specs.Answers.{reply_cmp, reply_of};
    ghost use Rattle.aprs_lists.specs.Told.{found_line};

    ghost Value = { List ℕ };

    ghost view = { λ l. flat_map
        (found_line (millis_of l.gap) (map reply_of l.answers.now)) l.runs };

    ghost invariant = { λ l. Ordered (IsUpTo (on reply_of reply_cmp)) l.answers.now };
}

impl<'s, 't> Lines for RunLines<'s, 't> {
    ghost lines = { λ text. text };

    /// Puts the lines of the runs, in their order.
    fn put_lines<W: Write>(self, out: &mut Outlet<'_, W>) -> Result<(), WriteFault> {
        put_runs(out, self.gap, self.answers, self.runs)
    }
}

/// Puts the lines of runs, in their order. Fails where the output is refused.
fn put_runs<'s, 't, W: Write>(
    out: &mut Outlet<'_, W>,
    gap: Gap,
    answers: &[Answer<'t>],
    runs: MessageRuns<'s, 't>,
) -> Result<(), WriteFault>
    requires { Ordered (IsUpTo (on reply_of reply_cmp)) answers.now }
    ensures { Puts W.contents result out.old out.new
        (flat_map (Spec.found_line (millis_of gap) (map reply_of answers.now)) runs.entry) }
{
    for run in runs {
        put_run(out, gap, answers, &run)?;
    }
    Ok(())
}

/// Puts the line of a run. Fails where the output is refused.
fn put_run<'t, W: Write>(
    out: &mut Outlet<'_, W>,
    gap: Gap,
    answers: &[Answer<'t>],
    run: &MessageRun<'_, 't>,
) -> Result<(), WriteFault>
    requires { Ordered (IsUpTo (on reply_of reply_cmp)) answers.now }
    ensures { Puts W.contents result out.old out.new
        (Spec.found_line (millis_of gap) (map reply_of answers.now) (sent_of run.now)) }
{
    let line = line_of(gap, answers, run);
    put_message(out, &line)
}

/// What the table tells of a run, by the first ack or rej and the first reply-ack for its number.
fn line_of<'t>(gap: Gap, answers: &[Answer<'t>], run: &MessageRun<'_, 't>) -> MessageLine<'t>
    requires { Ordered (IsUpTo (on reply_of reply_cmp)) answers.now }
    ensures { Spec.told_of result
        ≡ Spec.told_found (millis_of gap) (map reply_of answers.now) (sent_of run.now) }
{
    let by_ack = answer_to(gap, answers, run, false);
    let by_reply = answer_to(gap, answers, run, true);
    told_by(run, by_ack, by_reply)
}

/// What the table tells of a run, by these answers.
fn told_by<'t>(
    run: &MessageRun<'_, 't>,
    by_ack: Option<&Answer<'t>>,
    by_reply: Option<&Answer<'t>>,
) -> MessageLine<'t>
    ensures { Spec.told_of result ≡ Spec.sent_told (sent_of run.now)
        (option_map reply_of (option_copied by_ack.entry))
        (option_map reply_of (option_copied by_reply.entry)) }
{
    let message = &run.copy.message;
    let (id, number) = (message.id, number_of(message));
    let answer = earlier_answer(by_ack, by_reply);
    MessageLine {
        source: message.source.unpacked(),
        addressee: message.addressee,
        text: message.text,
        id,
        state: state_with(id, by_ack),
        first: run.copy.first,
        last: run.last,
        answered: answered_with(id, by_ack),
        reply_ack: reply_ack_with(reply_number(id, message.text), by_reply),
        gate: gate_of(&run.copy.gate),
        outcome: state_with(number, answer),
        settled: answered_with(number, answer),
    }
}

/// The first answer to a run's message, by a reply-ack or not. `None` where there is none, where
/// the message has no number, and where its addressee is no callsign.
fn answer_to<'s, 't>(
    gap: Gap,
    answers: &'s [Answer<'t>],
    run: &MessageRun<'_, 't>,
    is_reply: bool,
) -> Option<&'s Answer<'t>>
    requires { Ordered (IsUpTo (on reply_of reply_cmp)) answers.now }
    ensures { option_map reply_of (option_copied result) ≡ Spec.answer_found (millis_of gap)
        (map reply_of answers.now) (sent_of run.now) is_reply }
{
    let message = &run.copy.message;
    let number = number_of(message)?;
    let answerer = call_in(message.addressee)?;
    let least = Answer {
        question: Question {
            source: message.source.copy(),
            answerer: PackedCall::of(&answerer),
            number,
            is_reply,
        },
        moment: moment_before(run.copy.first, gap),
        is_rejection: false,
    };
    first_answer(answers, &least, run.until)
}

/// The moment that is the gap before another one, or the first moment of all.
fn moment_before(moment: Moment, gap: Gap) -> Moment
    ensures { result ≡ moment - millis_of gap }
{
    let millis = moment.millis().saturating_sub(gap.seconds() * 1000);
    match Moment::from_millis(millis) {
        Some(before) => before,
        None => unreachable!(),
    }
}

/// What came of an id or a number by an answer. Without one it is `Unnumbered`.
fn state_with(number: Option<&[u8]>, answer: Option<&Answer<'_>>) -> MessageState
    ensures { result ≡ Spec.state_with (option_map (λ x. x.now) number.entry)
        (option_map reply_of (option_copied answer.entry)) }
{
    match (number, answer) {
        (None, _) => MessageState::Unnumbered,
        (Some(_), None) => MessageState::Unanswered,
        (Some(_), Some(answer)) if answer.is_rejection => MessageState::Rejected,
        (Some(_), Some(_)) => MessageState::Acknowledged,
    }
}

/// When the answer to an id or a number was heard; nothing without one.
fn answered_with(number: Option<&[u8]>, answer: Option<&Answer<'_>>) -> Option<Moment>
    ensures { result ≡ Spec.answered_with (option_map (λ x. x.now) number.entry)
        (option_map reply_of (option_copied answer.entry)) }
{
    match (number, answer) {
        (Some(_), Some(answer)) => Some(answer.moment),
        _ => None,
    }
}

/// What a reply-ack says of a number; without one none is awaited.
fn reply_ack_with(number: Option<&[u8]>, reply: Option<&Answer<'_>>) -> ReplyAck
    ensures { result ≡ Spec.reply_ack_with (option_map (λ x. x.now) number.entry)
        (option_map reply_of (option_copied reply.entry)) }
{
    match (number, reply) {
        (None, _) => ReplyAck::NotAwaited,
        (Some(_), None) => ReplyAck::Awaited,
        (Some(_), Some(reply)) => ReplyAck::Heard(reply.moment),
    }
}

/// The number that a text has for reply-acks; none where its message has an id.
fn reply_number<'t>(id: Option<&'t [u8]>, text: &'t [u8]) -> Option<&'t [u8]>
    ensures { option_map (λ x. x.now) result
        ≡ Spec.reply_number (option_map (λ x. x.now) id.entry) text.now }
{
    match id {
        Some(_) => None,
        None => number_in(text),
    }
}

/// The earlier of two answers, and of two at one moment the first.
fn earlier_answer<'s, 't>(
    first: Option<&'s Answer<'t>>,
    other: Option<&'s Answer<'t>>,
) -> Option<&'s Answer<'t>>
    ensures { option_map reply_of (option_copied result) ≡ Spec.earlier_answer
        (option_map reply_of (option_copied first.entry))
        (option_map reply_of (option_copied other.entry)) }
{
    match (first, other) {
        (None, other) => other,
        (first, None) => first,
        (Some(first), Some(other)) => {
            if other.moment.millis() < first.moment.millis() {
                Some(other)
            } else {
                Some(first)
            }
        }
    }
}

/// The gate, if there is one.
fn gate_of(gate: &Option<PackedCall>) -> Option<Callsign>
    ensures { result ≡ gate.now }
{
    match gate {
        Some(gate) => Some(gate.unpacked()),
        None => None,
    }
}
