//! The table of a book's messages, as the listing has them.
ghost use Rattle.std.specs.Prelude.{◌≡◌, ℕ, List};
ghost use Rattle.std.specs.List.{flat_map};
ghost use Rattle.aprs_io.specs.Device.{Sends};
ghost use Rattle.aprs_io.specs.Outlet.{Puts};
ghost use Rattle.aprs_lists.specs.Messages as Spec;
ghost use Rattle.aprs_lists.specs.Told.{listed_line, listed_outcome, listed_settled, listed_told, told_of};

use crate::table::{Lines, write_table};
use crate::told::{MESSAGE_COLUMNS, MessageLine, put_message};
use aprs_io::{Counted, Outlet, WriteFault};
use aprs_log::Moment;
use aprs_summary::{MessageRow, MessageState, MessageWalk, ReplyAck, Summary};
use std::alloc::Allocator;
use std::io::Write;

/// Writes the table of the messages of a book, from its summary: the names of the columns, and
/// exactly one line for each message, ascending by source, addressee, text and id. One without an
/// id comes before those with one. At a fault a prefix of this went out. Takes no memory.
pub fn write_messages<W: Write, A: Allocator + Copy>(
    w: &mut Counted<W>,
    summary: &Summary<'_, A>,
) -> Result<(), WriteFault>
    ensures { (text : List ℕ) × Spec.IsMessagesTable summary.now text
        × Sends W.contents result w.old w.new text }
{
    write_table(w, MESSAGE_COLUMNS, summary.messages())
}

impl<'s, 't, A: Allocator + Copy> Lines for MessageWalk<'s, 't, A> {
    ghost lines = { flat_map listed_line };

    /// Puts the lines of the messages, in their order.
    fn put_lines<W: Write>(self, out: &mut Outlet<'_, W>) -> Result<(), WriteFault> {
        for message in self {
            put_listed(out, message)?;
        }
        Ok(())
    }
}

/// Puts the line of a message of the listing. Fails where the output is refused.
fn put_listed<W: Write>(out: &mut Outlet<'_, W>, message: MessageRow<'_>) -> Result<(), WriteFault>
    ensures { Puts W.contents result out.old out.new (listed_line message.entry) }
{
    let line = line_of(message);
    put_message(out, &line)
}

/// What the table tells of a message of the listing.
fn line_of<'t>(message: MessageRow<'t>) -> MessageLine<'t>
    ensures { told_of result ≡ listed_told message.entry }
{
    MessageLine {
        source: message.source,
        addressee: message.addressee,
        text: message.text,
        id: message.id,
        state: message.state,
        first: message.first,
        last: message.last,
        answered: message.answered,
        reply_ack: message.reply_ack,
        gate: None,
        outcome: outcome_of(message.state, message.reply_ack),
        settled: settled_by(message.answered, message.reply_ack),
    }
}

/// What came of a number, by what came of an id and by reply-acks.
fn outcome_of(state: MessageState, reply_ack: ReplyAck) -> MessageState
    ensures { result ≡ listed_outcome state reply_ack }
{
    match (state, reply_ack) {
        (MessageState::Unnumbered, ReplyAck::Awaited) => MessageState::Unanswered,
        (MessageState::Unnumbered, ReplyAck::Heard(_)) => MessageState::Acknowledged,
        _ => state,
    }
}

/// When that came.
fn settled_by(answered: Option<Moment>, reply_ack: ReplyAck) -> Option<Moment>
    ensures { result ≡ listed_settled answered reply_ack }
{
    match (answered, reply_ack) {
        (None, ReplyAck::Heard(moment)) => Some(moment),
        _ => answered,
    }
}
