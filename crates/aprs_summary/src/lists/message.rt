//! Messages that were heard.
ghost use Rattle.std.specs.Prelude.{◌≡◌, ℕ, List, IfOk};
ghost use Rattle.aprs_transmissions.specs.Row.{Row};
ghost use Rattle.aprs_summary.specs.Messages.{state_text, ReportsMessages};
ghost use Rattle.aprs_summary.specs.Exchange.{IsExchangeOf};

use crate::lists::exchange::Exchange;
use crate::lists::message_walk::MessageWalk;
use crate::lists::reply_ack::ReplyAck;
use aprs_ax25::Callsign;
use aprs_log::Moment;
use aprs_rows::Memory;
use std::alloc::Allocator;

/// What came of a message.
#[derive(Clone, Copy, Debug, PartialEq, Eq)]
pub enum MessageState {
    /// It has no id, so no ack or rej can answer it.
    Unnumbered,
    /// No ack or rej answered it since its first reception.
    Unanswered,
    /// The last answer to it is an ack.
    Acknowledged,
    /// The last answer to it is a rej.
    Rejected,
}

impl MessageState {
    /// The word for it: `unnumbered`, `unanswered`, `acknowledged` or `rejected`. Takes no memory.
    pub fn text(&self) -> &'static [u8]
        ensures { result.now ≡ state_text self.now }
    {
        match self {
            MessageState::Unnumbered => b"unnumbered",
            MessageState::Unanswered => b"unanswered",
            MessageState::Acknowledged => b"acknowledged",
            MessageState::Rejected => b"rejected",
        }
    }
}

/// A message that was heard.
#[derive(Drop)]
pub struct MessageRow<'a> {
    /// Who sent it.
    pub source: Callsign,
    /// To whom, without the spaces at its end.
    pub addressee: &'a [u8],
    /// What it says, without the brace and the id, and without CR and LF at its end.
    pub text: &'a [u8],
    /// One to five letters or digits, or `None` where it has no id.
    pub id: Option<&'a [u8]>,
    /// The first moment at which it was heard.
    pub first: Moment,
    /// The last moment at which it was heard.
    pub last: Moment,
    /// What came of it.
    pub state: MessageState,
    /// When its last ack or rej was heard, where the state is by one.
    pub answered: Option<Moment>,
    /// What reply-acks say of it.
    pub reply_ack: ReplyAck,
}

/// The list of the messages of any rows that have this exchange, ascending by source, addressee,
/// text and id.
pub fn messages_of<'a, A: Allocator + Copy>(
    alloc: A,
    exchange: &Exchange<'a, A>,
) -> Result<Vec<MessageRow<'a>, A>, Memory>
    ensures { (gap : ℕ) (rows : List Row) → IsExchangeOf rows exchange.now
        → IfOk result (λ messages. ReportsMessages gap rows messages.items) }
{
    let mut list = Vec::new(alloc);
    list.reserve_exact(exchange.spans.len())?;
    for message in MessageWalk::of(exchange) {
        list.push(message)?;
    }
    Ok(list)
}
