//! The lines of the table of messages.
ghost use Rattle.std.specs.Prelude.{◌≡◌, [], ◌∷◌, ◌++◌, map};
ghost use Rattle.std.specs.Option.{option_map};
ghost use Rattle.aprs_io.specs.Outlet.{Puts};
ghost use Rattle.aprs_lists.specs.Copies.{message_named};
ghost use Rattle.aprs_table.specs.Cells.{cell_text};
ghost use Rattle.aprs_lists.specs.Told as Spec;

use crate::class::class_text;
use crate::line::put_line;
use crate::net::copies::MessageName;
use crate::net::packed_call::PackedCall;
use aprs_ax25::Callsign;
use aprs_io::{Outlet, WriteFault};
use aprs_log::Moment;
use aprs_summary::{MessageState, ReplyAck, number_in};
use aprs_table::Cell;
use std::io::Write;

/// The names of the columns of the table of messages.
pub(crate) const MESSAGE_COLUMNS: &[u8] = b"\
    source\taddressee\tid\ttext\tstate\tfirst\tlast\tanswer\tanswer_source\t\
    reply_ack\treply_answer\tgate\tclass\tnumber\toutcome\toutcome_moment\n";

/// What the table tells of a message.
#[derive(Drop)]
pub(crate) struct MessageLine<'t> {
    pub source: Callsign,
    pub addressee: &'t [u8],
    pub text: &'t [u8],
    pub id: Option<&'t [u8]>,
    /// What came of its id by acks and rejs.
    pub state: MessageState,
    pub first: Moment,
    pub last: Moment,
    /// When that came.
    pub answered: Option<Moment>,
    /// What came of its number by reply-acks.
    pub reply_ack: ReplyAck,
    /// The gate of its first copy.
    pub gate: Option<Callsign>,
    /// What came of its number by any answer.
    pub outcome: MessageState,
    /// When that came.
    pub settled: Option<Moment>,
}

/// Puts the line of a message. Fails where the output is refused.
pub(crate) fn put_message<W: Write>(
    out: &mut Outlet<'_, W>,
    line: &MessageLine<'_>,
) -> Result<(), WriteFault>
    ensures { Puts W.contents result out.old out.new
        (Spec.told_message_line (Spec.told_of line.now)) }
{
    let source = Cell::Call(line.source.copy());
    let said = [
        Cell::Shown(line.addressee),
        Cell::Shown(bytes_or_nothing(line.id)),
        Cell::Shown(line.text),
        Cell::Plain(line.state.text()),
        Cell::Moment(line.first),
        Cell::Moment(line.last),
    ];
    let answers = answer_cells(line);
    put_line(out, &source, &said, &answers)
}

/// The fields of the answers to a message, and of what a net asks for.
fn answer_cells<'t>(line: &MessageLine<'t>) -> [Cell<'t>; 9]
    ensures { map cell_text result
        ≡ Spec.answer_fields line.now.answered line.now.addressee.now
        ++ (Spec.reply_ack_fields line.now.reply_ack ++ Spec.net_fields (Spec.told_of line.now)) }
{
    let (answered, by) = answer_of(line);
    let (reply_ack, replied) = reply_ack_of(line.reply_ack);
    let name = MessageName {
        source: PackedCall::of(&line.source),
        addressee: line.addressee,
        text: line.text,
        id: line.id,
    };
    [
        answered,
        by,
        reply_ack,
        replied,
        gate_cell(&line.gate),
        Cell::Plain(class_text(&name)),
        Cell::Shown(bytes_or_nothing(number_of(&name))),
        Cell::Plain(line.outcome.text()),
        moment_cell(line.settled),
    ]
}

/// When a message was answered, and by whom: by its addressee. Nothing where it wasn't.
fn answer_of<'t>(line: &MessageLine<'t>) -> (Cell<'t>, Cell<'t>)
    ensures { cell_text result.0 ∷ cell_text result.1 ∷ []
        ≡ Spec.answer_fields line.now.answered line.now.addressee.now }
{
    match line.answered {
        Some(answered) => (Cell::Moment(answered), Cell::Shown(line.addressee)),
        None => (Cell::Plain(b""), Cell::Plain(b"")),
    }
}

/// What came of the number that a message has for reply-acks, and when it was acknowledged. Nothing
/// where it has none, as a message with an id has none.
fn reply_ack_of(reply_ack: ReplyAck) -> (Cell<'static>, Cell<'static>)
    ensures { cell_text result.0 ∷ cell_text result.1 ∷ [] ≡ Spec.reply_ack_fields reply_ack }
{
    match reply_ack {
        ReplyAck::NotAwaited => (Cell::Plain(b""), Cell::Plain(b"")),
        ReplyAck::Awaited => (Cell::Plain(b"unanswered"), Cell::Plain(b"")),
        ReplyAck::Heard(moment) => (Cell::Plain(b"acknowledged"), Cell::Moment(moment)),
    }
}

/// The field of a gate, empty without one.
fn gate_cell(gate: &Option<Callsign>) -> Cell<'static>
    ensures { cell_text result ≡ Spec.call_or_nothing gate.now }
{
    match gate {
        Some(gate) => Cell::Call(gate.copy()),
        None => Cell::Plain(b""),
    }
}

/// The field of a moment, empty without one.
pub(crate) fn moment_cell(moment: Option<Moment>) -> Cell<'static>
    ensures { cell_text result ≡ Spec.moment_or_nothing moment }
{
    match moment {
        Some(moment) => Cell::Moment(moment),
        None => Cell::Plain(b""),
    }
}

/// The bytes, or nothing where there are none.
fn bytes_or_nothing<'t>(bytes: Option<&'t [u8]>) -> &'t [u8]
    ensures { result.now ≡ Spec.bytes_or_nothing (option_map (λ x. x.now) bytes.entry) }
{
    match bytes {
        Some(bytes) => bytes,
        None => b"",
    }
}

/// The number of a message: its id, or without one the number that its text has for reply-acks.
pub(crate) fn number_of<'t>(message: &MessageName<'t>) -> Option<&'t [u8]>
    ensures { option_map (λ x. x.now) result ≡ Spec.message_number (message_named message.now) }
{
    match message.id {
        Some(id) => Some(id),
        None => number_in(message.text),
    }
}
