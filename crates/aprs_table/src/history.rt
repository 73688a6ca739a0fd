//! The history of a book.
ghost use Rattle.std.specs.Prelude.{◌≡◌, ◌∷◌, ◌++◌, [], map, None};
ghost use Rattle.std.specs.Fmt.{decimal};
ghost use Rattle.aprs_ax25.specs.Callsign.{call_text};
ghost use Rattle.aprs_log.specs.Moment.{moment_text};
ghost use Rattle.aprs_ax25.specs.FrameFault.{parts_of};
ghost use Rattle.aprs_ax25.specs.FrameRef.{frame_bytes};
ghost use Rattle.aprs_io.specs.Device.{Sends};
ghost use Rattle.aprs_io.specs.Outlet.{Puts};
ghost use Rattle.aprs_report.specs.Object as ReportWords;
ghost use Rattle.aprs_report.specs.Reading.{view};
ghost use Rattle.aprs_mice.specs.MicEMessage.{message_name};
ghost use Rattle.aprs_mice.specs.Reader.{mic_e_or_none};
ghost use Rattle.aprs_table.specs.History.{history_line, history_text, other_line, told_line};
ghost use Rattle.aprs_table.specs.FieldText.{field_text};
ghost use Rattle.aprs_table.specs.HistoryLines.{told_named_line};
ghost use Rattle.aprs_table.specs.OneLine.{HasOneLineEach};
ghost use Rattle.aprs_table.specs.SpacedLine as Spec;

mod via;

use crate::field::{Field, id_text, place_fields};
use crate::spaced_line::{put_spaced_line, put_text_line};
use aprs_ax25::{Callsign, FrameRef, hops_text};
use aprs_io::{Counted, Outlet, WriteFault};
use aprs_log::Moment;
use aprs_mice::MicE;
use aprs_report::{Place, Report, Stamp, Symbol, live_text};
use aprs_rows::{BookRows, RowView};
use std::alloc::Allocator;
use std::io::Write;
use via::via_or_dash;

/// Writes the history of the rows: exactly one line for each, in their order. At a fault a prefix
/// of this went out. Takes no memory.
pub fn write_history<W: Write, A: Allocator + Copy>(
    w: &mut Counted<W>,
    rows: BookRows<'_, A>,
) -> Result<(), WriteFault>
    ensures sends { Sends W.contents result w.old w.new (history_text rows.entry.rows) }
    ensures lines { HasOneLineEach rows.entry.rows }
{
    let _told = rows.gap();
    let mut out = Outlet::new(w);
    put_history(&mut out, rows)?;
    out.flush()
}

/// Puts the lines of the rows, in their order. Fails where the output is refused.
fn put_history<W: Write, A: Allocator + Copy>(
    out: &mut Outlet<'_, W>,
    rows: BookRows<'_, A>,
) -> Result<(), WriteFault>
    ensures { Puts W.contents result out.old out.new (history_text rows.entry.rows) }
{
    for row in rows {
        put_row_history(out, &row)?;
    }
    Ok(())
}

/// Puts the line of a row: when and by whom it was heard, from whom, the frame's digipeaters, used
/// or not, and what it reports. Fails where the output is refused.
fn put_row_history<W: Write>(out: &mut Outlet<'_, W>, row: &RowView<'_>) -> Result<(), WriteFault>
    ensures { Puts W.contents result out.old out.new (history_line row.now) }
{
    let frame = row.frame();
    let hops = hops_text(&frame);
    let told = told_fields(
        row.first(),
        row.last(),
        row.receivers(),
        frame.source(),
        via_or_dash(hops.as_slice()),
    );
    put_told(out, &told, &frame, Report::read(frame.info()))
}

/// The fields of a row: its moments, its receivers, who sent it, and its frame's digipeaters.
fn told_fields<'t>(
    first: Moment,
    last: Moment,
    receivers: &'t [u8],
    source: Callsign,
    via: &'t [u8],
) -> [Field<'t>; 5]
    ensures { map field_text result ≡ moment_text first ∷ moment_text last ∷ receivers.entry.now
        ∷ call_text source ∷ via.entry.now ∷ [] }
{
    [
        Field::Moment(first),
        Field::Moment(last),
        Field::Plain(receivers),
        Field::Call(source),
        Field::Plain(via),
    ]
}

/// Puts the line of a frame by what it reports: its kind, the fields that are told, and those of
/// the report. A frame without a report has the line of `put_other`. Fails where the output is
/// refused.
fn put_told<W: Write>(
    out: &mut Outlet<'_, W>,
    told: &[Field<'_>],
    frame: &FrameRef<'_>,
    report: Report<'_>,
) -> Result<(), WriteFault>
    ensures { Puts W.contents result out.old out.new
        (told_line (map field_text told.now) (parts_of (frame_bytes frame.now))
        (view report.entry)) }
{
    match report {
        Report::Position {
            stamp,
            place,
            symbol,
            comment,
            ..
        } => {
            let fields = place_fields(stamp, place, symbol);
            put_text_line(out, b"position", told, &fields, comment)
        }
        Report::Object { .. } => put_named(out, told, report),
        Report::Item { .. } => put_named(out, told, report),
        Report::Status { stamp, text } => {
            put_text_line(out, b"status", told, &[Field::Stamp(stamp)], text)
        }
        Report::Message {
            addressee,
            text,
            id,
        } => {
            let fields = [Field::Word(addressee), Field::Plain(id_text(id))];
            put_text_line(out, b"message", told, &fields, text)
        }
        Report::Ack { addressee, id } => put_answer_line(out, b"ack", told, addressee, id),
        Report::Rej { addressee, id } => put_answer_line(out, b"rej", told, addressee, id),
        Report::Raw => put_other(out, told, frame),
    }
}

/// Puts the line of an object or an item: its kind, the fields that are told, and those of the
/// report. Of any other report nothing is put. Fails where the output is refused.
fn put_named<W: Write>(
    out: &mut Outlet<'_, W>,
    told: &[Field<'_>],
    report: Report<'_>,
) -> Result<(), WriteFault>
    ensures { Puts W.contents result out.old out.new
        (told_named_line (map field_text told.now) (view report.entry)) }
{
    match report {
        Report::Object {
            name,
            live,
            stamp,
            place,
            symbol,
            comment,
        } => {
            let fields = named_fields(name, live, Some(stamp), place, symbol);
            put_text_line(out, b"object", told, &fields, comment)
        }
        Report::Item {
            name,
            live,
            place,
            symbol,
            comment,
        } => {
            let fields = named_fields(name, live, None, place, symbol);
            put_text_line(out, b"item", told, &fields, comment)
        }
        Report::Position { .. } | Report::Status { .. } | Report::Message { .. } => Ok(()),
        Report::Ack { .. } | Report::Rej { .. } | Report::Raw => Ok(()),
    }
}

/// Puts the line of an ack or a rej, as `kind` says: the fields that are told, to whom it is, and
/// the id that it is for. Fails where the output is refused.
fn put_answer_line<W: Write>(
    out: &mut Outlet<'_, W>,
    kind: &[u8],
    told: &[Field<'_>],
    addressee: &[u8],
    id: &[u8],
) -> Result<(), WriteFault>
    ensures { Puts W.contents result out.old out.new
        (Spec.spaced_line kind.now
        (map field_text told.now ++ Spec.word addressee.now ∷ id.now ∷ [])) }
{
    put_spaced_line(out, kind, told, &[Field::Word(addressee), Field::Plain(id)])
}

/// Puts the line of a frame that has no report: its kind, the fields that are told, and what
/// its Mic-E position says, or else its destination and its information. Fails where the output is
/// refused.
fn put_other<W: Write>(
    out: &mut Outlet<'_, W>,
    told: &[Field<'_>],
    frame: &FrameRef<'_>,
) -> Result<(), WriteFault>
    ensures { Puts W.contents result out.old out.new
        (other_line (map field_text told.now) (parts_of (frame_bytes frame.now))
        (mic_e_or_none (parts_of (frame_bytes frame.now)).destination.call.characters
        (parts_of (frame_bytes frame.now)).info)) }
{
    let destination = frame.destination();
    let info = frame.info();
    match MicE::read(&destination, info) {
        Some(says) => {
            let fields = mic_e_fields(&says);
            put_text_line(out, b"mic-e", told, &fields, says.comment)
        }
        None => {
            let fields = [Field::Call(destination)];
            put_text_line(out, b"raw", told, &fields, info)
        }
    }
}

/// The fields of a Mic-E position: its course in degrees, its speed in knots, what the station says
/// of itself, and where it is.
fn mic_e_fields(says: &MicE<'_>) -> [Field<'static>; 8]
    ensures { map field_text result ≡ decimal says.now.course ∷ decimal says.now.speed
        ∷ message_name says.now.message ∷ Spec.place_fields None says.now.place says.now.symbol }
{
    [
        Field::Count(u64::from(says.course)),
        Field::Count(u64::from(says.speed)),
        Field::Plain(says.message.name().as_bytes()),
        Field::Stamp(None),
        Field::Degrees(says.place.lat()),
        Field::Degrees(says.place.lon()),
        Field::Ambiguity(says.place),
        Field::Symbol(says.symbol),
    ]
}

/// The fields of an object or an item: its name, whether it is live or killed, and where it is.
fn named_fields<'a>(
    name: &'a [u8],
    live: bool,
    stamp: Option<Stamp>,
    place: Place,
    symbol: Symbol,
) -> [Field<'a>; 7]
    ensures { map field_text result ≡ Spec.word name.entry.now ∷ ReportWords.live_text live
        ∷ Spec.place_fields stamp place symbol }
{
    [
        Field::Word(name),
        Field::Plain(live_text(live)),
        Field::Stamp(stamp),
        Field::Degrees(place.lat()),
        Field::Degrees(place.lon()),
        Field::Ambiguity(place),
        Field::Symbol(symbol),
    ]
}
