//! The line of what was heard last of something.
ghost use Rattle.std.specs.Prelude.{◌≡◌, ◌++◌, ◌∷◌, [], codes};
ghost use Rattle.aprs_io.specs.Outlet.{Puts};
ghost use Rattle.aprs_lists.specs.Listing as Spec;
ghost use Rattle.aprs_table.specs.SpacedLine as SpacedLine;

use aprs_io::{Outlet, WriteFault};
use aprs_report::{Place, Report, Stamp, Symbol, live_text};
use aprs_summary::Heard;
use aprs_table::{Field, place_fields, put_text_line};
use std::io::Write;

/// Where a report says that something is.
#[derive(Clone, Copy)]
struct Whereabouts<'a> {
    stamp: Option<Stamp>,
    place: Place,
    symbol: Symbol,
    comment: &'a [u8],
}

impl<'a> Whereabouts<'a> {
    /// These parts of a report, put together.
    fn new(stamp: Option<Stamp>, place: Place, symbol: Symbol, comment: &'a [u8]) -> Whereabouts<'a>
        ensures { result ≡ record {
          stamp = stamp;
          place = place;
          symbol = symbol;
          comment = comment.entry;
        } }
    {
        Whereabouts {
            stamp,
            place,
            symbol,
            comment,
        }
    }
}

/// Puts the line of what was heard, where that is a position, a status, an object or an item. Of
/// any other report nothing is put. Fails where the output is refused.
pub fn put_heard<W: Write>(out: &mut Outlet<'_, W>, heard: &Heard<'_>) -> Result<(), WriteFault>
    ensures { Puts W.contents result out.old out.new (Spec.heard_line heard.now) }
{
    match heard.report {
        Report::Position {
            stamp,
            place,
            symbol,
            comment,
            ..
        } => {
            let at = Whereabouts::new(stamp, place, symbol, comment);
            put_position(out, heard, &at)
        }
        Report::Object {
            name,
            live,
            stamp,
            place,
            symbol,
            comment,
        } => {
            let at = Whereabouts::new(Some(stamp), place, symbol, comment);
            put_name(out, b"object", name, live, heard, &at)
        }
        Report::Item {
            name,
            live,
            place,
            symbol,
            comment,
        } => {
            let at = Whereabouts::new(None, place, symbol, comment);
            put_name(out, b"item", name, live, heard, &at)
        }
        Report::Status { stamp, text } => put_status(out, heard, stamp, text),
        Report::Message { .. } | Report::Ack { .. } | Report::Rej { .. } | Report::Raw => Ok(()),
    }
}

/// Puts the line of a position: when and by whom it was heard, where it is, and its comment after
/// a colon. Fails where the output is refused.
fn put_position<W: Write>(
    out: &mut Outlet<'_, W>,
    heard: &Heard<'_>,
    at: &Whereabouts<'_>,
) -> Result<(), WriteFault>
    ensures { Puts W.contents result out.old out.new
        (SpacedLine.line_with_text (codes "position") (Spec.heard_fields heard.now
        ++ SpacedLine.place_fields at.now.stamp at.now.place at.now.symbol) at.now.comment.now) }
{
    let fields = [
        Field::Moment(heard.moment),
        Field::Plain(heard.receiver.as_bytes()),
    ];
    let place = place_fields(at.stamp, at.place, at.symbol);
    put_text_line(out, b"position", &fields, &place, at.comment)
}

/// Puts the line of an object or an item, as `kind` says: its name, whether it is live or killed,
/// when, by whom and from whom it was heard, where it is, and its comment after a colon. Fails
/// where the output is refused.
fn put_name<'a, W: Write>(
    out: &mut Outlet<'_, W>,
    kind: &[u8],
    name: &'a [u8],
    live: bool,
    heard: &Heard<'a>,
    at: &Whereabouts<'_>,
) -> Result<(), WriteFault>
    ensures { Puts W.contents result out.old out.new
        (SpacedLine.line_with_text kind.now (Spec.name_fields name.now live heard.now
        ++ SpacedLine.place_fields at.now.stamp at.now.place at.now.symbol) at.now.comment.now) }
{
    let fields = [
        Field::Word(name),
        Field::Plain(live_text(live)),
        Field::Moment(heard.moment),
        Field::Plain(heard.receiver.as_bytes()),
        Field::Call(heard.frame.source()),
    ];
    let place = place_fields(at.stamp, at.place, at.symbol);
    put_text_line(out, kind, &fields, &place, at.comment)
}

/// Puts the line of a status: when and by whom it was heard, its time stamp, and its text after a
/// colon. Fails where the output is refused.
fn put_status<W: Write>(
    out: &mut Outlet<'_, W>,
    heard: &Heard<'_>,
    stamp: Option<Stamp>,
    text: &[u8],
) -> Result<(), WriteFault>
    ensures { Puts W.contents result out.old out.new
        (SpacedLine.line_with_text (codes "status")
        (Spec.heard_fields heard.now ++ SpacedLine.stamp_text stamp ∷ []) text.now) }
{
    let fields = [
        Field::Moment(heard.moment),
        Field::Plain(heard.receiver.as_bytes()),
        Field::Stamp(stamp),
    ];
    put_text_line(out, b"status", &fields, &[], text)
}
