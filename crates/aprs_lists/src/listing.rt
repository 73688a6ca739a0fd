//! The listing of a book: its stations, objects, items and messages.
ghost use Rattle.std.specs.Prelude.{ℕ, List};
ghost use Rattle.std.specs.List.{flat_map};
ghost use Rattle.aprs_io.specs.Device.{Sends};
ghost use Rattle.aprs_io.specs.Outlet.{Puts};
ghost use Rattle.aprs_lists.specs.Listing as Spec;

mod heard_line;

use aprs_io::{Counted, Outlet, WriteFault};
use aprs_summary::{
    Heard, HeardRoom, MessageRow, MessageWalk, NamedWalk, Station, StationWalk, Summary,
};
use aprs_table::{Field, id_text, put_spaced_line, put_text_line};
use heard_line::put_heard;
use std::alloc::Allocator;
use std::io::Write;

/// Writes the listing of a book, from its summary: for each station its line and those of its last
/// known position and status; then a line for each object, item and message. Mic-E positions don't
/// count. At a fault a prefix of this went out. Takes no memory.
pub fn write_listing<W: Write, A: Allocator + Copy>(
    w: &mut Counted<W>,
    summary: &Summary<'_, A>,
) -> Result<(), WriteFault>
    ensures { (text : List ℕ) × Spec.IsShown summary.now text
        × Sends W.contents result w.old w.new text }
{
    let mut out = Outlet::new(w);
    put_listing(&mut out, summary)?;
    out.flush()
}

/// Puts the listing: the lines of all stations, then of all objects and items, then of all
/// messages. Fails where the output is refused.
fn put_listing<W: Write, A: Allocator + Copy>(
    out: &mut Outlet<'_, W>,
    summary: &Summary<'_, A>,
) -> Result<(), WriteFault>
    ensures { (text : List ℕ) × Spec.IsShown summary.now text
        × Puts W.contents result out.old out.new text }
{
    let stations = summary.stations();
    let named = summary.objects();
    let messages = summary.messages();
    put_stations(out, stations)?;
    put_all_named(out, named)?;
    put_messages(out, messages)
}

/// Puts the lines of the stations, in their order. Fails where the output is refused.
fn put_stations<W: Write, A: Allocator + Copy>(
    out: &mut Outlet<'_, W>,
    mut stations: StationWalk<'_, '_, A>,
) -> Result<(), WriteFault>
    ensures { Puts W.contents result out.old out.new
        (flat_map Spec.station_lines stations.entry) }
{
    let mut room = HeardRoom::new();
    while let Some(station) = stations.next(&mut room) {
        put_station(out, &station)?;
    }
    Ok(())
}

/// Puts the lines of the objects and items, in their order. Fails where the output is refused.
fn put_all_named<W: Write, A: Allocator + Copy>(
    out: &mut Outlet<'_, W>,
    mut all: NamedWalk<'_, '_, A>,
) -> Result<(), WriteFault>
    ensures { Puts W.contents result out.old out.new (flat_map Spec.thing_line all.entry) }
{
    let mut room = HeardRoom::new();
    while let Some(named) = all.next(&mut room) {
        put_heard(out, &named.heard)?;
    }
    Ok(())
}

/// Puts the lines of the messages, in their order. Fails where the output is refused.
fn put_messages<W: Write, A: Allocator + Copy>(
    out: &mut Outlet<'_, W>,
    messages: MessageWalk<'_, '_, A>,
) -> Result<(), WriteFault>
    ensures { Puts W.contents result out.old out.new (flat_map Spec.message_line messages.entry) }
{
    for message in messages {
        put_message(out, &message)?;
    }
    Ok(())
}

/// Puts the line of a station, and those of its last known position and status. Fails where the
/// output is refused.
fn put_station<W: Write>(out: &mut Outlet<'_, W>, station: &Station<'_>) -> Result<(), WriteFault>
    ensures { Puts W.contents result out.old out.new (Spec.station_lines station.now) }
{
    let fields = [
        Field::Call(station.call.copy()),
        Field::Count(station.transmissions),
    ];
    put_spaced_line(out, b"station", &fields, &[])?;
    put_known(out, &station.position)?;
    put_known(out, &station.status)
}

/// Puts the line of what is last known, and nothing where nothing is known. Fails where the
/// output is refused.
fn put_known<W: Write>(out: &mut Outlet<'_, W>, known: &Option<Heard<'_>>) -> Result<(), WriteFault>
    ensures { Puts W.contents result out.old out.new (Spec.known_line known.now) }
{
    match known {
        Some(heard) => put_heard(out, heard),
        None => Ok(()),
    }
}

/// Puts the line of a message: from whom and to whom, its id, what came of it, its first and its
/// last moment, and its text after a colon. Fails where the output is refused.
fn put_message<W: Write>(
    out: &mut Outlet<'_, W>,
    message: &MessageRow<'_>,
) -> Result<(), WriteFault>
    ensures { Puts W.contents result out.old out.new (Spec.message_line message.now) }
{
    let fields = [
        Field::Call(message.source.copy()),
        Field::Word(message.addressee),
        Field::Plain(id_text(message.id)),
        Field::Plain(message.state.text()),
        Field::Moment(message.first),
        Field::Moment(message.last),
    ];
    put_text_line(out, b"message", &fields, &[], message.text)
}
