//! The fields of what a row's frame tells.
ghost use Rattle.std.specs.Prelude.{◌≡◌, ◌≤◌, ◌+◌, ◌∷◌, ◌++◌, [], map, None, Some};
ghost use Rattle.std.specs.List.{flat_map};
ghost use Rattle.std.specs.Option.{option_map};
ghost use Rattle.arrayvec.specs.ArrayVec.{array_vec_len};
ghost use Rattle.aprs_details.specs.Frequency.{frequency_view};
ghost use Rattle.aprs_details.specs.Telemetry.{telemetry_view};
ghost use Rattle.aprs_io.specs.Outlet.{Puts};
ghost use Rattle.aprs_table.specs.Cells as Cells;
ghost use Rattle.aprs_table.specs.Table as Spec;
ghost use Rattle.aprs_table.specs.Told.{told_view};

use crate::cell::{Cell, put_cells, put_symbol};
use crate::told::Told;
use aprs_details::{
    CommentTelemetry, Fix, Frequency, MAX_DECIMAL, SignedPrecision, Telemetry, Transmitter,
    Weather, decimal_degrees_text,
};
use aprs_io::{Outlet, WriteFault, push_all, put_shown};
use aprs_mice::MicEMessage;
use aprs_report::{Place, Stamp, Symbol};
use arrayvec::ArrayVec;
use itoa::Buffer;
use std::io::Write;

/// The most bytes of the fields of a place: two angles, a number of 40 bytes, the most that `itoa`
/// writes, a word of 3, and 5 tabs.
const MAX_PLACE: usize = 2 * MAX_DECIMAL + 48;

/// The fields of a report's name, state and id.
fn name_cells<'a>(told: &Told<'a>) -> [Cell<'a>; 3]
    ensures { map Cells.cell_text result ≡ Cells.name_cells (told_view told.now) }
{
    [
        Cell::Shown(told.name),
        Cell::Plain(told.state),
        Cell::Plain(told.id),
    ]
}

/// Degrees north and east, of a fix, or else of a place.
fn degree_cells(fix: Option<Fix>, place: Option<Place>) -> (Cell<'static>, Cell<'static>)
    ensures north { Cells.cell_text result.0 ≡ Cells.degrees_north fix place }
    ensures east { Cells.cell_text result.1 ≡ Cells.degrees_east fix place }
{
    match fix {
        Some(fix) => (Cell::Degrees(fix.latitude), Cell::Degrees(fix.longitude)),
        None => (Cell::Latitude(place), Cell::Longitude(place)),
    }
}

/// The fields of where something is, and of what it is shown as.
fn where_cells(fix: Option<Fix>, place: Option<Place>, symbol: Option<Symbol>) -> [Cell<'static>; 5]
    ensures { map Cells.cell_text result ≡ Cells.where_cells fix place symbol }
{
    let (north, east) = degree_cells(fix, place);
    [
        north,
        east,
        Cell::Ambiguity(place),
        Cell::Compressed(place),
        Cell::Symbol(symbol),
    ]
}

/// The fields of a report's time stamp, and of its subject's course, speed and altitude.
fn motion_cells<'a>(told: &Told<'a>) -> [Cell<'a>; 4]
    ensures { map Cells.cell_text result ≡ Cells.motion_cells (told_view told.now) }
{
    [
        Cell::Stamp(told.stamp),
        Cell::Number(told.motion.course),
        Cell::Number(told.motion.speed),
        Cell::Altitude(told.altitude),
    ]
}

/// The weather's fields.
fn weather_cells(w: Weather) -> [Cell<'static>; 10]
    ensures { map Cells.cell_text result ≡ Cells.weather_cells w }
{
    [
        Cell::Number(w.wind_from),
        Cell::Number(w.wind),
        Cell::Number(w.gust),
        Cell::Signed(w.temperature),
        Cell::Number(w.rain_hour),
        Cell::Number(w.rain_day),
        Cell::Number(w.rain_midnight),
        Cell::Number(w.humidity),
        Cell::Number(w.pressure),
        Cell::Number(w.luminosity),
    ]
}

/// Telemetry's fields, as they were sent.
fn telemetry_cells<'a>(t: Telemetry<'a>) -> [Cell<'a>; 7]
    ensures { map Cells.cell_text result ≡ Cells.telemetry_cells (telemetry_view t.entry) }
{
    [
        Cell::Plain(t.sequence),
        Cell::Plain(t.a1),
        Cell::Plain(t.a2),
        Cell::Plain(t.a3),
        Cell::Plain(t.a4),
        Cell::Plain(t.a5),
        Cell::Plain(t.bits),
    ]
}

/// Telemetry's fields of a comment.
fn comment_telemetry_cells(t: CommentTelemetry) -> [Cell<'static>; 7]
    ensures { map Cells.cell_text result ≡ Cells.comment_telemetry_cells t }
{
    [
        Cell::Number(Some(t.sequence)),
        Cell::Number(Some(t.a1)),
        Cell::Number(t.a2),
        Cell::Number(t.a3),
        Cell::Number(t.a4),
        Cell::Number(t.a5),
        Cell::Bits(t.bits),
    ]
}

/// The fields of a place with more digits.
fn finer_cells(place: Option<Place>, more: Option<SignedPrecision>) -> [Cell<'static>; 2]
    ensures { map Cells.cell_text result ≡ Cells.finer_cells place more }
{
    [
        Cell::FinerLatitude(place, more),
        Cell::FinerLongitude(place, more),
    ]
}

/// The fields of a frequency, and of how to call there.
fn frequency_cells<'a>(x: Frequency<'a>) -> [Cell<'a>; 3]
    ensures { map Cells.cell_text result ≡ Cells.frequency_cells (Some (frequency_view x.entry)) }
{
    [
        Cell::Number(Some(x.khz)),
        Cell::Shown(x.tone),
        Cell::Signed(x.offset),
    ]
}

/// The field of the message of a Mic-E position, and one with nothing.
fn says_cells(says: Option<MicEMessage>) -> [Cell<'static>; 2]
    ensures { map Cells.cell_text result ≡ Cells.says_text says ∷ [] ∷ [] }
{
    [Cell::Says(says), Cell::Plain(b"")]
}

/// The fields of whether a station takes messages, of whether its fix is current, and of its
/// radio's range.
fn more_cells<'a>(told: &Told<'a>) -> [Cell<'a>; 3]
    ensures { map Cells.cell_text result ≡ Cells.more_cells (told_view told.now) }
{
    [
        Cell::YesNo(told.messaging),
        Cell::Fix(told.is_current),
        Cell::Range(told.range),
    ]
}

/// The fields of what a station says of its transmitter.
fn phg_cells(phg: Transmitter) -> [Cell<'static>; 4]
    ensures { map Cells.cell_text result ≡ Cells.phg_cells (Some phg) }
{
    [
        Cell::Number(Some(phg.watts)),
        Cell::Number(Some(phg.height)),
        Cell::Number(Some(phg.gain)),
        Cell::Number(Some(phg.direction)),
    ]
}

/// Puts the fields that are told, each after a tab, and LF. Fails where the output is refused.
pub fn put_told<W: Write>(out: &mut Outlet<'_, W>, told: &Told<'_>) -> Result<(), WriteFault>
    ensures { Puts W.contents result out.old out.new (Spec.told_text (told_view told.now)) }
{
    put_name(out, told)?;
    put_where(out, told.fix, told.place, told.symbol)?;
    put_motion(out, told)?;
    put_measures(out, told)?;
    put_shown(out, told.text)?;
    put_end(out, told)
}

/// Puts the fields of weather, of telemetry and of the message of a Mic-E position, each after a
/// tab, and the tab before the text. All these tabs are put at once where none of them is told.
/// Fails where the output is refused.
fn put_measures<W: Write>(out: &mut Outlet<'_, W>, told: &Told<'_>) -> Result<(), WriteFault>
    ensures { Puts W.contents result out.old out.new
        (flat_map Spec.after_tab (Cells.weather_cells (Cells.weather_in told.now.weather))
        ++ (flat_map Spec.after_tab (Cells.measured_cells
        (option_map telemetry_view told.now.telemetry) told.now.measured)
        ++ flat_map Spec.after_tab (Cells.says_text told.now.says ∷ [] ∷ []))) }
{
    match (told.weather, told.telemetry, told.measured, told.says) {
        (None, None, None, None) => out.put(b"\t\t\t\t\t\t\t\t\t\t\t\t\t\t\t\t\t\t\t"),
        _ => put_known_measures(out, told),
    }
}

/// Puts the fields of weather, of telemetry and of the message of a Mic-E position, each after a
/// tab, and the tab before the text. Fails where the output is refused.
fn put_known_measures<W: Write>(out: &mut Outlet<'_, W>, told: &Told<'_>) -> Result<(), WriteFault>
    ensures { Puts W.contents result out.old out.new
        (flat_map Spec.after_tab (Cells.weather_cells (Cells.weather_in told.now.weather))
        ++ (flat_map Spec.after_tab (Cells.measured_cells
        (option_map telemetry_view told.now.telemetry) told.now.measured)
        ++ flat_map Spec.after_tab (Cells.says_text told.now.says ∷ [] ∷ []))) }
{
    put_weather(out, told.weather)?;
    put_telemetry(out, told.telemetry, told.measured)?;
    put_says(out, told.says)
}

/// Puts the field of the message of a Mic-E position after a tab, and the tab before the text.
/// Fails where the output is refused.
fn put_says<W: Write>(out: &mut Outlet<'_, W>, says: Option<MicEMessage>) -> Result<(), WriteFault>
    ensures { Puts W.contents result out.old out.new
        (flat_map Spec.after_tab (Cells.says_text says ∷ [] ∷ [])) }
{
    put_cells(out, &says_cells(says))
}

/// Puts the fields behind the text, each after a tab, and LF. All that is put at once where none of
/// them is told, but whether a station takes messages. Fails where the output is refused.
fn put_end<W: Write>(out: &mut Outlet<'_, W>, told: &Told<'_>) -> Result<(), WriteFault>
    ensures { Puts W.contents result out.old out.new
        (flat_map Spec.after_tab (Cells.more_cells (told_view told.now))
        ++ (flat_map Spec.after_tab (Cells.phg_cells (told_view told.now).phg)
        ++ (flat_map Spec.after_tab (Cells.frequency_cells (told_view told.now).frequency)
        ++ (flat_map Spec.after_tab (Cells.finer_cells told.now.place told.now.precision)
        ++ 10 ∷ [])))) }
{
    match (
        told.messaging,
        told.is_current,
        told.range,
        told.phg,
        told.frequency,
        told.precision,
    ) {
        (None, None, None, None, None, None) => out.put(b"\t\t\t\t\t\t\t\t\t\t\t\t\n"),
        (Some(false), None, None, None, None, None) => out.put(b"\tno\t\t\t\t\t\t\t\t\t\t\t\n"),
        (Some(true), None, None, None, None, None) => out.put(b"\tyes\t\t\t\t\t\t\t\t\t\t\t\n"),
        _ => put_said_end(out, told),
    }
}

/// Puts the fields behind the text, each after a tab, and LF. Fails where the output is refused.
fn put_said_end<W: Write>(out: &mut Outlet<'_, W>, told: &Told<'_>) -> Result<(), WriteFault>
    ensures { Puts W.contents result out.old out.new
        (flat_map Spec.after_tab (Cells.more_cells (told_view told.now))
        ++ (flat_map Spec.after_tab (Cells.phg_cells (told_view told.now).phg)
        ++ (flat_map Spec.after_tab (Cells.frequency_cells (told_view told.now).frequency)
        ++ (flat_map Spec.after_tab (Cells.finer_cells told.now.place told.now.precision)
        ++ 10 ∷ [])))) }
{
    put_more(out, told)?;
    put_known_end(out, told)
}

/// Puts the fields of a transmitter, of a frequency and of more digits, each after a tab, and LF.
/// Fails where the output is refused.
fn put_known_end<W: Write>(out: &mut Outlet<'_, W>, told: &Told<'_>) -> Result<(), WriteFault>
    ensures { Puts W.contents result out.old out.new
        (flat_map Spec.after_tab (Cells.phg_cells (told_view told.now).phg)
        ++ (flat_map Spec.after_tab (Cells.frequency_cells (told_view told.now).frequency)
        ++ (flat_map Spec.after_tab (Cells.finer_cells told.now.place told.now.precision)
        ++ 10 ∷ []))) }
{
    put_phg(out, told.phg)?;
    put_frequency(out, told.frequency)?;
    put_finer(out, told.place, told.precision)?;
    out.put(b"\n")
}

/// Puts the fields of a report's name, state and id, each after a tab; the tabs at once where they
/// are empty. Fails where the output is refused.
fn put_name<W: Write>(out: &mut Outlet<'_, W>, told: &Told<'_>) -> Result<(), WriteFault>
    ensures { Puts W.contents result out.old out.new
        (flat_map Spec.after_tab (Cells.name_cells (told_view told.now))) }
{
    if told.name.is_empty() && told.state.is_empty() && told.id.is_empty() {
        return out.put(b"\t\t\t");
    }
    put_cells(out, &name_cells(told))
}

/// Puts the fields of where something is, each after a tab; the tabs at once where no fix, place or
/// symbol is told, and all but the symbol at once for a place alone. Fails where the output is
/// refused.
fn put_where<W: Write>(
    out: &mut Outlet<'_, W>,
    fix: Option<Fix>,
    place: Option<Place>,
    symbol: Option<Symbol>,
) -> Result<(), WriteFault>
    ensures { Puts W.contents result out.old out.new
        (flat_map Spec.after_tab (Cells.where_cells fix place symbol)) }
{
    match (fix, place, symbol) {
        (None, None, None) => out.put(b"\t\t\t\t\t"),
        (None, Some(place), _) => put_there(out, &place, &symbol),
        _ => put_cells(out, &where_cells(fix, place, symbol)),
    }
}

/// Puts the fields of a place and of what it is shown as, each after a tab. Fails where the output
/// is refused.
fn put_there<W: Write>(
    out: &mut Outlet<'_, W>,
    place: &Place,
    symbol: &Option<Symbol>,
) -> Result<(), WriteFault>
    ensures { Puts W.contents result out.old out.new
        (flat_map Spec.after_tab (Cells.where_cells None (Some place.now) symbol.now)) }
{
    out.put(place_text(place).as_slice())?;
    put_symbol(out, symbol)
}

/// The fields of a place, each after a tab, and the tab before the symbol.
fn place_text(place: &Place) -> ArrayVec<u8, MAX_PLACE>
    ensures { result.items ≡ flat_map Spec.after_tab
        (Cells.latitude_field (Some place.now) ∷ Cells.longitude_field (Some place.now)
        ∷ Cells.ambiguity_field (Some place.now) ∷ Cells.compressed_field (Some place.now)
        ∷ [] ∷ []) }
{
    let mut text = ArrayVec::new();
    text.push(b'\t');
    push_all(&mut text, decimal_degrees_text(&place.lat()).as_slice());
    text.push(b'\t');
    push_all(&mut text, decimal_degrees_text(&place.lon()).as_slice());
    text.push(b'\t');
    push_form(&mut text, place);
    text
}

/// Puts the fields of how many digits a place leaves out and of whether it is compressed, and the
/// tab before the symbol, at the end of `out`.
fn push_form(out: &mut ArrayVec<u8, MAX_PLACE>, place: &Place)
    requires { array_vec_len out.old + 45 ≤ 212 }
    ensures { out.new.items ≡ out.old.items ++ (Cells.ambiguity_field (Some place.now)
        ++ (9 ∷ Cells.compressed_field (Some place.now) ++ 9 ∷ [])) }
{
    match place {
        Place::Plain { ambiguity, .. } => {
            push_all(out, Buffer::new().format(*ambiguity).as_bytes());
            push_all(out, b"\tno\t");
        }
        Place::Base91 { .. } => push_all(out, b"\tyes\t"),
    }
}

/// The fields of a time stamp, and of a course, a speed and an altitude that are unknown, each
/// after a tab.
fn stamp_text(stamp: &Stamp) -> ArrayVec<u8, 11>
    ensures { result.items ≡ flat_map Spec.after_tab
        (Cells.stamp_field (Some stamp.now) ∷ [] ∷ [] ∷ [] ∷ []) }
{
    let mut text = ArrayVec::new();
    text.push(b'\t');
    push_all(&mut text, &stamp.text());
    push_all(&mut text, b"\t\t\t");
    text
}

/// Puts the fields of a report's time stamp, and of its subject's course, speed and altitude, each
/// after a tab. All that is put at once where none of them, or only a stamp, is known. Fails where
/// the output is refused.
fn put_motion<W: Write>(out: &mut Outlet<'_, W>, told: &Told<'_>) -> Result<(), WriteFault>
    ensures { Puts W.contents result out.old out.new
        (flat_map Spec.after_tab (Cells.motion_cells (told_view told.now))) }
{
    match (
        told.stamp,
        told.motion.course,
        told.motion.speed,
        told.altitude,
    ) {
        (None, None, None, None) => out.put(b"\t\t\t\t"),
        (Some(stamp), None, None, None) => out.put(stamp_text(&stamp).as_slice()),
        _ => put_cells(out, &motion_cells(told)),
    }
}

/// Puts the fields of whether a station takes messages, of its fix and of its radio's range, each
/// after a tab. The tabs are put at once where nothing is said of them. Fails where the output is
/// refused.
fn put_more<W: Write>(out: &mut Outlet<'_, W>, told: &Told<'_>) -> Result<(), WriteFault>
    ensures { Puts W.contents result out.old out.new
        (flat_map Spec.after_tab (Cells.more_cells (told_view told.now))) }
{
    match (told.messaging, told.is_current, told.range) {
        (None, None, None) => out.put(b"\t\t\t"),
        _ => put_cells(out, &more_cells(told)),
    }
}

/// Puts the weather's fields, each after a tab; the tabs at once without any. Fails where the
/// output is refused.
fn put_weather<W: Write>(
    out: &mut Outlet<'_, W>,
    weather: Option<Weather>,
) -> Result<(), WriteFault>
    ensures { Puts W.contents result out.old out.new
        (flat_map Spec.after_tab (Cells.weather_cells (Cells.weather_in weather))) }
{
    match weather {
        Some(weather) => put_cells(out, &weather_cells(weather)),
        None => out.put(b"\t\t\t\t\t\t\t\t\t\t"),
    }
}

/// Puts the fields of a report's telemetry, or else those of a comment's, each after a tab; the
/// tabs at once without any. Fails where the output is refused.
fn put_telemetry<W: Write>(
    out: &mut Outlet<'_, W>,
    telemetry: Option<Telemetry<'_>>,
    measured: Option<CommentTelemetry>,
) -> Result<(), WriteFault>
    ensures { Puts W.contents result out.old out.new (flat_map Spec.after_tab
        (Cells.measured_cells (option_map telemetry_view telemetry.entry) measured)) }
{
    match telemetry {
        Some(telemetry) => put_cells(out, &telemetry_cells(telemetry)),
        None => put_measured(out, measured),
    }
}

/// Puts the fields of a comment's telemetry, each after a tab; without it the seven tabs at once.
/// Fails where the output is refused.
fn put_measured<W: Write>(
    out: &mut Outlet<'_, W>,
    measured: Option<CommentTelemetry>,
) -> Result<(), WriteFault>
    ensures { Puts W.contents result out.old out.new
        (flat_map Spec.after_tab (Cells.commented_cells measured)) }
{
    match measured {
        Some(measured) => put_cells(out, &comment_telemetry_cells(measured)),
        None => out.put(b"\t\t\t\t\t\t\t"),
    }
}

/// Puts the fields of a frequency, each after a tab; the tabs at once without one. Fails where the
/// output is refused.
fn put_frequency<W: Write>(
    out: &mut Outlet<'_, W>,
    frequency: Option<Frequency<'_>>,
) -> Result<(), WriteFault>
    ensures { Puts W.contents result out.old out.new (flat_map Spec.after_tab
        (Cells.frequency_cells (option_map frequency_view frequency.entry))) }
{
    match frequency {
        Some(frequency) => put_cells(out, &frequency_cells(frequency)),
        None => out.put(b"\t\t\t"),
    }
}

/// Puts the fields of a place with more digits, each after a tab; the tabs at once where none are
/// told. Fails where the output is refused.
fn put_finer<W: Write>(
    out: &mut Outlet<'_, W>,
    place: Option<Place>,
    more: Option<SignedPrecision>,
) -> Result<(), WriteFault>
    ensures { Puts W.contents result out.old out.new
        (flat_map Spec.after_tab (Cells.finer_cells place more)) }
{
    match more {
        Some(_) => put_cells(out, &finer_cells(place, more)),
        None => out.put(b"\t\t"),
    }
}

/// Puts the fields of what a station says of its transmitter, each after a tab; the tabs at once
/// where it says nothing. Fails where the output is refused.
fn put_phg<W: Write>(out: &mut Outlet<'_, W>, phg: Option<Transmitter>) -> Result<(), WriteFault>
    ensures { Puts W.contents result out.old out.new
        (flat_map Spec.after_tab (Cells.phg_cells phg)) }
{
    match phg {
        Some(phg) => put_cells(out, &phg_cells(phg)),
        None => out.put(b"\t\t\t\t"),
    }
}
