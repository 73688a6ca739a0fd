//! The fields of the lines of histories and listings, each of which stands after a space.
ghost use Rattle.std.specs.Prelude.{◌≡◌, map};
ghost use Rattle.std.specs.Option.{option_map};
ghost use Rattle.aprs_io.specs.Outlet.{Puts};
ghost use Rattle.aprs_table.specs.FieldText.{field_text};
ghost use Rattle.aprs_table.specs.SpacedLine as Spec;

use aprs_ax25::Callsign;
use aprs_io::{Outlet, WriteFault, push_all, put_shown, shown_byte};
use aprs_log::Moment;
use aprs_report::{Fraction, Place, Stamp, Symbol};
use arrayvec::ArrayVec;
use itoa::Buffer;
use std::io::Write;

/// What stands between two spaces of a line.
#[derive(Drop)]
pub enum Field<'a> {
    /// Bytes that are put as they are.
    Plain(&'a [u8]),
    /// A name, in which a space is shown too.
    Word(&'a [u8]),
    Call(Callsign),
    Count(u64),
    Moment(Moment),
    /// A time stamp, or `-` without one.
    Stamp(Option<Stamp>),
    Degrees(Fraction),
    /// How many digits of a place are left out, or `c` for a compressed one.
    Ambiguity(Place),
    Symbol(Symbol),
}

/// The fields that say where something is: time stamp, latitude, longitude, ambiguity and symbol.
pub fn place_fields(stamp: Option<Stamp>, place: Place, symbol: Symbol) -> [Field<'static>; 5]
    ensures { map field_text result ≡ Spec.place_fields stamp place symbol }
{
    [
        Field::Stamp(stamp),
        Field::Degrees(place.lat()),
        Field::Degrees(place.lon()),
        Field::Ambiguity(place),
        Field::Symbol(symbol),
    ]
}

/// A message's id, or `-` without one.
pub fn id_text<'a>(id: Option<&'a [u8]>) -> &'a [u8]
    ensures { result.now ≡ Spec.id_word (option_map (λ id. id.now) id.entry) }
{
    match id {
        Some(id) => id,
        None => b"-",
    }
}

/// Puts the field's text. Fails where the output is refused.
pub fn put_field<W: Write>(out: &mut Outlet<'_, W>, field: &Field<'_>) -> Result<(), WriteFault>
    ensures { Puts W.contents result out.old out.new (field_text field.now) }
{
    match field {
        Field::Plain(bytes) => out.put(bytes),
        Field::Word(bytes) => put_word(out, bytes),
        Field::Call(call) => out.put(call.text().as_slice()),
        Field::Count(n) => out.put(Buffer::new().format(*n).as_bytes()),
        Field::Moment(moment) => out.put(&moment.text()),
        Field::Stamp(stamp) => out.put(stamp_or_dash(stamp).as_slice()),
        Field::Degrees(fraction) => out.put(degrees_text(fraction).as_slice()),
        Field::Ambiguity(place) => out.put(ambiguity_text(place).as_slice()),
        Field::Symbol(symbol) => put_shown(out, &[symbol.table, symbol.code]),
    }
}

/// The stamp's six digits and its mark, or `-` without a stamp.
fn stamp_or_dash(stamp: &Option<Stamp>) -> ArrayVec<u8, 7>
    ensures { result.items ≡ Spec.stamp_text stamp.now }
{
    let mut text = ArrayVec::new();
    match stamp {
        Some(stamp) => push_all(&mut text, &stamp.text()),
        None => text.push(b'-'),
    }
    text
}

/// The fraction's numerator, `/` and its denominator, in decimal. There is room for two numbers
/// of 40 bytes, the most that `itoa` writes.
fn degrees_text(fraction: &Fraction) -> ArrayVec<u8, 81>
    ensures { result.items ≡ Spec.degrees_text fraction.now }
{
    let mut text = ArrayVec::new();
    push_all(
        &mut text,
        Buffer::new().format(fraction.numerator).as_bytes(),
    );
    push_all(&mut text, b"/");
    push_all(
        &mut text,
        Buffer::new().format(fraction.denominator).as_bytes(),
    );
    text
}

/// How many digits of its minutes a plain position leaves out, in decimal, or `c` for a
/// compressed position. There is room for 40 bytes, the most that `itoa` writes.
fn ambiguity_text(place: &Place) -> ArrayVec<u8, 40>
    ensures { result.items ≡ Spec.ambiguity_text place.now }
{
    let mut text = ArrayVec::new();
    match place {
        Place::Plain { ambiguity, .. } => {
            push_all(&mut text, Buffer::new().format(*ambiguity).as_bytes());
        }
        Place::Base91 { .. } => text.push(b'c'),
    }
    text
}

/// Puts the bytes of a name as they are shown, and a space as `\x20`. Fails where the output is
/// refused.
fn put_word<W: Write>(out: &mut Outlet<'_, W>, bytes: &[u8]) -> Result<(), WriteFault>
    ensures { Puts W.contents result out.old out.new (Spec.word bytes.now) }
{
    for b in bytes {
        out.put(word_byte(*b).as_slice())?;
    }
    Ok(())
}

/// What a byte of a name is shown as: a space as `\x20`, and any other byte as in a text.
fn word_byte(b: u8) -> ArrayVec<u8, 4>
    ensures { result.items ≡ Spec.word_byte b }
{
    if b == b' ' {
        let mut text = ArrayVec::new();
        push_all(&mut text, b"\\x20");
        text
    } else {
        shown_byte(b)
    }
}
