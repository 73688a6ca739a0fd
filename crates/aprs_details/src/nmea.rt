//! Sentences of GPS receivers (APRS Protocol Reference 1.0.1, chapter 6; NMEA 0183).
ghost use Rattle.std.specs.Prelude.{◌≡◌, ◌≤◌, ◌<◌, ◌^◌, length, IfSome};
ghost use Rattle.std.specs.Option.{option_map};
ghost use Rattle.hex.specs.Hex.{hex_digit_value};
ghost use Rattle.aprs_io.specs.Cut.{cut_at};
ghost use Rattle.aprs_report.specs.Reader.{byte_where};
ghost use Rattle.aprs_details.specs.Nmea as Spec;

use crate::decimal::nearest;
use crate::extension::course;
use crate::third_party::cut_or_all;
use crate::value::{numeral, without_minus};
use aprs_io::cut_at;

/// Where a GPS receiver is, by a sentence GGA, GLL or RMC with a valid fix.
#[derive(Clone, Copy, Debug, PartialEq, Eq)]
pub struct Fix {
    /// Ten-millionths of a degree north, nearest: -900000000 to 900000000.
    pub latitude: i32,
    /// Ten-millionths of a degree east, nearest: -1800000000 to 1800000000.
    pub longitude: i32,
    /// The course in degrees, nearest, 1 to 360, if RMC says it.
    pub course: Option<u32>,
    /// The speed in knots, nearest, if RMC says it.
    pub speed: Option<u32>,
    /// The altitude in ten-thousandths of a metre, nearest, if GGA says it.
    pub altitude: Option<i64>,
}

/// Ten to the power of this exponent, 0 to 5.
fn power_of_ten(exponent: usize) -> u64
    requires { exponent ≤ 5 }
    ensures exact { result ≡ 10 ^ exponent }
    ensures small { result ≤ 100000 }
{
    match exponent {
        0 => 1,
        1 => 10,
        2 => 100,
        3 => 1_000,
        4 => 10_000,
        _ => 100_000,
    }
}

/// The number of one to six digits. `None` where the text is anything else.
fn digits(text: &[u8]) -> Option<u32>
    ensures exact { result ≡ Spec.digits_of text.now }
    ensures small { IfSome result (λ n. n < 1000000) }
{
    if 1 <= text.len() && text.len() <= 6 {
        numeral(text)
    } else {
        None
    }
}

/// The digits after a point, one to six, in millionths. `None` for any other text.
fn millionths(text: &[u8]) -> Option<u64>
    ensures exact { result ≡ Spec.millionths_of text.now }
    ensures small { IfSome result (λ n. n < 100000000000) }
{
    let n = digits(text)?;
    Some(n as u64 * power_of_ten(6 - text.len()))
}

/// A number in millionths: one to six digits, and perhaps a point and one to six digits. `None` for
/// any other text.
fn number(text: &[u8]) -> Option<u64>
    ensures exact { result ≡ Spec.number_in_millionths text.now }
    ensures small { IfSome result (λ n. n < 2000000000000) }
{
    match cut_at(text, b'.') {
        Some((whole, decimals)) => {
            let n = digits(whole)?;
            let more = millionths(decimals)?;
            Some(n as u64 * 1_000_000 + more)
        }
        None => {
            let n = digits(text)?;
            Some(n as u64 * 1_000_000)
        }
    }
}

/// Nothing, or a point and one to six digits, in millionths. `None` for any other text.
fn after_point(text: &[u8]) -> Option<u64>
    ensures exact { result ≡ Spec.after_point text.now }
    ensures small { IfSome result (λ n. n < 100000000000) }
{
    match text {
        [] => Some(0),
        [b'.', decimals @ ..] => millionths(decimals),
        _ => None,
    }
}

/// The minutes in millionths: two digits below 60, and perhaps a point and one to six digits.
/// `None` for any other text.
#[tactic(auto, unfolding(crate::specs::Nmea::sent_minutes))]
fn minutes(text: &[u8]) -> Option<u64>
    ensures exact { result ≡ Spec.sent_minutes text.now }
    ensures small { IfSome result (λ n. n < 200000000000) }
{
    let (digits, rest) = text.split_first_chunk::<2>()?;
    let whole = numeral(digits)?;
    let more = after_point(rest)?;
    if whole < 60 {
        Some(whole as u64 * 1_000_000 + more)
    } else {
        None
    }
}

/// Whether the letter that a field is names the negative half of the globe. `None` where it names
/// neither half.
fn half(positive: u8, negative: u8, field: &[u8]) -> Option<bool>
    ensures { result ≡ Spec.sent_half positive negative field.now }
{
    match field {
        [letter] => {
            if *letter == positive {
                Some(false)
            } else if *letter == negative {
                Some(true)
            } else {
                None
            }
        }
        _ => None,
    }
}

/// The angle in ten-millionths of a degree, nearest; a half is rounded away from 0. `None` where it
/// is over `limit` degrees, or where a field isn't of its form.
#[tactic(auto, unfolding(crate::specs::Nmea::sent_angle))]
fn angle(
    limit: u64,
    positive: u8,
    negative: u8,
    degrees: &[u8],
    minute_text: &[u8],
    letter: &[u8],
) -> Option<i32>
    requires limit { limit ≤ 180 }
    requires short { length degrees.now ≤ 3 }
    ensures { result
        ≡ Spec.sent_angle limit positive negative degrees.now minute_text.now letter.now }
{
    let degrees = numeral(degrees)?;
    let minutes = minutes(minute_text)?;
    let is_negative = half(positive, negative, letter)?;
    let whole = degrees as u64 * 60_000_000 + minutes;
    if whole > limit * 60_000_000 {
        return None;
    }
    let angle = nearest(whole, 6) as i32;
    Some(if is_negative { -angle } else { angle })
}

/// The latitude in ten-millionths of a degree: `DDMM` and perhaps a point and one to six digits,
/// and `N` or `S`. `None` for anything else, and above 90 degrees.
#[tactic(auto, unfolding(crate::specs::Nmea::sent_latitude))]
fn latitude(field: &[u8], letter: &[u8]) -> Option<i32>
    ensures { result ≡ Spec.sent_latitude field.now letter.now }
{
    let (degrees, minutes) = field.split_first_chunk::<2>()?;
    angle(90, b'N', b'S', degrees, minutes, letter)
}

/// The longitude in ten-millionths of a degree: `DDDMM` and perhaps a point and one to six digits,
/// and `E` or `W`. `None` for anything else, and above 180 degrees.
#[tactic(auto, unfolding(crate::specs::Nmea::sent_longitude))]
fn longitude(field: &[u8], letter: &[u8]) -> Option<i32>
    ensures { result ≡ Spec.sent_longitude field.now letter.now }
{
    let (degrees, minutes) = field.split_first_chunk::<3>()?;
    angle(180, b'E', b'W', degrees, minutes, letter)
}

/// The field at the start of the text, up to a comma, or all of it without one.
fn field_at(text: &[u8]) -> &[u8]
    ensures { result.now ≡ Spec.next_field text.now }
{
    let (field, _) = cut_or_all(text);
    field
}

/// The two angles with which the text begins, in four fields with a comma after each, and the rest.
#[tactic(auto, unfolding(crate::specs::Nmea::place_at))]
fn place_at(text: &[u8]) -> Option<(i32, i32, &[u8])>
    ensures { option_map (λ x. (x.0, x.1, x.2.now)) result ≡ Spec.place_at text.now }
{
    let (north, rest) = cut_at(text, b',')?;
    let (north_half, rest) = cut_at(rest, b',')?;
    let (east, rest) = cut_at(rest, b',')?;
    let (east_half, rest) = cut_at(rest, b',')?;
    let latitude = latitude(north, north_half)?;
    let longitude = longitude(east, east_half)?;
    Some((latitude, longitude, rest))
}

/// Whether a field says that the fix is valid: it is `A` alone.
fn is_valid(field: &[u8]) -> bool
    ensures { result ≡ Spec.is_valid field.now }
{
    field == b"A".as_slice()
}

/// Whether a field is the quality of a fix: a digit above 0.
fn is_quality(field: &[u8]) -> bool
    ensures { result ≡ Spec.is_quality field.now }
{
    match field {
        [quality] => b'1' <= *quality && *quality <= b'9',
        _ => false,
    }
}

/// The number in a field, to the nearest whole one.
fn whole(field: &[u8]) -> Option<u32>
    ensures { result ≡ Spec.whole_of field.now }
{
    let n = number(field)?;
    Some(nearest(n, 1_000_000) as u32)
}

/// The course in degrees, nearest, 1 to 360; 0 is read as 360. `None` where it is more, or where
/// the field is empty or no number.
fn course_in(field: &[u8]) -> Option<u32>
    ensures { result ≡ Spec.sent_course field.now }
{
    let degrees = whole(field)?;
    course(if degrees == 0 { 360 } else { degrees })
}

/// The altitude in ten-thousandths of a metre, nearest: a number that may have a minus. A half is
/// rounded away from 0. `None` for any other text.
fn signed_altitude(field: &[u8]) -> Option<i64>
    ensures { result ≡ Spec.signed_altitude_of field.now }
{
    let n = number(without_minus(field))?;
    let parts = nearest(n, 100) as i64;
    Some(if field.starts_with(b"-") {
        -parts
    } else {
        parts
    })
}

/// The altitude in ten-thousandths of a metre, if its unit is the metre.
fn altitude(field: &[u8], unit: &[u8]) -> Option<i64>
    ensures { result ≡ Spec.altitude_in field.now unit.now }
{
    if unit == b"M".as_slice() {
        signed_altitude(field)
    } else {
        None
    }
}

/// The fix that GGA tells, from the fields after its name. `None` where its quality isn't a digit
/// above 0, or where its place isn't of its form or a field before the unit is missing.
#[tactic(auto, unfolding(crate::specs::Nmea::gga_of))]
fn gga(text: &[u8]) -> Option<Fix>
    ensures { result ≡ Spec.gga_of text.now }
{
    let (_, rest) = cut_at(text, b',')?;
    let (latitude, longitude, rest) = place_at(rest)?;
    let (quality, rest) = cut_at(rest, b',')?;
    let (_, rest) = cut_at(rest, b',')?;
    let (_, rest) = cut_at(rest, b',')?;
    let (metres, rest) = cut_at(rest, b',')?;
    if is_quality(quality) {
        Some(Fix {
            latitude,
            longitude,
            course: None,
            speed: None,
            altitude: altitude(metres, field_at(rest)),
        })
    } else {
        None
    }
}

/// The fix that GLL tells, from the fields after its name. `None` where the field after the time
/// doesn't say that it is valid, or is missing, or where its place isn't of its form.
#[tactic(auto, unfolding(crate::specs::Nmea::gll_of))]
fn gll(text: &[u8]) -> Option<Fix>
    ensures { result ≡ Spec.gll_of text.now }
{
    let (latitude, longitude, rest) = place_at(text)?;
    let (_, rest) = cut_at(rest, b',')?;
    if is_valid(field_at(rest)) {
        Some(Fix {
            latitude,
            longitude,
            course: None,
            speed: None,
            altitude: None,
        })
    } else {
        None
    }
}

/// The fix that RMC tells, from the fields after its name. `None` where it isn't valid, or where
/// its place isn't of its form or no comma follows the speed.
#[tactic(auto, unfolding(crate::specs::Nmea::rmc_of))]
fn rmc(text: &[u8]) -> Option<Fix>
    ensures { result ≡ Spec.rmc_of text.now }
{
    let (_, rest) = cut_at(text, b',')?;
    let (status, rest) = cut_at(rest, b',')?;
    let (latitude, longitude, rest) = place_at(rest)?;
    let (knots, rest) = cut_at(rest, b',')?;
    if is_valid(status) {
        Some(Fix {
            latitude,
            longitude,
            course: course_in(field_at(rest)),
            speed: whole(knots),
            altitude: None,
        })
    } else {
        None
    }
}

/// The fix that the sentence of this name tells in these fields. `None` for any name but `GPGGA`,
/// `GPGLL` and `GPRMC`.
fn fix_named(name: &[u8], fields: &[u8]) -> Option<Fix>
    ensures { result ≡ Spec.fix_named name.now fields.now }
{
    if name == b"GPGGA".as_slice() {
        gga(fields)
    } else if name == b"GPGLL".as_slice() {
        gll(fields)
    } else if name == b"GPRMC".as_slice() {
        rmc(fields)
    } else {
        None
    }
}

/// The checksum of bytes: each of them, joined by exclusive or.
fn checksum(bytes: &[u8]) -> u8
    ensures { result ≡ Spec.checksum_of bytes.now }
{
    let mut sum = 0;
    for byte in bytes {
        sum ^= *byte;
    }
    sum
}

/// The value of a hexadecimal digit, in either case.
fn hex_digit(byte: u8) -> Option<u8>
    ensures exact { result ≡ hex_digit_value byte }
    ensures small { IfSome result (λ n. n < 16) }
{
    match byte {
        b'A'..=b'F' => Some(byte - 55),
        b'a'..=b'f' => Some(byte - 87),
        b'0'..=b'9' => Some(byte - 48),
        _ => None,
    }
}

/// The checksum with which the text begins, two hexadecimal digits.
#[tactic(auto, unfolding(crate::specs::Nmea::checksum_at))]
fn checksum_at(text: &[u8]) -> Option<u8>
    ensures { result ≡ Spec.checksum_at text.now }
{
    let (digits, _) = text.split_first_chunk::<2>()?;
    let [high, low] = *digits;
    let high = hex_digit(high)?;
    let low = hex_digit(low)?;
    Some(high * 16 + low)
}

/// What stands before the first star, if its checksum follows this; all of the text without a star.
/// `None` where a checksum is wrong or missing after a star.
fn checked(text: &[u8]) -> Option<&[u8]>
    ensures { option_map (λ x. x.now) result ≡ Spec.checked text.now }
{
    match cut_at(text, b'*') {
        Some((sentence, after)) => {
            let sum = checksum_at(after)?;
            if sum == checksum(sentence) {
                Some(sentence)
            } else {
                None
            }
        }
        None => Some(text),
    }
}

/// The dollar that some bytes begin with, and the rest.
fn dollar(bytes: &[u8]) -> Option<(u8, &[u8])>
    ensures { option_map (λ x. (x.0, x.1.now)) result ≡ byte_where Spec.is_dollar bytes.now }
{
    match bytes {
        [b'$', rest @ ..] => Some((b'$', rest)),
        _ => None,
    }
}

impl Fix {
    ghost use Rattle.std.specs.Prelude.{◌≡◌};
    ghost use Rattle.aprs_details.specs.Nmea as Spec;

    /// The fix that an information field tells: `$GPGGA`, `$GPGLL` or `$GPRMC` whose fix is valid,
    /// and whose checksum is right where it has a star. `None` where it is no such sentence, or a
    /// field of its place isn't of its form. `None` also where no comma follows the altitude of
    /// GGA or the speed of RMC. Takes no memory.
    #[tactic(auto, unfolding(crate::specs::Nmea::fix_of))]
    pub fn read(info: &[u8]) -> Option<Fix>
        ensures { result ≡ Spec.fix_of info.now }
    {
        let (_, rest) = dollar(info)?;
        let sentence = checked(rest)?;
        let (name, fields) = cut_at(sentence, b',')?;
        fix_named(name, fields)
    }
}
