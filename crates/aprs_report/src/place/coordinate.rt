//! Latitudes and longitudes of plain positions, in hundredths of minutes.

ghost use Rattle.std.specs.Prelude.{◌≡◌, ◌<◌, ◌≤◌, ◌^◌, length, nat_lt, IfSome};
ghost use Rattle.std.specs.List.{list_all};
ghost use Rattle.aprs_report.specs.Reader as Spec;
ghost use Rattle.aprs_report.specs.Coordinate.{per_degree};

use crate::bytes::{Trailing, is_digit_byte};
use crate::numeral::numeral;

/// How many hundredths of minutes a degree has.
pub const PER_DEGREE: u32 = 6_000;

/// Which of the two angles of a position.
#[derive(Clone, Copy)]
pub enum Axis {
    Latitude,
    Longitude,
}

impl Axis {
    ghost use Rattle.aprs_report.specs.Coordinate.{limit, letter, is_blank};

    /// The greatest angle in hundredths of minutes: 90 degrees of latitude, 180 of longitude.
    fn limit(self) -> u32
        ensures { result ≡ limit self }
    {
        match self {
            Axis::Latitude => 540_000,
            Axis::Longitude => 1_080_000,
        }
    }

    /// The letter of a half of the globe, of which the south and the west are negative.
    fn letter(self, is_negative: bool) -> u8
        ensures { result ≡ letter self is_negative }
    {
        match (self, is_negative) {
            (Axis::Latitude, true) => b'S',
            (Axis::Latitude, false) => b'N',
            (Axis::Longitude, true) => b'W',
            (Axis::Longitude, false) => b'E',
        }
    }

    /// Whether a byte may stand where a digit of the minutes is left out: a space. In a longitude
    /// it may be a digit too, since the latitude shows how many digits are left out.
    fn can_blank(self, byte: u8) -> bool
        ensures { result ≡ is_blank self byte }
    {
        match self {
            Axis::Latitude => byte == b' ',
            Axis::Longitude => byte == b' ' || is_digit_byte(byte),
        }
    }

    /// Whether each of the bytes may stand where a digit of the minutes is left out.
    fn all_blank(self, places: &[u8]) -> bool
        ensures { result ≡ list_all (is_blank self) places.now }
    {
        places.iter().all(|place| self.can_blank(*place))
    }

    /// Whether the half of the globe that a letter names is negative: south or west. `None` where
    /// it is no letter of this axis.
    fn half(self, letter: u8) -> Option<bool>
        ensures { result ≡ Spec.half_of self letter }
    {
        if letter == self.letter(true) {
            Some(true)
        } else if letter == self.letter(false) {
            Some(false)
        } else {
            None
        }
    }
}

/// How many of the four digits of minutes in `MM.hhN` are left out: the number of spaces at their
/// right end, 0 to 4.
pub fn ambiguity(text: &[u8; 6]) -> u8
    ensures exact { result ≡ Spec.ambiguity_of text.now }
    ensures small { result ≤ 4 }
{
    let [tens, units, _, tenths, hundredths, _] = *text;
    let places = [tens, units, tenths, hundredths];
    4 - Trailing::Spaces.cut(&places).len() as u8
}

/// Ten to the power of this exponent, 0 to 4: 1 to 10,000.
fn power_of_ten(exponent: u8) -> u64
    requires { exponent ≤ 4 }
    ensures exact { result ≡ 10 ^ exponent }
    ensures small { result ≤ 10000 }
{
    match exponent {
        0 => 1,
        1 => 10,
        2 => 100,
        3 => 1_000,
        _ => 10_000,
    }
}

/// These hundredths of minutes, or `None` where they make a degree or more.
fn within_degree(minutes: u64) -> Option<u64>
    ensures exact { result ≡ Spec.value_when (nat_lt minutes per_degree) minutes }
    ensures small { IfSome result (λ n. n < per_degree) }
{
    if minutes < PER_DEGREE as u64 {
        Some(minutes)
    } else {
        None
    }
}

/// The minutes in hundredths, from the bytes of their tens, units, tenths and hundredths. The
/// last of these, as many as `ambiguity` says, are left out and read as 0. `None` where a byte
/// can't stand at its place, or where the minutes make a degree or more.
#[inline(always)]
#[tactic(auto, unfolding(crate::specs::Reader::minutes_of))]
fn minutes(axis: Axis, ambiguity: u8, places: &[u8; 4]) -> Option<u64>
    requires { ambiguity ≤ 4 }
    ensures exact { result ≡ Spec.minutes_of axis ambiguity places.now }
    ensures small { IfSome result (λ n. n < per_degree) }
{
    if ambiguity == 0 {
        // As in nearly all positions. Here the compiler knows that there are four digits.
        return within_degree(numeral(10, b'0', places)? as u64);
    }
    let (known, blank) = places.split_at(4 - ambiguity as usize);
    if !axis.all_blank(blank) {
        return None;
    }
    within_degree(numeral(10, b'0', known)? as u64 * power_of_ten(ambiguity))
}

/// An angle in hundredths of minutes, negative to the south and the west, from the digits of its
/// degrees, and from `MM.hh` with the letter of its half of the globe. The last digits of the
/// minutes, as many as `ambiguity` says, are left out and read as 0. `None` where a byte can't
/// stand at its place, or where the angle is over 90 degrees of latitude or 180 of longitude.
#[inline(always)]
#[tactic(auto, unfolding(crate::specs::Reader::angle_of))]
pub fn angle(axis: Axis, ambiguity: u8, degrees: &[u8], text: &[u8; 6]) -> Option<i32>
    requires places { ambiguity ≤ 4 }
    requires digits { length degrees.now ≤ 3 }
    ensures { result ≡ Spec.angle_of axis ambiguity degrees.now text.now }
{
    let [tens, units, point, tenths, hundredths, letter] = *text;
    let degrees = numeral(10, b'0', degrees)? as u64;
    let minutes = minutes(axis, ambiguity, &[tens, units, tenths, hundredths])?;
    let is_negative = axis.half(letter)?;
    let angle = degrees * PER_DEGREE as u64 + minutes;
    if point != b'.' || angle > axis.limit() as u64 {
        return None;
    }
    let angle = angle as i32;
    Some(if is_negative { -angle } else { angle })
}
