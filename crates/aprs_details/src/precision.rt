//! More digits of a position.
ghost use Rattle.std.specs.Prelude.{◌≡◌, ◌<◌, ◌^◌, IfSome, unsigned_abs};
ghost use Rattle.aprs_details.specs.Precision as Spec;

use crate::halves::Halves;
use crate::value::is_base91;
use aprs_report::{Fraction, Place};

/// What a further digit of an angle counts: parts of a hundredth of a minute.
#[derive(Clone, Copy, Debug, PartialEq, Eq)]
pub enum Scale {
    /// Tenths, as decimal digits.
    Tenths,
    /// Ninety-firsts, as digits of base 91.
    NinetyFirsts,
}

/// What a comment says more of its position's digits (APRS 1.2, `!DAO!`), of the datum WGS 84.
#[derive(Clone, Copy, Debug, PartialEq, Eq)]
pub struct Precision {
    /// What the digits count.
    pub scale: Scale,
    /// The next digit of the latitude, 0 to 9 or 0 to 90; 0 where it is a space.
    pub latitude: u8,
    /// The next digit of the longitude, likewise.
    pub longitude: u8,
}

/// What the digits after the letter of a datum count. `None` where the datum isn't WGS 84.
fn scale_of(datum: u8) -> Option<Scale>
    ensures { result ≡ Spec.scale_of datum }
{
    match datum {
        b'W' => Some(Scale::Tenths),
        b'w' => Some(Scale::NinetyFirsts),
        _ => None,
    }
}

/// The number of a decimal digit; a space is 0. `None` for any other byte.
fn tenth(byte: u8) -> Option<u8>
    ensures { result ≡ Spec.tenth_of byte }
{
    match byte {
        b' ' => Some(0),
        b'0'..=b'9' => Some(byte - b'0'),
        _ => None,
    }
}

/// The number of a digit of base 91; a space is 0. `None` for any other byte.
fn ninety_first(byte: u8) -> Option<u8>
    ensures { result ≡ Spec.ninety_first_of byte }
{
    if byte == b' ' {
        Some(0)
    } else if is_base91(byte) {
        Some(byte - 33)
    } else {
        None
    }
}

/// The number of a digit of this scale; a space is 0. `None` for any other byte.
fn part(scale: Scale, byte: u8) -> Option<u8>
    ensures { result ≡ Spec.scaled_digit scale byte }
{
    match scale {
        Scale::Tenths => tenth(byte),
        Scale::NinetyFirsts => ninety_first(byte),
    }
}

/// The digits that five bytes say, `!Wxy!` or `!wxy!`. `None` where they have another form.
#[tactic(auto, unfolding(crate::specs::Precision::precision_in))]
fn precision_in(field: &[u8; 5]) -> Option<Precision>
    ensures { result ≡ Spec.precision_in field.now }
{
    let [begin, datum, north, east, end] = *field;
    let scale = scale_of(datum)?;
    let latitude = part(scale, north)?;
    let longitude = part(scale, east)?;
    if begin == b'!' && end == b'!' {
        Some(Precision {
            scale,
            latitude,
            longitude,
        })
    } else {
        None
    }
}

/// The digits that the first five bytes of the text say. `None` where they say none.
#[tactic(auto, unfolding(crate::specs::Precision::precision_at))]
fn precision_at(text: &[u8]) -> Option<Precision>
    ensures { result ≡ Spec.precision_at text.now }
{
    let (field, _) = text.split_first_chunk::<5>()?;
    precision_in(field)
}

/// An angle of hundredths of a minute, counted in smaller parts: a hundredth has `parts` of them.
/// `more` of them are added away from 0: downwards in the negative half of the globe, also where
/// the angle is 0.
fn finer(parts: u8, more: u8, is_negative: bool, angle: i32) -> i64
    requires few { parts < 92 }
    ensures exact { result ≡ Spec.finer parts more is_negative angle }
    ensures small { unsigned_abs result < 2 ^ 38 }
{
    if is_negative {
        angle as i64 * parts as i64 - more as i64
    } else {
        angle as i64 * parts as i64 + more as i64
    }
}

/// An angle of hundredths of a minute with one digit more, in degrees.
fn finer_angle(scale: Scale, more: u8, is_negative: bool, angle: i32) -> Fraction
    ensures exact { result ≡ Spec.finer_angle scale more is_negative angle }
    ensures small { unsigned_abs result.numerator < 2 ^ 38 }
    ensures some { 0 < unsigned_abs result.denominator }
    ensures few { unsigned_abs result.denominator < 2 ^ 34 }
{
    match scale {
        Scale::Tenths => Fraction {
            numerator: finer(10, more, is_negative, angle),
            denominator: 60_000,
        },
        Scale::NinetyFirsts => Fraction {
            numerator: finer(91, more, is_negative, angle),
            denominator: 546_000,
        },
    }
}

impl Precision {
    ghost use Rattle.std.specs.Prelude.{◌≡◌};
    ghost use Rattle.aprs_details.specs.Precision as Spec;

    /// The first further digits in a comment, which may stand anywhere in it. They are `!Wxy!` with
    /// decimal digits, or `!wxy!` with digits of base 91, both of the datum WGS 84. A space is 0.
    /// `None` where it has none. Takes no memory.
    pub fn of_comment(comment: &[u8]) -> Option<Precision>
        ensures { result ≡ Spec.precision_of comment.now }
    {
        for i in 0..comment.len() {
            match precision_at(&comment[i..]) {
                Some(precision) => return Some(precision),
                None => {}
            }
        }
        None
    }
}

/// More digits of a position, with the halves of the globe in which they count.
#[derive(Clone, Copy, Debug, PartialEq, Eq)]
pub struct SignedPrecision {
    /// The digits.
    pub digits: Precision,
    /// The halves that the letters of the position name.
    pub halves: Halves,
}

impl SignedPrecision {
    ghost use Rattle.std.specs.Prelude.{◌≡◌, ◌<◌, ◌^◌, IfSome, unsigned_abs};
    ghost use Rattle.aprs_details.specs.Precision as Spec;

    /// The first further digits in the comment of a report, with the halves that the letters of its
    /// plain position name. `None` where the comment has none. Takes no memory.
    pub fn of_report(info: &[u8], comment: &[u8]) -> Option<SignedPrecision>
        ensures { result ≡ Spec.signed_precision_of info.now comment.now }
    {
        let digits = Precision::of_comment(comment)?;
        let halves = Halves::of_report(info, comment);
        Some(SignedPrecision { digits, halves })
    }

    /// The first further digits in the comment of a Mic-E position, with the halves that the
    /// characters of its destination name. `None` where the comment has none. Takes no memory.
    pub fn of_mic_e(characters: &[u8], comment: &[u8]) -> Option<SignedPrecision>
        ensures { result ≡ Spec.mic_e_signed_precision_of characters.now comment.now }
    {
        let digits = Precision::of_comment(comment)?;
        let halves = Halves::of_mic_e(characters);
        Some(SignedPrecision { digits, halves })
    }

    /// The latitude and the longitude of the place in degrees, with the digits more, as
    /// `decimal_degrees_text` takes them. `None` where the place is compressed, or digits of it
    /// are left out. A place on the equator or the meridian of Greenwich lies in the half that its
    /// letter names. At 90 or 180 degrees the digits lead past these. Takes no memory.
    pub fn refine(&self, place: &Place) -> Option<(Fraction, Fraction)>
        ensures exact { result ≡ Spec.finer_place self.now place.now }
        ensures small { IfSome result (λ x. unsigned_abs x.0.numerator < 2 ^ 38) }
        ensures small_too { IfSome result (λ x. unsigned_abs x.1.numerator < 2 ^ 38) }
        ensures some { IfSome result (λ x. 0 < unsigned_abs x.0.denominator) }
        ensures some_too { IfSome result (λ x. 0 < unsigned_abs x.1.denominator) }
        ensures few { IfSome result (λ x. unsigned_abs x.0.denominator < 2 ^ 34) }
        ensures few_too { IfSome result (λ x. unsigned_abs x.1.denominator < 2 ^ 34) }
    {
        match *place {
            Place::Plain {
                lat,
                lon,
                ambiguity,
            } => {
                if ambiguity == 0 {
                    let Precision {
                        scale,
                        latitude,
                        longitude,
                    } = self.digits;
                    Some((
                        finer_angle(scale, latitude, self.halves.is_south, lat),
                        finer_angle(scale, longitude, self.halves.is_west, lon),
                    ))
                } else {
                    None
                }
            }
            Place::Base91 { .. } => None,
        }
    }
}
