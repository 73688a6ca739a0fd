//! Where a position is, and how it is written.

ghost use Rattle.std.specs.Prelude.{◌≡◌, ◌<◌, ◌^◌, unsigned_abs};
ghost use Rattle.std.specs.Option.{option_map};
ghost use Rattle.aprs_report.specs.Reader.{plain_of, compressed_of, place_of};

mod compressed;
mod coordinate;

use crate::bytes::{chunk, is_digit_byte};
use crate::symbol::{Symbol, code_at_start, compressed_table_at_start, table_at_start};
use compressed::base91;
pub use coordinate::PER_DEGREE;
use coordinate::{Axis, ambiguity, angle};

/// The number of the equator and of the meridian of Greenwich in a compressed position.
const MIDDLE: i64 = 34_283_340;

/// How many parts a degree of a compressed latitude has.
const LATITUDE_PARTS: i64 = 380_926;

/// How many parts a degree of a compressed longitude has.
const LONGITUDE_PARTS: i64 = 190_463;

/// An exact angle in degrees, as a fraction that isn't reduced: 6,000 parts a degree in a plain
/// position, 380,926 (latitude) or 190,463 (longitude) in a compressed one. Fractions are equal
/// only if both numbers are: one angle in other parts is another fraction.
#[derive(Clone, Copy, Debug, PartialEq, Eq)]
pub struct Fraction {
    /// How many parts of a degree, negative to the south and the west.
    pub numerator: i64,
    /// How many parts a degree has: more than 0.
    pub denominator: i64,
}

/// Where a report places its subject.
#[derive(Clone, Copy, Debug, PartialEq, Eq)]
pub enum Place {
    /// Written in degrees and minutes (APRS Protocol Reference 1.0.1, chapter 6).
    Plain {
        /// Hundredths of minutes north, -540000 to 540000.
        lat: i32,
        /// Hundredths of minutes east, -1080000 to 1080000.
        lon: i32,
        /// How many digits of the latitude's minutes are left out, from the right: 0 to 4. In both
        /// angles these places are read as 0, also where the longitude has digits there.
        ambiguity: u8,
    },
    /// Compressed in base 91 (APRS Protocol Reference 1.0.1, chapter 9).
    Base91 {
        /// Down from the north pole, in 380926ths of a degree: 0 to 68566680.
        y: u32,
        /// East from 180 degrees west, in 190463ths of a degree: 0 to 68566680.
        x: u32,
        /// The bytes c, s and T, as they stand.
        cst: [u8; 3],
    },
}

impl Place {
    ghost use Rattle.aprs_report.specs.Place.{latitude_of, longitude_of};

    /// The latitude in degrees, south negative (APRS Protocol Reference 1.0.1, chapters 6 and 9).
    /// The clauses after `exact` bound both numbers, whatever the place. Takes no memory.
    pub fn lat(&self) -> Fraction
        ensures exact { result ≡ latitude_of self.now }
        ensures numerator { unsigned_abs result.numerator < 2 ^ 38 }
        ensures some { 0 < unsigned_abs result.denominator }
        ensures few { unsigned_abs result.denominator < 2 ^ 34 }
    {
        match *self {
            Place::Plain { lat, .. } => Fraction {
                numerator: lat as i64,
                denominator: PER_DEGREE as i64,
            },
            Place::Base91 { y, .. } => Fraction {
                numerator: MIDDLE - y as i64,
                denominator: LATITUDE_PARTS,
            },
        }
    }

    /// The longitude in degrees, west negative (APRS Protocol Reference 1.0.1, chapters 6 and 9).
    /// The clauses after `exact` bound both numbers, whatever the place. Takes no memory.
    pub fn lon(&self) -> Fraction
        ensures exact { result ≡ longitude_of self.now }
        ensures numerator { unsigned_abs result.numerator < 2 ^ 38 }
        ensures some { 0 < unsigned_abs result.denominator }
        ensures few { unsigned_abs result.denominator < 2 ^ 34 }
    {
        match *self {
            Place::Plain { lon, .. } => Fraction {
                numerator: lon as i64,
                denominator: PER_DEGREE as i64,
            },
            Place::Base91 { x, .. } => Fraction {
                numerator: x as i64 - MIDDLE,
                denominator: LONGITUDE_PARTS,
            },
        }
    }
}

/// The plain position that some bytes begin with, its symbol, and the rest. It is `DDMM.hhN`, the
/// table of the symbol, `DDDMM.hhE` and the code of the symbol, and both angles have the
/// ambiguity of the latitude. `None` where the bytes don't begin so.
#[tactic(auto, unfolding(crate::specs::Reader::plain_of))]
fn plain_at_start(bytes: &[u8]) -> Option<(Place, Symbol, &[u8])>
    ensures { option_map (λ x. (x.0, x.1, x.2.now)) result ≡ plain_of bytes.now }
{
    let (north, rest) = chunk::<2>(bytes)?;
    let (north_minutes, rest) = chunk::<6>(rest)?;
    let (table, rest) = table_at_start(rest)?;
    let (east, rest) = chunk::<3>(rest)?;
    let (east_minutes, rest) = chunk::<6>(rest)?;
    let (code, rest) = code_at_start(rest)?;
    let ambiguity = ambiguity(north_minutes);
    let lat = angle(Axis::Latitude, ambiguity, north, north_minutes)?;
    let lon = angle(Axis::Longitude, ambiguity, east, east_minutes)?;
    let place = Place::Plain {
        lat,
        lon,
        ambiguity,
    };
    Some((place, Symbol { table, code }, rest))
}

/// The compressed position that some bytes begin with, its symbol, and the rest. It is the table
/// of the symbol, four digits of base 91 for each angle, the code of the symbol, and the bytes c,
/// s and T. `None` where the bytes don't begin so.
#[tactic(auto, unfolding(crate::specs::Reader::compressed_of))]
fn compressed_at_start(bytes: &[u8]) -> Option<(Place, Symbol, &[u8])>
    ensures { option_map (λ x. (x.0, x.1, x.2.now)) result ≡ compressed_of bytes.now }
{
    let (table, rest) = compressed_table_at_start(bytes)?;
    let (y_text, rest) = chunk::<4>(rest)?;
    let (x_text, rest) = chunk::<4>(rest)?;
    let (code, rest) = code_at_start(rest)?;
    let (cst, rest) = chunk::<3>(rest)?;
    let y = base91(y_text)?;
    let x = base91(x_text)?;
    Some((
        Place::Base91 { y, x, cst: *cst },
        Symbol { table, code },
        rest,
    ))
}

/// The position that some bytes begin with, its symbol, and the rest. The position is plain where
/// the first byte is a digit, and else compressed. `None` where the bytes begin with no position.
#[tactic(auto, unfolding(crate::specs::Reader::place_of))]
pub fn place_at_start(bytes: &[u8]) -> Option<(Place, Symbol, &[u8])>
    ensures { option_map (λ x. (x.0, x.1, x.2.now)) result ≡ place_of bytes.now }
{
    match bytes {
        [] => None,
        [first, ..] if is_digit_byte(*first) => plain_at_start(bytes),
        _ => compressed_at_start(bytes),
    }
}
