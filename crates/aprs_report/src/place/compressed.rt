//! The numbers of compressed positions.

ghost use Rattle.std.specs.Prelude.{◌≡◌};
ghost use Rattle.aprs_report.specs.Reader.{base91_of};

use crate::numeral::numeral;

/// 180 degrees of latitude or 360 of longitude: the greatest number of a compressed position.
pub const MAX_BASE91: u32 = 68_566_680;

/// The number that four digits of base 91 spell, of which `!` is 0, or `None` where a byte is no
/// such digit or the number is greater than `MAX_BASE91`.
#[tactic(auto, unfolding(crate::specs::Reader::base91_of))]
pub fn base91(text: &[u8; 4]) -> Option<u32>
    ensures { result ≡ base91_of text.now }
{
    let n = numeral(91, b'!', text)?;
    if n <= MAX_BASE91 { Some(n) } else { None }
}
