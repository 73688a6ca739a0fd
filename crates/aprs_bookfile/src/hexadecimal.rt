//! The bytes of a frame in lower case hexadecimal.
ghost use Rattle.std.specs.Prelude.{◌≡◌, ◌<◌, ℕ, List, [], length, IfSome, IfNone};
ghost use Rattle.hex.specs.Hex.{IsBytes};
ghost use Rattle.aprs_bookfile.specs.RowFields.{SpellsBytes};

use aprs_ax25::MAX_UI_FRAME;
use aprs_io::decode_lower_into;

/// The most digits of a frame.
pub const MAX_DIGITS: usize = 2 * MAX_UI_FRAME;

/// The bytes that lower case hexadecimal digits spell, 1 to `MAX_UI_FRAME` of them, written to the
/// start of `room`; or `None` where the text spells no such bytes, and then anything may be in
/// `room`.
pub fn decode_frame<'r>(digits: &[u8], room: &'r mut [u8; MAX_UI_FRAME]) -> Option<&'r [u8]>
    ensures some { IfSome result (λ bytes. SpellsBytes digits.now bytes.now) }
    ensures none { IfNone result ((bytes : List ℕ) → SpellsBytes digits.now bytes → ⊥) }
{
    if digits.len() > MAX_DIGITS {
        return None;
    }
    let Some(count) = decode_lower_into(digits, room) else {
        return None;
    };
    nonempty(&room[..count])
}

/// These bytes, if there are any.
#[inline(always)]
fn nonempty(bytes: &[u8]) -> Option<&[u8]>
    ensures some { IfSome result (λ same. (same.now ≡ bytes.now) × IsBytes bytes.now
        × (0 < length bytes.now)) }
    ensures none { IfNone result (bytes.now ≡ []) }
{
    if bytes.is_empty() {
        return None;
    }
    Some(bytes)
}
