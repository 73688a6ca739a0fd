//! Frames that are seen to be fine in one pass over their addresses, as nearly all are.
ghost use Rattle.std.specs.Prelude.{◌≡◌, ◌≤◌, length, take, drop, slice_index, true, None, IfSome};
ghost use Rattle.aprs_ax25.specs.FrameFault.{ends_field, field_len, frame_fault};
ghost use Rattle.aprs_ax25.specs.Plain.{is_callsign_octet, may_follow, IsPlainAddress};
ghost use Rattle.aprs_ax25.specs.Scan.{fault_after_field};

use crate::scan::{CONTROL_UI, PID_NONE, is_callsign_byte};

/// How many octets the address field has, where one look at each of its octets shows that the
/// bytes are a frame. `None` decides nothing: the bytes may be a frame or not, which
/// `field_len_or_fault` tells.
pub fn plain_field_len(bytes: &[u8]) -> Option<usize>
    ensures { IfSome result (λ len. (frame_fault bytes.now ≡ None) × (len ≡ field_len bytes.now)) }
{
    let mut rest = bytes;
    // Each turn looks at the next two addresses, of seven octets each, or at the last one.
    for pair in 0..5 {
        // `are_plain_callsigns` looks at 17 octets.
        if rest.len() < 17 {
            return None;
        }
        let (first, more) = rest.split_at(7);
        if ends_field(first) {
            // One address alone is no field.
            if pair > 0 && is_plain_callsign(first) && is_plain_rest(more) {
                return Some(14 * pair + 7);
            }
            return None;
        }
        if !are_plain_callsigns(rest) {
            return None;
        }
        let (second, after) = more.split_at(7);
        if ends_field(second) {
            if is_plain_rest(after) {
                return Some(14 * pair + 14);
            }
            return None;
        }
        rest = after;
    }
    None
}

/// Whether bit 0 of an address's last octet is 1, so that the address field ends there.
fn ends_field(address: &[u8]) -> bool
    requires { length address.now ≡ 7 }
    ensures { result ≡ ends_field (slice_index address.now 6) }
{
    address[6] % 2 == 1
}

/// Whether the bytes after the address field are control 03, PID F0 and 1 to 256 bytes of
/// information.
fn is_plain_rest(rest: &[u8]) -> bool
    ensures { result ≡ true → fault_after_field rest.now ≡ None }
{
    match rest {
        [CONTROL_UI, PID_NONE, info @ ..] => !info.is_empty() && info.len() <= 256,
        _ => false,
    }
}

/// Whether the first six of an address's octets are seen to be 1 to 6 capitals or digits and then
/// spaces, each shifted left by one bit, so that bit 0 is clear. All six are always looked at: no
/// branch depends on a callsign's length.
fn is_plain_callsign(octets: &[u8]) -> bool
    requires { length octets.now ≡ 7 }
    ensures { result ≡ true → IsPlainAddress octets.now }
{
    let mut is_fine = is_callsign_octet(octets[0]);
    let mut after_character = true;
    for octet in &octets[..6] {
        let is_character = is_callsign_octet(*octet);
        is_fine &= (*octet == SPACE_OCTET) | (after_character & is_character);
        after_character = is_character;
    }
    is_fine
}

/// Whether the first six octets of each of two addresses are 1 to 6 capitals or digits and then
/// spaces, each shifted left by one bit. The addresses stand at the start of `octets`, and three
/// octets more have to follow: the sixteen after the first are looked at in one step of the
/// processor.
fn are_plain_callsigns(octets: &[u8]) -> bool
    requires { 17 ≤ length octets.now }
    ensures first { result ≡ true → IsPlainAddress (take 7 octets.now) }
    ensures second { result ≡ true → IsPlainAddress (take 7 (drop 7 octets.now)) }
{
    let looked_at = &octets[..17];
    let mut are_fine = is_callsign_octet(looked_at[0]);
    for i in 0..16 {
        are_fine &= may_follow(i, looked_at[i], looked_at[i + 1]);
    }
    are_fine
}

/// Whether `octet` may stand after octet `i` of two addresses, `before`, as far as callsigns go;
/// `i` counts from 0. A letter or digit may stand at the second callsign's start, after octet 6,
/// and after another one. A space may stand anywhere but at that start. After octet 5 and from
/// octet 12 on any octet may stand, since it is in no callsign.
fn may_follow(i: usize, before: u8, octet: u8) -> bool
    ensures { result ≡ may_follow i before octet }
{
    let is_first = i == 6;
    let is_other = (i == 5) | (i >= 12);
    let is_character = is_callsign_octet(octet) & (is_first | is_callsign_octet(before));
    is_other | is_character | (!is_first & (octet == SPACE_OCTET))
}

/// A space, shifted left by one bit.
const SPACE_OCTET: u8 = 64;

/// Whether the octet is twice the byte of a capital or a digit, so that bit 0 is clear.
fn is_callsign_octet(octet: u8) -> bool
    ensures { result ≡ is_callsign_octet octet }
{
    // Bit 0 becomes bit 7, which no letter has.
    is_callsign_byte(octet / 2 + 128 * (octet % 2))
}
