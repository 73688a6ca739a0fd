//! What bytes that may be a frame have where.
ghost use Rattle.std.specs.Prelude.{◌≡◌, ◌≤◌, ◌<◌, ◌/◌, ◌+◌, ◌-◌, ◌%◌, length, take, drop, slice_index, true, None, IfOk};
ghost use Rattle.std.specs.List.{list_all};
ghost use Rattle.std.specs.Result.{result_err};
ghost use Rattle.aprs_ax25.specs.Callsign.{is_callsign_byte};
ghost use Rattle.aprs_ax25.specs.FrameFault as Spec;
ghost use Rattle.aprs_ax25.specs.Scan.{SplitsField, fault_after_field, fault_of_info};

use crate::fault::FrameFault;

/// The control octet of a UI frame without poll (AX.25 2.2, section 4.3.3.6).
pub const CONTROL_UI: u8 = 0x03;

/// The PID octet of no layer 3 protocol (AX.25 2.2, section 3.4).
pub const PID_NONE: u8 = 0xf0;

/// The most bytes of a UI frame: 10 addresses of 7 octets, control, PID and 256 of information.
pub const MAX_UI_FRAME: usize = 328;

/// Whether the byte is a capital or a digit.
pub fn is_callsign_byte(b: u8) -> bool
    ensures { result ≡ is_callsign_byte b }
{
    b.is_ascii_uppercase() || b.is_ascii_digit()
}

/// How many octets the address field has: all up to and with the first whose bit 0 is 1. Where
/// there is no such octet, one more than there are octets.
pub fn field_len(bytes: &[u8]) -> usize
    ensures { result ≡ Spec.field_len bytes.now }
{
    for (i, octet) in bytes.iter().enumerate() {
        if octet % 2 == 1 {
            return i + 1;
        }
    }
    bytes.len() + 1
}

/// How many octets at the start of an address are, shifted right by one bit, capitals or digits: up
/// to the first that isn't, and at most six.
pub fn characters_len(octets: &[u8]) -> usize
    requires { 6 ≤ length octets.now }
    ensures value { result ≡ Spec.characters_len octets.now }
    ensures six { result ≤ 6 }
{
    let six = &octets[..6];
    for (i, octet) in six.iter().enumerate() {
        if !is_callsign_byte(octet / 2) {
            return i;
        }
    }
    6
}

/// Whether the octets, shifted right by one bit, are spaces.
fn are_spaces(octets: &[u8]) -> bool
    ensures { result ≡ list_all Spec.is_space_octet octets.now }
{
    octets.iter().all(|octet| *octet / 2 == b' ')
}

/// Whether the first six octets of an address, shifted right by one bit, are 1 to 6 capitals or
/// digits and then spaces alone.
fn has_callsign(octets: &[u8]) -> bool
    requires { 6 ≤ length octets.now }
    ensures { result ≡ Spec.has_callsign octets.now }
{
    let len = characters_len(octets);
    let (_, spaces) = octets[..6].split_at(len);
    len > 0 && are_spaces(spaces)
}

/// Whether each address of the field, seven octets each, has a callsign.
fn have_callsigns(field: &[u8]) -> bool
    ensures { result ≡ list_all Spec.has_callsign (Spec.sevens (length field.now / 7) field.now) }
{
    let mut rest = field;
    while rest.len() >= 7 {
        let (address, after) = rest.split_at(7);
        if !has_callsign(address) {
            return false;
        }
        rest = after;
    }
    true
}

/// The address field and the bytes after it, or `None` where the octets up to the first whose bit
/// 0 is 1 aren't 2 to 10 addresses, or there is no such octet.
pub fn split_field(bytes: &[u8]) -> Option<(&[u8], &[u8])>
    ensures { SplitsField result bytes.now }
{
    let len = field_len(bytes);
    if len <= bytes.len() && is_field_len(len) {
        Some(bytes.split_at(len))
    } else {
        None
    }
}

/// Whether this many octets are 2 to 10 addresses of seven octets each.
fn is_field_len(len: usize) -> bool
    ensures { result ≡ Spec.is_field_len len }
{
    len % 7 == 0 && 14 <= len && len <= 70
}

/// The first fault of the bytes after the address field, or `None` where they are control 03, PID
/// F0 and 1 to 256 bytes of information. A missing octet is a wrong one.
fn fault_after(rest: &[u8]) -> Option<FrameFault>
    ensures { result ≡ fault_after_field rest.now }
{
    match rest {
        [CONTROL_UI, PID_NONE, info @ ..] => fault_of_info(info.len()),
        [CONTROL_UI, ..] => Some(FrameFault::Pid),
        _ => Some(FrameFault::Control),
    }
}

/// The fault of this many bytes of information, or `None` where they are 1 to 256.
fn fault_of_info(len: usize) -> Option<FrameFault>
    ensures { result ≡ fault_of_info len }
{
    match len {
        0 => Some(FrameFault::NoInfo),
        1..=256 => None,
        _ => Some(FrameFault::LongInfo),
    }
}

/// How many octets the address field of the frame that is all the bytes has, or the first fault of
/// the bytes as a frame, in the order of the faults' numbers.
#[cold]
pub fn field_len_or_fault(bytes: &[u8]) -> Result<usize, FrameFault>
    ensures fault { result_err result ≡ Spec.frame_fault bytes.now }
    ensures len { IfOk result (λ len. len ≡ Spec.field_len bytes.now) }
{
    let Some((field, rest)) = split_field(bytes) else {
        return Err(FrameFault::Address);
    };
    if !have_callsigns(field) {
        return Err(FrameFault::Callsign);
    }
    match fault_after(rest) {
        Some(fault) => Err(fault),
        None => Ok(field.len()),
    }
}

/// The seven octets from `start` on.
pub fn seven_at(bytes: &[u8], start: usize) -> &[u8]
    requires { start + 7 ≤ length bytes.now }
    ensures value { result.now ≡ take 7 (drop start bytes.now) }
    ensures seven { length result.now ≡ 7 }
{
    let (_, rest) = bytes.split_at(start);
    &rest[..7]
}
