//! Callsigns.
ghost use Rattle.std.specs.Prelude.{◌≡◌, ◌+◌, ◌<◌, ◌≤◌, ◌*◌, ◌/◌, ◌++◌, length, map, take, true, Ok, Some, IfOk, IfErr};
ghost use Rattle.std.specs.Fmt.{styled_text};
ghost use Rattle.std.specs.List.{list_all, position_or_len};
ghost use Rattle.arrayvec.specs.ArrayVec.{array_vec_len};
ghost use Rattle.aprs_ax25.specs.Address.{address_octets, characters_and_spaces};
ghost use Rattle.aprs_ax25.specs.Callsign as Spec;
ghost use Rattle.aprs_ax25.specs.CallText;
ghost use Rattle.aprs_ax25.specs.Scan.{AreCallParts, ssid_of};
ghost use Rattle.aprs_ax25.specs.FrameFault.{has_callsign, call_of, characters_len};
ghost use Rattle.std.specs.Ordering.{as_partial_cmp};
ghost use Rattle.std.proofs.Common.{rules};
ghost use Rattle.std.specs.Cmp.{partial_order_from_own_ties};
ghost use Rattle.std.specs.Cmp.Rules.{comparing};

use crate::fault::CallFault;
use crate::scan::{MAX_UI_FRAME, is_callsign_byte};
use aprs_io::{copy_bytes, push_all};
use arrayvec::ArrayVec;
use std::cmp::Ordering;
use std::fmt;
use std::marker::Model;

/// A callsign of 1 to 6 capitals or digits, with an SSID of 0 to 15 (AX.25 2.2, section 3.12.2).
/// Callsigns are ordered by their letters and digits, and then by SSID as a number.
#[derive(Eq, Drop)]
pub struct Callsign {
    characters: ArrayVec<u8, 6>,
    ssid: u8,
}

impl Model for Callsign {
    ghost use Rattle.aprs_ax25.specs.Callsign.{Call, IsCall};

    ghost Value = { Call };

    ghost view = { λ c. record { characters = c.characters.items; ssid = c.ssid } };

    ghost invariant = { λ c. IsCall (record { characters = c.characters.items; ssid = c.ssid }) };

    ghost inverse = { λ c. record { characters = record { items = c.characters }; ssid = c.ssid } };
}

impl Callsign {
    /// The callsign that this is the text of, or the first fault in the order of the faults'
    /// numbers. Takes no memory.
    pub fn parse(text: &[u8]) -> Result<Callsign, CallFault>
        ensures found { IfOk result (λ c. CallText.SpellsCall c text.now) }
        ensures only { (c : Spec.Call) → CallText.SpellsCall c text.now → result ≡ Ok c }
        ensures fault { IfErr result (λ fault. CallText.FirstCallFault text.now fault) }
    {
        match parts_of(text) {
            Ok((characters, ssid)) => Ok(Callsign {
                characters: up_to_six(characters),
                ssid,
            }),
            Err(fault) => Err(fault),
        }
    }

    /// The callsign as monitors print it: its letters and digits, then, unless the SSID is 0, a
    /// dash and the SSID. Takes no memory.
    pub fn text(&self) -> ArrayVec<u8, 9>
        ensures text { result.items ≡ Spec.call_text self.now }
        ensures callsign { Spec.IsCall self.now }
    {
        let mut text = ArrayVec::new();
        push_all(&mut text, self.characters.as_slice());
        push_ssid(&mut text, self.ssid);
        text
    }

    /// The letters and digits, 1 to 6, without the SSID. Takes no memory.
    pub fn characters(&self) -> &[u8]
        ensures { result.now ≡ self.now.characters }
    {
        self.characters.as_slice()
    }

    /// The SSID, 0 to 15. Takes no memory.
    pub fn ssid(&self) -> u8
        ensures { result ≡ self.now.ssid }
    {
        self.ssid
    }

    /// A copy of the callsign. Takes no memory.
    pub fn copy(&self) -> Callsign
        ensures { result ≡ self.now }
    {
        Callsign {
            characters: copy_bytes(&self.characters),
            ssid: self.ssid,
        }
    }

    /// Puts the seven octets of an address of this callsign at the end of `out`. The last has
    /// `flags` as its three high bits, then the SSID, and `extension` as bit 0.
    pub(crate) fn push_address(
        &self,
        out: &mut ArrayVec<u8, MAX_UI_FRAME>,
        flags: u8,
        extension: u8,
    )
        requires room { array_vec_len out.old + 7 ≤ MAX_UI_FRAME }
        requires flags { flags < 8 }
        requires extension { extension < 2 }

        ensures octets { out.new.items ≡ out.old.items
            ++ address_octets extension (record { call = self.now; flags = flags }) }
        ensures callsign { Spec.IsCall self.now }
    {
        push_characters_and_spaces(out, self.characters.as_slice());
        out.push(32 * flags + 2 * self.ssid + extension);
    }

    /// The callsign that the seven octets of an address spell; bits 1 to 4 of the last are the
    /// SSID.
    pub(crate) fn from_octets(octets: &[u8]) -> Callsign
        requires seven { length octets.now ≡ 7 }
        requires callsign { has_callsign octets.now ≡ true }
        ensures { result ≡ call_of octets.now }
    {
        Callsign {
            characters: characters_of(octets),
            ssid: octets[6] / 2 % 16,
        }
    }
}

impl PartialEq for Callsign {
    ghost eq = { Spec.call_eq };

    ghost laws = { Prim.search (comparing, rules) };

    fn eq(&self, other: &Callsign) -> bool {
        self.characters == other.characters && self.ssid == other.ssid
    }
}

impl Ord for Callsign {
    ghost cmp = { Spec.call_cmp };

    ghost total = { Prim.search (comparing, rules) };

    ghost matches_partial_cmp = { Prim.search (comparing, rules) };

    ghost matches_eq = { Prim.search (comparing, rules) };

    fn cmp(&self, other: &Callsign) -> Ordering {
        match self.characters.cmp(&other.characters) {
            Ordering::Equal => self.ssid.cmp(&other.ssid),
            unequal => unequal,
        }
    }
}

impl PartialOrd for Callsign {
    ghost partial_cmp = { as_partial_cmp Spec.call_cmp };

    ghost laws = { partial_order_from_own_ties (Prim.search (comparing, rules))
        (Prim.search (comparing, rules)) };

    fn partial_cmp(&self, other: &Callsign) -> Option<Ordering> {
        Some(self.cmp(other))
    }
}

/// Writes the callsign's text, padded or cut as a text is, as `{:<9}` or `{:.3}` asks.
impl fmt::Display for Callsign {
    ghost output = { λ c. Some (Spec.call_text c) };

    ghost styled_output = { λ c options. Some (styled_text options (Spec.call_text c)) };

    fn fmt<W: fmt::Write>(&self, f: &mut fmt::Formatter<W>) -> fmt::Result {
        match str::from_utf8(self.text().as_slice()) {
            Ok(text) => f.pad(text),
            Err(_) => unreachable!(),
        }
    }
}

/// The capitals and digits at the start of an address's first six octets, once each octet is
/// shifted right by one bit.
fn characters_of(octets: &[u8]) -> ArrayVec<u8, 6>
    requires { 6 ≤ length octets.now }
    ensures { result.items
        ≡ map (λ octet. octet / 2) (take (characters_len octets.now) octets.now) }
{
    let mut characters = ArrayVec::new();
    push_characters(&mut characters, octets);
    characters
}

/// Puts the capitals and digits that an address's first six octets begin with, once each is
/// shifted right by one bit, at the end of `out`.
fn push_characters<const N: usize>(out: &mut ArrayVec<u8, N>, octets: &[u8])
    requires six { 6 ≤ length octets.now }
    requires room { array_vec_len out.old + 6 ≤ N }
    ensures characters { out.new.items ≡ out.old.items
        ++ map (λ octet. octet / 2) (take (characters_len octets.now) octets.now) }
    ensures most { array_vec_len out.new ≤ array_vec_len out.old + 6 }
{
    for octet in &octets[..6] {
        let character = octet / 2;
        if !is_callsign_byte(character) {
            return;
        }
        out.push(character);
    }
}

/// Puts at the end of `out` the text of the callsign that these seven octets of an address spell,
/// at most 9 bytes.
pub fn push_text_at<const N: usize>(out: &mut ArrayVec<u8, N>, octets: &[u8])
    requires room { array_vec_len out.old + 9 ≤ N }
    requires seven { length octets.now ≡ 7 }
    ensures text { out.new.items ≡ out.old.items ++ Spec.call_text (call_of octets.now) }
    ensures most { array_vec_len out.new ≤ array_vec_len out.old + 9 }
{
    push_characters(out, octets);
    push_ssid(out, octets[6] / 2 % 16);
}

/// Puts a dash and the SSID in decimal at the end of `text`, or nothing where the SSID is 0.
fn push_ssid<const N: usize>(text: &mut ArrayVec<u8, N>, ssid: u8)
    requires room { array_vec_len text.old + 3 ≤ N }
    requires ssid { ssid < 16 }
    ensures text { text.new.items ≡ text.old.items ++ Spec.ssid_text ssid }
    ensures most { array_vec_len text.new ≤ array_vec_len text.old + 3 }
{
    match ssid {
        0 => {}
        1..=9 => {
            text.push(b'-');
            text.push(b'0' + ssid);
        }
        _ => {
            text.push(b'-');
            text.push(b'1');
            text.push(b'0' + ssid % 10);
        }
    }
}

/// The part of a text before its first dash, and the part from this dash on. Without a dash, all
/// of the text and nothing.
fn split_dash(text: &[u8]) -> (&[u8], &[u8])
    ensures before { result.0.now ≡ CallText.before_dash text.now }
    ensures from { result.1.now ≡ CallText.from_dash text.now }
{
    text.split_at(dash_place(text))
}

/// Where the first dash stands, or the text's length where there is none.
fn dash_place(text: &[u8]) -> usize
    ensures place { result ≡ position_or_len CallText.is_dash text.now }
    ensures within { result ≤ length text.now }
{
    for (i, b) in text.iter().enumerate() {
        if *b == b'-' {
            return i;
        }
    }
    text.len()
}

/// The SSID that the end of a callsign's text names: 0 where it is empty, or the number after the
/// dash, 1 to 15 without a leading zero. `None` for any other end. The first byte isn't looked at:
/// it is taken for the dash.
fn ssid_of(dash: &[u8]) -> Option<u8>
    ensures { result ≡ ssid_of dash.now }
{
    match dash {
        [] => Some(0),
        [_, digit @ b'1'..=b'9'] => Some(digit - b'0'),
        [_, b'1', digit @ b'0'..=b'5'] => Some(10 + (digit - b'0')),
        _ => None,
    }
}

/// A copy of the bytes, of which there are at most six.
fn up_to_six(bytes: &[u8]) -> ArrayVec<u8, 6>
    requires { length bytes.now ≤ 6 }
    ensures { result.items ≡ bytes.now }
{
    let mut held = ArrayVec::new();
    push_all(&mut held, bytes);
    held
}

/// Six spaces, shifted left by one bit.
const SPACES: [u8; 6] = [64; 6];

/// Puts the letters and digits of a callsign at the end of `out`, with spaces after them up to six
/// bytes, each shifted left by one bit.
fn push_characters_and_spaces(out: &mut ArrayVec<u8, MAX_UI_FRAME>, characters: &[u8])
    requires room { array_vec_len out.old + 6 ≤ MAX_UI_FRAME }
    requires six { length characters.now ≤ 6 }
    requires bytes { list_all Spec.is_callsign_byte characters.now ≡ true }
    ensures { out.new.items ≡ out.old.items
        ++ map (λ b. 2 * b) (characters_and_spaces characters.now) }
{
    for character in characters {
        out.push(2 * character);
    }
    let (_, spaces) = SPACES.split_at(characters.len());
    push_all(out, spaces);
}

/// The letters and digits of a callsign's text, before its first dash, and its SSID; or the
/// text's first fault in the order of the faults' numbers.
fn parts_of(text: &[u8]) -> Result<(&[u8], u8), CallFault>
    ensures { AreCallParts text.now result }
{
    let (characters, dash) = split_dash(text);
    if characters.is_empty() || characters.len() > 6 {
        return Err(CallFault::Length);
    }
    if !are_characters(characters) {
        return Err(CallFault::Character);
    }
    match ssid_of(dash) {
        Some(ssid) => Ok((characters, ssid)),
        None => Err(CallFault::Ssid),
    }
}

/// Whether each byte is a capital or a digit.
fn are_characters(bytes: &[u8]) -> bool
    ensures { result ≡ list_all Spec.is_callsign_byte bytes.now }
{
    bytes.iter().all(|b| is_callsign_byte(*b))
}
