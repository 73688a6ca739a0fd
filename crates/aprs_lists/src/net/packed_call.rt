//! Callsigns in few bytes.
//!
//! Words of the contracts here:
//! - `ssid_text`: the text of an SSID, as it stands after a callsign's letters and digits.
ghost use Rattle.std.specs.Prelude.{◌≡◌, ◌<◌, ◌≤◌, ◌++◌};
ghost use Rattle.std.specs.Ordering.{as_partial_cmp};
ghost use Rattle.std.proofs.Common.{rules};
ghost use Rattle.std.specs.Cmp.{partial_order_from_own_ties};
ghost use Rattle.std.specs.Cmp.Rules.{comparing};
ghost use Rattle.arrayvec.specs.ArrayVec.{array_vec_len};
ghost use Rattle.aprs_ax25.specs.Callsign as Spec;

use aprs_ax25::Callsign;
use aprs_io::push_all;
use arrayvec::ArrayVec;
use std::cmp::Ordering;
use std::marker::Model;

/// A callsign in 8 bytes, where a `Callsign` has 24. It has the same order.
#[derive(Drop)]
pub struct PackedCall {
    /// Its letters and digits, and behind them anything.
    characters: [u8; 6],
    len: u8,
    ssid: u8,
}

impl Model for PackedCall {
    ghost use Rattle.std.specs.Prelude.{◌≤◌, take};
    ghost use Rattle.aprs_ax25.specs.Callsign.{Call, IsCall};

    ghost Value = { Call };

    ghost view = { λ c. record { characters = take c.len c.characters; ssid = c.ssid } };

    ghost invariant = { λ c. (c.len ≤ 6)
        × IsCall (record { characters = take c.len c.characters; ssid = c.ssid }) };
}

impl PackedCall {
    /// This callsign. Takes no memory.
    pub fn of(call: &Callsign) -> PackedCall
        ensures { result ≡ call.now }
    {
        // What a text says of its callsign: 1 to 6 letters and digits, and an SSID below 16.
        call.text();
        let own = call.characters();
        let mut characters = [0; 6];
        characters[..own.len()].copy_from_slice(own);
        PackedCall {
            characters,
            len: own.len() as u8,
            ssid: call.ssid(),
        }
    }

    /// The same callsign. Takes no memory.
    pub fn copy(&self) -> PackedCall
        ensures { result ≡ self.now }
    {
        PackedCall {
            characters: self.characters,
            len: self.len,
            ssid: self.ssid,
        }
    }

    /// The callsign as others take it. Takes no memory.
    pub fn unpacked(&self) -> Callsign
        ensures { result ≡ self.now }
    {
        let mut text: ArrayVec<u8, 9> = ArrayVec::new();
        push_all(&mut text, self.characters());
        push_ssid(&mut text, self.ssid);
        match Callsign::parse(text.as_slice()) {
            Ok(call) => call,
            Err(_) => unreachable!(),
        }
    }

    /// Its letters and digits.
    fn characters(&self) -> &[u8]
        ensures characters { result.now ≡ self.now.characters }
        ensures call { Spec.IsCall self.now }
    {
        &self.characters[..self.len as usize]
    }
}

impl PartialEq for PackedCall {
    ghost eq = { Spec.call_eq };

    ghost laws = { Prim.search (comparing, rules) };

    fn eq(&self, other: &PackedCall) -> bool {
        self.characters() == other.characters() && self.ssid == other.ssid
    }
}

impl Eq for PackedCall {
    ghost laws = { Prim.search (comparing, rules) };
}

impl Ord for PackedCall {
    ghost cmp = { Spec.call_cmp };

    ghost total = { Prim.search (comparing, rules) };

    ghost matches_partial_cmp = { Prim.search (comparing, rules) };

    ghost matches_eq = { Prim.search (comparing, rules) };

    fn cmp(&self, other: &PackedCall) -> Ordering {
        match self.characters().cmp(other.characters()) {
            Ordering::Equal => self.ssid.cmp(&other.ssid),
            unequal => unequal,
        }
    }
}

impl PartialOrd for PackedCall {
    ghost partial_cmp = { as_partial_cmp Spec.call_cmp };

    ghost laws = { partial_order_from_own_ties (Prim.search (comparing, rules))
        (Prim.search (comparing, rules)) };

    fn partial_cmp(&self, other: &PackedCall) -> Option<Ordering> {
        Some(self.cmp(other))
    }
}

/// Puts a dash and the SSID in decimal at the end of `text`, or nothing where the SSID is 0.
fn push_ssid(text: &mut ArrayVec<u8, 9>, ssid: u8)
    requires room { array_vec_len text.old ≤ 6 }
    requires ssid { ssid < 16 }
    ensures { text.new.items ≡ text.old.items ++ Spec.ssid_text ssid }
{
    match ssid {
        0 => {}
        1..=9 => {
            text.push(b'-');
            text.push(b'0' + ssid);
        }
        _ => {
            text.push(b'-');
            text.push(b'1');
            text.push(b'0' + ssid % 10);
        }
    }
}
