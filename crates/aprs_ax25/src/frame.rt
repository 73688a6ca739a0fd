//! UI frames.
ghost use Rattle.std.specs.Prelude.{◌≡◌, if◌then◌else◌, ◌<◌, ◌≤◌, [], ◌∷◌, ◌++◌, length, map, None, IsOk, IfOk, IfErr, OnOk, OnErr, Ok, Err, slice_get, ◌+◌};
ghost use Rattle.std.specs.List.{AllByRecursion};
ghost use Rattle.std.specs.Result.{result_err};
ghost use Rattle.arrayvec.specs.ArrayVec.{array_vec_len};
ghost use Rattle.aprs_ax25.specs.Address.{IsAddress};
ghost use Rattle.std.specs.Option.{option_map};
ghost use Rattle.aprs_ax25.specs.Frame.{Parts, FrameOf, address_field};
ghost use Rattle.aprs_ax25.specs.FrameFault.{field_len, frame_or_fault, frame_fault, parts_of};
ghost use Rattle.aprs_ax25.specs.Hop.{hop_of};
ghost use Rattle.aprs_ax25.specs.Making as Spec;
ghost use Rattle.std.specs.Ordering.{as_partial_cmp};
ghost use Rattle.std.proofs.Common.{rules};
ghost use Rattle.std.specs.Cmp.{partial_order_from_own_ties};
ghost use Rattle.std.specs.Cmp.Rules.{comparing};
ghost use Rattle.aprs_ax25.specs.Order.{bytes_cmp, bytes_eq};

use crate::callsign::Callsign;
use crate::fault::{FrameFault, MakeFault};
use crate::frame_ref::FrameRef;
use crate::hop::Hop;
use crate::plain::plain_field_len;
use crate::scan::{CONTROL_UI, MAX_UI_FRAME, PID_NONE, field_len_or_fault};
use aprs_io::{copy_bytes, push_all};
use arrayvec::ArrayVec;
use std::cmp::Ordering;
use std::marker::Model;

/// A UI frame without flags and frame check sequence (AX.25 2.2, sections 3 and 4.3.3.6): 2 to 10
/// addresses, control 03, PID F0 and 1 to 256 bytes of information; at most 328 bytes. Frames are
/// ordered by their bytes.
#[derive(Eq, Drop)]
pub struct Frame {
    bytes: ArrayVec<u8, MAX_UI_FRAME>,
    /// Where the information begins.
    info_at: usize,
}

impl Model for Frame {
    ghost use Rattle.std.specs.Prelude.{◌≡◌, ◌+◌, List, ℕ, None};
    ghost use Rattle.aprs_ax25.specs.Frame.{FrameOf};
    ghost use Rattle.aprs_ax25.specs.FrameFault.{field_len, frame_fault, parts_of};

    ghost Value = { List ℕ };

    ghost view = { λ f. f.bytes.items };

    ghost invariant = { λ f. (frame_fault f.bytes.items ≡ None)
        × FrameOf (parts_of f.bytes.items) f.bytes.items
        × (f.info_at ≡ field_len f.bytes.items + 2) };

    ghost inverse = { λ bytes. record {
      bytes = record { items = bytes };
      info_at = field_len bytes + 2;
    } };
}

impl Frame {
    /// The frame that is all the bytes, or the first fault in the order of the faults' numbers.
    /// Takes no memory.
    pub fn read(bytes: &[u8]) -> Result<Frame, FrameFault>
        // The result is the bytes, or the first fault of them.
        ensures exact { result ≡ frame_or_fault bytes.now }
        // What is read is a frame of the grammar, and each frame of the grammar is read.
        ensures frame { IfOk result (λ frame. FrameOf (parts_of frame) frame) }
        ensures only { (parts : Parts) → FrameOf parts bytes.now → IsOk result }
    {
        let info_at = info_at_or_fault(bytes)?;
        Ok(Frame::with_info_at(bytes, info_at))
    }

    /// Puts the frame that is all the bytes in the place of this one. Otherwise it returns their
    /// first fault in the order of the faults' numbers, and this frame stays. Takes no memory.
    /// For the crates of this repository.
    pub fn reread(&mut self, bytes: &[u8]) -> Result<(), FrameFault>
        ensures read { OnOk result (frame_or_fault bytes.now ≡ Ok self.new) }
        ensures fault { IfErr result (λ fault. frame_or_fault bytes.now ≡ Err fault) }
        ensures unchanged { OnErr result (self.new ≡ self.old) }
    {
        let info_at = info_at_or_fault(bytes)?;
        self.assign(bytes, info_at);
        Ok(())
    }

    /// The frame of these parts, as a command (AX.25 2.2, section 6.1.2): the destination's C bit
    /// is 1 and the source's 0, each H bit says whether the digipeater has repeated the frame, and
    /// all reserved bits are 1. It is a fault if there are more than 8 digipeaters, or the
    /// information isn't 1 to 256 bytes, in this order. Takes no memory.
    pub fn make(
        destination: &Callsign,
        source: &Callsign,
        hops: &[Hop],
        info: &[u8],
    ) -> Result<Frame, MakeFault>
        // The call fails exactly with the first fault of the parts, if they have one.
        ensures fault { result_err result ≡ Spec.make_fault (length hops.now) (length info.now) }
        // The frame is spelled from these parts, and is read as these parts.
        ensures spelled { IfOk result (λ frame. FrameOf
            (Spec.made_parts destination.now source.now hops.now info.now) frame) }
        ensures parts { IfOk result (λ frame. parts_of frame ≡ Spec.made_parts destination.now
            source.now hops.now info.now) }
    {
        match make_fault(hops.len(), info.len()) {
            Some(fault) => Err(fault),
            None => Ok(Frame::spell(destination, source, hops, info)),
        }
    }

    /// The frame of these parts, as a command. They are at most 8 digipeaters, and 1 to 256 bytes
    /// of information.
    fn spell(destination: &Callsign, source: &Callsign, hops: &[Hop], info: &[u8]) -> Frame
        requires { Spec.make_fault (length hops.now) (length info.now) ≡ None }
        ensures { FrameOf (Spec.made_parts destination.now source.now hops.now info.now) result }
    {
        let mut bytes = ArrayVec::new();
        push_field(&mut bytes, destination, source, hops);
        bytes.push(CONTROL_UI);
        bytes.push(PID_NONE);
        let info_at = bytes.len();
        push_all(&mut bytes, info);
        Frame { bytes, info_at }
    }

    /// The frame whose bytes these are, where its information is known to begin at `info_at`.
    pub(crate) fn with_info_at(bytes: &[u8], info_at: usize) -> Frame
        requires frame { FrameOf (parts_of bytes.now) bytes.now }
        requires info { info_at ≡ field_len bytes.now + 2 }
        ensures { result ≡ bytes.now }
    {
        let mut held = ArrayVec::new();
        push_all(&mut held, bytes);
        Frame {
            bytes: held,
            info_at,
        }
    }

    /// Replaces this frame by the one whose bytes these are, which have no fault as a frame, and
    /// whose information begins at `info_at`.
    fn assign(&mut self, bytes: &[u8], info_at: usize)
        requires frame { frame_fault bytes.now ≡ None }
        requires info { info_at ≡ field_len bytes.now + 2 }
        ensures { self.new ≡ bytes.now }
    {
        self.bytes.clear();
        push_all(&mut self.bytes, bytes);
        self.info_at = info_at;
    }

    /// Where among the bytes the information begins.
    pub(crate) fn info_at(&self) -> usize
        ensures { result ≡ field_len self.now + 2 }
    {
        self.info_at
    }

    /// The frame's bytes, 17 to 328. Takes no memory.
    pub fn bytes(&self) -> &[u8]
        ensures value { result.now ≡ self.now }
        ensures frame { FrameOf (parts_of self.now) self.now }
        ensures least { 17 ≤ length result.now }
        ensures most { length result.now ≤ 328 }
    {
        self.bytes.as_slice()
    }

    /// The station that sent the frame. Takes no memory.
    pub fn source(&self) -> Callsign
        ensures { result ≡ (parts_of self.now).source.call }
    {
        FrameRef::of(self).source()
    }

    /// The destination, which APRS uses for the sender's software or equipment (APRS Protocol
    /// Reference 1.0.1, chapter 4). Takes no memory.
    pub fn destination(&self) -> Callsign
        ensures { result ≡ (parts_of self.now).destination.call }
    {
        FrameRef::of(self).destination()
    }

    /// How many digipeaters the frame names, 0 to 8. Takes no memory.
    pub fn hops(&self) -> usize
        ensures value { result ≡ length (parts_of self.now).digipeaters }
        ensures few { result ≤ 8 }
    {
        FrameRef::of(self).hops()
    }

    /// Digipeater number `i`, counted from 0 in the order of the path, or `None` where the frame
    /// names fewer. Takes no memory.
    pub fn hop(&self, i: usize) -> Option<Hop>
        ensures { result ≡ option_map hop_of (slice_get (parts_of self.now).digipeaters i) }
    {
        FrameRef::of(self).hop(i)
    }

    /// The information, 1 to 256 bytes. Takes no memory.
    pub fn info(&self) -> &[u8]
        ensures value { result.now ≡ (parts_of self.now).info }
        ensures some { 0 < length result.now }
        ensures most { length result.now ≤ 256 }
    {
        FrameRef::of(self).info()
    }

    /// A copy of the frame. Takes no memory.
    pub fn copy(&self) -> Frame
        ensures { result ≡ self.now }
    {
        Frame {
            bytes: copy_bytes(&self.bytes),
            info_at: self.info_at,
        }
    }
}

impl PartialEq for Frame {
    ghost eq = { bytes_eq };

    ghost laws = { Prim.search (comparing, rules) };

    fn eq(&self, other: &Frame) -> bool {
        self.bytes == other.bytes
    }
}

impl Ord for Frame {
    ghost cmp = { bytes_cmp };

    ghost total = { Prim.search (comparing, rules) };

    ghost matches_partial_cmp = { Prim.search (comparing, rules) };

    ghost matches_eq = { Prim.search (comparing, rules) };

    fn cmp(&self, other: &Frame) -> Ordering {
        self.bytes.cmp(&other.bytes)
    }
}

impl PartialOrd for Frame {
    ghost partial_cmp = { as_partial_cmp bytes_cmp };

    ghost laws = { partial_order_from_own_ties (Prim.search (comparing, rules))
        (Prim.search (comparing, rules)) };

    fn partial_cmp(&self, other: &Frame) -> Option<Ordering> {
        Some(self.cmp(other))
    }
}

/// Where the information of the frame that is all the bytes begins, or their first fault as a
/// frame. Where one fast look at the addresses doesn't show that they are a frame,
/// `field_len_or_fault` decides.
fn info_at_or_fault(bytes: &[u8]) -> Result<usize, FrameFault>
    ensures fault { result_err result ≡ frame_fault bytes.now }
    ensures info { IfOk result (λ at. at ≡ field_len bytes.now + 2) }
{
    let len = match plain_field_len(bytes) {
        Some(len) => len,
        None => field_len_or_fault(bytes)?,
    };
    // Control and PID stand before the information.
    Ok(len + 2)
}

/// Why this many digipeaters and bytes of information make no frame: the first fault, or `None`
/// where they make one.
fn make_fault(hops: usize, info: usize) -> Option<MakeFault>
    ensures { result ≡ Spec.make_fault hops info }
{
    if hops > 8 {
        Some(MakeFault::Hops)
    } else if info == 0 {
        Some(MakeFault::NoInfo)
    } else if info > 256 {
        Some(MakeFault::LongInfo)
    } else {
        None
    }
}

/// Puts the address field of a command into `out`, which is empty: destination, source and
/// digipeaters, seven octets each. An address's flags are its C bit and two reserved bits: 7 in
/// the destination, where all three are 1, and 3 in the source, whose C bit is 0.
fn push_field(
    out: &mut ArrayVec<u8, MAX_UI_FRAME>,
    destination: &Callsign,
    source: &Callsign,
    hops: &[Hop],
)
    requires empty { out.old.items ≡ [] }
    requires few { length hops.now ≤ 8 }

    ensures field { out.new.items ≡ address_field (Spec.destination_address destination.now
        ∷ Spec.source_address source.now ∷ map Spec.hop_address hops.now) }
    ensures each { AllByRecursion IsAddress (Spec.destination_address destination.now
        ∷ Spec.source_address source.now ∷ map Spec.hop_address hops.now) }
    ensures most { array_vec_len out.new ≤ 70 }
{
    destination.push_address(out, 7, 0);
    source.push_address(out, 3, extension_bit(hops.is_empty()));
    push_hops(out, hops);
}

/// The extension bit of an address: 1 in the last of a frame, 0 in the others.
fn extension_bit(is_last: bool) -> u8
    ensures { result ≡ (if is_last then 1 else 0) }
{
    u8::from(is_last)
}

/// Puts the digipeaters' addresses at the end of `out`, which has the 14 octets of the
/// destination and the source. The extension bit is 1 in the last alone.
fn push_hops(out: &mut ArrayVec<u8, MAX_UI_FRAME>, hops: &[Hop])
    requires room { array_vec_len out.old ≡ 14 }
    requires few { length hops.now ≤ 8 }

    ensures field { out.new.items ≡ out.old.items ++ address_field (map Spec.hop_address hops.now) }
    ensures each { AllByRecursion IsAddress (map Spec.hop_address hops.now) }
    ensures most { array_vec_len out.new ≤ 70 }
{
    for (i, hop) in hops.iter().enumerate() {
        hop.push(out, extension_bit(i + 1 == hops.len()));
    }
}
