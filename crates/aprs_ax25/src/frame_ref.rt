//! UI frames that are lent.
ghost use Rattle.std.specs.Prelude.{◌≡◌, ◌<◌, ◌≤◌, ◌+◌, ◌++◌, true, length, take, drop, slice_get, None, Some, All, IfNone, IfSome, MatchOption};
ghost use Rattle.arrayvec.specs.ArrayVec.{array_vec_len};
ghost use Rattle.std.specs.Option.{option_map};
ghost use Rattle.aprs_ax25.specs.Address.{is_repeated};
ghost use Rattle.aprs_ax25.specs.Callsign.{call_text};
ghost use Rattle.aprs_ax25.specs.Frame.{FrameOf};
ghost use Rattle.aprs_ax25.specs.FrameFault.{address_of, field_len, frame_fault, has_callsign, parts_of};
ghost use Rattle.aprs_ax25.specs.Hop.{hop_of};

use crate::callsign::{Callsign, push_text_at};
use crate::frame::Frame;
use crate::hop::Hop;
use crate::scan::seven_at;
use arrayvec::ArrayVec;

/// A UI frame whose bytes lie elsewhere: in a `Frame`, or among others in a store. It knows where
/// its information begins, and what it gives lives as long as those bytes.
#[derive(Clone, Copy)]
pub struct FrameRef<'a> {
    bytes: &'a [u8],
    /// Where the information begins.
    info_at: usize,
    ghost sound: { frame_fault bytes.now ≡ None },
    ghost octets: { All (λ b. b < 256) bytes.now },
    ghost place: { info_at ≡ field_len bytes.now + 2 },
}

impl<'a> FrameRef<'a> {
    ghost use Rattle.aprs_ax25.specs.FrameRef.{frame_bytes};

    /// This frame, lent. Takes no memory.
    pub fn of(frame: &'a Frame) -> FrameRef<'a>
        ensures { frame_bytes result ≡ frame.now }
    {
        FrameRef::with_info_at(frame.bytes(), frame.info_at())
    }

    /// The frame whose bytes these are, where its information is known to begin at `info_at`: no
    /// byte is looked at. Takes no memory.
    pub fn with_info_at(bytes: &'a [u8], info_at: usize) -> FrameRef<'a>
        requires frame { FrameOf (parts_of bytes.now) bytes.now }
        requires info { info_at ≡ field_len bytes.now + 2 }
        ensures { frame_bytes result ≡ bytes.now }
    {
        FrameRef { bytes, info_at }
    }

    /// The frame's bytes, 17 to 328. Takes no memory.
    pub fn bytes(&self) -> &'a [u8]
        ensures value { result.now ≡ frame_bytes self.now }
        ensures frame { FrameOf (parts_of (frame_bytes self.now)) (frame_bytes self.now) }
    {
        self.bytes
    }

    /// Where among the bytes the information begins, 16 to 72. Takes no memory.
    pub fn info_at(&self) -> usize
        ensures value { result ≡ field_len (frame_bytes self.now) + 2 }
        ensures most { result ≤ 72 }
    {
        self.info_at
    }

    /// The station that sent the frame. Takes no memory.
    pub fn source(&self) -> Callsign
        ensures { result ≡ (parts_of (frame_bytes self.now)).source.call }
    {
        Callsign::from_octets(self.source_octets())
    }

    /// The seven octets of the source's address. Where they are equal, so are the sources. Where
    /// they differ, the sources may still be equal: the last octet has flags too. Takes no memory.
    pub fn source_octets(&self) -> &'a [u8]
        ensures value { result.now ≡ take 7 (drop 7 (frame_bytes self.now)) }
        ensures seven { length result.now ≡ 7 }
        ensures callsign { has_callsign result.now ≡ true }
    {
        seven_at(self.bytes, 7)
    }

    /// The destination, which APRS uses for the sender's software or equipment (APRS Protocol
    /// Reference 1.0.1, chapter 4). Takes no memory.
    pub fn destination(&self) -> Callsign
        ensures { result ≡ (parts_of (frame_bytes self.now)).destination.call }
    {
        Callsign::from_octets(seven_at(self.bytes, 0))
    }

    /// Puts the text of the source's callsign, as `Callsign::text` gives it, at the end of `out`:
    /// at most 9 bytes. Takes no memory.
    pub fn push_source_text<const N: usize>(&self, out: &mut ArrayVec<u8, N>)
        requires room { array_vec_len out.old + 9 ≤ N }
        ensures text { out.new.items ≡ out.old.items
            ++ call_text (parts_of (frame_bytes self.now)).source.call }
        ensures most { array_vec_len out.new ≤ array_vec_len out.old + 9 }
    {
        push_text_at(out, self.source_octets());
    }

    /// Puts the text of the destination's callsign, as `Callsign::text` gives it, at the end of
    /// `out`: at most 9 bytes. Takes no memory.
    pub fn push_destination_text<const N: usize>(&self, out: &mut ArrayVec<u8, N>)
        requires room { array_vec_len out.old + 9 ≤ N }
        ensures text { out.new.items ≡ out.old.items
            ++ call_text (parts_of (frame_bytes self.now)).destination.call }
        ensures most { array_vec_len out.new ≤ array_vec_len out.old + 9 }
    {
        push_text_at(out, seven_at(self.bytes, 0));
    }

    /// How many digipeaters the frame names, 0 to 8. Takes no memory.
    pub fn hops(&self) -> usize
        ensures value { result ≡ length (parts_of (frame_bytes self.now)).digipeaters }
        ensures few { result ≤ 8 }
    {
        // The addresses end two octets before the information. Each has 7, and the first two are
        // the destination's and the source's.
        (self.info_at - 2) / 7 - 2
    }

    /// Digipeater number `i`, counted from 0 in the order of the path, or `None` where the frame
    /// names fewer. Takes no memory.
    pub fn hop(&self, i: usize) -> Option<Hop>
        ensures { result
            ≡ option_map hop_of (slice_get (parts_of (frame_bytes self.now)).digipeaters i) }
    {
        let octets = self.hop_octets(i)?;
        Some(Hop::from_octets(octets))
    }

    /// Puts the text of the callsign of digipeater number `i`, counted from 0, at the end of
    /// `out`, at most 9 bytes, and returns whether this digipeater has repeated the frame. `None`
    /// where there is no such digipeater, and then `out` stays. Takes no memory.
    pub fn push_hop_text<const N: usize>(&self, i: usize, out: &mut ArrayVec<u8, N>) -> Option<bool>
        requires room { array_vec_len out.old + 9 ≤ N }
        ensures text { MatchOption (slice_get (parts_of (frame_bytes self.now)).digipeaters i)
            (out.new.items ≡ out.old.items)
            (λ a. out.new.items ≡ out.old.items ++ call_text a.call) }
        ensures repeated { result ≡ option_map is_repeated
            (slice_get (parts_of (frame_bytes self.now)).digipeaters i) }
        ensures most { array_vec_len out.new ≤ array_vec_len out.old + 9 }
    {
        let octets = self.hop_octets(i)?;
        push_text_at(out, octets);
        // The high bit of an address's last octet is the H bit.
        Some(octets[6] >= 128)
    }

    /// The seven octets of the address of digipeater number `i`, or `None` where the frame names
    /// fewer.
    fn hop_octets(&self, i: usize) -> Option<&'a [u8]>
        ensures address { IfSome result (λ octets.
            slice_get (parts_of (frame_bytes self.now)).digipeaters i
            ≡ Some (address_of octets.now)) }
        ensures seven { IfSome result (λ octets. length octets.now ≡ 7) }
        ensures callsign { IfSome result (λ octets. has_callsign octets.now ≡ true) }
        ensures none { IfNone result
            (slice_get (parts_of (frame_bytes self.now)).digipeaters i ≡ None) }
    {
        if i < self.hops() {
            Some(seven_at(self.bytes, 7 * (i + 2)))
        } else {
            None
        }
    }

    /// The information, 1 to 256 bytes. Takes no memory.
    pub fn info(&self) -> &'a [u8]
        ensures value { result.now ≡ (parts_of (frame_bytes self.now)).info }
        ensures some { 0 < length result.now }
        ensures most { length result.now ≤ 256 }
    {
        let (_, info) = self.bytes.split_at(self.info_at);
        info
    }

    /// The frame in a place of its own. Takes no memory.
    pub fn to_frame(&self) -> Frame
        ensures { result ≡ frame_bytes self.now }
    {
        Frame::with_info_at(self.bytes, self.info_at)
    }
}
