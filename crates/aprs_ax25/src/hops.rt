//! The text of a frame's digipeaters, as monitors print them in the TNC2 format.
ghost use Rattle.std.specs.Prelude.{◌≡◌, ◌+◌, ◌≤◌, ◌++◌, drop, map, IfSome, slice_get};
ghost use Rattle.std.specs.List.{flat_map};
ghost use Rattle.arrayvec.specs.ArrayVec.{array_vec_len};
ghost use Rattle.aprs_ax25.specs.FrameFault.{parts_of};
ghost use Rattle.aprs_ax25.specs.FrameRef.{frame_bytes};
ghost use Rattle.aprs_ax25.specs.Hop.{hop_of, hop_text};

use crate::frame_ref::FrameRef;
use arrayvec::ArrayVec;

/// The most bytes of the text: eight digipeaters, each a comma, at most 9 bytes and a star.
pub const MAX_HOPS_TEXT: usize = 88;

/// The frame's digipeaters, at most 88 bytes: each a comma, its callsign, and a star where it has
/// repeated the frame. Takes no memory.
pub fn hops_text(frame: &FrameRef<'_>) -> ArrayVec<u8, MAX_HOPS_TEXT>
    ensures { result.items
        ≡ flat_map hop_text (map hop_of (parts_of (frame_bytes frame.now)).digipeaters) }
{
    let mut text = ArrayVec::new();
    push_hops_text(&mut text, frame);
    text
}

/// Puts the frame's digipeaters, as `hops_text` returns them, at the end of `out`. Takes no
/// memory.
pub fn push_hops_text<const N: usize>(out: &mut ArrayVec<u8, N>, frame: &FrameRef<'_>)
    requires room { array_vec_len out.old + 88 ≤ N }
    ensures text { out.new.items ≡ out.old.items
        ++ flat_map hop_text (map hop_of (parts_of (frame_bytes frame.now)).digipeaters) }
    ensures most { array_vec_len out.new ≤ array_vec_len out.old + 88 }
{
    for i in 0..frame.hops() {
        push_hop(out, frame, i);
    }
}

/// Puts a comma, the callsign of digipeater number `i`, counted from 0, and a star where it has
/// repeated the frame at the end of `out`. Where the frame has no such digipeater, puts the comma
/// alone.
fn push_hop<const N: usize>(out: &mut ArrayVec<u8, N>, frame: &FrameRef<'_>, i: usize)
    requires room { array_vec_len out.old + 11 ≤ N }
    ensures text { IfSome (slice_get (parts_of (frame_bytes frame.now)).digipeaters i) (λ a.
        out.new.items ≡ out.old.items ++ hop_text (hop_of a)) }
    ensures most { array_vec_len out.new ≤ array_vec_len out.old + 11 }
{
    out.push(b',');
    if let Some(true) = frame.push_hop_text(i, out) {
        out.push(b'*');
    }
}

/// The text of digipeaters without the comma before the first: empty where there are none. Takes
/// no memory.
pub fn after_comma(hops: &[u8]) -> &[u8]
    ensures { result.now ≡ drop 1 hops.now }
{
    match hops.split_first() {
        Some((_, via)) => via,
        None => hops,
    }
}
