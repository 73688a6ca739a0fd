//! Prefixes of keys: numbers that are compared before the keys themselves.
ghost use Rattle.std.specs.Prelude.{◌≡◌, ℕ, ◌<◌, ◌%◌, length, slice_index};
ghost use Rattle.std.specs.Int.{w64, from_be_bytes};
ghost use Rattle.aprs_ax25.specs.FrameRef.{frame_bytes};
ghost use Rattle.aprs_transmissions.specs.Key.{key_of, key_cmp};
ghost use Rattle.aprs_rows.specs.KeyPrefix.{HasKeyPrefix};
ghost use Rattle.aprs_rows.specs.KeyPrefixSteps.{octets_number};

use aprs_ax25::{Frame, FrameRef};
use std::cmp::Ordering;

/// The prefix of a frame's key: the numbers of its source, of its destination and of the first
/// eight bytes of its information. Where two prefixes differ, they are in the order of their keys.
#[derive(Clone, Copy, PartialEq, Eq, PartialOrd, Ord)]
pub struct KeyPrefix {
    source: u64,
    destination: u64,
    info: u64,
}

impl KeyPrefix {
    /// The prefix of the frame's key. Takes no memory.
    pub fn of_frame(frame: &Frame) -> KeyPrefix
        ensures { HasKeyPrefix result frame.now }
    {
        KeyPrefix::of(&FrameRef::of(frame))
    }

    /// The prefix of the key of a frame that is lent.
    #[tactic(auto, unfolding(aprs_transmissions::specs::Key::key_of))]
    pub(crate) fn of(frame: &FrameRef<'_>) -> KeyPrefix
        ensures { HasKeyPrefix result (frame_bytes frame.now) }
    {
        let bytes = frame.bytes();
        KeyPrefix {
            source: call_number(&bytes[7..15]),
            destination: call_number(&bytes[..8]),
            info: info_number(frame.info()),
        }
    }
}

/// The order of the keys of two frames, each after the prefix of its key.
pub(crate) fn key_order(
    head: KeyPrefix,
    frame: &FrameRef<'_>,
    other_head: KeyPrefix,
    other: &FrameRef<'_>,
) -> Ordering
    requires head { HasKeyPrefix head (frame_bytes frame.now) }
    requires other { HasKeyPrefix other_head (frame_bytes other.now) }
    ensures { result ≡ key_cmp (key_of (frame_bytes frame.now)) (key_of (frame_bytes other.now)) }
{
    match head.cmp(&other_head) {
        Ordering::Equal => frame.info().cmp(other.info()),
        unequal => unequal,
    }
}

/// The order of the keys of two frames: by source, destination, then information. Takes no memory.
pub fn order_of_keys(a: &Frame, b: &Frame) -> Ordering
    ensures { result ≡ key_cmp (key_of a.now) (key_of b.now) }
{
    let (a, b) = (FrameRef::of(a), FrameRef::of(b));
    key_order(KeyPrefix::of(&a), &a, KeyPrefix::of(&b), &b)
}

/// The number of the callsign in the seven octets of an address, which one more follows: base 256,
/// of the six letters and then the SSID. In the octets each letter is shifted left by one bit, and
/// the SSID is bits 1 to 4 of the last. One load takes all of them.
fn call_number(octets: &[u8]) -> u64
    requires size { length octets.now ≡ 8 }
    requires even { (i : ℕ) → i < 6 → slice_index octets.now i % 2 ≡ 0 }
    ensures { result ≡ octets_number octets.now }
{
    let Some(first) = octets.first_chunk::<8>() else {
        unreachable!()
    };
    let number = u64::from_be_bytes(*first);
    let (letters, ssid) = (number / 131_072, number / 512 % 16);
    letters * 256 + ssid
}

/// The number of the first eight bytes, base 256. Where there are fewer, zeros follow them.
fn info_number(info: &[u8]) -> u64
    ensures value { result ≡ from_be_bytes w64 info.now }
    // Needed where prefixes are compared: the bytes are digits of the number.
    ensures bytes { (i : ℕ) → slice_index info.now i < 256 }
{
    let first = match info.first_chunk::<8>() {
        Some(first) => *first,
        None => eight(info),
    };
    u64::from_be_bytes(first)
}

/// The bytes, fewer than eight, and zeros after them.
fn eight(few: &[u8]) -> [u8; 8]
    requires { length few.now < 8 }
    ensures { (k : ℕ) → slice_index result k ≡ slice_index few.now k }
{
    let mut bytes = [0; 8];
    bytes[..few.len()].copy_from_slice(few);
    bytes
}
