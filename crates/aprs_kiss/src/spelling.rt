//! The bytes that KISS doesn't send as themselves.
ghost use Rattle.std.specs.Prelude.{◌≡◌, ◌≤◌, ◌<◌, length, take, slice_index, true};
ghost use Rattle.aprs_kiss.specs.Plain.{CutsPlain, IsPlain, is_special};

use memchr::memchr2;

/// A frame end, which stands before and after a frame.
pub const FEND: u8 = 0xC0;
/// Begins an escape.
pub const FESC: u8 = 0xDB;
/// Stands for FEND after FESC.
pub const TFEND: u8 = 0xDC;
/// Stands for FESC after FESC.
pub const TFESC: u8 = 0xDD;

/// The bytes before the first FEND or FESC, and then that byte and the bytes after it; or all
/// bytes and `None` where neither occurs. Takes no memory.
#[inline(always)]
pub fn cut_plain(bytes: &[u8]) -> (&[u8], Option<(u8, &[u8])>)
    ensures plain { IsPlain result.0.now }
    ensures cut { CutsPlain bytes.now result.0.now result.1 }
{
    let (plain, rest) = bytes.split_at(plain_len(bytes));
    match rest.split_first() {
        None => (plain, None),
        Some((mark, after)) => (plain, Some((*mark, after))),
    }
}

/// How many bytes stand before the first FEND or FESC, or how many there are where neither
/// occurs.
fn plain_len(bytes: &[u8]) -> usize
    ensures within { result ≤ length bytes.now }
    ensures plain { IsPlain (take result bytes.now) }
    ensures mark { result < length bytes.now → is_special (slice_index bytes.now result) ≡ true }
{
    memchr2(FEND, FESC, bytes).unwrap_or(bytes.len())
}
