//! The frame in the bytes that a line holds.
ghost use Rattle.std.specs.Prelude.{◌≡◌, Err, IfSome, MatchResult};
ghost use Rattle.aprs_kiss.specs.Stream.{is_nonempty, rest_of};
ghost use Rattle.aprs_ax25.specs.FrameFault.{frame_or_fault};
ghost use Rattle.aprs_log.specs.FrameEnds.{has_other_than_ends};
ghost use Rattle.aprs_log.specs.Line.{frame_in, frame_or_reason};

use crate::fault::Reason;
use aprs_kiss::{FEND, Fed, KissReader, cut_plain};

/// The type byte of a data frame on port 0.
const DATA: u8 = 0;
/// The most bytes of a frame, and the frame end after it.
const MAX_ENDED: usize = 1024;

/// The bytes of the one data frame, of any port, that a line's bytes hold as a KISS stream. Whether
/// they are a UI frame is judged by the caller. Otherwise the first reason why there is none. Bytes
/// follow the last frame end, or there are bytes and no frame end; there are two nonempty pieces or
/// more, or none; or KISS passes the one over. Where a quick look isn't enough, `reader` is reset
/// and reads the bytes, and the frame lies in the reader.
pub fn data_in<'r>(reader: &'r mut KissReader, bytes: &'r [u8]) -> Result<&'r [u8], Reason>
    ensures { MatchResult result
        (λ frame. frame_in bytes.now ≡ frame_or_reason (frame_or_fault frame.now))
        (λ reason. frame_in bytes.now ≡ Err reason) }
{
    match plain_frame_in(bytes) {
        Some(frame) => Ok(frame),
        None => fed_frame_in(reader, bytes),
    }
}

/// A quick look for `data_in`: the frame's bytes, where the line's bytes are a frame end, the type
/// byte 0, at most 1,023 bytes without a frame end or an escape, and a frame end, as most are.
/// `None` decides nothing: there may be a frame all the same.
fn plain_frame_in(bytes: &[u8]) -> Option<&[u8]>
    ensures { IfSome result
        (λ frame. frame_in bytes.now ≡ frame_or_reason (frame_or_fault frame.now)) }
{
    let [first, kind, ended @ ..] = bytes else {
        return None;
    };
    if *first != FEND || *kind != DATA || ended.len() > MAX_ENDED {
        return None;
    }
    let (frame, mark) = cut_plain(ended);
    let (end, after) = mark?;
    if end == FEND && after.is_empty() {
        Some(frame)
    } else {
        None
    }
}

/// What `data_in` returns, found by a reader of KISS streams, which is reset first: the bytes of
/// the one data frame, or the first reason why there is none.
#[cold]
#[inline(never)]
fn fed_frame_in<'r>(reader: &'r mut KissReader, bytes: &[u8]) -> Result<&'r [u8], Reason>
    ensures { MatchResult result
        (λ frame. frame_in bytes.now ≡ frame_or_reason (frame_or_fault frame.now))
        (λ reason. frame_in bytes.now ≡ Err reason) }
{
    if is_unended(bytes) {
        return Err(Reason::Unended);
    }
    reader.reset();
    let (used, fed) = reader.feed(bytes);
    // The first piece is read: a byte after it that is no frame end is of a second piece.
    if has_other_than_ends(&bytes[used..]) {
        return Err(Reason::TwoFrames);
    }
    match fed {
        Fed::Nothing => Err(Reason::NoFrame),
        Fed::Passed(fault) => Err(Reason::from(fault)),
        Fed::Frame { port: _, frame } => Ok(frame),
    }
}

/// Whether bytes follow the last frame end, or there are bytes and none is a frame end.
fn is_unended(bytes: &[u8]) -> bool
    ensures { result ≡ is_nonempty (rest_of bytes.now) }
{
    match bytes {
        [.., last] => *last != FEND,
        [] => false,
    }
}

/// Whether any of the bytes is not a frame end.
fn has_other_than_ends(bytes: &[u8]) -> bool
    ensures { result ≡ has_other_than_ends bytes.now }
{
    bytes.iter().any(|b| *b != FEND)
}
