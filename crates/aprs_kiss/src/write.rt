//! Writes KISS frames.
ghost use Rattle.std.specs.Prelude.{◌≡◌, ◌≤◌, length, take, true};
ghost use Rattle.aprs_io.specs.Device.{Sends};
ghost use Rattle.aprs_kiss.specs.Plain.{IsPlain, is_special};
ghost use Rattle.aprs_kiss.specs.Spelling.{kiss_text, spelling_of_byte};

use crate::spelling::{FEND, FESC, TFEND, TFESC, cut_plain};
use aprs_io::{Counted, WriteFault, put, send};
use std::io::Write;

/// The type byte of a data frame on port 0.
const DATA: u8 = 0;

/// The most bytes of a frame that is written at once, more than a UI frame has.
const MAX_AT_ONCE: usize = 512;

/// The most bytes that are written at once: such a frame, two frame ends and the type byte.
const MAX_PLAIN: usize = MAX_AT_ONCE + 3;

/// Writes a frame of any length as a data frame of port 0 (the KISS paper): a frame end, the type
/// byte 0, the frame's bytes with FEND and FESC escaped, and a frame end. At a fault a prefix of
/// these went out, and the count of the device's failures rose. Takes no memory.
pub fn write_kiss<W: Write>(w: &mut Counted<W>, frame: &[u8]) -> Result<(), WriteFault>
    ensures { Sends W.contents result w.old w.new (kiss_text frame.now) }
{
    KissWriter::new().write(w, frame)
}

/// Writes frames one after another. It keeps the room for a frame, which to make anew costs more
/// than to fill it.
#[derive(Drop)]
pub struct KissWriter {
    text: [u8; MAX_PLAIN],
}

impl KissWriter {
    /// A writer of frames. Takes no memory.
    pub fn new() -> KissWriter {
        KissWriter {
            text: [0; MAX_PLAIN],
        }
    }

    /// Writes one frame of any length as `write_kiss` does: a data frame of port 0, of which at a
    /// fault a prefix went out. It goes out at once where no byte is escaped and there are at
    /// most 512, otherwise part by part. Takes no memory.
    pub fn write<W: Write>(&mut self, w: &mut Counted<W>, frame: &[u8]) -> Result<(), WriteFault>
        ensures { Sends W.contents result w.old w.new (kiss_text frame.now) }
    {
        let (plain, mark) = cut_plain(frame);
        if mark.is_some() || plain.len() > MAX_AT_ONCE {
            return write_spelled(w, frame);
        }
        let len = put_plain(&mut self.text, plain);
        send(w, &self.text[..len])
    }
}

/// Writes a frame as a data frame of port 0, part by part: what stands before a byte that is
/// escaped, then its escape, and so on. At a fault a prefix went out.
fn write_spelled<W: Write>(w: &mut Counted<W>, frame: &[u8]) -> Result<(), WriteFault>
    ensures { Sends W.contents result w.old w.new (kiss_text frame.now) }
{
    send(w, &[FEND, DATA])?;
    let mut rest = frame;
    loop {
        let (plain, mark) = cut_plain(rest);
        send(w, plain)?;
        let Some((byte, after)) = mark else {
            return send(w, &[FEND]);
        };
        send(w, &escape_of(byte))?;
        rest = after;
    }
}

/// Writes what is sent for a frame to the start of `out`, and returns how many bytes that is. The
/// frame has no FEND or FESC, so each of its bytes is sent as itself.
fn put_plain(out: &mut [u8], frame: &[u8]) -> usize
    requires few { length frame.now ≤ MAX_AT_ONCE }
    requires plain { IsPlain frame.now }
    requires room { length out.old ≡ MAX_PLAIN }

    ensures text { take result out.new ≡ kiss_text frame.now }
    ensures fits { result ≤ MAX_PLAIN }

    ensures len { length out.new ≡ MAX_PLAIN }
{
    let start = put(out, 0, &[FEND, DATA]);
    let end = put(out, start, frame);
    put(out, end, &[FEND])
}

/// What FEND or FESC is sent as.
fn escape_of(byte: u8) -> [u8; 2]
    requires { is_special byte ≡ true }
    ensures { result ≡ spelling_of_byte byte }
{
    if byte == FEND {
        [FESC, TFEND]
    } else {
        [FESC, TFESC]
    }
}
