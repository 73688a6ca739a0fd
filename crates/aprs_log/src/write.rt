//! Lines of a log as they are written.
ghost use Rattle.std.specs.Prelude.{◌≡◌, ◌≤◌, ◌+◌, ◌*◌, [], ◌∷◌, ◌++◌, length, take, true, Ok};
ghost use Rattle.hex.specs.Hex.{decode_of, encode_lower};
ghost use Rattle.aprs_io.specs.Device.{Sends};
ghost use Rattle.aprs_kiss.specs.Plain.{is_special};
ghost use Rattle.aprs_kiss.specs.Spelling.{kiss_text, spelling_of_byte};
ghost use Rattle.aprs_log.specs.Line.{line_of, written_line};
ghost use Rattle.aprs_log.specs.Moment.{moment_text};
ghost use Rattle.aprs_log.specs.Sizes.{last_milli, most_line};

use crate::line::Line;
use crate::moment::civil::MILLIS_LEN;
use crate::moment::writer::MomentWriter;
use crate::reception::Reception;
use aprs_ax25::MAX_UI_FRAME;
use aprs_io::{Counted, WriteFault, put, put_hex, send};
use aprs_kiss::{FEND, cut_plain};
use std::io::Write;

/// The most bytes that a frame is sent as: each byte as two, and three around them.
const MAX_SPELLED: usize = 2 * MAX_UI_FRAME + 3;

/// The most bytes of a line that is written: a moment, a name, two spaces, the digits and the LF.
const MAX_WRITTEN: usize = 24 + 16 + 2 + 2 * MAX_SPELLED + 1;

/// Writes a reception as a line of a log, with its LF: its moment, its receiver and its frame. The
/// moment is written to the millisecond, and the frame as KISS sends it on port 0, in lower case
/// hexadecimal. At a fault a prefix of the line went out, and the count of the device's failures
/// rose. Takes no memory.
pub fn write_line<W: Write>(w: &mut Counted<W>, reception: &Reception) -> Result<(), WriteFault>
    ensures sends { Sends W.contents result w.old w.new (written_line reception.now ++ 10 ∷ []) }
    // The line reads back as the reception.
    ensures reads_back { line_of (written_line reception.now) ≡ Ok (Line.Heard reception.now) }
{
    LogWriter::new().write(w, reception)
}

/// Writes receptions as lines of a log. It keeps the room for a line, which to make anew costs more
/// than to write a line.
#[derive(Drop)]
pub struct LogWriter {
    line: [u8; MAX_WRITTEN],
    moments: MomentWriter,
}

impl LogWriter {
    /// A writer of lines. Takes no memory.
    pub fn new() -> LogWriter {
        LogWriter {
            line: [0; MAX_WRITTEN],
            moments: MomentWriter::new(),
        }
    }

    /// Writes a reception as one line of a log, with its LF, as `write_line` does. At a fault a
    /// prefix of the line went out, and the count of the device's failures rose. Takes no memory.
    pub fn write<W: Write>(
        &mut self,
        w: &mut Counted<W>,
        reception: &Reception,
    ) -> Result<(), WriteFault>
        ensures sends { Sends W.contents result w.old w.new
            (written_line reception.now ++ 10 ∷ []) }
        // The line reads back as the reception.
        ensures reads_back { line_of (written_line reception.now) ≡ Ok (Line.Heard reception.now) }
    {
        let moment = self.moments.text(reception.moment());
        let len = put_line(&mut self.line, &moment, reception);
        send(w, &self.line[..len])
    }
}

/// Puts the line of a reception and its LF at the start of `line`, and returns how many bytes they
/// are. `moment` is the text of the reception's moment. The line, if it has at most 8,192 bytes,
/// reads back as the reception.
fn put_line(line: &mut [u8], moment: &[u8; MILLIS_LEN], reception: &Reception) -> usize
    requires line { length line.old ≡ MAX_WRITTEN }
    requires moment { moment.now ≡ moment_text reception.now.moment }
    requires range { reception.now.moment ≤ last_milli }

    ensures line { take result line.new ≡ written_line reception.now ++ 10 ∷ [] }
    ensures back { length (written_line reception.now) ≤ most_line
        → line_of (written_line reception.now) ≡ Ok (Line.Heard reception.now) }
    ensures fits { result ≤ MAX_WRITTEN }

    ensures len { length line.new ≡ MAX_WRITTEN }
{
    let time = put(line, 0, moment);
    let space = put(line, time, b" ");
    let receiver = put(line, space, reception.receiver().as_bytes());
    let place = put(line, receiver, b" ");
    let digits = put_frame(line, place, reception.frame().bytes());
    put(line, digits, b"\n")
}

/// Puts what goes out for a frame into `out` at `at`, in lower case hexadecimal: a frame end, the
/// type byte 0, the frame with its escapes, and a frame end. Returns the place after the digits;
/// what stands before `at` stays.
fn put_frame(out: &mut [u8], at: usize, frame: &[u8]) -> usize
    requires few { length frame.now ≤ MAX_UI_FRAME }
    requires room { at + 2 * MAX_SPELLED ≤ length out.old }

    ensures digits { take result out.new ≡ take at out.old ++ encode_lower (kiss_text frame.now) }
    ensures back { decode_of (encode_lower (kiss_text frame.now)) ≡ Ok (kiss_text frame.now) }
    ensures end { result ≤ at + 2 * MAX_SPELLED }

    ensures len { length out.new ≡ length out.old }
{
    let mut end = put(out, at, b"c000");
    let mut rest = frame;
    'cuts: loop {
        let (plain, mark) = cut_plain(rest);
        end = put_hex(out, end, plain);
        let Some((byte, after)) = mark else {
            return put(out, end, b"c0");
        };
        end = put_escape(out, end, byte);
        rest = after;
    }
}

/// Puts the four digits of what FEND (C0) or FESC (DB) is sent as into `out` at `at`, and returns
/// the place after them; what stands before `at` stays.
fn put_escape(out: &mut [u8], at: usize, byte: u8) -> usize
    requires special { is_special byte ≡ true }
    requires room { at + 4 ≤ length out.old }

    ensures digits { take result out.new ≡ take at out.old ++ encode_lower (spelling_of_byte byte) }
    ensures end { result ≡ at + 4 }

    ensures len { length out.new ≡ length out.old }
{
    if byte == FEND {
        put(out, at, b"dbdc")
    } else {
        put(out, at, b"dbdd")
    }
}
