//! Lines of a log.
ghost use Rattle.aprs_log.specs.ReaderSteps.{line_in};
ghost use Rattle.std.specs.Prelude.{◌≡◌, ◌≤◌, ◌*◌, ◌↔◌, ℕ, List, length, IsOk, OnErr};
ghost use Rattle.aprs_ax25.specs.FrameFault.{frame_or_fault};
ghost use Rattle.aprs_log.specs.Line.{frame_or_reason, heard_or_passed, line_of, line_of_digits};
ghost use Rattle.aprs_log.specs.LineText.{IsLine};
ghost use Rattle.aprs_log.specs.Sizes.{most_line};

mod fields;
mod frame_in_line;
pub(crate) mod line_buffers;

use crate::fault::{LineFault, Reason};
use crate::{Moment, Receiver, Reception};
use aprs_ax25::Frame;
use aprs_io::decode_into;
use fields::{take_moment, take_receiver};
use frame_in_line::data_in;
use line_buffers::LineBuffers;

/// The most bytes of a line of a log, without its LF.
pub const MAX_LINE: usize = 8192;

/// What a sound line of a log reports.
#[derive(PartialEq, Eq, Drop)]
pub enum Line {
    /// A frame was heard, by whom and when.
    Heard(Reception),
    /// The line's bytes hold no frame, and the first reason why.
    Passed(Reason),
}

/// Reads one line of a log, without its LF: a moment, a space, a receiver's name, a space, and the
/// bytes that the receiver gave, in hexadecimal of either case. A line of more than `MAX_LINE`
/// bytes or of another form is refused with the first fault of `LongLine`, `Moment`, `Receiver` and
/// `Hex`. Bytes that aren't one KISS frame with an AX.25 UI frame in it are no fault: such a line
/// is passed over. Takes no memory.
pub fn read_line(line: &[u8]) -> Result<Line, LineFault>
    ensures line { result ≡ line_of line.now }
    // Whatever the bytes are, a line of this syntax is not refused.
    ensures sound { IsOk result ↔ ((m : ℕ) × (name : List ℕ) × (bytes : List ℕ)
        × IsLine line.now m name bytes) }
{
    let mut found = Line::empty();
    match read_fields(line, &mut LineBuffers::new(), &mut found) {
        Ok(()) => Ok(found),
        Err(fault) => Err(fault),
    }
}

impl Line {
    /// The line that a reader has before its first: passed over, with no frame in it.
    pub(crate) fn empty() -> Line
        ensures { result ≡ Line.Passed Reason.NoFrame }
    {
        Line::Passed(Reason::NoFrame)
    }

    /// The same line. Takes no memory.
    pub fn copy(&self) -> Line
        ensures { result ≡ self.now }
    {
        match self {
            Line::Heard(reception) => Line::Heard(reception.copy()),
            Line::Passed(reason) => Line::Passed(*reason),
        }
    }

    /// Becomes `Heard`, with this moment, this receiver and the frame, where the bytes are a UI
    /// frame, and otherwise `Passed`, with the first reason why they aren't.
    fn assign(&mut self, moment: Moment, receiver: Receiver, bytes: &[u8])
        ensures { self.new
            ≡ heard_or_passed moment receiver (frame_or_reason (frame_or_fault bytes.now)) }
    {
        let Line::Heard(reception) = self else {
            self.assign_anew(moment, receiver, bytes);
            return;
        };
        if let Err(fault) = reception.assign(moment, receiver, bytes) {
            self.pass(Reason::from(fault));
        }
    }

    /// What `assign` does, with a reception that is made anew: becomes `Heard` where the bytes are
    /// a UI frame, and otherwise `Passed`. It stands apart, so that `assign` needs no room for a
    /// line.
    #[cold]
    #[inline(never)]
    fn assign_anew(&mut self, moment: Moment, receiver: Receiver, bytes: &[u8])
        ensures { self.new
            ≡ heard_or_passed moment receiver (frame_or_reason (frame_or_fault bytes.now)) }
    {
        *self = match Frame::read(bytes) {
            Ok(frame) => Line::Heard(Reception::new(moment, receiver, frame)),
            Err(fault) => Line::Passed(Reason::from(fault)),
        };
    }

    /// Becomes a line that is passed over for this reason.
    #[cold]
    #[inline(never)]
    fn pass(&mut self, reason: Reason)
        ensures { self.new ≡ Line.Passed reason }
    {
        *self = Line::Passed(reason);
    }
}

/// Reads a line without its LF, field by field, into `found`, or returns its first fault, as
/// `read_line` does; a fault leaves `found` as it was. `scratch` is room for the reading, and what
/// it held before changes nothing of the answer.
pub(crate) fn read_fields(
    line: &[u8],
    scratch: &mut LineBuffers,
    found: &mut Line,
) -> Result<(), LineFault>
    ensures line { line_in result found.new ≡ line_of line.now }
    ensures unchanged { OnErr result (found.new ≡ found.old) }
{
    if line.len() > MAX_LINE {
        return Err(LineFault::LongLine);
    }
    let Some(first) = take_moment(&mut scratch.clock, line) else {
        return Err(LineFault::Moment);
    };
    let (moment, rest) = first;
    let Some((receiver, digits)) = take_receiver(rest) else {
        return Err(LineFault::Receiver);
    };
    read_within(moment, receiver, digits, scratch, found)
}

/// Reads the rest of a line, the digits of the bytes that the receiver gave, and makes `found` the
/// line of this moment and receiver. The only fault is `Hex`, which leaves `found` as it was.
fn read_within(
    moment: Moment,
    receiver: Receiver,
    digits: &[u8],
    scratch: &mut LineBuffers,
    found: &mut Line,
) -> Result<(), LineFault>
    requires { length digits.now ≤ most_line }
    ensures line { line_in result found.new ≡ line_of_digits moment receiver digits.now }
    ensures unchanged { OnErr result (found.new ≡ found.old) }
{
    let Some(len) = decode_into(digits, &mut scratch.bytes) else {
        return Err(LineFault::Hex);
    };
    match data_in(&mut scratch.kiss, &scratch.bytes[..len]) {
        Ok(data) => found.assign(moment, receiver, data),
        Err(reason) => found.pass(reason),
    }
    Ok(())
}
