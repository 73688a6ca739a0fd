//! How a log ends.
ghost use Rattle.std.specs.Prelude.{◌≡◌};
ghost use Rattle.aprs_log.specs.LogAnswers.{tail_cause};

use crate::fault::LogCause;
use crate::line::MAX_LINE;
use aprs_io::InputEnd;

/// What a reader of a log does next.
#[derive(Clone, Copy, Debug, PartialEq, Eq)]
pub enum State {
    /// It returns lines.
    Reading,
    /// It reports the end.
    Ended,
    /// It reports a fault.
    Failed(LogCause),
}

/// Why a log is at fault at its end, by how its input ended; `tail` are the bytes after its last
/// LF. `None` where it ends well: at the end of the input, with no byte after the last LF.
pub fn refuse_tail(tail: &[u8], ending: InputEnd) -> Option<LogCause>
    ensures { result ≡ tail_cause tail.now ending }
{
    if tail.len() > MAX_LINE {
        return Some(LogCause::LongLine);
    }
    match ending {
        InputEnd::Read => Some(LogCause::Read),
        InputEnd::TooLong => Some(LogCause::TooLong),
        InputEnd::End if tail.is_empty() => None,
        InputEnd::End => Some(LogCause::NoNewline),
    }
}
