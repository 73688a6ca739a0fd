//! Why a line is refused or passed over, and why a log ends before its end.
ghost use Rattle.std.specs.Prelude.{◌≡◌};
ghost use Rattle.aprs_log.specs.Fault as Spec;

use aprs_ax25::FrameFault;
use aprs_kiss::PassFault;

/// What is wrong with a line of a log, in the order in which a line is read: the first fault is
/// returned.
#[derive(Clone, Copy, Debug, PartialEq, Eq)]
pub enum LineFault {
    /// The line has more than 8,192 bytes, without its LF.
    LongLine,
    /// The input ends inside a line. No call of this crate returns it: a log has a `LogCause`.
    NoNewline,
    /// The line doesn't begin with a moment and a space.
    Moment,
    /// No receiver's name and a space follow the first space.
    Receiver,
    /// What stands after the second space isn't an even number of hexadecimal digits.
    Hex,
}

impl LineFault {
    /// Its number, 1 to 5. Takes no memory.
    pub fn number(&self) -> u8
        ensures { result ≡ Spec.line_fault_number self.now }
    {
        match self {
            LineFault::LongLine => 1,
            LineFault::NoNewline => 2,
            LineFault::Moment => 3,
            LineFault::Receiver => 4,
            LineFault::Hex => 5,
        }
    }

    /// Its name, as in `NoNewline`. Takes no memory.
    pub fn name(&self) -> &'static str
        ensures { result.now ≡ Spec.line_fault_name self.now }
    {
        match self {
            LineFault::LongLine => "LongLine",
            LineFault::NoNewline => "NoNewline",
            LineFault::Moment => "Moment",
            LineFault::Receiver => "Receiver",
            LineFault::Hex => "Hex",
        }
    }
}

/// Why a log is read no further.
#[derive(Clone, Copy, Debug, PartialEq, Eq)]
pub enum LogCause {
    /// A line has more than 8,192 bytes, without its LF, also where no LF came yet.
    LongLine,
    /// The input ends inside a line.
    NoNewline,
    /// A line doesn't begin with a moment and a space.
    Moment,
    /// No receiver's name and a space follow a line's first space.
    Receiver,
    /// What stands after a line's second space isn't an even number of hexadecimal digits.
    Hex,
    /// A read of the device failed.
    Read,
    /// The input has more bytes than the limit.
    TooLong,
    /// An allocation failed. No call of this crate returns it.
    Memory,
}

impl LogCause {
    /// Its number, 1 to 8. Takes no memory.
    pub fn number(&self) -> u8
        ensures { result ≡ Spec.log_cause_number self.now }
    {
        match self {
            LogCause::LongLine => 1,
            LogCause::NoNewline => 2,
            LogCause::Moment => 3,
            LogCause::Receiver => 4,
            LogCause::Hex => 5,
            LogCause::Read => 6,
            LogCause::TooLong => 7,
            LogCause::Memory => 8,
        }
    }

    /// Its name, as in `NoNewline`. Takes no memory.
    pub fn name(&self) -> &'static str
        ensures { result.now ≡ Spec.log_cause_name self.now }
    {
        match self {
            LogCause::LongLine => "LongLine",
            LogCause::NoNewline => "NoNewline",
            LogCause::Moment => "Moment",
            LogCause::Receiver => "Receiver",
            LogCause::Hex => "Hex",
            LogCause::Read => "Read",
            LogCause::TooLong => "TooLong",
            LogCause::Memory => "Memory",
        }
    }
}

impl From<LineFault> for LogCause {
    ghost from_gives = { λ fault cause. cause ≡ Spec.log_cause_of fault };

    fn from(fault: LineFault) -> LogCause {
        match fault {
            LineFault::LongLine => LogCause::LongLine,
            LineFault::NoNewline => LogCause::NoNewline,
            LineFault::Moment => LogCause::Moment,
            LineFault::Receiver => LogCause::Receiver,
            LineFault::Hex => LogCause::Hex,
        }
    }
}

/// Where a log is read no further, and why.
#[derive(Clone, Copy, Debug, PartialEq, Eq)]
pub struct LogFault {
    /// The number of the first line that was not returned, counted from 1. Where a read failed, the
    /// last LF is missing or the log is over the limit, it is the line whose end was not reached,
    /// even if no byte of it came.
    pub line: u64,
    /// Why that line was not returned.
    pub cause: LogCause,
}

/// Why a sound line holds no frame, in the order in which its bytes are judged: by KISS first, then
/// by section 3 of AX.25 2.2.
#[derive(Clone, Copy, Debug, PartialEq, Eq)]
pub enum Reason {
    /// Bytes follow the last frame end (FEND, C0), or there are bytes and no frame end.
    Unended,
    /// There are frame ends alone, or no bytes.
    NoFrame,
    /// Two nonempty pieces or more, frames or not.
    TwoFrames,
    /// An escape (FESC, DB) that neither DC nor DD follows in the piece.
    BadEscape,
    /// More than 1,024 bytes once the escapes are undone, the type byte among them.
    TooLong,
    /// A KISS command other than data.
    NotData,
    /// The address field doesn't end after 2 to 10 addresses.
    Address,
    /// An address holds no callsign.
    Callsign,
    /// The control octet is missing, or isn't 03, that of a UI frame without poll.
    Control,
    /// The protocol identifier is missing, or isn't F0, no layer 3.
    Pid,
    /// No information follows.
    NoInfo,
    /// More than 256 bytes of information.
    LongInfo,
}

impl Reason {
    /// Its number, 1 to 12. Takes no memory.
    pub fn number(&self) -> u8
        ensures { result ≡ Spec.reason_number self.now }
    {
        match self {
            Reason::Unended => 1,
            Reason::NoFrame => 2,
            Reason::TwoFrames => 3,
            Reason::BadEscape => 4,
            Reason::TooLong => 5,
            Reason::NotData => 6,
            Reason::Address => 7,
            Reason::Callsign => 8,
            Reason::Control => 9,
            Reason::Pid => 10,
            Reason::NoInfo => 11,
            Reason::LongInfo => 12,
        }
    }

    /// Its name, as in `NoFrame`. Takes no memory.
    pub fn name(&self) -> &'static str
        ensures { result.now ≡ Spec.reason_name self.now }
    {
        match self {
            Reason::Unended => "Unended",
            Reason::NoFrame => "NoFrame",
            Reason::TwoFrames => "TwoFrames",
            Reason::BadEscape => "BadEscape",
            Reason::TooLong => "TooLong",
            Reason::NotData => "NotData",
            Reason::Address => "Address",
            Reason::Callsign => "Callsign",
            Reason::Control => "Control",
            Reason::Pid => "Pid",
            Reason::NoInfo => "NoInfo",
            Reason::LongInfo => "LongInfo",
        }
    }
}

impl From<PassFault> for Reason {
    ghost from_gives = { λ fault reason. reason ≡ Spec.reason_of_pass fault };

    fn from(fault: PassFault) -> Reason {
        match fault {
            PassFault::BadEscape => Reason::BadEscape,
            PassFault::TooLong => Reason::TooLong,
            PassFault::NotData => Reason::NotData,
        }
    }
}

impl From<FrameFault> for Reason {
    ghost from_gives = { λ fault reason. reason ≡ Spec.reason_of_frame fault };

    fn from(fault: FrameFault) -> Reason {
        match fault {
            FrameFault::Address => Reason::Address,
            FrameFault::Callsign => Reason::Callsign,
            FrameFault::Control => Reason::Control,
            FrameFault::Pid => Reason::Pid,
            FrameFault::NoInfo => Reason::NoInfo,
            FrameFault::LongInfo => Reason::LongInfo,
        }
    }
}
