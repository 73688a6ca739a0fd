//! Why a run ends before its end.
ghost use Rattle.std.specs.Prelude.{◌≡◌};
ghost use Rattle.aprs_runs.specs.ExitStatus.{status_of_fault, status_of_input};

use aprs_bookfile::{BookCause, BookFault};
use aprs_convert::ConvertFault;
use aprs_io::WriteFault;
use aprs_log::{LogCause, LogFault};
use aprs_rows::Memory;
use aprs_transmissions::MergeFault;
use thiserror::Error;

/// What is wrong with an input.
#[derive(Debug, Drop, Error)]
pub enum InputFault {
    /// The fault of a log, or of a KISS stream at line 0.
    #[error("line {}: {}", .0.line, .0.cause.name())]
    Log(LogFault),
    /// The fault of a book file.
    #[error("line {}: {}", .0.line, .0.cause.name())]
    Book(BookFault),
    /// An allocation failed for what the input gives, or for the book that it is taken into. A desk
    /// answers so also where a row's names of receivers have 4 GiB or more.
    #[error("out of memory")]
    Memory,
    /// A book file whose gap isn't that of the book it is taken into.
    #[error("other gap")]
    OtherGap,
    /// A book file whose gap is greater than the one it is to be widened to.
    #[error("narrower")]
    Narrower,
}

impl From<LogFault> for InputFault {
    ghost use Rattle.aprs_runs.specs.declared.fault.InputFault.TheVariants.{Log};

    ghost from_gives = { λ fault made. made ≡ Log fault };

    fn from(fault: LogFault) -> InputFault {
        InputFault::Log(fault)
    }
}

impl From<BookFault> for InputFault {
    ghost use Rattle.aprs_runs.specs.declared.fault.InputFault.TheVariants.{Book};

    ghost from_gives = { λ fault made. made ≡ Book fault };

    fn from(fault: BookFault) -> InputFault {
        InputFault::Book(fault)
    }
}

impl From<Memory> for InputFault {
    ghost use Rattle.aprs_runs.specs.declared.fault.InputFault.TheVariants as fault;

    ghost from_gives = { λ memory made. made ≡ fault.Memory };

    fn from(_memory: Memory) -> InputFault {
        InputFault::Memory
    }
}

impl From<MergeFault> for InputFault {
    ghost use Rattle.aprs_runs.specs.Refused.{fault_of_merge};

    ghost from_gives = { λ fault made. made ≡ fault_of_merge fault };

    fn from(fault: MergeFault) -> InputFault {
        match fault {
            MergeFault::OtherGap => InputFault::OtherGap,
            MergeFault::Memory => InputFault::Memory,
        }
    }
}

/// The fault that a run ends with.
#[derive(Debug, Drop, Error)]
pub enum RunFault {
    /// An input's fault. Inputs are counted from 0.
    #[error("input {index}: {fault}")]
    Input { index: usize, fault: InputFault },
    /// The output was refused.
    #[error("cannot write")]
    Write,
    /// An allocation failed that isn't for one input alone, such as for a list or a widened book.
    /// In a fold it stands for each `FoldFault::Memory`.
    #[error("out of memory")]
    Memory,
}

/// The only input, number 0, has this fault.
impl From<LogFault> for RunFault {
    ghost use Rattle.aprs_runs.specs.declared.fault.InputFault.TheVariants.{Log};
    ghost use Rattle.aprs_runs.specs.declared.fault.RunFault.TheVariants.{Input};

    ghost from_gives = { λ fault made. made ≡ Input 0 (Log fault) };

    fn from(fault: LogFault) -> RunFault {
        RunFault::Input {
            index: 0,
            fault: InputFault::Log(fault),
        }
    }
}

/// The input of a conversion or a check is number 0.
impl From<ConvertFault> for RunFault {
    ghost use Rattle.aprs_runs.specs.RunEnds.{run_fault};

    ghost from_gives = { λ fault made. made ≡ run_fault fault };

    fn from(fault: ConvertFault) -> RunFault {
        match fault {
            ConvertFault::Log(fault) => RunFault::from(fault),
            ConvertFault::Write => RunFault::Write,
        }
    }
}

impl From<WriteFault> for RunFault {
    ghost use Rattle.aprs_runs.specs.declared.fault.RunFault.TheVariants.{Write};

    ghost from_gives = { λ fault made. made ≡ Write };

    fn from(_fault: WriteFault) -> RunFault {
        RunFault::Write
    }
}

/// The program's exit status for a run's fault: 4 where an allocation failed, 3 where the output
/// was refused, and 1 for an input's own fault. Takes no memory.
pub fn status_of(fault: &RunFault) -> u8
    ensures { result ≡ status_of_fault fault.now }
{
    match fault {
        RunFault::Input { fault, .. } => status_of_input(fault),
        RunFault::Write => 3,
        RunFault::Memory => 4,
    }
}

/// The exit status for an input's fault: 4 where an allocation failed, 1 for any other fault.
fn status_of_input(fault: &InputFault) -> u8
    ensures { result ≡ status_of_input fault.now }
{
    match fault {
        InputFault::Log(fault) if fault.cause == LogCause::Memory => 4,
        InputFault::Book(fault) if fault.cause == BookCause::Memory => 4,
        InputFault::Memory => 4,
        InputFault::Log(_) | InputFault::Book(_) => 1,
        InputFault::OtherGap | InputFault::Narrower => 1,
    }
}
