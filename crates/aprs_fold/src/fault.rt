//! Why a fold ends before its end.
ghost use Rattle.std.specs.Prelude.{◌≡◌};

use aprs_bookfile::BookFault;
use aprs_io::WriteFault;
use aprs_rows::Memory;

/// Why a fold ends before its end.
#[derive(Clone, Copy, Debug, PartialEq, Eq)]
pub enum FoldFault {
    /// An input's fault as a book file. Inputs are counted from 0.
    Input { index: usize, fault: BookFault },
    /// An input that begins as a book file of another gap.
    OtherGap { index: usize },
    /// An allocation failed, other than in reading an input's text: that is the input's fault. It
    /// is this also where a joined row's names of receivers, with commas between, have
    /// 4,294,967,296 bytes or more, or the rows to be written are 2^64.
    Memory,
    /// The output was refused.
    Write,
}

impl From<Memory> for FoldFault {
    ghost use Rattle.aprs_fold.specs.declared.fault.FoldFault.TheVariants as fold;

    ghost from_gives = { λ memory made. made ≡ fold.Memory };

    fn from(_memory: Memory) -> FoldFault {
        FoldFault::Memory
    }
}

impl From<WriteFault> for FoldFault {
    ghost use Rattle.aprs_fold.specs.declared.fault.FoldFault.TheVariants as fold;

    ghost from_gives = { λ fault made. made ≡ fold.Write };

    fn from(_fault: WriteFault) -> FoldFault {
        FoldFault::Write
    }
}
