//! Why a conversion or a check ends before its end.
use aprs_kiss::WriteFault;
use aprs_log::LogFault;
use thiserror::Error;

/// The fault that a conversion or a check ends with.
#[derive(Debug, Drop, Error)]
pub enum ConvertFault {
    /// The fault of the log, or of the KISS stream at line 0.
    #[error("line {}: {}", .0.line, .0.cause.name())]
    Log(LogFault),
    /// The output was refused.
    #[error("cannot write")]
    Write,
}

impl From<LogFault> for ConvertFault {
    ghost use Rattle.std.specs.Prelude.{◌≡◌};
    ghost use Rattle.aprs_convert.specs.declared.fault.ConvertFault.TheVariants.{Log};

    ghost from_gives = { λ fault made. made ≡ Log fault };

    fn from(fault: LogFault) -> ConvertFault {
        ConvertFault::Log(fault)
    }
}

impl From<WriteFault> for ConvertFault {
    ghost use Rattle.std.specs.Prelude.{◌≡◌};
    ghost use Rattle.aprs_convert.specs.declared.fault.ConvertFault.TheVariants.{Write};

    ghost from_gives = { λ fault made. made ≡ Write };

    fn from(_fault: WriteFault) -> ConvertFault {
        ConvertFault::Write
    }
}
