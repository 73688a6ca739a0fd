//! Why a piece of a KISS stream is passed over.
ghost use Rattle.std.specs.Prelude.{◌≡◌};
ghost use Rattle.aprs_kiss.specs.Fault.{pass_fault_number, pass_fault_name};

/// Why a nonempty piece between two frame ends is no data frame: the first that holds.
#[derive(Clone, Copy, Debug, PartialEq, Eq)]
pub enum PassFault {
    /// An escape that is followed neither by TFEND nor by TFESC in the piece.
    BadEscape,
    /// More than 1,024 bytes once the escapes are undone, the type byte among them.
    TooLong,
    /// A command other than 0, the data frame, in the low four bits of the type byte.
    NotData,
}

impl PassFault {
    /// The fault's number, 1 to 3, in the order in which the faults are looked for. Takes no
    /// memory.
    pub fn number(&self) -> u8
        ensures { result ≡ pass_fault_number self.now }
    {
        match self {
            PassFault::BadEscape => 1,
            PassFault::TooLong => 2,
            PassFault::NotData => 3,
        }
    }

    /// The variant's name. Takes no memory.
    pub fn name(&self) -> &'static str
        ensures { result.now ≡ pass_fault_name self.now }
    {
        match self {
            PassFault::BadEscape => "BadEscape",
            PassFault::TooLong => "TooLong",
            PassFault::NotData => "NotData",
        }
    }
}
