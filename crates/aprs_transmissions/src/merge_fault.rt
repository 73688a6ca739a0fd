//! Why two books are not merged.
ghost use Rattle.std.specs.Prelude.{◌≡◌};
ghost use Rattle.aprs_transmissions.specs.BookFaults.{merge_fault_number, merge_fault_name};

/// Why two books are not merged: the first of these that is true, in the order of their
/// numbers.
#[derive(Clone, Copy, Debug, PartialEq, Eq)]
pub enum MergeFault {
    /// Their gaps differ.
    OtherGap,
    /// Memory was refused, or a row's names of receivers have 4 GiB or more, commas among them.
    Memory,
}

impl MergeFault {
    /// The fault's number, 1 or 2. Takes no memory.
    pub fn number(&self) -> u8
        ensures { result ≡ merge_fault_number self.now }
    {
        match self {
            MergeFault::OtherGap => 1,
            MergeFault::Memory => 2,
        }
    }

    /// The fault's name, as in `OtherGap`. Takes no memory.
    pub fn name(&self) -> &'static str
        ensures { result.now ≡ merge_fault_name self.now }
    {
        match self {
            MergeFault::OtherGap => "OtherGap",
            MergeFault::Memory => "Memory",
        }
    }
}
