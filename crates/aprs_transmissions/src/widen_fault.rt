//! Why a book is not widened.
ghost use Rattle.std.specs.Prelude.{◌≡◌};
ghost use Rattle.aprs_transmissions.specs.BookFaults.{widen_fault_number, widen_fault_name};

/// Why a book is not widened: the first of these that is true, in the order of their
/// numbers.
#[derive(Clone, Copy, Debug, PartialEq, Eq)]
pub enum WidenFault {
    /// The new gap is less than the book's.
    Narrower,
    /// Memory was refused, or a row's names of receivers have 4 GiB or more, commas among them.
    Memory,
}

impl WidenFault {
    /// The fault's number, 1 or 2. Takes no memory.
    pub fn number(&self) -> u8
        ensures { result ≡ widen_fault_number self.now }
    {
        match self {
            WidenFault::Narrower => 1,
            WidenFault::Memory => 2,
        }
    }

    /// The fault's name, as in `Narrower`. Takes no memory.
    pub fn name(&self) -> &'static str
        ensures { result.now ≡ widen_fault_name self.now }
    {
        match self {
            WidenFault::Narrower => "Narrower",
            WidenFault::Memory => "Memory",
        }
    }
}
