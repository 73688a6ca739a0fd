//! Why a row isn't added to a book.
ghost use Rattle.std.specs.Prelude.{◌≡◌};
ghost use Rattle.aprs_transmissions.specs.RowCause.{row_cause_number, row_cause_name};

/// Why a row isn't added after those of a book: the first of these that is true of it, in the
/// order of their numbers.
#[derive(Clone, Copy, Debug, PartialEq, Eq)]
pub enum RowCause {
    /// By key, then first moment, it doesn't come after the last row.
    Order,
    /// Its first moment is after its last.
    Span,
    /// It has the key of the last row, and begins no later than the gap of the book after that row
    /// ends.
    Near,
    /// Its receivers don't strictly ascend, or lack that of the greatest reception.
    Receivers,
    /// All of it is at one moment, and its greatest reception isn't by the last of its receivers.
    NotGreatest,
    /// Memory was refused.
    Memory,
}

impl RowCause {
    /// The cause's number, 1 to 6. Takes no memory.
    pub fn number(&self) -> u8
        ensures { result ≡ row_cause_number self.now }
    {
        match self {
            RowCause::Order => 1,
            RowCause::Span => 2,
            RowCause::Near => 3,
            RowCause::Receivers => 4,
            RowCause::NotGreatest => 5,
            RowCause::Memory => 6,
        }
    }

    /// The cause's name, as in `NotGreatest`. Takes no memory.
    pub fn name(&self) -> &'static str
        ensures { result.now ≡ row_cause_name self.now }
    {
        match self {
            RowCause::Order => "Order",
            RowCause::Span => "Span",
            RowCause::Near => "Near",
            RowCause::Receivers => "Receivers",
            RowCause::NotGreatest => "NotGreatest",
            RowCause::Memory => "Memory",
        }
    }
}
