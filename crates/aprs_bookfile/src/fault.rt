//! Why a text is no book.
ghost use Rattle.std.specs.Prelude.{◌≡◌};
ghost use Rattle.aprs_bookfile.specs.Fault.{book_cause_number, book_cause_name, book_cause_of};

use aprs_transmissions::RowCause;

/// Why the text of a book is read no further.
#[derive(Clone, Copy, Debug, PartialEq, Eq)]
pub enum BookCause {
    /// The first line is the header of no version.
    Header,
    /// A line isn't that of a row.
    RowSyntax,
    /// A row's frame isn't a UI frame.
    Frame,
    /// A row doesn't come after the row before it, by key and first moment.
    Order,
    /// A row's first moment is after its last.
    Span,
    /// A row is of the same transmission as the row before it.
    Near,
    /// A row's receivers don't strictly ascend, or lack that of the greatest reception.
    Receivers,
    /// A row of one moment, whose greatest reception isn't by the last receiver.
    NotGreatest,
    /// The input ended before the last line did. Or a line after the header begins with `END`, and
    /// isn't the last line for the rows before it.
    Ending,
    /// Something follows the last line.
    After,
    /// A read failed.
    Read,
    /// The input has more bytes than the limit allows.
    TooLong,
    /// An allocation failed, or the names of a row's receivers, with commas between, have
    /// 4,294,967,296 bytes or more.
    Memory,
}

impl BookCause {
    /// The cause's number, 1 to 13, in the order in which the causes stand here.
    pub fn number(&self) -> u8
        ensures { result ≡ book_cause_number self.now }
    {
        match self {
            BookCause::Header => 1,
            BookCause::RowSyntax => 2,
            BookCause::Frame => 3,
            BookCause::Order => 4,
            BookCause::Span => 5,
            BookCause::Near => 6,
            BookCause::Receivers => 7,
            BookCause::NotGreatest => 8,
            BookCause::Ending => 9,
            BookCause::After => 10,
            BookCause::Read => 11,
            BookCause::TooLong => 12,
            BookCause::Memory => 13,
        }
    }

    /// The cause's name, as programs report it: that of its variant.
    pub fn name(&self) -> &'static str
        ensures { result.now ≡ book_cause_name self.now }
    {
        match self {
            BookCause::Header => "Header",
            BookCause::RowSyntax => "RowSyntax",
            BookCause::Frame => "Frame",
            BookCause::Order => "Order",
            BookCause::Span => "Span",
            BookCause::Near => "Near",
            BookCause::Receivers => "Receivers",
            BookCause::NotGreatest => "NotGreatest",
            BookCause::Ending => "Ending",
            BookCause::After => "After",
            BookCause::Read => "Read",
            BookCause::TooLong => "TooLong",
            BookCause::Memory => "Memory",
        }
    }
}

impl From<RowCause> for BookCause {
    ghost from_gives = { λ why cause. cause ≡ book_cause_of why };

    fn from(why: RowCause) -> BookCause {
        match why {
            RowCause::Order => BookCause::Order,
            RowCause::Span => BookCause::Span,
            RowCause::Near => BookCause::Near,
            RowCause::Receivers => BookCause::Receivers,
            RowCause::NotGreatest => BookCause::NotGreatest,
            RowCause::Memory => BookCause::Memory,
        }
    }
}

/// At which line the text of a book is read no further, and why.
#[derive(Clone, Copy, Debug, PartialEq, Eq)]
pub struct BookFault {
    /// The number of the line, from 1.
    pub line: u64,
    /// Why the text is read no further there.
    pub cause: BookCause,
}
