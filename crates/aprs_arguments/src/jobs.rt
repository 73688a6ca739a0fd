//! What a program is asked to do.
ghost use Rattle.std.specs.Prelude.{◌≡◌};
ghost use Rattle.aprs_arguments.specs.Arguments.{named_table, with_message_gap};

use aprs_convert::Form;
use aprs_transmissions::Gap;
use std::alloc::AllocError;

/// The message gap that is taken where no other is chosen, in seconds.
pub(crate) const STANDARD_MESSAGE_GAP: u64 = 1800;

/// What the program's arguments ask for, with the paths of its inputs; without any, standard input
/// is read.
#[derive(Drop)]
pub enum Job {
    /// Report each line that holds no frame, and how many lines do and don't hold one.
    Check(Vec<String>),
    /// Convert a log or a stream.
    Convert(Form, Vec<String>),
    /// Merge logs and book files into one book of this gap, and write that.
    Merge(Gap, Vec<String>),
    /// List what is known from logs and book files of this gap.
    Show(Gap, Vec<String>),
    /// Write the book of a log or a book file under this gap.
    Widen(Gap, Vec<String>),
}

/// What the arguments of `aprsbook-history` ask for: the history of logs and book files, with the
/// paths of these; without any, standard input is read.
#[derive(Drop)]
pub struct HistoryJob {
    /// The gap of the book whose history is written.
    pub gap: Gap,
    /// The paths, in the order of the arguments.
    pub inputs: Vec<String>,
}

/// Which table of a book is written.
#[derive(Clone, Copy)]
pub enum Table {
    /// A line for each row of the book.
    Rows,
    /// A line for each time that a message was sent, with what came of it: copies of it are one
    /// time if each begins at most this message gap after the end of those before. `None` is one
    /// line for each message, as the listing has it.
    Messages(Option<Gap>),
    /// A line for each station, with its last known position and status.
    Stations,
    /// A line for each object and item, with its last report.
    Things,
}

impl Table {
    /// The table of this name, which is `rows`, `messages`, `stations` or `things`, or `None` where
    /// no table has it. The message gap is half an hour.
    pub fn named(name: &[u8]) -> Option<Table>
        ensures { result ≡ named_table name.now }
    {
        if name == b"rows".as_slice() {
            Some(Table::Rows)
        } else if name == b"messages".as_slice() {
            Some(Table::Messages(Gap::new(STANDARD_MESSAGE_GAP)))
        } else if name == b"stations".as_slice() {
            Some(Table::Stations)
        } else if name == b"things".as_slice() {
            Some(Table::Things)
        } else {
            None
        }
    }
}

impl Table {
    /// The table, under this message gap if it is that of messages.
    pub(crate) fn with_message_gap(self, gap: Option<Gap>) -> Table
        ensures { result ≡ with_message_gap gap self }
    {
        match self {
            Table::Messages(_) => Table::Messages(gap),
            other => other,
        }
    }
}

/// What the arguments of `aprsbook-table` ask for: a table of logs and book files, with the paths
/// of these; without any, standard input is read.
#[derive(Drop)]
pub struct TableJob {
    /// Which table is written.
    pub table: Table,
    /// The gap of the book whose table is written.
    pub gap: Gap,
    /// The paths, in the order of the arguments.
    pub inputs: Vec<String>,
}

/// Why a program's arguments ask for no job.
#[derive(Drop)]
pub enum JobFault {
    /// The arguments are not those of the command, or ask for help or the version: its text says
    /// which.
    Clap(clap::Error),
    /// The options of `capture` are missing, unreadable or given to another form; or a gap can't be
    /// read, which clap refuses before.
    Options,
    /// An allocation failed.
    Memory,
}

impl From<AllocError> for JobFault {
    ghost use Rattle.aprs_arguments.specs.declared.jobs.JobFault.TheVariants as fault;

    ghost from_gives = { λ _ made. made ≡ fault.Memory };

    fn from(_error: AllocError) -> JobFault {
        JobFault::Memory
    }
}
