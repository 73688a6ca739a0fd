//! What a program's help says, beside the arguments that it takes.

/// The version of the programs.
pub const VERSION: &str = "0.3.0";

/// What the program is for.
pub const ABOUT: &str = "Reads, checks, converts, merges and lists the logs of APRS receivers";

/// What the program does without a command.
pub const NO_COMMAND: &str = "Without a command: convert text of standard input.";

/// What the program does without a command, examples of commands, and the exit statuses.
pub const EXAMPLES: &str = "Without a command: convert text of standard input.

Examples:
  aprsbook check rx1.log
  aprsbook convert text rx1.log | less
  aprsbook convert capture --receiver RX1 --moment 2024-05-01T12:00:00Z rx1.kiss > rx1.log
  aprsbook merge rx1.log rx2.log > net.book
  aprsbook show net.book
  aprsbook merge --gap 60 rx1.log > slow.book
  aprsbook widen 60 net.book > wide.book

Exit status:
  0  done, or help or the version was asked for
  1  an input can't be opened or read, is faulty or has a gap that doesn't fit
  2  the words aren't those of a command, or the options of capture are wrong
  3  the output was refused
  4  memory was refused";

pub const CHECK: &str = "Tell which lines of a log hold no frame, and why";

pub const CONVERT: &str = "Write the frames that were heard in another form";

pub const MERGE: &str = "Write the book of all inputs' receptions";

pub const SHOW: &str = "List stations, objects, items and messages, with what is last known";

pub const WIDEN: &str = "Write the book of an input under a greater gap";

pub const FORM: &str = "What to write";

pub const TEXT: &str = "each frame as a monitor prints it";

pub const KIND: &str = "the same, with the kind of report before it";

pub const KISS: &str = "the frames as a KISS stream";

pub const LOG: &str = "the log again, in its one spelling";

pub const CAPTURE: &str = "a log of a KISS stream; needs --receiver and --moment";

pub const CHECKED: &str = "A log; without one, standard input";

pub const CONVERTED: &str = "A log, or with capture a KISS stream; without one, standard input";

pub const GATHERED: &str = "Logs and book files; without any, standard input";

pub const WIDENED: &str = "A log or a book file; without one, standard input";

pub const GAP: &str =
    "The gap of the book, 1 to 3600 seconds, as of each book file among the inputs; without it, 30";

pub const MESSAGE_GAP: &str =
    "Copies of a message that begin at most so many seconds after its last \
    one are the same message, 0 to 3600; without it, 1800; with 0 one line a message, as in `show`";

pub const SECONDS: &str = "The gap to widen to, 1 to 3600 seconds, not less than that of the input";

pub const RECEIVER: &str = "With capture: the receiver's name, of 1 to 16 letters, digits, - and _";

pub const MOMENT: &str =
    "With capture: when all was heard, in UTC, as 2024-05-01T12:00:00Z or 2024-05-01T12:00:00.000Z";

/// What `aprsbook-history` is for.
pub const HISTORY: &str =
    "Writes a line for each transmission of logs and book files, with what it reports";

/// Examples of `aprsbook-history`, and its exit statuses.
pub const HISTORY_EXAMPLES: &str = "Examples:
  aprsbook-history net.book
  aprsbook-history rx1.log rx2.log > evening.txt
  aprsbook-history --gap 60 slow.book

Exit status:
  0  done, or help or the version was asked for
  1  an input can't be opened or read, is faulty or has another gap
  2  the words aren't those of the command
  3  the output was refused
  4  memory was refused";

/// What `aprsbook-table` is for.
pub const TABLE: &str =
    "Writes a table of logs and book files: the names of its columns, and its lines, with tabs";

/// How `aprsbook-table` is used.
pub const TABLE_USAGE: &str = "aprsbook-table [OPTIONS] [TABLE] [INPUT]...";

/// The tables that the first word after the options may name.
pub const TABLES: &str = "Tables:
  rows      a line for each transmission; without a TABLE too
  messages  a line for each time that a message was sent, with what came of it
  stations  a line for each station, with its last position and status
  things    a line for each object and item, with its last report

A file of such a name is given as ./rows.";

/// The tables, examples of `aprsbook-table`, and its exit statuses.
pub const TABLE_EXAMPLES: &str = "Tables:
  rows      a line for each transmission; without a TABLE too
  messages  a line for each time that a message was sent, with what came of it
  stations  a line for each station, with its last position and status
  things    a line for each object and item, with its last report

A file of such a name is given as ./rows.

Examples:
  aprsbook-table net.book
  aprsbook-table rx1.log rx2.log > evening.tsv
  aprsbook-table messages net.book
  aprsbook-table messages --message-gap 0 net.book
  aprsbook-table rows --gap 60 slow.book

Exit status:
  0  done, or help or the version was asked for
  1  an input can't be opened or read, is faulty or has another gap
  2  the words aren't those of the command
  3  the output was refused
  4  memory was refused";

pub const FOLDED: &str = "Book files of this gap; without any, standard input";

/// What `--from` of `aprsbook-fold` is for.
pub const FOLD_FROM: &str = "The source to begin with, such as N0CALL-7; without it, the first";

/// What `--until` of `aprsbook-fold` is for.
pub const FOLD_UNTIL: &str = "The source to end before; without it, all are written";

/// What `--new-to` of `aprsbook-fold` is for.
pub const FOLD_NEW_TO: &str = "Write only rows that this book file lacks; it is folded too";

/// What is said of a text of `--from` that is no callsign.
pub const NO_FROM: &str = "invalid value for '--from <SOURCE>': no callsign, such as N0CALL-7";

/// What is said of a text of `--until` that is no callsign.
pub const NO_UNTIL: &str = "invalid value for '--until <SOURCE>': no callsign, such as N0CALL-7";

/// What `--check` of `aprsbook-fold` is for.
pub const FOLD_CHECK: &str = "Only check that each is a whole book file, and write nothing";

/// What `aprsbook-fold` is for.
pub const FOLD: &str = "Writes the book of book files, in memory that doesn't grow with their size";

/// Examples of `aprsbook-fold`, and its exit statuses.
pub const FOLD_EXAMPLES: &str = "Examples:
  aprsbook-fold year.book day.book > new.book
  aprsbook-fold rx1.book rx2.book rx3.book > net.book
  aprsbook-fold --check year.book day.book && aprsbook-fold year.book day.book > new.book
  aprsbook-fold --gap 60 slow.book more.book > slower.book
  aprsbook-fold --from K --until N year.book > k-to-m.book
  aprsbook-fold --new-to theirs.book ours.book > news.book

Exit status:
  0  done, or help or the version was asked for
  1  an input can't be opened or read, is no book file, is faulty or has another gap
  2  the words aren't those of the command
  3  the output was refused
  4  memory was refused

After 1, 3 or 4 what was written is no whole book.";
