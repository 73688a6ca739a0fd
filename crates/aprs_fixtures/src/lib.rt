//! What tests share: frames, receptions, books, texts. Also arenas that are almost full, and
//! devices that fail.
#![tactic(auto)]

mod books;
mod devices;
mod faults;
mod memory;
mod receptions;
mod texts;
mod vectors;

pub use books::{SENT, book_of_sent, hundred, joined_all, parts, store_of_sent};
pub use devices::{Failing, Flushing, Full, Growing, Halting, Stuttering, Tight};
pub use faults::{are_refused_or_written_back, fault_of, fault_within};
pub use memory::{arena, squeeze};
pub use receptions::{NOON, callsign, frame_of, heard, receiver, sent};
pub use texts::{is_shown, is_written_as, shown, text_of};
pub use vectors::{
    ANSWERED, DIRECT, DIRECT_LINE, DIRECT_TEXT, EMPTY_TEXT, FIRST_LINE, LAST_LINE, LOG,
    MERGED_TEXT, OLD_DIRECT_TEXT, OLD_EMPTY_TEXT, OLD_MERGED_TEXT, ONE_LINE, REPEATED,
    REPEATED_LINE, SHORT_LOG, THREE_LINES, WRITTEN_LINE, line_after,
};
