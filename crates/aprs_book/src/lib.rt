//! The book of transmissions: rows that stand for a set of receptions.
#![tactic(auto)]

mod book;
mod from_parts;
mod last_known;
mod lists;
mod of_rows;
mod rows;
mod steps;
mod stored;

pub use aprs_rows::{Greatest, Join, Memory, Receivers, all_fit, join_all};
pub use aprs_summary::{
    Heard, HeardRoom, MessageRow, MessageState, MessageWalk, Named, NamedWalk, ReplyAck, Station,
    StationWalk, Summary,
};
pub use aprs_transmissions::{Gap, MergeFault, RowCause, WidenFault};
pub use book::Book;
pub use from_parts::{RowsFault, from_rows, rows_are_sound_or_have_one_fault};
pub use rows::push::sound_rows_are_pushed;
pub use rows::row::{Row, Rows};
pub use rows::row_parts::RowParts;
pub use steps::{Step, replay, same_taken_same_book, steps_fit};
