//! What is kept from row to row as their lines are written.
use crate::write::ROW_TAIL;
use aprs_log::MomentWriter;

/// What writing a row's line writes to. It is kept from row to row, since to make it anew costs
/// more than to write a short line.
#[derive(Drop)]
pub struct WrittenRow {
    /// The part of a line after its receivers.
    pub tail: [u8; ROW_TAIL],
    /// The date of the moment before.
    pub moments: MomentWriter,
}

impl WrittenRow {
    /// Room for the lines of rows, of which none was written yet.
    pub fn new() -> WrittenRow {
        WrittenRow {
            tail: [0; ROW_TAIL],
            moments: MomentWriter::new(),
        }
    }
}
