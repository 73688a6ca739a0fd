//! What a log or a stream is converted to.
use aprs_log::{Moment, Receiver};

/// What a log is converted to, or that a KISS stream is captured as a log.
#[derive(PartialEq, Eq, Drop)]
pub enum Form {
    /// The text of a monitor, a line for each frame.
    Text,
    /// The text of a monitor, with the kind of report before each line.
    Kind,
    /// A KISS stream of the frames.
    Kiss,
    /// The log again, in its one encoding, without the lines that are passed over.
    Log,
    /// The log of a KISS stream, as if each frame were heard by one receiver at one moment.
    Capture { receiver: Receiver, moment: Moment },
}
