//! KISS frames both ways.
#![tactic(auto)]

mod example;
mod fault;
pub mod laws;
mod listen;
mod reader;
mod spelling;
mod write;

pub use aprs_io::{Counted, DeviceFault, WriteFault, send};
pub use fault::PassFault;
pub use listen::{Listener, feed_all, feed_in_parts};
pub use reader::{Fed, KissReader, MAX_FRAME};
pub use spelling::{FEND, cut_plain};
pub use write::{KissWriter, write_kiss};
