//! Moments, receivers and the lines of a log, where each line holds a frame as it was heard.
#![tactic(auto)]

mod examples;
mod fault;
pub mod laws;
mod line;
mod moment;
mod moment_form;
mod reader;
mod receiver;
mod reception;
mod reception_ref;
mod write;

pub use aprs_io::{InputEnd, MAX_INPUT};
pub use fault::{LineFault, LogCause, LogFault, Reason};
pub use line::{Line, MAX_LINE, read_line};
pub use moment::Moment;
pub use moment::clock::Clock;
pub use moment::writer::MomentWriter;
pub use moment_form::MomentForm;
pub use reader::LogReader;
pub use receiver::Receiver;
pub use reception::Reception;
pub use reception_ref::ReceptionRef;
pub use write::{LogWriter, write_line};
