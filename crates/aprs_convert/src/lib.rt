//! Logs and KISS streams, converted and checked as they are read.
#![tactic(auto)]

mod capture;
mod check;
mod convert;
mod example;
mod fault;
mod form;
pub mod laws;
mod monitor;
mod monitor_example;
mod run;
mod text;
mod write_line;

pub use check::check_log;
pub use fault::ConvertFault;
pub use form::Form;
pub use run::convert_input;
