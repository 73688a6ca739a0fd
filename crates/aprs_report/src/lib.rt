//! APRS reports, read from the information field of a frame.
#![tactic(auto)]

mod bytes;
mod examples;
mod form;
mod kinds;
pub mod laws;
mod name;
mod numeral;
mod place;
mod report;
mod stamp;
mod symbol;

pub use kinds::object::live_text;
pub use place::{Fraction, PER_DEGREE, Place};
pub use report::Report;
pub use stamp::Stamp;
pub use symbol::Symbol;
