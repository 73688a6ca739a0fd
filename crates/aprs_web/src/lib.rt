//! The runs for a host, such as a web page or a program in C, over texts in its memory.
#![tactic(auto)]

mod answer;
mod examples;
mod exports;
mod inputs;
mod written;

pub use answer::Answer;
pub use exports::{
    aprs_capture, aprs_check, aprs_history, aprs_kind, aprs_kiss, aprs_log, aprs_merge, aprs_show,
    aprs_table, aprs_text, aprs_widen,
};
