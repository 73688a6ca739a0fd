//! Callsigns and UI frames of AX.25, as APRS uses them.
#![tactic(auto)]

mod callsign;
mod examples;
mod fault;
mod frame;
mod frame_ref;
mod hop;
mod hops;
pub mod laws;
mod plain;
mod scan;

pub use callsign::Callsign;
pub use fault::{CallFault, FrameFault, MakeFault};
pub use frame::Frame;
pub use frame_ref::FrameRef;
pub use hop::Hop;
pub use hops::{MAX_HOPS_TEXT, after_comma, hops_text, push_hops_text};
pub use scan::MAX_UI_FRAME;
