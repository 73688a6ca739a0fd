//! An allocator of memory that a host gives for good.
#![tactic(auto)]

mod arena;
mod region;

pub use arena::Arena;
pub use region::Region;
