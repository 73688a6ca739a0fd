//! What the book of a set of receptions is, with its gap; the laws of books; and why a row, a merge
//! or a widening is refused. There is no code here but that of the gap, and of the numbers and
//! names of faults: each other function does nothing, and what it ensures is a law over the
//! definitions in `specs/`.
#![tactic(auto)]

mod examples;
mod gap;
pub mod laws;
mod merge_fault;
mod row_cause;
mod widen_fault;

pub use gap::Gap;
pub use merge_fault::MergeFault;
pub use row_cause::RowCause;
pub use widen_fault::WidenFault;
