//! Worked examples of each definition, and near misses that it leaves out, by topic.

pub(crate) mod gaps;
pub(crate) mod joins;
pub(crate) mod keys;
pub(crate) mod last_known;
pub(crate) mod merges;
pub(crate) mod orders;
pub(crate) mod rows;
pub(crate) mod runs;
pub(crate) mod soundness;
pub(crate) mod steps;
