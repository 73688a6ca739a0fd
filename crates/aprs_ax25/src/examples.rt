//! Worked examples of the definitions, and near misses, by topic. Their functions do nothing.

pub(crate) mod callsigns;
pub(crate) mod frames;
