//! What joins, and the names of receivers.

pub(crate) mod greatest;
pub(crate) mod join;
pub(crate) mod kept_names;
pub(crate) mod receivers;
