//! The kinds of reports that have a form of their own.

pub(crate) mod message;
pub(crate) mod object;
pub(crate) mod position;
pub(crate) mod status;
