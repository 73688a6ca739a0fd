//! Worked examples of what is listed of a book, and near misses, by topic.

pub(crate) mod messages;
pub(crate) mod named;
pub(crate) mod reply_acks;
pub(crate) mod reports;
pub(crate) mod stations;
