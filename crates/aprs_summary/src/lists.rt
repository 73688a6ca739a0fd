//! The lists of what was heard: stations, objects, items and messages.

pub(crate) mod exchange;
pub(crate) mod heard_room;
pub(crate) mod message;
pub(crate) mod message_key;
pub(crate) mod message_walk;
pub(crate) mod named;
pub(crate) mod named_walk;
pub(crate) mod reply_ack;
pub(crate) mod reply_text;
pub(crate) mod sender;
pub(crate) mod station;
pub(crate) mod station_walk;
pub(crate) mod summary;
pub(crate) mod summary_builder;
pub(crate) mod tally;
