//! What rows say together: what is last known of each station, object and item, and the lists of
//! stations, objects and messages.
#![tactic(auto)]

mod examples;
mod known;
mod lists;

pub use known::heard::{Heard, heard_of};
pub use known::indexes::Indexes;
pub use known::kept::{Kept, KeptFrom};
pub use known::notes::Notes;
pub use known::subject::{Subject, info_of};
pub use lists::exchange::Exchange;
pub use lists::heard_room::HeardRoom;
pub use lists::message::{MessageRow, MessageState, messages_of};
pub use lists::message_walk::MessageWalk;
pub use lists::named::{Named, objects_of};
pub use lists::named_walk::NamedWalk;
pub use lists::reply_ack::ReplyAck;
pub use lists::reply_text::{acknowledged_in, number_in};
pub use lists::sender::Sender;
pub use lists::station::{Station, stations_of};
pub use lists::station_walk::StationWalk;
pub use lists::summary::Summary;
pub use lists::summary_builder::SummaryBuilder;
pub use lists::tally::Counting;
