//! The listing of a book, and the tables of its messages, stations, objects and items. They are the
//! texts of what is last known. There is also a table of a net's messages, each with its first
//! answer.
#![tactic(auto)]

mod activity;
mod class;
mod examples;
mod laws;
mod line;
mod listing;
mod messages;
mod net;
mod said;
mod stations;
mod table;
mod things;
mod told;
mod traffic;

pub use laws::{first_answers_are_found, listed_lines_have_all_fields, runs_are_found};
pub use listing::write_listing;
pub use messages::write_messages;
pub use net::write_net_messages;
pub use stations::{HeardStations, write_stations};
pub use things::write_things;
pub use traffic::Traffic;
