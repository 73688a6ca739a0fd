//! Rows packed in bytes: a store of rows, their order, joining those that are near, and judging
//! which may follow.
#![tactic(auto)]

mod examples;
mod growth;
mod joining;
mod memory;
mod row;
mod store;

pub use joining::greatest::{Greatest, keep_greater};
pub use joining::join::{Join, all_fit, join_all};
pub use joining::receivers::Receivers;
pub use memory::Memory;
pub use row::key_prefix::{KeyPrefix, order_of_keys};
pub use row::names::put_names;
pub use row::row_view::RowView;
pub use store::book_rows::BookRows;
pub use store::book_store::BookStore;
pub use store::open_row::{MOST_NAMES, OpenRow};
pub use store::packed::PackedRows;
pub use store::tournament::{HasFront, Tournament};
pub use store::walk_room::WalkRoom;
