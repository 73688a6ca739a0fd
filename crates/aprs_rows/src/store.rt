//! A store of rows, and what they are together.

pub(crate) mod book_rows;
pub(crate) mod book_store;
pub(crate) mod front;
pub(crate) mod mark;
pub(crate) mod merger;
pub(crate) mod open_row;
pub(crate) mod packed;
pub(crate) mod tournament;
pub(crate) mod walk_room;
