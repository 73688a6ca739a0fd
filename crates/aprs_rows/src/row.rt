//! One row in bytes, and the order of rows.

pub(crate) mod judge;
pub(crate) mod key_prefix;
pub(crate) mod name_room;
pub(crate) mod names;
pub(crate) mod near;
pub(crate) mod row_view;
