//! The rows that a book keeps, in memory of their own.

pub(crate) mod kept_row;
pub(crate) mod keyed;
pub(crate) mod millis;
pub(crate) mod push;
pub(crate) mod row;
pub(crate) mod row_parts;
pub(crate) mod slot;
pub(crate) mod walk;
