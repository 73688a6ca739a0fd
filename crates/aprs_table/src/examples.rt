//! Worked examples of the lines of a table and of a history, by topic.

pub(crate) mod cells;
pub(crate) mod columns;
pub(crate) mod history;
pub(crate) mod kinds;
pub(crate) mod places;
pub(crate) mod rows;
