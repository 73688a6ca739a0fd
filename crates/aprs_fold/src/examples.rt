//! Worked examples of the definitions, and near misses, by topic. Their functions do nothing.

pub(crate) mod books;
pub(crate) mod inputs;
pub(crate) mod lent_lines;
pub(crate) mod new_rows;
pub(crate) mod news;
pub(crate) mod parts;
pub(crate) mod ranges;
pub(crate) mod read_at;
pub(crate) mod steps;
