//! The laws of folds, of ranges of sources and of what is new. Their functions do nothing: what
//! they ensure are the laws.

pub(crate) mod books;
pub(crate) mod news;
pub(crate) mod parts;
