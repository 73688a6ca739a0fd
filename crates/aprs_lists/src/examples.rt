//! Worked examples of the definitions, and near misses, by topic. Their functions do nothing.

mod answers;
mod classes;
mod columns;
mod listing;
mod net;
mod orders;
mod tables;
mod traffic;
