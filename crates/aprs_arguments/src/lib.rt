//! What a program's arguments ask for.
#![tactic(auto)]

mod arguments;
mod examples;
mod fold;
mod help;
mod history;
mod jobs;
mod table;

pub use arguments::{command_is_simple, job};
pub use fold::{FoldJob, fold_command_is_simple, fold_job};
pub use history::{history_command_is_simple, history_job};
pub use jobs::{HistoryJob, Job, JobFault, Table, TableJob};
pub use table::{table_command_is_simple, table_job};
