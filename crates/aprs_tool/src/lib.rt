//! What each command does, for callers who read input after input: a desk, which goes on after an
//! input with an error; and the runs.
#![tactic(auto)]

mod desk;

pub use aprs_arguments::{
    FoldJob, HistoryJob, Job, JobFault, Table, TableJob, command_is_simple, fold_command_is_simple,
    fold_job, history_command_is_simple, history_job, job, table_command_is_simple, table_job,
};
pub use aprs_convert::Form;
pub use aprs_fold::{MAX_BOOK, SourceRange};
pub use aprs_io::{Counted, DeviceFault, WriteFault, send};
pub use aprs_runs::{
    InputFault, RunFault, book_files_stand_for_their_sets, check_books_run, check_run, convert_run,
    faultless_inputs_have_no_fault, fold_range_run, fold_run, histories_tell_places, history_run,
    listings_tell_positions, logs_stand_for_their_receptions, merge_run, news_run,
    same_receptions_same_bytes, same_receptions_same_history, same_receptions_same_table, show_run,
    status_of, table_run, widen_run,
};
pub use desk::{Desk, read_input};
