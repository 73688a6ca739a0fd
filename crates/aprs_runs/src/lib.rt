//! What each command does, from its inputs, logs or book files, to its output and its exit status:
//! check, convert, merge, widen, show, history, table, fold.
#![tactic(auto)]

mod example;
mod extract;
mod fault;
mod fold;
mod gathered;
mod head;
mod history;
mod input;
mod laws;
mod merge;
mod news;
mod run;
mod show;
mod table;
mod widen;

pub use example::{book_files_stand_for_their_sets, logs_stand_for_their_receptions};
pub use fault::{InputFault, RunFault, status_of};
pub use fold::{check_books_run, fold_range_run, fold_run};
pub use head::{ShortInput, read_head};
pub use history::history_run;
pub use input::{BOOK_MARK, read_log, read_short};
pub use laws::{
    faultless_inputs_have_no_fault, histories_tell_places, listings_tell_positions,
    same_receptions_same_bytes, same_receptions_same_history, same_receptions_same_table,
};
pub use merge::merge_run;
pub use news::news_run;
pub use run::{check_run, convert_run};
pub use show::show_run;
pub use table::table_run;
pub use widen::widen_run;
