//! What a program does beside its runs: it opens inputs, says what went wrong, and has an exit
//! status for it.
#![tactic(auto)]

mod complaint;
mod digested;
mod ending;
mod examples;
mod host;
mod host_opener;
mod news;
mod note;
mod opening;
mod output_file;
mod program_name;
mod retried;
mod texts;
mod work;

pub use complaint::{Complaint, complain, complaint_of, complaint_status};
pub use ending::{complaint_after, input_name};
pub use host::Program;
pub use note::{is_book_name, note_empty};
pub use opening::{OpenFault, Opener, open_inputs};
pub use output_file::{RegularFile, is_output};
pub use program_name::ProgramName;
pub use retried::{Retried, write_some};
pub use texts::texts_of;
pub use work::{Gathering, Single, Work, run_work, work_of};
