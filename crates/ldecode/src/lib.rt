//! `ldecode`: decodes recorded logic captures.
#![tactic(auto)]

mod decode_stack;
mod host;
mod laws;
mod note_count;
mod part;
mod part_status;
mod shelve_stack;
mod view_stack;
mod whole;
mod work;

pub use annot_merge::Merge;
pub use check_point::{CheckFault, CheckWhy};
pub use cond_words::{BindFault, BindWhy};
pub use host::Host;
pub use la_io::CaptureFault;
pub use laws::parts_write_the_whole;
pub use make_job::made_captures_are_read_back;
pub use note_lister::{ListStop, Lister};
pub use run_status::{Status, exit_code};
pub use stack_words::{StackFault, StackWhy};
pub use stage_crew::{Pacer, PlainPacer};
pub use whole::{run, run_here, run_watched};
pub use words::{Format, Job, Settings, WordFault, WordWhy, WordsError, read_words};
