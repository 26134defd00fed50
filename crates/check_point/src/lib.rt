//! Checkpoints: what several decoders keep, as one hexadecimal word, so that a run can go on later.
#![tactic(auto)]

mod entries;
mod faults;
mod laws;
mod load;
mod read;
mod write;

pub use faults::{CheckFault, CheckWhy};
pub use laws::a_word_is_one_check;
pub use read::read_check;
pub use write::write_check;
