//! A merge of the notes of several instances by their floors: a note is given as soon as no later
//! one can come before it.
#![tactic(auto)]

mod bounds;
mod laws;
mod limit;
mod limits;
mod merge;
mod place;
mod queue;
mod queues;

pub use laws::merge_is_send;
pub use merge::Merge;
pub use note_order::Entry;
