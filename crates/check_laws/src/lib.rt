//! Laws of checkpoints: a tree of decoders goes on behind one as if it had never stopped, and what its
//! parts add is together what the whole gives.
#![tactic(auto)]

mod laws;
mod resuming;

pub use laws::{a_written_word_is_taken, parts_are_the_whole, samples_make_the_check};
pub use resuming::resume;
