//! The job `make`: a made capture is decoded, and what its decoders give is counted.
#![tactic(auto)]

mod job;
mod laws;
mod made_feed;
mod tally_taker;

pub use job::make;
pub use laws::made_captures_are_read_back;
