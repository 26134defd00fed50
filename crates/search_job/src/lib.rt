//! The job `find` by the words: its alternatives are bound to the channels of the capture, which is
//! searched for the stops of their condition.
#![tactic(auto)]

mod alternatives;
mod job;

pub use job::search;
