//! The job find: a line for each stop of a condition in a capture.
#![tactic(auto)]

mod search;
mod stops;

pub use capture_any::ListingEnd as FindEnd;
pub use search::{find, find_buffered};
