//! Raw captures: a unit of bytes for each sample, the lowest byte first. Channel i is bit i of the
//! unit.
#![tactic(auto)]

mod alike;
mod fill;
mod filled;
mod laws;
mod neighbours;
mod pairs;
mod reader;
mod step;
mod units;
mod wide;

pub use laws::{fault_stays, given_is_front, longer_extends, samples_are_levels, stands_fixes};
pub use reader::RawReader;
pub use step::RawStep;
