//! Stages, each in a thread of its own, beside a reader that feeds the roots and a driver that gathers
//! the marks.
#![tactic(auto)]

mod counts;
mod crew;
mod driver;
mod fan;
mod frames;
mod gatherer;
mod idle;
mod marks;
mod pacer;
mod permit;
mod pump;
mod reader;
mod row;
mod scope;
mod staged;
mod status;
mod turns;
mod wait_slot;
mod worker;

/// The most stages of a run.
pub const MOST_STAGES: usize = 24;

pub use crew::{CrewEnds, Ran, Supplies};
pub use pacer::{Pacer, PlainPacer};
pub use scope::run_crew;
pub use turns::Turns;
