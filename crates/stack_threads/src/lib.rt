//! A tree of decoders, each in a thread of its own.
#![tactic(auto)]

mod in_threads;
mod laws;
mod rooms;
mod run;
mod settle;
mod stages;
mod wiring;

pub use in_threads::InThreads;
pub use laws::{exact_runs_are_runs, inputs_grow_by_feeds};
pub use run::run_stages;
pub use settle::settle_tree;
