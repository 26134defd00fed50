//! What a tree of decoders is fed with, and what takes its marks.
#![tactic(auto)]

mod feeds;

pub use feeds::{MarkTake, RunFeed, Stopped};
