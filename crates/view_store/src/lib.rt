//! A listing that readers in threads of their own look at while a writer lets it grow: a writer
//! adds notes and publishes them, and each reader asks for those of a range.
#![tactic(auto)]

mod added;
mod block;
mod front;
mod history;
mod rule;
mod store;
mod views;

pub use added::Added;
pub use views::{Answer, Told, ViewReader, ViewWriter, shelf};
