//! A tree of decoders on one thread: what each gives is handed at once to those that stand on it.
#![tactic(auto)]

mod down;
mod floors;
mod parts;
mod roots;
mod run;
mod tree;

pub use run::run_direct;
