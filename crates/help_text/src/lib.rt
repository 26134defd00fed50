//! The texts of `--help` and `--version`: the help is made of the tables of options and decoders.
#![tactic(auto)]

mod decoders;
mod help;
mod meanings;

pub use help::{CLOSING, DECODERS, USAGE, VERSION, help_text};
