//! The words of the command line: options, the other words, and the first fault of them all.
#![tactic(auto)]

mod alternatives;
mod chains;
mod command;
mod kinds;
mod laws;
mod lexer;
mod options;
mod read;
mod reading;
mod rules;
mod settings;
mod uses;
mod values;

pub use kinds::{Format, Job, WordFault, WordWhy, WordsError};
pub use laws::{clap_reads_the_uses, options_are_whole};
pub use options::{MOST_COUNT, MOST_DOWN, MOST_RING, MOST_SEED, Name, OPTIONS, OptionRow, Takes};
pub use read::read_words;
pub use settings::Settings;
pub use text_parts::ChainWord;
pub use values::{MOST_RATE_DEN, MOST_RATE_NUM};
