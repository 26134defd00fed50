//! Stacks of decoders: the grammar of their words.
#![tactic(auto)]

mod chains;
mod errors;
mod faults;
mod instance;
mod naming;
mod options;
mod read;
mod shown;
mod stack;
mod standing;

pub use faults::{StackError, StackFault, StackWhy};
pub use instance::{GivenOption, GivenValue, Instance};
pub use options::value_at;
pub use read::read_stack;
pub use stack::Stack;
pub use text_parts::ChainWord;
