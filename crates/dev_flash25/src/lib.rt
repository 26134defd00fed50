//! Serial flash of the 25 series on SPI: its instructions, with what is read from it and programmed
//! into it, and their addresses.
#![tactic(auto)]

mod closing;
mod held;
mod kept;
mod machine;
mod rows;
mod texts;
mod words;

pub use held::{Command, Flash, FlashOpts, Open};
use held::{Said, Words};
pub use rows::rows_hold;
pub use texts::text;
