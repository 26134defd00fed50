//! Made captures: transactions on an I2C bus beside bytes on a serial line, drawn from a seed, as a
//! source of samples.
#![tactic(auto)]

mod drawing;
mod laws;
mod levels;
mod source;

pub use drawing::{Sent, draw};
pub use laws::{blocks_are_whole, worked_draws_hold};
pub use source::MadeSource;
