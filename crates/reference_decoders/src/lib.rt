//! Decoders as reference programs: slow, each by the definition of its outputs over the whole list of
//! samples.
#![tactic(auto)]

pub mod i2c;
mod numbers;
pub mod spi;
pub mod uart;
