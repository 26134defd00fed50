//! SPI, by Motorola's SPI Block Guide: words of MOSI and MISO at the sampling edges of a clock,
//! while a device is selected.
#![tactic(auto)]

mod alternatives;
mod held;
mod kept;
mod levels;
mod lines;
mod machine;
mod opening;
mod options;
mod outputs;
mod stops;
mod texts;
mod words;

pub use held::Spi;
use held::{Bits, Bus, Held};
use lines::Lines;
pub use options::SpiOpts;
pub use texts::text;
