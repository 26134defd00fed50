//! The serial EEPROMs of the 24xx family on I2C: what is written to them and read from them, with
//! its addresses.
#![tactic(auto)]

mod chip;
mod device;
mod held;
mod kept;
mod laws;
mod opening;
mod rows;
mod texts;

pub use chip::{Chip, EepromOpts};
pub use held::{Eeprom, Held, Word};
pub use laws::outputs_are_by_the_definition;
pub use rows::rows_hold;
pub use texts::text;
