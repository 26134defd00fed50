//! The LM75 thermometer on I2C: what is written to its registers and read from them, as degrees.
#![tactic(auto)]

mod chip;
mod device;
mod held;
mod kept;
mod laws;
mod opening;
mod rows;
mod texts;

pub use chip::{Chip, Lm75Opts};
pub use held::{Held, Lm75, Part};
pub use laws::outputs_are_by_the_definition;
pub use rows::rows_hold;
pub use texts::text;
