//! The DS1307 clock on I2C: what is written to its registers and read from them, and the time in
//! them.
#![tactic(auto)]

mod chip;
mod device;
mod held;
mod kept;
mod laws;
mod opening;
mod rows;
mod texts;

pub use chip::{Chip, ClockOpts};
pub use held::{Clock, Held, Part};
pub use laws::{a_time_is_seven_registers, outputs_are_by_the_definition};
pub use rows::rows_hold;
pub use texts::text;
