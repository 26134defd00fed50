//! I2C, by the bus specification UM10204: addresses of seven and of ten bits, data, acknowledges,
//! general calls.
#![tactic(auto)]

mod held;
mod kept;
mod machine;
mod outputs;
mod steps;
mod texts;

use held::{Role, Segment};
pub use held::{Bus, I2c, I2cOpts};
pub use texts::text;
