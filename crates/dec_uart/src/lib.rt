//! Asynchronous serial: frames with a start bit, data with the least significant bit first, parity
//! and stop bits.
#![tactic(auto)]

mod frames;
mod held;
mod kept;
mod machine;
mod opening;
mod options;
mod outputs;
mod points;
mod steps;
mod texts;

use held::Held;
pub use held::{Line, Uart};
use options::Parity;
pub use options::UartOpts;
pub use texts::text;
