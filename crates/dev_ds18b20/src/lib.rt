//! The thermometer DS18B20 on 1-Wire: its functions, and what its scratchpad says of temperature,
//! limits and resolution.
#![tactic(auto)]

mod bytes;
mod held;
mod kept;
mod machine;
mod rows;
mod scratchpad;
mod spot;
mod texts;
mod transaction;

use bytes::Bytes;
use held::Stage;
pub use held::{Probe, ProbeOpts, Transaction};
pub use rows::rows_hold;
pub use spot::Spot;
pub use texts::text;
