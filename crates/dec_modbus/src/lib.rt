//! Modbus RTU on a serial line: messages of bytes that a silence parts, with a CRC at their end.
#![tactic(auto)]

mod crc;
mod held;
mod kept;
mod laws;
mod line;
mod machine;
mod message;
mod opening;
mod rows;
mod texts;

use held::Message;
pub use held::{Held, Modbus, ModbusOpts};
pub use laws::{messages_are_the_packets, own_crc_is_right};
pub use line::Line;
pub use opening::open;
pub use rows::rows_hold;
pub use texts::text;
