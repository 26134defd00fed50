//! Laws of made captures: what they put on an I2C bus, and say on a serial line, is what the
//! definitions of both read there.
#![tactic(auto)]

mod bus;
mod line;

pub use bus::made_buses_tell;
pub use line::made_lines_tell;
