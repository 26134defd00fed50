//! A line of text that is put together without memory.
#![tactic(auto)]

mod decimal;
mod hex;
mod line;
mod short;

pub use decimal::Decimal;
pub use line::{LineBuf, ROOM};
pub use short::{MOST_SHORT, ShortText};
