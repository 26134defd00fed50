//! The link of 1-Wire, a decoder of samples: resets, their answers and bits, as pulses of a line.
//! By Maxim's application note 126, tables "1-Wire Operations" and "1-Wire Master Timing".
//!
//! Each pulse gives a note and a packet, from the sample at which the line falls to that at which
//! it rises again: class 0 and `OwReset`, class 1 and `OwPresence`, or class 2 and `OwBit`, both
//! with the bit as `a`.

mod held;
mod kept;
mod machine;
mod opening;
mod options;
mod pulses;
mod texts;

use held::Held;
pub use held::{Line, OwLink};
pub use options::{Lengths, OwLinkOpts};
pub use texts::text;
