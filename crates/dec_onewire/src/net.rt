//! The network of 1-Wire, a decoder of the link's packets: commands, ROMs and bytes. By Maxim's
//! application notes 126, for bytes; 187, table "Bit Search Information", for searches; and 27,
//! figure "Dallas 1-Wire 8-Bit CRC".
//!
//! A reset that was answered gives class 0 and `NetReset`, a ROM command class 1 and `NetCommand`,
//! a ROM class 2 and `NetRom`, and a byte class 3, a piece of class 0 and `NetByte`. `a` is the
//! command, the ROM with its first bit lowest, or the byte; of a ROM `b` is 1 where its CRC is
//! wrong. A note, its piece and its packet go from the start of their first bit to the end of their
//! last.

mod crc;
mod held;
mod kept;
mod machine;
mod opening;
mod packets;
mod texts;
mod units;

pub use crc::crc8;
use held::{Begun, Role};
pub use held::{Held, OwNet, OwNetOpts};
pub use opening::open;
pub use texts::text;
