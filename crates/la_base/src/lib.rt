//! Samples and their runs, packets, notes and channel names of logic captures, and how tables are
//! read.
#![tactic(auto)]

mod kinds;
mod modes;
mod names;
mod parts;
mod samples;
mod wires;

pub use kinds::{same_wire, wire_of};
pub use modes::CsvMode;
pub use names::{MOST_NAMES, Names, NoMemory};
pub use parts::{cut, high_half, low_half, mask, pin};
pub use samples::{HALF_BITS, MOST_PINS, Pins, Rate, Run, WORD_BYTES, Word};
pub use wires::{Feed, Mark, Note, Out, Packet, PacketKind, Piece, Wire};
