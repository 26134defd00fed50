//! 1-Wire, by Maxim's application notes 126, 187 and 27: its link, with resets, answers and bits as
//! pulses of a line; and its network, with commands, ROMs and bytes of these bits.
#![tactic(auto)]

mod laws;
pub mod link;
pub mod net;

pub use laws::{groups_are_the_bits, own_crc_leaves_nothing, pulses_are_the_low_stretches};
pub use link::{OwLink, OwLinkOpts};
pub use net::{OwNet, OwNetOpts};
