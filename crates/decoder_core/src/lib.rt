//! Decoders as machines: what they wait for, what they put out, and the driver or follower that
//! feeds them.
#![tactic(auto)]

mod driver;
mod driver_keep;
mod end;
mod faults;
mod follower;
mod follower_keep;
mod keep;
mod laws;
mod machine;
mod outputs;
mod outs;
mod timed;
mod walks;

pub use driver::{Driver, one_input_makes_one_driver};
pub use end::RunEnd;
pub use faults::OptFault;
pub use follower::{Follower, one_input_makes_one_follower};
pub use keep::{Hold, Keep, Saved, packets_make_the_form, samples_make_the_form};
pub use laws::{is_send, packets_of_a_parent_count};
pub use machine::{Configured, LogicMachine, Machine, PacketMachine, Taken};
pub use outputs::{note_at, packet_at, span_note, span_packet, span_piece};
pub use outs::Outs;
