//! Decoders of any kind: what their options are, and what they give.
#![tactic(auto)]

mod any;
mod any_machine;
mod keep;
mod laws;
mod machine;
mod member;
mod members;
mod opening;
mod options;
mod savers;
mod setup;
mod stepping;

pub use any::AnyDecoder;
pub use laws::{
    decoder_is_send, kinds_read_their_wires, machine_is_of_its_setup, one_input_makes_one_decoder,
};
pub use setup::Setup;
