//! A link between two threads: what one end sends, the other receives, in order.
#![tactic(auto)]

mod ends;
mod laws;

pub use ends::{Rx, Tx, link, settle};
pub use laws::{all_pass_through, ends_are_send, passes_through};
