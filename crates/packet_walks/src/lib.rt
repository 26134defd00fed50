//! Decoders of packets as walks. A decoder of packets whose definition over whole lists gives, with
//! one more packet, what a state says that keeps what the packets before it left, has all that a
//! decoder of packets owes. It shows seven facts of one state and one packet, and is then a decoder.
//! A device that tells of transactions shows what it does with one packet of the one that is open,
//! and is then a decoder too.
#![tactic(auto)]

mod kept;
mod laws;
mod open;
mod state;
mod transacting;
mod walking;

pub use kept::{HeldTransaction, HeldWalk};
pub use laws::{transaction_laws, walk_laws};
pub use open::OpenTransaction;
pub use state::WalkState;
pub use transacting::Transacting;
pub use walking::Walking;
