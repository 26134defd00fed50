//! One decoder as a stage between links: it receives, steps its machine, and gives. Each turn is a
//! list of moves of its own, and takes no memory.
#![tactic(auto)]

mod inbox;
mod input;
mod kept;
mod outbox;
mod row;
mod stage;
mod turn;

pub use input::{HalfRun, Input};
pub use stage::{Parts, Stage};
pub use turn::{Peer, Peers, Turn};
