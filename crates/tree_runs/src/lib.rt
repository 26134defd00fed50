//! What the run of a tree of decoders gives, whoever runs it: definitions, and laws of them.
//! Nothing is done.
#![tactic(auto)]

mod laws;

pub use laws::new_machines_stand;
