//! What holds of a tree of decoders that runs, in every order of its events.
#![tactic(auto)]

pub mod laws;
