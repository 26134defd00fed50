//! The binding of stacks of decoders to channels.
#![tactic(auto)]

mod binding;
mod bound;

pub use binding::bind;
pub use bound::Bound;
