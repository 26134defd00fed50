//! What good words ask of a run: the form of the capture, what is bound to its channels, and behind
//! which checkpoint a part goes on; and why any of it is refused.
#![tactic(auto)]

mod form;

pub use form::form_of;
