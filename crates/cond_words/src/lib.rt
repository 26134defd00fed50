//! The words of the alternatives of a condition, and their binding to channels.
#![tactic(auto)]

mod bind;
mod faults;
mod laws;
mod read;
mod words;

pub use bind::{bind_alt, place_of};
pub use faults::{BindError, BindFault, BindWhy, ItemFault};
pub use laws::bound_terms_are_what_is_met;
pub use read::read_alt;
pub use words::{AltWords, CondError, CondFault, CondWhy, Letter, Term};
