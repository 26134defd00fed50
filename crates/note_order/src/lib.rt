//! The order of a listing: notes by their starts, then by the instances that gave them, and those
//! of one instance in the order in which it gave them.
#![tactic(auto)]

mod entry;
mod laws;

pub use entry::Entry;
pub use laws::{instances_make_the_listing, one_order, order_keeps_each_instance};
