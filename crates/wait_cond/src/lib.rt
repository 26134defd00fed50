//! Conditions on samples, and the wait for the next sample that meets one.
#![tactic(auto)]

mod alt;
mod behind;
mod cond;
mod laws;
mod lines;
mod met;
mod pair;
mod plain;
mod scan;
mod standing;
mod walk;

pub use alt::Alt;
pub use cond::Cond;
pub use laws::{
    a_wait_has_one_stop, samples_have_one_list_of_stops, samples_make_the_waiter,
    stops_go_on_with_samples,
};
pub use pair::Pair;
pub use plain::all_stops;
pub use scan::{Scan, Waiter};
pub use walk::Walk;
