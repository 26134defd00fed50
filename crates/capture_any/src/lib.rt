//! Captures of any form: what their bytes give, and one reader for all of them.
#![tactic(auto)]

mod answer;
mod capture;
mod end;
mod form;
mod held;
mod laws;
mod names;
mod reader;
mod runs;

pub use capture::Capture;
pub use end::ListingEnd;
pub use form::Form;
pub use laws::{
    fault_stays, given_is_front, head_stays, longer_extends, pins_leave_the_ending,
    pins_leave_the_head,
};
pub use runs::Runs;
