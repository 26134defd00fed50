//! The program `ldecode` over any streams: what its words ask for, and the exit status.
#![tactic(auto)]

mod over_streams;
mod request;

pub use help_text::{VERSION, help_text};
pub use over_streams::program;
pub use request::{Request, request_of};
