//! How a run ends: its status with its causes, the exit status, and the line that tells of it.
#![tactic(auto)]

mod notices;
mod outcome;
mod status;

pub use notices::line_of;
pub use outcome::Outcome;
pub use status::{Status, exit_code, status_at_head, status_by};
