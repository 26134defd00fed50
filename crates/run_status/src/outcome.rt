// How a run ended, and what a viewer saw of it.

use crate::status::Status;

/// How a run ended, and of one that is done how many notes a viewer saw, where one looked on.
#[derive(Clone, Copy, PartialEq, Eq)]
pub struct Outcome {
    pub status: Status,
    pub seen: Option<u64>,
}
