// Why there is no next token or line.
use thiserror::Error;

/// Why there is no next token or line.
#[derive(Clone, Copy, Debug, PartialEq, Eq, Error)]
pub enum FeedFault {
    /// The source has failed.
    #[error("reading failed")]
    Read,
    /// The one at `at` has 65,536 bytes or more.
    #[error("what begins at {at} is too long")]
    TooLong { at: u64 },
    /// 2^60 bytes were taken, and the end wasn't seen.
    #[error("the input is too long")]
    Bytes,
    /// An earlier call answered a fault.
    #[error("an earlier call answered a fault")]
    Spent,
}
