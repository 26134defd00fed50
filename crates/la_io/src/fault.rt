// What is wrong with a capture, and where.
use thiserror::Error;

/// A fault of a capture. `at` is a place in its bytes, counted from 0; of a table (CSV) it is the
/// number of a line, from 1. `line` and `column` count from 1.
#[derive(Clone, Copy, Debug, PartialEq, Eq, Error)]
pub enum CaptureFault {
    /// The bytes end inside the unit that begins at `at`.
    #[error("the unit at byte {at} is cut short")]
    ShortUnit { at: u64 },
    /// A token that doesn't belong where it stands.
    #[error("the token at byte {at} doesn't belong there")]
    Token { at: u64 },
    /// A token or line of 65,536 bytes or more.
    #[error("the token or line at {at} is too long")]
    TooLong { at: u64 },
    /// No time scale came before the header's end.
    #[error("the header has no time scale")]
    NoTimescale,
    /// The file ends inside its header.
    #[error("the file ends inside its header")]
    NoDefinitions,
    /// More channels than can be declared.
    #[error("too many channels at {at}")]
    TooMany { at: u64 },
    /// A time `now` that is less than `was`, the one before it.
    #[error("the time {now} at {at} comes before {was}")]
    TimeBack { at: u64, was: i128, now: i128 },
    /// A time that is too large.
    #[error("the time at {at} is too large")]
    TimeLarge { at: u64 },
    /// A value that is neither 0 nor 1.
    #[error("field {column} of line {line} is neither 0 nor 1")]
    Field { line: u64, column: u32 },
    /// A record of `have` fields where the first one has `want`.
    #[error("line {line} has {have} fields, not {want}")]
    Columns { line: u64, want: u32, have: u32 },
    /// A field that is no time.
    #[error("line {line} has no time")]
    Time { line: u64 },
    /// 2^60 bytes were taken, and the end wasn't seen.
    #[error("the capture is too long")]
    Bytes,
    /// The samples go past the most that a part and those before it may have together. Of a
    /// capture that is decoded whole it never comes.
    #[error("the samples go past the most that parts may have")]
    Past,
}

/// Why a capture can't be read on.
#[derive(Clone, Copy, Debug, PartialEq, Eq, Error)]
pub enum CaptureError {
    /// What was read has a fault.
    #[error("{0}")]
    Fault(CaptureFault),
    /// The source has failed.
    #[error("reading failed")]
    Read,
    /// There is no memory.
    #[error("no memory")]
    NoMemory,
}
