// How far a reader is.
use la_io::CaptureFault;

/// How far the samples of a capture were given.
#[derive(Clone, Copy, PartialEq, Eq)]
pub enum Phase {
    /// There may be more.
    Running,
    /// All were.
    Ended,
    /// There is no record.
    Empty,
    /// The first record has a fault, and so there are none.
    Refused(CaptureFault),
}
