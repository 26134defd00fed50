// How the run of a tree of decoders ends.

/// How a run ends: with the end of what was fed, or because the one that takes the marks has
/// stopped.
#[derive(Clone, Copy, PartialEq, Eq)]
pub enum RunEnd {
    Ended,
    Stopped,
}
