// What a part of a capture gives.
use la_base::Run;

/// What one part of a capture gave its reader: a token or a line, or its end.
#[derive(Clone, Copy, PartialEq, Eq)]
pub enum Step {
    /// No samples.
    Went,
    /// A run.
    Gave(Run),
    /// The end.
    Over,
}
