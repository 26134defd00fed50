// How a reader comes to hold a unit.

/// What came of taking bytes until a unit is held.
#[derive(Clone, Copy, PartialEq, Eq)]
pub enum Filled {
    /// A unit is held.
    Unit,
    /// The source told its end before.
    End,
    /// As many bytes as may be were taken before.
    Full,
    /// The source failed before.
    Failed,
}
