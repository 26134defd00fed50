// Up to where notes may be given.

/// The last place at which a note may be given: a start, and the last instance that may start
/// there.
#[derive(Clone, Copy, PartialEq, Eq)]
pub struct Limit {
    pub start: u64,
    pub instance: u32,
}

/// Which of all instances is the first, and which of the others.
#[derive(Clone, Copy, PartialEq, Eq)]
pub struct Lead {
    pub least: Limit,
    pub others: Limit,
}
