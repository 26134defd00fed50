// A byte of a transaction.

/// A byte of a transaction, and where it starts and ends.
#[derive(Clone, Copy, PartialEq, Eq)]
pub struct Spot {
    pub start: u64,
    pub end: u64,
    pub byte: u8,
}
