// Where a channel stands.

/// Where a channel stands: the number of its variable, and its bit there.
#[derive(Clone, Copy, PartialEq, Eq)]
pub struct Place {
    pub variable: usize,
    pub bit: usize,
}
