// How the link of a 1-Wire line is read.

/// Options: the bit of the line in a sample; and times in nanoseconds, 1 to 10^9 each: how long a
/// reset is at least, how long after it its answer begins at most, and how long a 0 is at least.
#[derive(Clone, Copy, PartialEq, Eq)]
pub struct OwLinkOpts {
    pub dq: u32,
    pub reset: u64,
    pub window: u64,
    pub bit: u64,
}

/// The times of the options as numbers of samples, rounded up.
#[derive(Clone, Copy, PartialEq, Eq)]
pub struct Lengths {
    pub reset: u64,
    pub window: u64,
    pub bit: u64,
}
