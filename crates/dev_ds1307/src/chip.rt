// What a clock is made of.

/// Options: 1 where it takes a general call's reset, else 0.
#[derive(Clone, Copy, PartialEq, Eq)]
pub struct ClockOpts {
    pub gcall: u64,
}

/// A clock: whether it takes a general call's reset.
#[derive(Clone, Copy, PartialEq, Eq)]
pub struct Chip {
    pub resets: bool,
}
