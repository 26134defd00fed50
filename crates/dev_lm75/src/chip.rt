// What a thermometer is made of.

/// Options: the lowest three bits of the address, 0 to 7; and 1 where it takes a general call's
/// reset, else 0.
#[derive(Clone, Copy, PartialEq, Eq)]
pub struct Lm75Opts {
    pub addr: u64,
    pub gcall: u64,
}

/// A thermometer by its numbers: the lowest bits of its address, and whether it takes a general
/// call's reset.
#[derive(Clone, Copy, PartialEq, Eq)]
pub struct Chip {
    pub addr: u8,
    pub resets: bool,
}
