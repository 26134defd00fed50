// How a serial line is set.

/// Options: the bit of the line in a sample, bits a second, data bits, parity (0 none, 1 odd, 2
/// even, 3 always zero, 4 always one), stop bits, and at which hundredth of a bit it is read.
#[derive(Clone, Copy, PartialEq, Eq)]
pub struct UartOpts {
    pub rx: u32,
    pub baud: u64,
    pub bits: u64,
    pub parity: u64,
    pub stop: u64,
    pub sp: u64,
}

/// What stands behind the data: nothing, a bit that makes the number of ones odd or even, or one
/// that is always 0 or always 1.
#[derive(Clone, Copy, PartialEq, Eq)]
pub enum Parity {
    Without,
    Odd,
    Even,
    Zero,
    One,
}
