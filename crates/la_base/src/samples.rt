// Samples as words of channels, and runs of equal samples.
ghost use Rattle.std.specs.Prelude.{◌≤◌};

use arrayvec::ArrayVec;

/// One sample: bit j is the level of the channel that is bound as pin j, 1 for high.
pub type Word = u128;

/// How many channels can be bound: the bits of a `Word`.
pub const MOST_PINS: u32 = 128;

/// How many bits half a `Word` has.
pub const HALF_BITS: u32 = MOST_PINS / 2;

/// How many bytes a `Word` has.
pub const WORD_BYTES: usize = MOST_PINS as usize / 8;

const PLACES: usize = MOST_PINS as usize;

/// The channels that are bound, by number, in the order of their bits.
pub type Pins = ArrayVec<u32, PLACES>;

/// `num / den` samples a second. Both are at least 1. Two rates are equal where both numbers are.
#[derive(Clone, Copy, PartialEq, Eq)]
pub struct Rate {
    pub num: u64,
    pub den: u64,
    ghost above_zero: { (1 ≤ num) × (1 ≤ den) },
}

/// `len` samples in a row, at least 1, each `value`.
#[derive(Clone, Copy, Debug, PartialEq, Eq)]
pub struct Run {
    pub value: Word,
    pub len: u64,
    ghost not_empty: { 1 ≤ len },
}
