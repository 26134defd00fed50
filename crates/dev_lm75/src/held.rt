// What a thermometer keeps between two packets.
use crate::Chip;

/// What the open phase has: no byte, or whole pairs that are read; whole pairs behind its pointer
/// byte; or the first byte of a pair, with its start.
#[derive(Clone, Copy, PartialEq, Eq)]
pub enum Part {
    Fresh,
    Even,
    Half(u8, u64),
}

/// The pointer, 0 to 3, and what the open phase has.
#[derive(Clone, Copy, PartialEq, Eq)]
pub struct Held {
    pub pointer: u8,
    pub part: Part,
}

/// An LM75 on an I2C bus, between two packets.
#[derive(Drop)]
pub struct Lm75 {
    pub(crate) chip: Chip,
    pub(crate) held: Held,
}
