// What an EEPROM keeps between two packets.
use crate::Chip;

/// What the open write phase has of a word address: nothing; the first of its two bytes, with its
/// start; or the front of its page and the place of the next byte in that page.
#[derive(Clone, Copy, PartialEq, Eq)]
pub enum Word {
    Empty,
    Half(u8, u64),
    Whole(u32, u32),
}

/// The address of the next byte that is read, and the word address of the open write phase.
#[derive(Clone, Copy, PartialEq, Eq)]
pub struct Held {
    pub pointer: u32,
    pub word: Word,
}

/// An EEPROM on an I2C bus, between two packets.
#[derive(Drop)]
pub struct Eeprom {
    pub(crate) chip: Chip,
    pub(crate) held: Held,
}
