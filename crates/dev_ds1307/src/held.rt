// What a clock keeps between two packets.
use crate::Chip;

/// What the open phase has: no byte of a register that is written; bytes of which the last aren't
/// those of registers from 0 on; or such bytes, with the start of the first, and their number in
/// the upper bytes of seven. A phase that reads begins with no byte, and comes back to that.
#[derive(Clone, Copy, PartialEq, Eq)]
pub enum Part {
    Fresh,
    Apart,
    Row(u64, u64),
}

/// The register of the next byte, 0 to 63, and what the open phase has.
#[derive(Clone, Copy, PartialEq, Eq)]
pub struct Held {
    pub register: u8,
    pub part: Part,
}

/// A DS1307 on an I2C bus, between two packets.
#[derive(Drop)]
pub struct Clock {
    pub(crate) chip: Chip,
    pub(crate) held: Held,
}
