// What a decoder of messages is made of.
use packet_walks::Walking;

/// Options: how many nanoseconds of silence part two messages, 1 to 10^9.
#[derive(Clone, Copy, PartialEq, Eq)]
pub struct ModbusOpts {
    pub gap: u64,
}

/// A message that nothing has ended yet. Its last two bytes may be its CRC, so they aren't in the
/// CRC that is kept.
#[derive(Clone, Copy, PartialEq, Eq)]
pub struct Message {
    /// Where its first frame starts.
    pub start: u64,
    /// Where its last frame ends.
    pub end: u64,
    /// How many bytes it has; 2^60 where it has more.
    pub count: u64,
    /// The CRC of all its bytes but the last two.
    pub crc: u16,
    /// The last byte but one; the only one where there are no two.
    pub low: u8,
    /// The last byte.
    pub high: u8,
    /// Whether one of its frames has an error.
    pub errors: bool,
}

/// What is kept between two packets.
#[derive(Clone, Copy, PartialEq, Eq)]
pub enum Held {
    /// In no message.
    Outside,
    /// In a message.
    Inside { message: Message },
}

/// A decoder of messages between two packets.
pub type Modbus = Walking<Held>;
