// What a decoder of the network is made of.
use packet_walks::Walking;

/// A network has no options.
#[derive(Clone, Copy, PartialEq, Eq)]
pub struct OwNetOpts {}

/// What bits of a segment are together.
#[derive(Clone, Copy, PartialEq, Eq)]
pub enum Role {
    /// The ROM command.
    Command,
    /// A ROM of 64 bits.
    Rom,
    /// A search: for each bit of the ROM that is found the bit, its complement and the direction
    /// that is taken.
    Search,
    /// A byte.
    Byte,
}

/// Bits that are too few yet for what they will be: how many, where the first of them starts, and
/// the number that they say so far. Where there are none, all of this is 0.
#[derive(Clone, Copy, PartialEq, Eq)]
pub struct Begun {
    pub count: u8,
    pub start: u64,
    pub number: u64,
}

/// What is kept between two packets.
#[derive(Clone, Copy, PartialEq, Eq)]
pub enum Held {
    /// In no segment.
    Outside,
    /// The last packet is a reset, which starts here.
    Reset { start: u64 },
    /// In a segment: what its next bits are, and those of them that have come.
    Inside { role: Role, begun: Begun },
}

/// A decoder of the network between two packets.
pub type OwNet = Walking<Held>;
