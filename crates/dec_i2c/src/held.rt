// What an I2C decoder is made of.
ghost use Rattle.std.specs.Prelude.{◌≡◌, ◌<◌, ◌^◌};
ghost use Rattle.la_base.specs.declared.samples.TheConstants.{MOST_PINS};

use la_base::Word;

/// Options: the bits of SCL and SDA in a sample.
#[derive(Clone, Copy, PartialEq, Eq)]
pub struct I2cOpts {
    pub scl: u32,
    pub sda: u32,
}

/// The lines of a bus, each by its bit in a sample.
#[derive(Clone, Copy, PartialEq, Eq)]
pub struct Bus {
    pub scl: u32,
    pub sda: u32,
    ghost scl_below: { scl < MOST_PINS },
    ghost sda_below: { sda < MOST_PINS },
}

/// What a byte of a segment is, by the bytes that stand before it there.
#[derive(Clone, Copy, PartialEq, Eq)]
pub enum Role {
    /// The first one: an address with R/W, a prefix of ten-bit addresses with R/W, or a general
    /// call.
    First,
    /// Behind a prefix with R/W 0: the lower eight bits of a ten-bit address with these upper two.
    Lower(u8),
    /// Behind a general call: its command.
    Command,
    /// Data that is written.
    Write,
    /// Data that is read.
    Read,
}

/// What is kept of an open segment between two events.
#[derive(Clone, Copy, PartialEq, Eq)]
pub struct Segment {
    /// What its next byte is.
    pub role: Role,
    /// The ten-bit address that can be read from: before the first byte in this segment, then in
    /// the next.
    pub ten: Option<u16>,
    /// How many bits of the present group of nine were read.
    pub bits: u8,
    /// The number that they make up, without the ninth; 0 where there are none.
    pub byte: u8,
    /// The place of the first of them; 0 where there are none.
    pub first: u64,
}

/// A decoder of I2C between two events, with the segment that is open, if one is.
#[derive(Drop)]
pub struct I2c {
    pub(crate) bus: Bus,
    // the mask of SDA
    pub(crate) sda_mask: Word,
    pub(crate) held: Option<Segment>,
    ghost mask_is: { sda_mask ≡ 2 ^ bus.sda },
}
