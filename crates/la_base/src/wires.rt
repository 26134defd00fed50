// What decoders put out, and what moves between them.
ghost use Rattle.std.specs.Prelude.{◌≡◌, ◌≤◌};

use crate::Run;

/// What a decoder reads: samples, packets of one protocol, or nothing.
#[derive(Clone, Copy, PartialEq, Eq)]
pub enum Wire {
    /// Samples.
    Logic,
    /// I2C.
    I2c,
    /// SPI.
    Spi,
    /// Asynchronous serial.
    Uart,
    /// 1-Wire, by resets and bits.
    OwLink,
    /// 1-Wire, by commands and bytes.
    OwNet,
    /// Nothing.
    Nothing,
}

/// What a packet is. The first part of a name says the protocol; `Ow` is the link of 1-Wire and
/// `Net` its network.
#[derive(Clone, Copy, PartialEq, Eq)]
pub enum PacketKind {
    I2cStart,
    I2cStop,
    I2cAddress,
    I2cData,
    I2cAck,
    SpiSelect,
    SpiWord,
    SpiDeselect,
    UartFrame,
    UartBreak,
    OwReset,
    OwPresence,
    OwBit,
    NetReset,
    NetCommand,
    NetRom,
    NetByte,
}

/// What a decoder hands to those that are stacked on it: the samples from number `start` to number
/// `end`, both counted, and two values whose meaning the kind says.
#[derive(Clone, Copy, PartialEq, Eq)]
pub struct Packet {
    pub kind: PacketKind,
    pub start: u64,
    pub end: u64,
    pub a: u64,
    pub b: u64,
    ghost in_order: { start ≤ end },
}

/// An annotation: a class of its decoder, the samples from number `start` to number `end`, both
/// counted, and two values whose meaning the class says.
#[derive(Clone, Copy, PartialEq, Eq)]
pub struct Note {
    pub class: u16,
    pub start: u64,
    pub end: u64,
    pub a: u64,
    pub b: u64,
    ghost in_order: { start ≤ end },
}

/// A byte of binary data: a class of its decoder, and the samples from number `start` to number
/// `end`, both counted.
#[derive(Clone, Copy, PartialEq, Eq)]
pub struct Piece {
    pub class: u16,
    pub start: u64,
    pub end: u64,
    pub byte: u8,
    ghost in_order: { start ≤ end },
}

/// An output of a decoder.
#[derive(Clone, Copy, PartialEq, Eq)]
pub enum Out {
    Note(Note),
    Piece(Piece),
    Packet(Packet),
}

/// What a decoder is fed with.
#[derive(Clone, Copy, PartialEq, Eq)]
pub enum Feed {
    Run(Run),
    Packet(Packet),
    /// Each packet that follows starts at this sample or later.
    From(u64),
    /// Nothing follows.
    End,
}

/// What a decoder gives to those that collect its outputs.
#[derive(Clone, Copy, PartialEq, Eq)]
pub enum Mark {
    Note(Note),
    Piece(Piece),
    /// What is still to come starts at this sample or later.
    Floor(u64),
    /// Nothing follows.
    End,
}

// A list of fixed size keeps a blank in each unused place.
impl Default for Out {
    fn default() -> Out {
        Out::Note(Note {
            class: 0,
            start: 0,
            end: 0,
            a: 0,
            b: 0,
        })
    }
}

impl Default for Feed {
    fn default() -> Feed
        ensures { result ≡ Feed.End }
    {
        Feed::End
    }
}

impl Default for Mark {
    fn default() -> Mark
        ensures { result ≡ Mark.End }
    {
        Mark::End
    }
}
