// What a decoder of MIDI is made of.
use packet_walks::Walking;

/// MIDI has no options.
#[derive(Clone, Copy, PartialEq, Eq)]
pub struct MidiOpts {}

/// What a byte is.
#[derive(Clone, Copy, PartialEq, Eq)]
pub enum Sort {
    /// A data byte, below 80h.
    Data,
    /// A status that isn't real time, from 80h to F7h.
    Status,
    /// A real time message, from F8h on.
    RealTime,
}

/// What data a status takes.
#[derive(Clone, Copy, PartialEq, Eq)]
pub enum Takes {
    /// None: F4h to F7h.
    Nothing,
    /// One data byte: F1h and F3h.
    One,
    /// Two data bytes: F2h.
    Two,
    /// One data byte again and again, by running status: Cxh and Dxh.
    Ones,
    /// Two data bytes again and again, by running status: 8xh to Bxh, and Exh.
    Twos,
    /// Any number of data bytes, up to the next status: F0h.
    Any,
}

/// What is kept between two packets.
#[derive(Clone, Copy, PartialEq, Eq)]
pub enum Held {
    /// A data byte is one of no message.
    Stray,
    /// A status with whole messages behind it, and no data byte of the next one.
    Running {
        status: u8,
    },
    /// A status with a message that isn't whole: where that starts, and its first data byte, if
    /// that has come.
    Begun {
        status: u8,
        start: u64,
        first: Option<u8>,
    },
    /// System exclusive: where it starts, where its last byte ends, and the number of its data
    /// bytes.
    Exclusive {
        start: u64,
        end: u64,
        count: u64,
    },
}

/// A decoder of MIDI between two packets.
pub type Midi = Walking<Held>;
