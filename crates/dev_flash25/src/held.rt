// What a decoder of a serial flash is made of.
use packet_walks::Transacting;

/// A flash has no options.
#[derive(Clone, Copy, PartialEq, Eq)]
pub struct FlashOpts {}

/// An instruction behind which more is told.
#[derive(Clone, Copy, PartialEq, Eq)]
pub enum Command {
    /// Read ID (9Fh).
    Id,
    /// Read status (05h).
    Status,
    /// Write status (01h).
    WriteStatus,
    /// Read data (03h).
    Read,
    /// Fast read (0Bh).
    FastRead,
    /// Page program (02h).
    Program,
    /// Sector erase (20h).
    EraseSector,
    /// Block erase (D8h).
    EraseBlock,
    /// Chip erase (C7h and 60h).
    EraseChip,
    /// Any other one.
    Other,
}

/// What the words behind an instruction have said so far.
#[derive(Clone, Copy, PartialEq, Eq)]
pub enum Said {
    /// Nothing of a number.
    Nothing,
    /// The first byte of a number, in a word that starts here.
    One { first: u8, start: u64 },
    /// The first two bytes of a number, the first of which starts here.
    Two { first: u8, second: u8, start: u64 },
    /// An address, behind which a word follows that says nothing.
    Dummy { number: u32 },
    /// A number, which is an address or an ID: the place of the next byte of data, from the front
    /// of the page or of all, and how many have come.
    Whole { number: u32, place: u32, count: u64 },
}

/// The words of a transaction that is open: none; or an instruction, where it starts, where the
/// last word ends, and what the words behind it have said.
#[derive(Clone, Copy, PartialEq, Eq)]
pub enum Words {
    Empty,
    Begun {
        command: Command,
        from: u64,
        end: u64,
        said: Said,
    },
}

/// A transaction that is open: where its select starts, and its words.
#[derive(Clone, Copy, PartialEq, Eq)]
pub struct Open {
    pub(crate) start: u64,
    pub(crate) words: Words,
}

/// A decoder of a serial flash between two packets.
pub type Flash = Transacting<Open>;
