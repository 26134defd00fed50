// What an SPI decoder is made of.
ghost use Rattle.std.specs.Prelude.{◌≡◌, ◌<◌, ◌≤◌};
ghost use Rattle.std.specs.Option.{ForSome};
ghost use Rattle.la_base.specs.declared.samples.TheConstants.{MOST_PINS};
ghost use Rattle.dec_spi.specs.laws.Lines.{lines_of};

use crate::{Lines, SpiOpts};

/// A bus, by its options: each line is a bit of a sample, and a word has 1 to 32 bits.
#[derive(Clone, Copy, PartialEq, Eq)]
pub struct Bus {
    pub opts: SpiOpts,
    ghost sck_below: { opts.sck < MOST_PINS },
    ghost mosi_below: { ForSome opts.mosi (λ line. line < MOST_PINS) },
    ghost miso_below: { ForSome opts.miso (λ line. line < MOST_PINS) },
    ghost cs_below: { ForSome opts.cs (λ line. line < MOST_PINS) },
    ghost bits_some: { 1 ≤ opts.bits },
    ghost bits_few: { opts.bits ≤ 32 },
}

/// What is kept between two events.
#[derive(Clone, Copy, PartialEq, Eq)]
pub enum Held {
    /// No sample was selected yet.
    Fresh,
    /// The device isn't selected any more.
    Outside,
    /// The device is selected.
    Inside(Bits),
}

/// What was read of the present word: how many bits, the numbers that they make up on both lines,
/// and the place of the first of them. Where there are none, these are 0.
#[derive(Clone, Copy, PartialEq, Eq)]
pub struct Bits {
    pub count: u8,
    pub mosi: u32,
    pub miso: u32,
    pub first: u64,
}

/// A decoder of SPI between two events.
#[derive(Drop)]
pub struct Spi {
    pub(crate) bus: Bus,
    pub(crate) lines: Lines,
    pub(crate) held: Held,
    ghost lines_are: { lines ≡ lines_of bus.opts },
}
