// How a bus of SPI is read.

/// Options: the bits of the clock, of MOSI, MISO and the select line in a sample; polarity and
/// phase of the clock, each 0 or 1; the bits of a word, 1 to 32; and a mode, by the place of its
/// word in `msb_low`, `msb_high`, `lsb_low`, `lsb_high`: the most or the least significant bit
/// comes first, and the select line is active low or high. At least one of MOSI and MISO is given.
/// Without a select line all samples are selected.
#[derive(Clone, Copy, PartialEq, Eq)]
pub struct SpiOpts {
    pub sck: u32,
    pub mosi: Option<u32>,
    pub miso: Option<u32>,
    pub cs: Option<u32>,
    pub cpol: u64,
    pub cpha: u64,
    pub bits: u64,
    pub mode: u64,
}
