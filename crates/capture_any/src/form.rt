// The forms of captures.
use la_base::{CsvMode, Rate};

/// How a capture is written down.
#[derive(Clone, Copy, PartialEq, Eq)]
pub enum Form {
    /// Units of bytes, `channels` bits rounded up to whole bytes each, at this rate.
    Raw {
        channels: u32,
        rate: Rate,
    },
    /// A VCD file, by clause 18 of IEEE 1364-2005. Each sample stands for `down` units of its time.
    Vcd {
        down: u64,
    },
    /// A CSV file, one record a line, by RFC 4180. `header` says whether the first record names the
    /// channels. Samples are at this rate.
    Csv {
        mode: CsvMode,
        header: bool,
        rate: Rate,
    },
}
