// How a decoder is opened.
ghost use Rattle.std.specs.Prelude.{◌≡◌, ◌≤◌, [], MatchBool, get_or};
ghost use Rattle.dev_eeprom24.specs.Opening.{InRange, Opens, pages, sizes};

use crate::{Chip, Eeprom, EepromOpts, Held, Word};
use decoder_core::OptFault;
use i2c_phases::{I2cDevice, Phased};
use la_base::Rate;

// Whether each option is in its range.
fn in_range(opts: EepromOpts) -> bool
    ensures { MatchBool result (InRange opts) (¬ InRange opts) }
{
    opts.addr <= 7 && opts.size <= 6 && opts.page <= 4 && opts.gcall <= 1
}

// The size of this place among the words, in bytes.
fn size_of(place: u64) -> u32
    requires { place ≤ 6 }
    ensures { result ≡ get_or sizes place 256 }
{
    match place {
        0 => 256,
        1 => 128,
        2 => 4096,
        3 => 8192,
        4 => 16384,
        5 => 32768,
        _ => 65536,
    }
}

// The size of a page of this place among the words, in bytes.
fn page_of(place: u64) -> u32
    requires { place ≤ 4 }
    ensures { result ≡ get_or pages place 8 }
{
    match place {
        0 => 8,
        1 => 16,
        2 => 32,
        3 => 64,
        _ => 128,
    }
}

impl Eeprom {
    /// An EEPROM that knows no phases.
    pub fn new(chip: Chip) -> Eeprom
        ensures setup { ⟦<Eeprom as I2cDevice>⟧.setup result ≡ chip }
        ensures knows { ⟦<Eeprom as I2cDevice>⟧.knows result [] }
    {
        Eeprom {
            chip,
            held: Held {
                pointer: 0,
                word: Word::Empty,
            },
        }
    }

    /// Opens a decoder of these options at any rate; it stands for no packets. Answers Range
    /// exactly where an option is out of range: not 0 to 7 for `addr`, 0 to 6 for the place of a
    /// size, 0 to 4 for that of a page, 0 or 1 for `gcall`; and never Rate. The sizes in bytes are
    /// by their places 256, 128, 4096, 8192, 16384, 32768 and 65536, those of pages 8, 16, 32, 64
    /// and 128.
    pub fn open(opts: EepromOpts, _rate: Rate) -> Result<Phased<Eeprom>, OptFault>
        ensures { Opens opts result }
    {
        if !in_range(opts) {
            return Err(OptFault::Range);
        }
        let chip = Chip {
            addr: opts.addr as u8,
            size: size_of(opts.size),
            page: page_of(opts.page),
            resets: opts.gcall == 1,
        };
        Ok(Phased::new(Eeprom::new(chip)))
    }
}
