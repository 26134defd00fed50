// How a decoder is opened.
ghost use Rattle.std.specs.Prelude.{◌≡◌, ◌≤◌, [], MatchBool};
ghost use Rattle.dev_lm75.specs.Opening.{InRange, Opens};

use crate::{Chip, Held, Lm75, Lm75Opts, Part};
use decoder_core::OptFault;
use i2c_phases::{I2cDevice, Phased};
use la_base::Rate;

// Whether each option is in its range.
fn in_range(opts: Lm75Opts) -> bool
    ensures { MatchBool result (InRange opts) (¬ InRange opts) }
{
    opts.addr <= 7 && opts.gcall <= 1
}

impl Lm75 {
    /// A thermometer that knows no phases.
    pub fn new(chip: Chip) -> Lm75
        ensures setup { ⟦<Lm75 as I2cDevice>⟧.setup result ≡ chip }
        ensures knows { ⟦<Lm75 as I2cDevice>⟧.knows result [] }
    {
        Lm75 {
            chip,
            held: Held {
                pointer: 0,
                part: Part::Fresh,
            },
        }
    }

    /// Opens a decoder of these options at any rate; it stands for no packets. Answers Range
    /// exactly where an option is out of range: not 0 to 7 for `addr`, 0 or 1 for `gcall`; and
    /// never Rate.
    pub fn open(opts: Lm75Opts, _rate: Rate) -> Result<Phased<Lm75>, OptFault>
        ensures { Opens opts result }
    {
        if !in_range(opts) {
            return Err(OptFault::Range);
        }
        let chip = Chip {
            addr: opts.addr as u8,
            resets: opts.gcall == 1,
        };
        Ok(Phased::new(Lm75::new(chip)))
    }
}
