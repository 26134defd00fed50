// How a decoder is opened.
ghost use Rattle.std.specs.Prelude.{◌≡◌, ◌≤◌, [], MatchBool};
ghost use Rattle.dev_ds1307.specs.Opening.{InRange, Opens};

use crate::{Chip, Clock, ClockOpts, Held, Part};
use decoder_core::OptFault;
use i2c_phases::{I2cDevice, Phased};
use la_base::Rate;

// Whether the option is in its range.
fn in_range(opts: ClockOpts) -> bool
    ensures { MatchBool result (InRange opts) (¬ InRange opts) }
{
    opts.gcall <= 1
}

impl Clock {
    /// A clock that knows no phases.
    pub fn new(chip: Chip) -> Clock
        ensures setup { ⟦<Clock as I2cDevice>⟧.setup result ≡ chip }
        ensures knows { ⟦<Clock as I2cDevice>⟧.knows result [] }
    {
        Clock {
            chip,
            held: Held {
                register: 0,
                part: Part::Fresh,
            },
        }
    }

    /// Opens a decoder of these options at any rate; it stands for no packets. Answers Range
    /// exactly where `gcall` is neither 0 nor 1; and never Rate.
    pub fn open(opts: ClockOpts, _rate: Rate) -> Result<Phased<Clock>, OptFault>
        ensures { Opens opts result }
    {
        if !in_range(opts) {
            return Err(OptFault::Range);
        }
        let chip = Chip {
            resets: opts.gcall == 1,
        };
        Ok(Phased::new(Clock::new(chip)))
    }
}
