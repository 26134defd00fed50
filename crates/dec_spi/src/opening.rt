// How a decoder is opened.
ghost use Rattle.std.specs.Prelude.{◌≡◌, ◌<◌, ◌≤◌, MatchBool};
ghost use Rattle.std.specs.Option.{ForSome};
ghost use Rattle.la_base.specs.declared.samples.TheConstants.{MOST_PINS};
ghost use Rattle.dec_spi.specs.Opening.{InRange, Opens};

use crate::lines::lines_of;
use crate::{Bus, Held, Spi, SpiOpts};
use decoder_core::OptFault;
use la_base::{MOST_PINS, Rate};

// Whether a line, if it is given, is a bit of a sample.
fn is_pin(line: Option<u32>) -> bool
    ensures { MatchBool result (ForSome line (λ own. own < MOST_PINS))
        (¬ ForSome line (λ own. own < MOST_PINS)) }
{
    match line {
        Some(line) => line < MOST_PINS,
        None => true,
    }
}

// Whether each option is in its range, and a data line is given.
fn in_range(opts: SpiOpts) -> bool
    ensures { MatchBool result (InRange MOST_PINS opts) (¬ InRange MOST_PINS opts) }
{
    if opts.sck >= MOST_PINS {
        return false;
    }
    if !is_pin(opts.mosi) {
        return false;
    }
    if !is_pin(opts.miso) {
        return false;
    }
    if !is_pin(opts.cs) {
        return false;
    }
    if opts.cpol > 1 || opts.cpha > 1 {
        return false;
    }
    if opts.bits < 1 || opts.bits > 32 {
        return false;
    }
    if opts.mode > 3 {
        return false;
    }
    opts.mosi.is_some() || opts.miso.is_some()
}

impl Spi {
    /// Opens a decoder of these options at any rate; it stands for no samples. Answers Range where
    /// a line isn't one of the bits of a sample, another option is out of its range, or no data
    /// line is given; and never Rate.
    pub fn open(opts: SpiOpts, _rate: Rate) -> Result<Spi, OptFault>
        ensures { Opens MOST_PINS opts result }
    {
        if !in_range(opts) {
            return Err(OptFault::Range);
        }
        Ok(Spi {
            bus: Bus { opts },
            lines: lines_of(&opts),
            held: Held::Fresh,
        })
    }
}
