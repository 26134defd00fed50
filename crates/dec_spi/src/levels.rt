// What a sample says.
ghost use Rattle.std.specs.Prelude.{◌≡◌, ◌<◌};
ghost use Rattle.std.specs.Option.{ForSome};
ghost use Rattle.la_base.specs.declared.samples.TheConstants.{MOST_PINS};
ghost use Rattle.dec_spi.specs.Bus.{is_active_high, is_low_first, reads_rises, is_selected};
ghost use Rattle.dec_spi.specs.Bus.{level_of};

use crate::{Bus, SpiOpts};
use la_base::{Word, pin};

/// Whether the select line is active high.
pub fn is_active_high(opts: &SpiOpts) -> bool
    ensures { result ≡ is_active_high opts.now }
{
    opts.mode == 1 || opts.mode == 3
}

/// Whether the least significant bit comes first.
pub fn is_low_first(opts: &SpiOpts) -> bool
    ensures { result ≡ is_low_first opts.now }
{
    opts.mode == 2 || opts.mode == 3
}

/// Whether bits are read where the clock rises.
pub fn reads_rises(opts: &SpiOpts) -> bool
    ensures { result ≡ reads_rises opts.now }
{
    opts.cpol == opts.cpha
}

/// The level of a line; one that isn't given reads low.
pub fn level_of(line: Option<u32>, value: Word) -> bool
    requires { ForSome line (λ own. own < MOST_PINS) }
    ensures { result ≡ level_of line value }
{
    match line {
        Some(line) => pin(value, line),
        None => false,
    }
}

/// Whether a sample is selected.
pub fn is_selected(bus: &Bus, value: Word) -> bool
    ensures { result ≡ is_selected bus.now.opts value }
{
    match bus.opts.cs {
        Some(line) => {
            let level = pin(value, line);
            if is_active_high(&bus.opts) {
                level
            } else {
                !level
            }
        }
        None => true,
    }
}
