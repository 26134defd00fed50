// How a decoder is opened.
ghost use Rattle.std.specs.Prelude.{◌≡◌, ◌≤◌, ◌^◌, MatchBool};
ghost use Rattle.la_base.specs.declared.samples.TheConstants.{MOST_PINS};
ghost use Rattle.dec_uart.specs.Opening.{Opens};
ghost use Rattle.dec_uart.specs.Ranges.{InRange, FastEnough};

use crate::points::{last_bit, points_of};
use crate::{Held, Line, Uart, UartOpts};
use decoder_core::OptFault;
use la_base::{MOST_PINS, Rate};

// Whether each option is in its range.
fn in_range(opts: UartOpts) -> bool
    ensures { MatchBool result (InRange MOST_PINS opts) (¬ InRange MOST_PINS opts) }
{
    if opts.rx >= MOST_PINS {
        return false;
    }
    if opts.baud < 1 || opts.baud > 10_000_000 {
        return false;
    }
    if opts.bits < 5 || opts.bits > 9 {
        return false;
    }
    if opts.parity > 4 {
        return false;
    }
    if opts.stop < 1 || opts.stop > 2 {
        return false;
    }
    opts.sp >= 1 && opts.sp <= 99
}

// Whether point 0 of a frame lies behind its first sample. The left side may have more than 64
// bits.
fn is_fast(opts: UartOpts, rate: Rate) -> bool
    requires range { InRange MOST_PINS opts }
    requires rate { rate.num ≤ 10 ^ 15 }
    ensures { MatchBool result (FastEnough opts rate) (¬ FastEnough opts rate) }
{
    100 * opts.baud as u128 * rate.den as u128 <= (opts.sp * rate.num) as u128
}

impl Uart {
    /// Opens a decoder of these options at this rate; it stands for no samples. Answers Range
    /// exactly where an option is out of range: `rx` isn't a bit of a sample, or not 1 to
    /// 10,000,000 for `baud`, 5 to 9 for `bits`, 0 to 4 for `parity`, 1 to 2 for `stop`, 1 to 99
    /// for `sp`. Else it answers Rate exactly where `sp` hundredths of a bit are less than one
    /// sample.
    pub fn open(opts: UartOpts, rate: Rate) -> Result<Uart, OptFault>
        requires { rate.num ≤ 10 ^ 15 }
        ensures { Opens MOST_PINS opts rate result }
    {
        if !in_range(opts) {
            return Err(OptFault::Range);
        }
        if !is_fast(opts, rate) {
            return Err(OptFault::Rate);
        }
        let line = Line { opts, rate };
        Ok(Uart {
            line,
            held: Held::Idle,
            points: points_of(line),
            last: last_bit(line) as u8,
        })
    }
}
