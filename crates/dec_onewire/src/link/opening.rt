// How a decoder of the link is opened.
ghost use Rattle.std.specs.Prelude.{◌≡◌, ◌≤◌, ◌^◌, MatchBool};
ghost use Rattle.la_base.specs.declared.samples.TheConstants.{MOST_PINS};
ghost use Rattle.dec_onewire.specs.Link.{lengths_of};
ghost use Rattle.dec_onewire.specs.Opening.{LinkInRange, FastEnough, LinkOpens};

use super::{Held, Lengths, Line, OwLink, OwLinkOpts};
use decoder_core::OptFault;
use la_base::{MOST_PINS, Rate};
use rate_math::samples_of_ns;

const MOST_NS: u64 = 1_000_000_000;

// Whether each option is in its range.
fn in_range(opts: OwLinkOpts) -> bool
    ensures { MatchBool result (LinkInRange MOST_PINS opts) (¬ LinkInRange MOST_PINS opts) }
{
    if opts.dq >= MOST_PINS {
        return false;
    }
    if opts.reset < 1 || opts.reset > MOST_NS {
        return false;
    }
    if opts.window < 1 || opts.window > MOST_NS {
        return false;
    }
    opts.bit >= 1 && opts.bit <= MOST_NS
}

// The times of the options in samples.
fn lengths_of(opts: OwLinkOpts, rate: Rate) -> Lengths
    requires range { LinkInRange MOST_PINS opts }
    requires rate { rate.num ≤ 10 ^ 15 }
    ensures { result ≡ lengths_of opts rate }
{
    Lengths {
        reset: samples_of_ns(rate, opts.reset),
        window: samples_of_ns(rate, opts.window),
        bit: samples_of_ns(rate, opts.bit),
    }
}

// Whether samples tell a 1 from a 0, and a 0 from a reset.
fn is_fast(lengths: Lengths) -> bool
    ensures { MatchBool result (FastEnough lengths) (¬ FastEnough lengths) }
{
    lengths.bit >= 2 && lengths.reset > lengths.bit
}

impl OwLink {
    /// Opens a decoder of these options at this rate; it stands for no samples. Answers Range
    /// exactly where an option is out of range: `dq` isn't a bit of a sample, or another one isn't
    /// 1 to 10^9 ns. Else it answers Rate exactly where `bit` is less than two samples, or `reset`
    /// has no more samples than `bit`, each rounded up.
    pub fn open(opts: OwLinkOpts, rate: Rate) -> Result<OwLink, OptFault>
        requires { rate.num ≤ 10 ^ 15 }
        ensures { LinkOpens MOST_PINS opts rate result }
    {
        if !in_range(opts) {
            return Err(OptFault::Range);
        }
        let lengths = lengths_of(opts, rate);
        if !is_fast(lengths) {
            return Err(OptFault::Rate);
        }
        let held = Held {
            fall: None,
            reset_end: None,
        };
        Ok(OwLink {
            line: Line { opts, rate },
            lengths,
            held,
        })
    }
}
