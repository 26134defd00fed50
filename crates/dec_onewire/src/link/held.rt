// What a decoder of the link is made of.
ghost use Rattle.std.specs.Prelude.{◌≡◌, ◌<◌};
ghost use Rattle.la_base.specs.declared.samples.TheConstants.{MOST_PINS};
ghost use Rattle.dec_onewire.specs.Link.{lengths_of};

use super::{Lengths, OwLinkOpts};
use la_base::Rate;

/// A 1-Wire line: its options, and the rate of its samples.
#[derive(Clone, Copy, PartialEq, Eq)]
pub struct Line {
    pub opts: OwLinkOpts,
    pub rate: Rate,
    ghost dq_below: { opts.dq < MOST_PINS },
}

/// What is kept between two edges.
#[derive(Clone, Copy, PartialEq, Eq)]
pub struct Held {
    /// Where the pulse began that hasn't ended yet.
    pub fall: Option<u64>,
    /// Where the last pulse ended, if it was a reset.
    pub reset_end: Option<u64>,
}

/// A decoder of the link between two edges. The lengths are those of its options at its rate; it
/// holds them, so that they aren't worked out at each pulse.
#[derive(Drop)]
pub struct OwLink {
    pub(crate) line: Line,
    pub(crate) lengths: Lengths,
    pub(crate) held: Held,
    ghost reset_is: { lengths.reset ≡ (lengths_of line.opts line.rate).reset },
    ghost window_is: { lengths.window ≡ (lengths_of line.opts line.rate).window },
    ghost bit_is: { lengths.bit ≡ (lengths_of line.opts line.rate).bit },
}
