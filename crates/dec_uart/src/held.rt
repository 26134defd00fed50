// What a decoder of a serial line is made of.
ghost use Rattle.std.specs.Prelude.{◌≡◌, ◌≤◌, ◌^◌};
ghost use Rattle.la_base.specs.declared.samples.TheConstants.{MOST_PINS};
ghost use Rattle.dec_uart.specs.Frames.{last_bit, points_of};
ghost use Rattle.dec_uart.specs.Ranges.{InRange, FastEnough};

use crate::UartOpts;
use la_base::Rate;

/// A serial line: its options, and the rate of its samples.
#[derive(Clone, Copy, PartialEq, Eq)]
pub struct Line {
    pub opts: UartOpts,
    pub rate: Rate,
    ghost in_range: { InRange MOST_PINS opts },
    ghost rate_in: { rate.num ≤ 10 ^ 15 },
    ghost fast: { FastEnough opts rate },
}

/// What is kept between two stops.
#[derive(Clone, Copy, PartialEq, Eq)]
pub enum Held {
    /// No frame is open.
    Idle,
    /// In the frame that starts at this place: how many of its points were read, their levels as a
    /// number, the first the lowest, and how far behind the start the last of them is.
    Inside {
        start: u64,
        points: u8,
        word: u16,
        reached: u64,
    },
    /// The frame that starts at this place was low at all its points, and the line is still low.
    Low {
        start: u64,
    },
}

/// A decoder of a serial line between two stops.
#[derive(Drop)]
pub struct Uart {
    pub(crate) line: Line,
    pub(crate) held: Held,
    // where the bits of a frame are read, and the number of the last: what the line says, so that
    // nothing is divided at a stop
    pub(crate) points: [u64; 13],
    pub(crate) last: u8,
    ghost points_are: { points ≡ points_of line.opts line.rate },
    ghost last_is: { last ≡ last_bit line.opts },
}
