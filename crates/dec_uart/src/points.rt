// The bits of a frame, and where they are read.
ghost use Rattle.std.specs.Prelude.{◌≡◌, ◌≤◌};
ghost use Rattle.dec_uart.specs.Frames.{parity_of, parity_bits, before_stop, last_bit, bit_point};
ghost use Rattle.dec_uart.specs.Frames.{break_length, points_of};

use crate::{Line, Parity};
use rate_math::{point, samples_of_bits};

/// The parity of its place among none, odd, even, zero, one.
pub fn parity_of(place: u64) -> Parity
    ensures { result ≡ parity_of place }
{
    match place {
        0 => Parity::Without,
        1 => Parity::Odd,
        2 => Parity::Even,
        3 => Parity::Zero,
        _ => Parity::One,
    }
}

// How many parity bits a frame has.
fn parity_bits(parity: Parity) -> u64
    ensures count { result ≡ parity_bits parity }
    ensures few { result ≤ 1 }
{
    match parity {
        Parity::Without => 0,
        Parity::Odd | Parity::Even | Parity::Zero | Parity::One => 1,
    }
}

/// How many bits stand before the stop bits.
pub fn before_stop(line: Line) -> u64
    ensures count { result ≡ before_stop line.opts }
    ensures few { result ≤ 11 }
{
    1 + line.opts.bits + parity_bits(parity_of(line.opts.parity))
}

/// The number of the last bit; the start bit is bit 0.
pub fn last_bit(line: Line) -> u64
    ensures last { result ≡ last_bit line.opts }
    ensures few { result ≤ 12 }
{
    before_stop(line) + line.opts.stop - 1
}

/// Where a bit is read, counted from the start of its frame.
pub fn bit_point(line: Line, i: u64) -> u64
    requires { i ≤ 12 }
    ensures { result ≡ bit_point line.opts line.rate i }
{
    point(line.rate, line.opts.baud, line.opts.sp, i)
}

/// Where each bit is read that a frame can have.
pub fn points_of(line: Line) -> [u64; 13]
    ensures { result ≡ points_of line.opts line.rate }
{
    let at = |i| bit_point(line, i);
    [
        at(0),
        at(1),
        at(2),
        at(3),
        at(4),
        at(5),
        at(6),
        at(7),
        at(8),
        at(9),
        at(10),
        at(11),
        at(12),
    ]
}

/// How many samples a break has at least.
pub fn break_length(line: Line) -> u64
    ensures { result ≡ break_length line.opts line.rate }
{
    samples_of_bits(line.rate, line.opts.baud, last_bit(line) + 1)
}
