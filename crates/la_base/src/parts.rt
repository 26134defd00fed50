// One sample, and a run in two parts.
ghost use Rattle.std.specs.Prelude.{◌≡◌, ◌+◌, ◌<◌, ◌++◌, ◌%◌, ◌/◌, ◌^◌};
ghost use Rattle.la_base.specs.Samples.{samples, is_high};

use crate::{HALF_BITS, MOST_PINS, Run, Word};

/// The bits of a word that pins 0 to 63 have.
#[inline(always)]
pub fn low_half(word: Word) -> u64
    ensures { result ≡ word % 2 ^ 64 }
{
    (word & 0xffff_ffff_ffff_ffff) as u64
}

/// The bits of a word that pins 64 to 127 have.
#[inline(always)]
pub fn high_half(word: Word) -> u64
    ensures { result ≡ word / 2 ^ 64 }
{
    (word >> HALF_BITS) as u64
}

/// Whether the channel that is bound as pin `channel` is high in a sample: bit `channel` of it.
#[inline(always)]
pub fn pin(value: Word, channel: u32) -> bool
    requires { channel < MOST_PINS }
    ensures { result ≡ is_high value channel }
{
    // A shift of one half takes less than one of the whole.
    if channel < HALF_BITS {
        (low_half(value) >> channel) & 1 == 1
    } else {
        (high_half(value) >> (channel - HALF_BITS)) & 1 == 1
    }
}

/// The mask of a pin: the sample in which it alone is high.
#[inline]
pub fn mask(channel: u32) -> Word
    requires { channel < MOST_PINS }
    ensures { result ≡ 2 ^ channel }
{
    1 << channel
}

/// The first `n` samples of a run, and the others, of which there is at least one.
pub fn cut(run: Run, n: u64) -> (Run, Run)
    requires above { 0 < n }
    requires below { n < run.len }
    ensures front { result.0.len ≡ n }
    ensures back { n + result.1.len ≡ run.len }
    ensures value { (result.0.value ≡ run.value) × (result.1.value ≡ run.value) }
    ensures same { samples result.0 ++ samples result.1 ≡ samples run }
{
    let front = Run {
        value: run.value,
        len: n,
    };
    let back = Run {
        value: run.value,
        len: run.len - n,
    };
    (front, back)
}
