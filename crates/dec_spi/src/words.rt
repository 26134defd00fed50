// Words, bit by bit.
ghost use Rattle.std.specs.Prelude.{◌≡◌};
ghost use Rattle.dec_spi.specs.laws.Lines.{no_bits};
ghost use Rattle.dec_spi.specs.laws.Machine.{begun, with_bit, start_of, near_by};

use crate::{Bits, Held};

/// A number of so many bits with one more bit behind them.
pub fn with_bit(low_first: bool, count: u8, number: u32, level: bool) -> u32
    ensures { result ≡ with_bit low_first count number level }
{
    if low_first {
        let place = 1 << count.min(31);
        number % place + level as u32 * place
    } else {
        number % 0x8000_0000 * 2 + level as u32
    }
}

/// Where the word starts that a clock belongs to.
pub fn start_of(count: u8, first: u64, at: u64) -> u64
    ensures { result ≡ start_of count first at }
{
    if count == 0 { at } else { first }
}

/// What is kept of a word that hasn't begun.
pub fn no_bits() -> Bits
    ensures { result ≡ no_bits }
{
    Bits {
        count: 0,
        mosi: 0,
        miso: 0,
        first: 0,
    }
}

/// What is kept in a stretch where no word has begun.
pub fn begun() -> Held
    ensures { result ≡ begun }
{
    Held::Inside(no_bits())
}

/// Where the word starts that has begun, else the number of samples.
pub fn near(held: Held, next: u64) -> u64
    ensures { result ≡ near_by held next }
{
    match held {
        Held::Fresh => next,
        Held::Outside => next,
        Held::Inside(word) => { if word.count == 0 { next } else { word.first } }
    }
}
