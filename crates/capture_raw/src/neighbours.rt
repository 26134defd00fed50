// Pins that are neighbours, in order: a shift picks them all.
ghost use Rattle.std.specs.Prelude.{◌≡◌, ◌<◌, ◌≤◌, ◌/◌, ◌^◌, ℕ, false, length, slice_index};
ghost use Rattle.la_base.specs.declared.samples.TheConstants.{MOST_PINS};
ghost use Rattle.std.specs.Int.Bits.{bit_and};
ghost use Rattle.capture_raw.specs.Neighbours.{Picks};

use la_base::{MOST_PINS, Word};

/// Whether the pins are neighbours in order, and if so the first of them, and a bit for each.
#[derive(Clone, Copy)]
pub struct Neighbours {
    pub holds: bool,
    pub first: u32,
    pub ones: Word,
    ghost first_fits: { first < MOST_PINS },
}

/// How a shift picks these pins, if it does.
pub fn neighbours_of(pins: &[u32]) -> Neighbours
    requires few { length pins.now ≤ MOST_PINS }
    requires within { (k : ℕ) → k < length pins.now → slice_index pins.now k < MOST_PINS }
    ensures { Picks result.holds result.first result.ones pins.now }
{
    if pins.is_empty() {
        return none();
    }
    let first = pins[0];
    let mut ones: Word = 0;
    let mut place = 0;
    while place < pins.len() {
        if pins[place] as usize != first as usize + place {
            return none();
        }
        ones = 2 * ones + 1;
        place += 1;
    }
    Neighbours {
        holds: true,
        first,
        ones,
    }
}

// No shift does.
fn none() -> Neighbours
    ensures { result.holds ≡ false }
{
    Neighbours {
        holds: false,
        first: 0,
        ones: 0,
    }
}

impl Neighbours {
    /// What the pins pick of a number, where they are neighbours.
    #[inline(always)]
    pub fn of(self, n: Word) -> Word
        ensures { result ≡ bit_and (n / 2 ^ self.first) self.ones }
    {
        (n >> self.first) & self.ones
    }
}
