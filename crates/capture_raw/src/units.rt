// Units of bytes, and the words that pins pick from them.
ghost use Rattle.std.specs.Prelude.{◌≡◌, ◌<◌, ◌≤◌, ◌+◌, ◌*◌, ℕ, drop, length, slice_index, take};
ghost use Rattle.std.specs.Int.{bit_at};
ghost use Rattle.capture_raw.specs.Raw.{number, picked, word_of};
ghost use Rattle.capture_raw.specs.Masks.{Covers, OfBytes};
ghost use Rattle.capture_raw.specs.Neighbours.{Picks};

use crate::neighbours::Neighbours;
use la_base::{HALF_BITS, MOST_PINS, WORD_BYTES, Word, high_half, low_half};

/// How many bytes there are.
pub const BYTES: usize = 256;

/// The most bytes that a unit has.
pub const MOST_UNIT: usize = (MOST_PINS as usize + 7) / 8;

// How many pins half a sample has.
const HALF: usize = HALF_BITS as usize;

/// How many bytes a `u64` has.
pub const WORD: usize = 8;

/// The number of eight bytes behind the first `at`, the lowest first.
#[inline(always)]
pub fn word_at(bytes: &[u8], at: usize) -> u64
    requires { at + 8 ≤ length bytes.now }
    ensures { result ≡ number (take 8 (drop at bytes.now)) }
{
    let (words, _) = bytes[at..at + 8].as_chunks::<8>();
    u64::from_le_bytes(words[0])
}

/// The number of as many bytes as a sample has, behind the first `at`, the lowest first.
#[inline(always)]
pub fn broad_at(bytes: &[u8], at: usize) -> Word
    requires { at + WORD_BYTES ≤ length bytes.now }
    ensures { result ≡ number (take WORD_BYTES (drop at bytes.now)) }
{
    let (all, _) = bytes[at..at + WORD_BYTES].as_chunks::<WORD_BYTES>();
    Word::from_le_bytes(all[0])
}

/// The number that the bytes of a unit say, the lowest first.
pub fn number(unit: &[u8]) -> Word
    requires { length unit.now ≤ MOST_UNIT }
    ensures { result ≡ number unit.now }
{
    let mut value: Word = 0;
    let mut place = unit.len();
    while place > 0 {
        place -= 1;
        value = 256 * value + Word::from(unit[place]);
    }
    value
}

/// The sample of the first unit.
#[inline(always)]
pub fn picked_of(pins: &[u32], neighbours: Neighbours, bytes: &[u8], unit: usize) -> Word
    requires few { length pins.now ≤ MOST_PINS }
    requires neighbours { Picks neighbours.holds neighbours.first neighbours.ones pins.now }
    requires within { (k : ℕ) → k < length pins.now → slice_index pins.now k < 8 * unit }
    requires short { unit ≤ MOST_UNIT }
    requires whole { unit ≤ length bytes.now }
    ensures { result ≡ word_of pins.now (take unit bytes.now) }
{
    if neighbours.holds && bytes.len() >= WORD_BYTES {
        // What stands behind the unit has no pin.
        return neighbours.of(broad_at(bytes, 0));
    }
    picked_singly(pins, bytes, unit)
}

// The same pin by pin. It isn't inlined, since most pins are neighbours.
#[inline(never)]
fn picked_singly(pins: &[u32], bytes: &[u8], unit: usize) -> Word
    requires few { length pins.now ≤ MOST_PINS }
    requires within { (k : ℕ) → k < length pins.now → slice_index pins.now k < 8 * unit }
    requires short { unit ≤ MOST_UNIT }
    requires whole { unit ≤ length bytes.now }
    ensures { result ≡ word_of pins.now (take unit bytes.now) }
{
    if bytes.len() < WORD_BYTES {
        return picked(pins, number(&bytes[..unit]));
    }
    picked(pins, broad_at(bytes, 0))
}

// Bit j is bit `pins[j]` of `n`.
fn picked(pins: &[u32], n: Word) -> Word
    requires few { length pins.now ≤ MOST_PINS }
    requires within { (k : ℕ) → k < length pins.now → slice_index pins.now k < MOST_PINS }
    ensures { result ≡ picked pins.now n }
{
    if pins.len() <= HALF {
        return Word::from(picked_few(pins, n));
    }
    let (first, others) = pins.split_at(HALF);
    (Word::from(picked_few(others, n)) << HALF) + Word::from(picked_few(first, n))
}

// The same for at most as many pins as half a word has bits.
#[inline(always)]
fn picked_few(pins: &[u32], n: Word) -> u64
    requires few { length pins.now ≤ HALF_BITS }
    requires within { (k : ℕ) → k < length pins.now → slice_index pins.now k < MOST_PINS }
    ensures { result ≡ picked pins.now n }
{
    let mut value: u64 = 0;
    let mut place = pins.len();
    while place > 0 {
        place -= 1;
        value = 2 * value + bit_of(n, pins[place]);
    }
    value
}

// One bit of a number. A shift of one half takes less than one of the whole.
#[inline(always)]
fn bit_of(n: Word, place: u32) -> u64
    requires { place < MOST_PINS }
    ensures { result ≡ bit_at n place }
{
    let half = if place < HALF_BITS {
        low_half(n)
    } else {
        high_half(n)
    };
    (half >> (place % HALF_BITS)) & 1
}

/// A number that has the bit of each pin.
pub fn mask_of(pins: &[u32]) -> Word
    requires within { (k : ℕ) → k < length pins.now → slice_index pins.now k < MOST_PINS }
    ensures { Covers result pins.now }
{
    let mut mask: Word = 0;
    let mut place = 0;
    while place < pins.len() {
        let bit: Word = 1 << pins[place];
        mask |= bit;
        place += 1;
    }
    mask
}

/// The sample of each byte that stands alone at one place of a unit: `worth` is 1 for the lowest
/// byte, and 256 for the one behind it.
pub fn samples_of_bytes(pins: &[u32], worth: Word) -> [Word; BYTES]
    requires few { length pins.now ≤ MOST_PINS }
    requires within { (k : ℕ) → k < length pins.now → slice_index pins.now k < MOST_PINS }
    requires worth { worth ≤ 256 }
    ensures { OfBytes worth result pins.now }
{
    let mut table: [Word; BYTES] = [0; BYTES];
    let mut byte = 0;
    while byte < BYTES {
        table[byte] = picked(pins, worth * byte as Word);
        byte += 1;
    }
    table
}
