// Neighbouring units of two bytes that give the same sample, four at a time.
ghost use Rattle.std.specs.Prelude.{◌≡◌, ◌<◌, ◌≤◌, ◌*◌, ◌%◌, ◌^◌, length, take};
ghost use Rattle.capture_raw.specs.Masks.{SameSamples};
ghost use Rattle.capture_raw.specs.Raw.{number};
ghost use Rattle.capture_raw.specs.Pairs.{FourOf};

use crate::units::{WORD, word_at};
use crate::wide::more_units;
use la_base::Word;

// How many bits a unit has.
const BITS: u32 = 16;

// How many units a word has.
const UNITS: usize = 4;

/// How many units of two bytes at the front give the same sample, for pins whose bits `mask` has.
/// Most runs end within the first word.
#[inline(always)]
pub fn alike_pairs(bytes: &[u8], mask: Word) -> usize
    requires { 2 ≤ length bytes.now }
    ensures some { 1 ≤ result }
    ensures within { result * 2 ≤ length bytes.now }
    ensures same { SameSamples 2 mask bytes.now result }
{
    if bytes.len() < WORD {
        return more_units(bytes, 2, mask, 1);
    }
    let word = word_at(bytes, 0);
    let masks = four_of((mask & 0xffff) as u64);
    let firsts = four_of(word & 0xffff);
    let different = (word ^ firsts) & masks;
    if different != 0 {
        return (different.trailing_zeros() / BITS) as usize;
    }
    more_words(bytes, mask, masks, firsts)
}

// Four equal units.
#[inline(always)]
fn four_of(unit: u64) -> u64
    requires { unit < 2 ^ 16 }
    ensures { FourOf result unit }
{
    unit * 0x0001_0001_0001_0001
}

// Goes on behind the first word. It isn't inlined, so that its loop has the registers that it
// needs.
#[inline(never)]
fn more_words(bytes: &[u8], mask: Word, masks: u64, firsts: u64) -> usize
    requires whole { 8 ≤ length bytes.now }
    requires same { SameSamples 2 mask bytes.now 4 }
    requires masks { FourOf masks (mask % 2 ^ 16) }
    requires firsts { FourOf firsts (number (take 2 bytes.now)) }
    ensures some { 1 ≤ result }
    ensures within { result * 2 ≤ length bytes.now }
    ensures same { SameSamples 2 mask bytes.now result }
{
    let mut count = UNITS;
    let mut done = WORD;
    while bytes.len() - done >= WORD {
        let different = (word_at(bytes, done) ^ firsts) & masks;
        if different != 0 {
            return count + (different.trailing_zeros() / BITS) as usize;
        }
        done += WORD;
        count += UNITS;
    }
    more_units(bytes, 2, mask, count)
}
