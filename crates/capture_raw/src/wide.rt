// Neighbouring units of several bytes that give the same sample.
ghost use Rattle.std.specs.Prelude.{◌≡◌, ◌<◌, ◌≤◌, ◌*◌, length, take};
ghost use Rattle.capture_raw.specs.Masks.{SameSamples};

use crate::units::{MOST_UNIT, WORD, broad_at, number, word_at};
use la_base::{WORD_BYTES, Word, low_half};

// How many bytes are compared at once, one unit against the next.
const BLOCK: usize = 64;

// How many bytes are looked at unit by unit before that.
const NEAR: usize = 256;

/// How many units at the front give the same sample, for pins whose bits `mask` has.
#[inline(never)]
pub fn alike_wide(bytes: &[u8], unit: usize, mask: Word) -> usize
    requires some { 0 < unit }
    requires few { unit ≤ MOST_UNIT }
    requires whole { unit ≤ length bytes.now }
    ensures some { 1 ≤ result }
    ensures within { result * unit ≤ length bytes.now }
    ensures same { SameSamples unit mask bytes.now result }
{
    let near = bytes.len().min(NEAR);
    let count = alike_within(bytes, unit, mask, 1, near);
    // Most runs end here.
    if near - count * unit >= WORD_BYTES {
        return count;
    }
    alike_far(bytes, unit, mask, count)
}

// Goes on behind `known` units that give the same sample, by blocks and up to the last byte.
#[inline(never)]
fn alike_far(bytes: &[u8], unit: usize, mask: Word, known: usize) -> usize
    requires some { 1 ≤ known }
    requires bytes { 0 < unit }
    requires few { unit ≤ MOST_UNIT }
    requires within { known * unit ≤ length bytes.now }
    requires same { SameSamples unit mask bytes.now known }
    ensures some { 1 ≤ result }
    ensures within { result * unit ≤ length bytes.now }
    ensures same { SameSamples unit mask bytes.now result }
{
    let equal = equal_units(bytes, unit, mask);
    if equal <= known {
        return alike_on(bytes, unit, mask, known);
    }
    alike_on(bytes, unit, mask, equal)
}

// The same without blocks.
fn alike_on(bytes: &[u8], unit: usize, mask: Word, known: usize) -> usize
    requires some { 1 ≤ known }
    requires bytes { 0 < unit }
    requires few { unit ≤ MOST_UNIT }
    requires within { known * unit ≤ length bytes.now }
    requires same { SameSamples unit mask bytes.now known }
    ensures some { 1 ≤ result }
    ensures within { result * unit ≤ length bytes.now }
    ensures same { SameSamples unit mask bytes.now result }
{
    let count = alike_within(bytes, unit, mask, known, bytes.len());
    if bytes.len() - count * unit >= WORD_BYTES {
        return count;
    }
    more_units(bytes, unit, mask, count)
}

// Goes on behind `known` units that give the same sample, and not past `end`. It stops at a unit
// that gives another one, or where too little is left to read a unit at once.
#[inline(always)]
fn alike_within(bytes: &[u8], unit: usize, mask: Word, known: usize, end: usize) -> usize
    requires some { 1 ≤ known }
    requires bytes { 0 < unit }
    requires few { unit ≤ MOST_UNIT }
    requires within { known * unit ≤ end }
    requires end { end ≤ length bytes.now }
    requires same { SameSamples unit mask bytes.now known }
    ensures some { 1 ≤ result }
    ensures within { result * unit ≤ end }
    ensures same { SameSamples unit mask bytes.now result }
{
    if unit <= WORD {
        return narrow_units(bytes, unit, mask, known, end);
    }
    broad_units(bytes, unit, mask, known, end)
}

// The same for units of up to as many bytes as a `u64` has.
#[inline(always)]
fn narrow_units(bytes: &[u8], unit: usize, mask: Word, known: usize, end: usize) -> usize
    requires some { 1 ≤ known }
    requires bytes { 0 < unit }
    requires few { unit ≤ WORD }
    requires within { known * unit ≤ end }
    requires end { end ≤ length bytes.now }
    requires same { SameSamples unit mask bytes.now known }
    ensures some { 1 ≤ result }
    ensures within { result * unit ≤ end }
    ensures same { SameSamples unit mask bytes.now result }
{
    if end < WORD {
        return known;
    }
    let low = low_half(mask);
    let first = word_at(bytes, 0);
    let mut count = known;
    let mut at = known * unit;
    while end - at >= WORD {
        if (word_at(bytes, at) ^ first) & low != 0 {
            return count;
        }
        at += unit;
        count += 1;
    }
    count
}

// The same for longer units.
#[inline(always)]
fn broad_units(bytes: &[u8], unit: usize, mask: Word, known: usize, end: usize) -> usize
    requires some { 1 ≤ known }
    requires bytes { 0 < unit }
    requires few { unit ≤ MOST_UNIT }
    requires within { known * unit ≤ end }
    requires end { end ≤ length bytes.now }
    requires same { SameSamples unit mask bytes.now known }
    ensures some { 1 ≤ result }
    ensures within { result * unit ≤ end }
    ensures same { SameSamples unit mask bytes.now result }
{
    if end < WORD_BYTES {
        return known;
    }
    let first = broad_at(bytes, 0);
    let mut count = known;
    let mut at = known * unit;
    while end - at >= WORD_BYTES {
        if (broad_at(bytes, at) ^ first) & mask != 0 {
            return count;
        }
        at += unit;
        count += 1;
    }
    count
}

// Goes on behind `known` units that give the same sample, byte by byte.
pub fn more_units(bytes: &[u8], unit: usize, mask: Word, known: usize) -> usize
    requires some { 1 ≤ known }
    requires bytes { 0 < unit }
    requires few { unit ≤ MOST_UNIT }
    requires within { known * unit ≤ length bytes.now }
    requires same { SameSamples unit mask bytes.now known }
    ensures some { 1 ≤ result }
    ensures within { result * unit ≤ length bytes.now }
    ensures same { SameSamples unit mask bytes.now result }
{
    let first = number(&bytes[..unit]);
    let mut count = known;
    let mut at = known * unit;
    while bytes.len() - at >= unit {
        if (number(&bytes[at..at + unit]) ^ first) & mask != 0 {
            return count;
        }
        at += unit;
        count += 1;
    }
    count
}

// How many units at the front are equal, as far as whole blocks tell.
fn equal_units(bytes: &[u8], unit: usize, mask: Word) -> usize
    requires some { 0 < unit }
    requires whole { unit ≤ length bytes.now }
    ensures some { 1 ≤ result }
    ensures within { result * unit ≤ length bytes.now }
    ensures same { SameSamples unit mask bytes.now result }
{
    1 + equal_front(bytes, &bytes[unit..]) / unit
}

// How many bytes `a` and `b` have in common at their fronts, by whole blocks.
fn equal_front(a: &[u8], b: &[u8]) -> usize
    requires { length b.now ≤ length a.now }
    ensures within { result ≤ length b.now }
    ensures same { take result a.now ≡ take result b.now }
{
    let mut done = 0;
    while b.len() - done >= BLOCK {
        if a[done..done + BLOCK] != b[done..done + BLOCK] {
            return done;
        }
        done += BLOCK;
    }
    done
}
