// Neighbouring units that give the same sample: they agree on the bits of a mask.
ghost use Rattle.std.specs.Prelude.{◌≡◌, ◌<◌, ◌≤◌, ◌+◌, ◌*◌, drop, length, replicate, take};
ghost use Rattle.std.specs.Prelude.{slice_index, true};
ghost use Rattle.std.specs.Int.Bits.{bit_and, bit_xor};
ghost use Rattle.capture_raw.specs.Masks.{Agree, AllAgree, SameSamples};
ghost use Rattle.capture_raw.specs.Raw.{number};

use crate::pairs::alike_pairs;
use crate::units::{MOST_UNIT, WORD, word_at};
use crate::wide::alike_wide;
use la_base::Word;

// How many bytes are compared at once under a mask.
const SHORT_BLOCK: usize = 32;

// How many bytes are looked at by words before that: the first one, and nine words.
const NEAR: usize = 73;

/// How many units at the front give the same sample, for pins whose bits `mask` has.
#[inline(always)]
pub fn alike_units(bytes: &[u8], unit: usize, mask: Word) -> usize
    requires some { 0 < unit }
    requires few { unit ≤ MOST_UNIT }
    requires whole { unit ≤ length bytes.now }
    ensures some { 1 ≤ result }
    ensures within { result * unit ≤ length bytes.now }
    ensures same { SameSamples unit mask bytes.now result }
{
    if unit == 1 {
        return alike_bytes(bytes, (mask & 0xff) as u8);
    }
    if unit == 2 {
        return alike_pairs(bytes, mask);
    }
    alike_wide(bytes, unit, mask)
}

// How many units of one byte give the same sample. Most runs are the shortest that there are, and
// are seen at once.
#[inline(always)]
fn alike_bytes(bytes: &[u8], mask: u8) -> usize
    requires { 1 ≤ length bytes.now }
    ensures some { 1 ≤ result }
    ensures within { result ≤ length bytes.now }
    ensures alike { AllAgree mask (slice_index bytes.now 0) bytes.now result }
{
    let first = bytes[0];
    if bytes.len() > 2 {
        if (bytes[1] ^ first) & mask != 0 {
            return 1;
        }
        if (bytes[2] ^ first) & mask != 0 {
            return 2;
        }
        return alike_short(bytes, first, mask);
    }
    alike_near(bytes, mask)
}

// How many bytes are known to agree before words are looked at.
const KNOWN: usize = 3;

// The same, where the first bytes are known to agree. Two words are looked at before a call, since
// most runs that are longer end in them.
#[inline(always)]
fn alike_short(bytes: &[u8], first: u8, mask: u8) -> usize
    requires first { first ≡ slice_index bytes.now 0 }
    requires within { KNOWN ≤ length bytes.now }
    requires agree { AllAgree mask first bytes.now KNOWN }
    ensures some { 1 ≤ result }
    ensures within { result ≤ length bytes.now }
    ensures alike { AllAgree mask first bytes.now result }
{
    if bytes.len() < KNOWN + 2 * WORD {
        return alike_near(bytes, mask);
    }
    let firsts = eight_of(first);
    let masks = eight_of(mask);
    let different = differing_at(bytes, KNOWN, firsts, masks);
    if different != 0 {
        return KNOWN + (different.trailing_zeros() / 8) as usize;
    }
    let behind = differing_at(bytes, KNOWN + WORD, firsts, masks);
    if behind != 0 {
        return KNOWN + WORD + (behind.trailing_zeros() / 8) as usize;
    }
    alike_near(bytes, mask)
}

// The same, by words at first. It isn't inlined, so that its loop has the registers that it needs.
#[inline(never)]
fn alike_near(bytes: &[u8], mask: u8) -> usize
    requires { 1 ≤ length bytes.now }
    ensures some { 1 ≤ result }
    ensures within { result ≤ length bytes.now }
    ensures alike { AllAgree mask (slice_index bytes.now 0) bytes.now result }
{
    let first = bytes[0];
    let near = bytes.len().min(NEAR);
    let count = agreeing_words(bytes, first, mask, 1, near);
    let count = agreeing_bytes(bytes, first, mask, count, near);
    if count < near {
        return count;
    }
    agreeing_far(bytes, first, mask, count)
}

// Goes on behind `known` bytes that agree with `first`, by blocks. It isn't inlined, since most
// runs are short.
#[inline(never)]
fn agreeing_far(bytes: &[u8], first: u8, mask: u8, known: usize) -> usize
    requires within { known ≤ length bytes.now }
    requires agree { AllAgree mask first bytes.now known }
    ensures more { known ≤ result }
    ensures within { result ≤ length bytes.now }
    ensures agree { AllAgree mask first bytes.now result }
{
    let blocks = agreeing_blocks(bytes, first, mask, known);
    let words = agreeing_words(bytes, first, mask, blocks, bytes.len());
    agreeing_bytes(bytes, first, mask, words, bytes.len())
}

// Goes on behind `known` bytes that agree with `first`, by whole blocks.
fn agreeing_blocks(bytes: &[u8], first: u8, mask: u8, known: usize) -> usize
    requires within { known ≤ length bytes.now }
    requires agree { AllAgree mask first bytes.now known }
    ensures more { known ≤ result }
    ensures within { result ≤ length bytes.now }
    ensures agree { AllAgree mask first bytes.now result }
{
    let mut done = known;
    while bytes.len() - done >= SHORT_BLOCK {
        if !block_agrees(&bytes[done..done + SHORT_BLOCK], first, mask) {
            return done;
        }
        done += SHORT_BLOCK;
    }
    done
}

// Whether all bytes agree with `first`. It stops nowhere, so that many are compared at once.
fn block_agrees(bytes: &[u8], first: u8, mask: u8) -> bool
    ensures { result ≡ true → AllAgree mask first bytes.now (length bytes.now) }
{
    let mut different: u8 = 0;
    let mut place = 0;
    while place < bytes.len() {
        different |= bytes[place] ^ first;
        place += 1;
    }
    different & mask == 0
}

// The number of eight equal bytes.
#[inline(always)]
fn eight_of(byte: u8) -> u64
    ensures { result ≡ number (replicate 8 byte) }
{
    u64::from_le_bytes([byte; 8])
}

// The bits in which eight bytes behind the first `done` differ from eight equal ones, of those of
// the masks.
#[inline(always)]
fn differing_at(bytes: &[u8], done: usize, firsts: u64, masks: u64) -> u64
    requires { done + 8 ≤ length bytes.now }
    ensures { result ≡ bit_and (bit_xor (number (take 8 (drop done bytes.now))) firsts) masks }
{
    (word_at(bytes, done) ^ firsts) & masks
}

// Goes on behind `known` bytes that agree with `first`, by words of eight, two at a time, and not
// past `end`. It stops at the first byte that doesn't agree, or where less than a word is left.
#[inline(always)]
fn agreeing_words(bytes: &[u8], first: u8, mask: u8, known: usize, end: usize) -> usize
    requires order { known ≤ end }
    requires within { end ≤ length bytes.now }
    requires agree { AllAgree mask first bytes.now known }
    ensures more { known ≤ result }
    ensures within { result ≤ end }
    ensures agree { AllAgree mask first bytes.now result }
{
    let firsts = eight_of(first);
    let masks = eight_of(mask);
    let mut done = known;
    while end - done >= 2 * WORD {
        let different = differing_at(bytes, done, firsts, masks);
        if different != 0 {
            return done + (different.trailing_zeros() / 8) as usize;
        }
        let behind = differing_at(bytes, done + WORD, firsts, masks);
        if behind != 0 {
            return done + WORD + (behind.trailing_zeros() / 8) as usize;
        }
        done += 2 * WORD;
    }
    if end - done < WORD {
        return done;
    }
    let last = differing_at(bytes, done, firsts, masks);
    if last != 0 {
        return done + (last.trailing_zeros() / 8) as usize;
    }
    done + WORD
}

// Goes on behind `known` bytes that agree with `first`, byte by byte, and not past `end`.
fn agreeing_bytes(bytes: &[u8], first: u8, mask: u8, known: usize, end: usize) -> usize
    requires order { known ≤ end }
    requires within { end ≤ length bytes.now }
    requires agree { AllAgree mask first bytes.now known }
    ensures more { known ≤ result }
    ensures within { result ≤ end }
    ensures agree { AllAgree mask first bytes.now result }
{
    let mut done = known;
    while done < end && (bytes[done] ^ first) & mask == 0 {
        done += 1;
    }
    done
}
