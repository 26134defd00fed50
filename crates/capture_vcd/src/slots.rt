// The channels that are selected, and their levels.
ghost use Rattle.std.specs.Prelude.{◌≡◌, ◌+◌, ◌*◌, ◌^◌, ◌≤◌, ◌<◌, length, map};
ghost use Rattle.std.specs.Int.{bit_at};
ghost use Rattle.la_base.specs.Naming.{same_name};
ghost use Rattle.capture_vcd.specs.Following.{is_one, level_bit, word_bits};
ghost use Rattle.capture_vcd.specs.Linked.{Linked};
ghost use Rattle.capture_vcd.specs.Slots.{assigned, changed, channel_of, code_at, level_of, valued};
ghost use Rattle.capture_vcd.specs.Slots.{with_level};

use crate::chains::Chains;
use la_base::{MOST_PINS, Word};

/// A channel that is selected: the number of its variable, its bit there, its level, and what the
/// value that was read last would make of it.
#[derive(Clone, Copy, Default)]
pub struct Slot {
    pub variable: usize,
    pub bit: usize,
    pub level: bool,
    pub value: bool,
}

// Whether a bit of a value is 1. The digits of a value begin with the highest.
fn is_one(bit: usize, digits: &[u8]) -> bool
    ensures { result ≡ is_one bit digits.now }
{
    bit < digits.len() && digits[digits.len() - 1 - bit] == b'1'
}

// Whether two codes are the same. Most have one byte.
#[inline(always)]
fn same_code(own: &[u8], code: &[u8]) -> bool
    ensures { result ≡ same_name own.now code.now }
{
    if own.len() == 1 && code.len() == 1 {
        return own[0] == code[0];
    }
    own == code
}

// Whether the code of a variable is this one.
#[inline(always)]
fn has_code(codes: &[Vec<u8>], variable: usize, code: &[u8]) -> bool
    ensures { result ≡ same_name (code_at codes.now variable) code.now }
{
    match codes.get(variable) {
        Some(own) => same_code(own.as_slice(), code),
        None => code.is_empty(),
    }
}

/// Notes what a value makes of each channel.
pub fn set_values(slots: &mut [Slot], digits: &[u8])
    ensures { slots.new ≡ map (valued digits.now) slots.old }
{
    for slot in slots.iter_mut() {
        slot.value = is_one(slot.bit, digits);
    }
}

// A word behind a change of one bit.
#[inline(always)]
fn with_bit(word: Word, place: usize, was: bool, now: bool) -> Word
    requires within { place < MOST_PINS }
    requires is { bit_at word place ≡ level_bit was }
    ensures { result + level_bit was * 2 ^ place ≡ word + level_bit now * 2 ^ place }
{
    word ^ ((level_bit(was) ^ level_bit(now)) << place)
}

// A channel has this level from now on, and so its bit of the word.
#[inline(always)]
fn set_level(slots: &mut [Slot], word: &mut Word, place: usize, level: bool)
    requires within { place < length slots.old }
    requires few { length slots.old ≤ MOST_PINS }
    requires is { word.old ≡ word_bits (map level_of slots.old) }
    ensures slots { slots.new ≡ with_level slots.old place level }
    ensures is { word.new ≡ word_bits (map level_of slots.new) }
{
    *word = with_bit(*word, place, slots[place].level, level);
    slots[place].level = level;
}

// The level of a channel behind a change of a code.
fn level_behind(codes: &[Vec<u8>], slot: Slot, code: &[u8]) -> bool
    ensures { result ≡ level_of (assigned codes.now code.now slot) }
{
    if has_code(codes, slot.variable, code) {
        slot.value
    } else {
        slot.level
    }
}

/// Gives the channels of a code the value that was noted, and keeps the word of the levels.
pub fn assign(codes: &[Vec<u8>], chains: &Chains, slots: &mut [Slot], word: &mut Word, code: &[u8])
    requires few { length slots.old ≤ MOST_PINS }
    requires linked { Linked chains.now (map (channel_of codes.now) slots.old) }
    requires is { word.old ≡ word_bits (map level_of slots.old) }
    ensures slots { slots.new ≡ map (assigned codes.now code.now) slots.old }
    ensures is { word.new ≡ word_bits (map level_of slots.new) }
{
    let mut place = chains.first(code);
    while place < slots.len() {
        let level = level_behind(codes, slots[place], code);
        set_level(slots, word, place, level);
        place = chains.behind(place);
    }
}

// The level of a channel behind a change of a code to a value of one digit.
#[inline(always)]
fn level_changed(codes: &[Vec<u8>], slot: Slot, first: u8, code: &[u8]) -> bool
    ensures { result ≡ level_of (changed codes.now first code.now slot) }
{
    if has_code(codes, slot.variable, code) {
        is_one(slot.bit, &[first])
    } else {
        slot.level
    }
}

/// Gives the channels of a code a value of one digit, and keeps the word of the levels.
#[inline(always)]
pub fn change(
    codes: &[Vec<u8>],
    chains: &Chains,
    slots: &mut [Slot],
    word: &mut Word,
    first: u8,
    code: &[u8],
)
    requires few { length slots.old ≤ MOST_PINS }
    requires linked { Linked chains.now (map (channel_of codes.now) slots.old) }
    requires is { word.old ≡ word_bits (map level_of slots.old) }
    ensures slots { slots.new ≡ map (changed codes.now first code.now) slots.old }
    ensures is { word.new ≡ word_bits (map level_of slots.new) }
{
    let mut place = chains.first(code);
    while place < slots.len() {
        let level = level_changed(codes, slots[place], first, code);
        set_level(slots, word, place, level);
        place = chains.behind(place);
    }
}

// A level as a number.
fn level_bit(level: bool) -> Word
    ensures bit { result ≡ level_bit level }
    ensures small { result ≤ 1 }
{
    if level { 1 } else { 0 }
}

/// The word of the levels.
pub fn word_of(slots: &[Slot]) -> Word
    requires { length slots.now ≤ MOST_PINS }
    ensures { result ≡ word_bits (map level_of slots.now) }
{
    let mut word = 0;
    let mut left = slots.len();
    while left > 0 {
        left -= 1;
        word = 2 * word + level_bit(slots[left].level);
    }
    word
}
