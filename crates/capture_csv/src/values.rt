// The values of a record.
ghost use Rattle.std.specs.Prelude.{◌≡◌, ◌+◌, ◌<◌, ◌≤◌, ◌^◌, List, ℕ, [], length, drop, map};
ghost use Rattle.std.specs.Prelude.{get_or};
ghost use Rattle.csv.specs.Records.{fields_of};
ghost use Rattle.capture_csv.specs.Records.{trimmed};
ghost use Rattle.capture_csv.specs.Csv.{word_of};
ghost use Rattle.capture_csv.specs.Simple.{HasFields, IsSimpleLine};
ghost use Rattle.capture_csv.specs.Values.{LevelIs, LevelsRead, level_bit};

use crate::digits::{are_digits, are_quoted, put_digits, put_quoted};
use crate::simple::{first_len, text_in};
use crate::spaces::trimmed;
use csv::ByteRecord;
use la_base::{MOST_PINS, Word};

// The level of a field: 0 is low and 1 high, with spaces and tabs round them.
#[inline(always)]
fn level_in(field: &[u8]) -> Option<bool>
    ensures { LevelIs (trimmed field.now) result }
{
    let text = trimmed(field);
    if text.len() != 1 {
        return None;
    }
    match text[0] {
        b'0' => Some(false),
        b'1' => Some(true),
        _ => None,
    }
}

/// The levels of the fields of a line, each plain or one quoted text, the first of which stands in
/// this column; or the column of the first that is none.
#[inline(always)]
pub fn simple_levels(text: &[u8], column: u32, levels: &mut [bool]) -> Option<u32>
    requires some { HasFields text.now (length levels.old) }
    requires few { column + length levels.old < 2 ^ 32 }
    ensures len { length levels.new ≡ length levels.old }
    ensures levels { (fields : List (List ℕ)) → IsSimpleLine text.now fields
        → length fields ≡ length levels.old
        → LevelsRead column (map trimmed fields) levels.new result }
{
    // Most lines are so, and are told by one look at each byte.
    if are_digits(text, levels.len()) {
        put_digits(text, levels);
        return None;
    }
    if are_quoted(text, levels.len()) {
        put_quoted(text, levels);
        return None;
    }
    let mut from = 0;
    for k in 0..levels.len() {
        let rest = &text[from..];
        let len = first_len(rest);
        match level_in(text_in(&rest[..len])) {
            Some(level) => levels[k] = level,
            None => return Some(column + k as u32),
        }
        from = (from + len + 1).min(text.len());
    }
    None
}

// The level of a field of a record that `csv` read.
fn csv_level(row: &ByteRecord, place: usize) -> Option<bool>
    requires { place < length (fields_of row.now) }
    ensures { LevelIs (trimmed (get_or (fields_of row.now) place [])) result }
{
    match row.get(place) {
        Some(field) => level_in(field),
        None => None,
    }
}

/// The same of the fields of a record that `csv` read, from one of them on.
pub fn csv_levels(row: &ByteRecord, first: usize, column: u32, levels: &mut [bool]) -> Option<u32>
    requires place { first ≤ 1 }
    requires count { length levels.old ≡ length (drop first (fields_of row.now)) }
    requires few { column + length levels.old < 2 ^ 32 }
    ensures len { length levels.new ≡ length levels.old }
    ensures levels { LevelsRead column
        (map trimmed (drop first (fields_of row.now))) levels.new result }
{
    for k in 0..levels.len() {
        match csv_level(row, first + k) {
            Some(level) => levels[k] = level,
            None => return Some(column + k as u32),
        }
    }
    None
}

// The level of a channel, as a number.
#[inline(always)]
fn level_bit(levels: &[bool], pin: u32) -> Word
    ensures bit { result ≡ level_bit levels.now pin }
    ensures small { result ≤ 1 }
{
    match levels.get(pin as usize) {
        Some(level) => Word::from(*level),
        None => 0,
    }
}

/// The word whose bit j is the level of channel `pins[j]`.
#[inline(always)]
pub fn word_of(pins: &[u32], levels: &[bool]) -> Word
    requires { length pins.now ≤ MOST_PINS }
    ensures { result ≡ word_of pins.now levels.now }
{
    let mut word = 0;
    let mut left = pins.len();
    while left > 0 {
        left -= 1;
        word = 2 * word + level_bit(levels, pins[left]);
    }
    word
}
