// Reading the words to their uses.
ghost use Rattle.std.specs.Prelude.{◌≡◌, ◌<◌, ◌≤◌, ◌+◌, option_map, map, length, Some, OnOk};
ghost use Rattle.std.specs.String.{string_bytes};
ghost use Rattle.text_parts.specs.Reading.{Gives};
ghost use Rattle.words.specs.Given.{used_of, word_fault_in};
ghost use Rattle.words.specs.Uses.{waits_for, takes_next, value_behind, uses_of};

use crate::WordsError;
use crate::lexer::{begins_option, long_of};
use crate::rules::read_use;
use crate::uses::Given;
use std::alloc::Global;

// Whether the value of a word is in the next.
fn takes_next(word: &str, next: &str) -> bool
    ensures { result ≡ takes_next word.now next.now }
{
    match long_of(word) {
        Some((_, None)) => !begins_option(next),
        _ => false,
    }
}

// The value of a first word where the next holds it, and the words behind.
fn value_behind<'a>(word: &str, behind: &'a [String]) -> (Option<&'a str>, &'a [String])
    ensures { (option_map (λ s. s.now) result.0, map string_bytes result.1.now)
        ≡ value_behind word.now (map string_bytes behind.entry.now) }
{
    if let Some((next, rest)) = behind.split_first() {
        if takes_next(word, next.as_str()) {
            return (Some(next.as_str()), rest);
        }
    }
    (None, behind)
}

/// The uses in the words, or the first fault of a word.
pub fn read_uses<'a>(alloc: Global, words: &'a [String]) -> Result<Vec<Given<'a>>, WordsError>
    ensures few { OnOk result (length words.entry.now ≤ 257) }
    ensures reads { Gives
        (λ v. map used_of v.items) word_fault_in (uses_of (map string_bytes words.entry.now)) result }
{
    let mut uses = Vec::new(alloc);
    let mut number: u32 = 0;
    let mut words = words;
    while let Some((word, behind)) = words.split_first() {
        let (next, rest) = value_behind(word.as_str(), behind);
        match read_use(&uses, number, word.as_str(), next) {
            Ok(used) => {
                number += if next.is_some() { 2 } else { 1 };
                if uses.push(used).is_err() {
                    return Err(WordsError::NoMemory);
                }
            }
            Err(fault) => return Err(WordsError::Fault(fault)),
        }
        words = rest;
    }
    Ok(uses)
}
