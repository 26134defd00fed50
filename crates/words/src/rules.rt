// The rules for each word.
ghost use Rattle.std.specs.Prelude.{◌≡◌, ◌<◌, ◌≤◌, ◌+◌, option_map, map, Some, OnOk};
ghost use Rattle.text_parts.specs.Reading.{Gives};
ghost use Rattle.words.specs.Given.{used_of};
ghost use Rattle.words.specs.Uses.{is_of, is_given, why_word, judged, value_at, use_at};

use crate::lexer::{begins_option, long_of};
use crate::options::name_of;
use crate::uses::Given;
use crate::values::why_value;
use crate::{Name, WordFault, WordWhy};

const MOST_WORDS: u32 = 256;

const MOST_BYTES: usize = 4096;

/// Whether a use is of this option.
pub fn is_of(name: Name, given: &Given) -> bool
    ensures { result ≡ is_of name (used_of given.now).name }
{
    match given.name {
        Some(other) => other.row().name == name.row().name,
        None => false,
    }
}

// Whether an option was given.
fn is_given(name: Name, before: &[Given]) -> bool
    ensures { result ≡ is_given name (map used_of before.now) }
{
    before.iter().any(|given| is_of(name, given))
}

// What is wrong with any word.
fn why_word(number: u32, word: &str) -> Option<WordWhy>
    ensures { result ≡ why_word number word.now }
{
    if number >= MOST_WORDS {
        Some(WordWhy::Many)
    } else if word.len() > MOST_BYTES {
        Some(WordWhy::Long)
    } else if word.is_empty() {
        Some(WordWhy::Empty)
    } else {
        None
    }
}

// A fault of a word, at its first byte.
fn fault(word: u32, why: WordWhy) -> WordFault
    ensures { result ≡ record { word = word; at = 0; why = why } }
{
    WordFault { word, at: 0, why }
}

// A value that keeps to the rules of its option.
fn judged(name: Name, number: u32, value: &str) -> Result<Given<'_>, WordFault>
    ensures { Gives used_of (λ f. Some f) (judged name number value.now) result }
{
    match why_value(name.row().takes, value) {
        Some(why) => Err(fault(number, why)),
        None => Ok(Given {
            name: Some(name),
            word: number,
            text: value,
        }),
    }
}

// The value of an option, in its word or the next.
fn value_at<'a>(
    name: Name,
    number: u32,
    value: Option<&'a str>,
    next: Option<&'a str>,
) -> Result<Given<'a>, WordFault>
    requires { number < 256 }
    ensures { Gives used_of (λ f. Some f)
        (value_at name number (option_map (λ s. s.now) value.entry)
        (option_map (λ s. s.now) next.entry)) result }
{
    if let Some(value) = value {
        if value.is_empty() {
            return Err(fault(number, WordWhy::Empty));
        }
        return judged(name, number, value);
    }
    let Some(next) = next else {
        return Err(fault(number, WordWhy::NoValue));
    };
    if let Some(why) = why_word(number + 1, next) {
        return Err(fault(number + 1, why));
    }
    judged(name, number + 1, next)
}

/// One word, with the next where that may be its value, behind the uses before it.
pub fn read_use<'a>(
    before: &[Given],
    number: u32,
    word: &'a str,
    next: Option<&'a str>,
) -> Result<Given<'a>, WordFault>
    requires { number ≤ 257 }
    ensures early { OnOk result (number < 256) }
    ensures reads { Gives used_of (λ f. Some f)
        (use_at (map used_of before.now)
        (record {
          number = number;
          word = word.entry.now;
          next = option_map (λ s. s.now) next.entry;
        })) result }
{
    if let Some(why) = why_word(number, word) {
        return Err(fault(number, why));
    }
    if !begins_option(word) {
        return Ok(Given {
            name: None,
            word: number,
            text: word,
        });
    }
    let Some((name, value)) = long_of(word) else {
        return Err(fault(number, WordWhy::Unknown));
    };
    let Some(name) = name_of(name) else {
        return Err(fault(number, WordWhy::Unknown));
    };
    if is_given(name, before) {
        return Err(fault(number, WordWhy::Repeat));
    }
    value_at(name, number, value, next)
}
