// Reading the options of an instance.
ghost use Rattle.std.specs.Prelude.{◌≡◌, ◌==◌, ◌+◌, ◌<◌, ◌≤◌, ◌^◌, ◌||◌, not, length, map};
ghost use Rattle.std.specs.Prelude.{option_map, is_some};
ghost use Rattle.std.specs.List.{find, list_all, list_any, enumerate_from};
ghost use Rattle.std.specs.Str.{bytes_eq};
ghost use Rattle.text_parts.specs.Numbers.{number_in};
ghost use Rattle.text_parts.specs.Reading.{Gives};
ghost use Rattle.kind_table.specs.Kinds.{Choice, form_of, opt_row};
ghost use Rattle.stack_words.specs.Instances.{given_at};
ghost use Rattle.stack_words.specs.Options.{is_missing, needs, numeric, option_list, option_at};
ghost use Rattle.stack_words.specs.Options.{option_named, option_of, options_at, options_behind};
ghost use Rattle.stack_words.specs.Options.{read_channel, row_at, value_of};
ghost use Rattle.stack_words.specs.Meaning.{stack_fault_in, given_of, meaning_of, why_in};

use crate::errors::{fault, refusal};
use crate::instance::{GivenOption, GivenValue, Refused};
use crate::{StackError, StackWhy};
use kind_table::{OptForm, OptRow, word_place};
use std::alloc::Global;
use text_parts::{NumberWhy, number_in, place_behind};

// The reference of a channel.
fn read_channel(alloc: Global, text: &str) -> Result<GivenValue, Refused>
    ensures { Gives meaning_of why_in (read_channel text.now) result }
{
    if text.is_empty() {
        return Err(Refused::Why(StackWhy::Value));
    }
    match String::from_str(alloc, text) {
        Ok(reference) => Ok(GivenValue::Channel(reference)),
        Err(_) => Err(Refused::NoMemory),
    }
}

// A number in a range.
fn read_number(text: &str, least: u64, most: u64) -> Result<GivenValue, Refused>
    ensures { Gives meaning_of why_in (numeric (number_in least most text.now)) result }
{
    match number_in(text, least, most) {
        Ok(number) => Ok(GivenValue::Number(number)),
        Err(NumberWhy::Value) => Err(Refused::Why(StackWhy::Value)),
        Err(NumberWhy::Range) => Err(Refused::Why(StackWhy::Range)),
    }
}

// One of some words, by its place.
fn read_word(words: &[&str], text: &str) -> Result<GivenValue, Refused>
    ensures { Gives meaning_of
        why_in (value_of (Choice (map (λ word. word.now) words.now)) text.now) result }
{
    match word_place(words, text.as_bytes()) {
        Some(place) => Ok(GivenValue::Number(place as u64)),
        None => Err(Refused::Why(StackWhy::Value)),
    }
}

// The value that a text gives an option.
fn read_value(alloc: Global, form: OptForm, text: &str) -> Result<GivenValue, Refused>
    ensures { Gives meaning_of why_in (value_of (form_of form) text.now) result }
{
    match form {
        OptForm::Pin { .. } => read_channel(alloc, text),
        OptForm::Number { least, most, .. } => read_number(text, least, most),
        OptForm::Choice { words } => read_word(words, text),
    }
}

// What a row is given.
fn given_for(options: &[GivenOption], row: usize) -> Option<&GivenOption>
    ensures { option_map (λ given. given.now) result
        ≡ find (λ given. given.row == row) options.entry.now }
{
    options.iter().find(|given| given.row == row)
}

/// The value that a row is given.
pub fn value_at(options: &[GivenOption], row: usize) -> Option<&GivenValue>
    ensures { option_map (λ value. meaning_of value.now) result
        ≡ given_at (map given_of options.entry.now) row }
{
    match given_for(options, row) {
        Some(given) => Some(&given.value),
        None => None,
    }
}

// Whether a row is given anything.
fn is_given(options: &[GivenOption], row: usize) -> bool
    ensures { result ≡ is_some (given_at (map given_of options.now) row) }
{
    given_for(options, row).is_some()
}

// The option of a name, with its row.
fn option_named<'a>(rows: &'a [OptRow], name: &str) -> Option<(usize, &'a OptRow)>
    ensures { option_map (λ p. (p.0, opt_row p.1.now)) result
        ≡ option_named (map opt_row rows.entry.now) name.now }
{
    for (row, option) in rows.iter().enumerate() {
        if option.name.as_bytes() == name.as_bytes() {
            return Some((row, option));
        }
    }
    None
}

// A value for a row that wasn't given one before.
fn read_row(
    alloc: Global,
    before: &[GivenOption],
    row: usize,
    form: OptForm,
    text: &str,
) -> Result<GivenOption, Refused>
    ensures { Gives given_of why_in (row_at (map given_of before.now) row (form_of form) text.now)
        result }
{
    if is_given(before, row) {
        return Err(Refused::Why(StackWhy::Repeat));
    }
    match read_value(alloc, form, text) {
        Ok(value) => Ok(GivenOption { row, value }),
        Err(refused) => Err(refused),
    }
}

// The value of an option that has an `=`.
fn read_named(
    alloc: Global,
    rows: &[OptRow],
    before: &[GivenOption],
    text: &str,
) -> Result<GivenOption, Refused>
    ensures { Gives given_of
        why_in (option_of (map opt_row rows.now) (map given_of before.now) text.now) result }
{
    let Some((name, value)) = text.split_once('=') else {
        return Err(Refused::Why(StackWhy::Value));
    };
    match option_named(rows, name) {
        Some((row, option)) => read_row(alloc, before, row, option.form, value),
        None => Err(Refused::Why(StackWhy::Unknown)),
    }
}

// One option, behind those before it.
fn read_option(
    alloc: Global,
    rows: &[OptRow],
    before: &[GivenOption],
    word: u32,
    at: u32,
    text: &str,
) -> Result<GivenOption, StackError>
    ensures { Gives given_of
        stack_fault_in (option_at (map opt_row rows.now) word (map given_of before.now) (at, text.now))
        result }
{
    match read_named(alloc, rows, before, text) {
        Ok(given) => Ok(given),
        Err(refused) => Err(refusal(word, at, refused)),
    }
}

// Options between colons, from a place of a word on.
fn read_list(
    alloc: Global,
    rows: &[OptRow],
    word: u32,
    at: u32,
    text: &str,
) -> Result<Vec<GivenOption>, StackError>
    requires { at + length text.now + 1 < 2 ^ 32 }
    ensures { Gives (λ v. map given_of v.items)
        stack_fault_in (option_list (map opt_row rows.now) word at text.now) result }
{
    let mut options = Vec::new(alloc);
    let mut at = at;
    for option in text.split(':') {
        match read_option(alloc, rows, &options, word, at, option) {
            Ok(given) => {
                if options.push(given).is_err() {
                    return Err(StackError::NoMemory);
                }
            }
            Err(error) => return Err(error),
        }
        at = place_behind(at, option);
    }
    Ok(options)
}

// The options behind the first colon of an instance, if it has one.
fn read_behind(
    alloc: Global,
    rows: &[OptRow],
    word: u32,
    at: u32,
    text: &str,
) -> Result<Vec<GivenOption>, StackError>
    requires { at + length text.now + 1 < 2 ^ 32 }
    ensures { Gives (λ v. map given_of v.items)
        stack_fault_in (options_behind (map opt_row rows.now) word at text.now) result }
{
    match text.split_once(':') {
        Some((kind, options)) => read_list(alloc, rows, word, place_behind(at, kind), options),
        None => Ok(Vec::new(alloc)),
    }
}

// Whether a channel has to be given.
fn needs(form: OptForm) -> bool
    ensures { result ≡ needs (form_of form) }
{
    match form {
        OptForm::Pin { required } => required,
        OptForm::Number { .. } => false,
        OptForm::Choice { .. } => false,
    }
}

// Whether all rows have what they need.
fn have_all(rows: &[OptRow], given: &[GivenOption]) -> bool
    ensures { result ≡ list_all
        (λ p. not (needs (form_of p.1.form)) || is_some (given_at (map given_of given.now) p.0))
        (enumerate_from 0 rows.now) }
{
    rows.iter().enumerate().all(|(row, option)| !needs(option.form) || is_given(given, row))
}

// Whether one of a group is given.
fn has_one(group: &[usize], given: &[GivenOption]) -> bool
    ensures { result ≡ list_any (λ row. is_some (given_at (map given_of given.now) row)) group.now }
{
    group.iter().any(|row| is_given(given, *row))
}

// Whether one of each group is given.
fn has_groups(groups: &[&[usize]], given: &[GivenOption]) -> bool
    ensures { result ≡ list_all
        (λ group. list_any (λ row. is_some (given_at (map given_of given.now) row)) group.now)
        groups.now }
{
    groups.iter().all(|group| has_one(group, given))
}

// Whether a channel that is required isn't given, or none of a group.
fn is_missing(rows: &[OptRow], groups: &[&[usize]], given: &[GivenOption]) -> bool
    ensures { result ≡ is_missing (map opt_row rows.now) (map (λ group. group.now) groups.now)
        (map given_of given.now) }
{
    if !have_all(rows, given) {
        return true;
    }
    !has_groups(groups, given)
}

/// The options of an instance that begins at a place of a word, or their first fault. Of each group
/// of rows at least one has to be given.
pub fn read_options(
    alloc: Global,
    rows: &[OptRow],
    groups: &[&[usize]],
    word: u32,
    at: u32,
    text: &str,
) -> Result<Vec<GivenOption>, StackError>
    requires { at + length text.now + 1 < 2 ^ 32 }
    ensures { Gives (λ v. map given_of v.items)
        stack_fault_in (options_at (map opt_row rows.now) (map (λ group. group.now) groups.now) word
        (at, text.now)) result }
{
    match read_behind(alloc, rows, word, at, text) {
        Ok(options) => {
            if is_missing(rows, groups, &options) {
                return Err(fault(word, at, StackWhy::Missing));
            }
            Ok(options)
        }
        Err(error) => Err(error),
    }
}
