// The values of options: whether they keep to the rules, and what they mean.
ghost use Rattle.std.specs.Prelude.{◌≡◌, ◌≤◌, map, None, Some, IfOk, option_map};
ghost use Rattle.std.specs.List.{list_any};
ghost use Rattle.std.specs.Str.{bytes_eq};
ghost use Rattle.text_parts.specs.Reading.{Gives};
ghost use Rattle.la_base.specs.Naming.{number_after};
ghost use Rattle.words.specs.Options.{IsNumber, IsWithin, Ratio, row};
ghost use Rattle.words.specs.Rates.{den_in, most_den, most_num, numbers_of, rate_in, rate_written};
ghost use Rattle.words.specs.Rows.{value_kind_of};
ghost use Rattle.words.specs.Settings.{csv_named, format_named, is_yes, job_named};
ghost use Rattle.words.specs.Uses.{why_value};

use crate::lexer::cut_at_slash;
use crate::options::{Name, Takes};
use crate::{Format, Job, WordWhy};
use la_base::{CsvMode, Rate};
use text_parts::{NumberWhy, number_in};

/// The most that stands before the `/` of a rate.
pub const MOST_RATE_NUM: u64 = 1_000_000_000_000_000;

/// The most that stands behind it.
pub const MOST_RATE_DEN: u64 = 1_000_000_000;

// Whether a value is one of the choices.
fn is_choice(choices: &[&str], value: &str) -> bool
    ensures { result
        ≡ list_any (λ choice. bytes_eq choice value.now) (map (λ choice. choice.now) choices.now) }
{
    choices.iter().any(|choice| *choice == value)
}

// What stands behind the `/` of a rate, where there is one.
fn den_in(text: Option<&str>) -> Result<u64, NumberWhy>
    ensures gives { result ≡ den_in (option_map (λ s. s.now) text.entry) }
    ensures within { IfOk result (λ den. (1 ≤ den) × (den ≤ most_den)) }
{
    match text {
        Some(text) => number_in(text, 1, MOST_RATE_DEN),
        None => Ok(1),
    }
}

// The rate that a text writes.
fn rate_in(text: &str) -> Result<Rate, NumberWhy>
    ensures gives { Gives numbers_of (λ why. Some why) (rate_in text.now) result }
    ensures within { IfOk result (λ rate. (rate.num ≤ most_num) × (rate.den ≤ most_den)) }
{
    let (above, below) = cut_at_slash(text);
    let num = match number_in(above, 1, MOST_RATE_NUM) {
        Ok(num) => num,
        Err(why) => return Err(why),
    };
    match den_in(below) {
        Ok(den) => Ok(Rate { num, den }),
        Err(why) => Err(why),
    }
}

/// What is wrong with the value of an option.
pub fn why_value(takes: Takes, value: &str) -> Option<WordWhy>
    ensures { result ≡ why_value (value_kind_of takes) value.now }
{
    match takes {
        Takes::OneOf(choices) => {
            if is_choice(choices, value) {
                None
            } else {
                Some(WordWhy::Value)
            }
        }
        Takes::Number { least, most } => match number_in(value, least, most) {
            Ok(_) => None,
            Err(NumberWhy::Value) => Some(WordWhy::Value),
            Err(NumberWhy::Range) => Some(WordWhy::Range),
        },
        Takes::Rate => match rate_in(value) {
            Ok(_) => None,
            Err(NumberWhy::Value) => Some(WordWhy::Value),
            Err(NumberWhy::Range) => Some(WordWhy::Range),
        },
        Takes::Text => None,
    }
}

/// The number that a good value of an option writes.
pub fn number(name: Name, text: &str) -> u64
    requires number { IsNumber (row name).takes }
    requires good { why_value (row name).takes text.now ≡ None }
    ensures number { result ≡ number_after 0 text.now }
    ensures within { IsWithin (row name).takes result }
{
    match name.row().takes {
        Takes::Number { least, most } => match number_in(text, least, most) {
            Ok(number) => number,
            Err(_) => unreachable!(),
        },
        Takes::OneOf(_) | Takes::Rate | Takes::Text => unreachable!(),
    }
}

/// The rate that a good value writes.
pub fn rate(text: &str) -> Rate
    requires { why_value Ratio text.now ≡ None }
    ensures numbers { numbers_of result ≡ rate_written text.now }
    ensures within { (result.num ≤ MOST_RATE_NUM) × (result.den ≤ MOST_RATE_DEN) }
{
    match rate_in(text) {
        Ok(rate) => rate,
        Err(_) => unreachable!(),
    }
}

/// The job that a good value names.
pub fn job_named(text: &str) -> Job
    ensures { result ≡ job_named text.now }
{
    match text {
        "find" => Job::Find,
        "make" => Job::Make,
        "part" => Job::Part,
        _ => Job::Decode,
    }
}

/// The form of capture that a good value names.
pub fn format_named(text: &str) -> Format
    ensures { result ≡ format_named text.now }
{
    match text {
        "vcd" => Format::Vcd,
        "csv" => Format::Csv,
        _ => Format::Raw,
    }
}

/// What the records of a CSV capture are that a good value names.
pub fn csv_named(text: &str) -> CsvMode
    ensures { result ≡ csv_named text.now }
{
    match text {
        "times" => CsvMode::Times,
        _ => CsvMode::Rows,
    }
}

/// Whether a good value is `yes`.
pub fn is_yes(text: &str) -> bool
    ensures { result ≡ is_yes text.now }
{
    text == "yes"
}
