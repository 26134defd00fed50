// What instances stand on.
ghost use Rattle.std.specs.Prelude.{◌≡◌, ◌<◌, None, Some, map, option_map, slice_get, length};
ghost use Rattle.kind_table.specs.Kinds.{opt_row};
ghost use Rattle.stack_words.specs.Instances.{has_numbers, number_given, number_in_value, stands_on};
ghost use Rattle.stack_words.specs.Instances.{why_not};
ghost use Rattle.stack_words.specs.Meaning.{given_of, instance_of, meaning_of};

use crate::StackWhy;
use crate::instance::{GivenOption, GivenValue, Instance};
use crate::options::value_at;
use kind_table::{Asked, Kind, OptRow, asked_of, input_of, number_of, options_of, output_of};
use la_base::{Wire, same_wire};

// The most instances of a stack.
const MOST_INSTANCES: usize = 24;

// The number among what is given.
fn number_in(value: Option<&GivenValue>) -> Option<u64>
    ensures { result ≡ number_in_value (option_map (λ v. meaning_of v.now) value.entry) }
{
    match value {
        Some(GivenValue::Number(number)) => Some(*number),
        Some(GivenValue::Channel(_)) => None,
        None => None,
    }
}

// The number that the option of a row has.
fn number_given(rows: &[OptRow], options: &[GivenOption], row: usize) -> u64
    ensures { result ≡ number_given (map opt_row rows.now) (map given_of options.now) row }
{
    match rows.get(row) {
        Some(option) => number_of(option.form, number_in(value_at(options, row))),
        None => 0,
    }
}

/// Whether options have the numbers that are asked for.
pub fn has_numbers(rows: &[OptRow], options: &[GivenOption], asked: &[Asked]) -> bool
    ensures { result ≡ has_numbers (map opt_row rows.now) (map given_of options.now) asked.now }
{
    asked.iter().all(|asked| number_given(rows, options, asked.row) == asked.number)
}

// Whether a kind stands on an instance.
fn stands_on(parent: &Instance, kind: Kind) -> bool
    ensures { result ≡ stands_on (Some (instance_of parent.now)) kind }
{
    if !same_wire(output_of(parent.kind), input_of(kind)) {
        return false;
    }
    has_numbers(options_of(parent.kind), &parent.options, asked_of(kind))
}

// Whether a kind stands on the instance at a place.
fn stands_at(before: &[Instance], parent: u32, kind: Kind) -> bool
    ensures { result ≡ stands_on (slice_get (map instance_of before.now) parent) kind }
{
    match before.get(parent as usize) {
        Some(parent) => stands_on(parent, kind),
        None => false,
    }
}

/// Why a kind can't stand here, behind the instances before it.
pub fn why_not(before: &[Instance], parent: Option<u32>, kind: Kind) -> Option<StackWhy>
    ensures why { result ≡ why_not (map instance_of before.now) parent kind }
    ensures room { result ≡ None → length before.now < 24 }
{
    match parent {
        None => {
            if !same_wire(Wire::Logic, input_of(kind)) {
                return Some(StackWhy::NoParent);
            }
            if before.len() >= MOST_INSTANCES {
                return Some(StackWhy::Many);
            }
            None
        }
        Some(parent) => {
            if before.len() >= MOST_INSTANCES {
                return Some(StackWhy::Many);
            }
            if !stands_at(before, parent, kind) {
                return Some(StackWhy::Mismatch);
            }
            None
        }
    }
}
