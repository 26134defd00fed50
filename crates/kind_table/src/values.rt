// Values of options: what they mean by their rows, and whether they are in range.
ghost use Rattle.std.specs.Prelude.{◌≡◌, ◌<◌, IfSome, is_some, map};
ghost use Rattle.std.specs.List.{list_all, list_any, zip};
ghost use Rattle.la_base.specs.declared.samples.TheConstants.{MOST_PINS};
ghost use Rattle.kind_table.specs.Kinds.{form_of, opt_row, row_of};
ghost use Rattle.kind_table.specs.Values.{channel_at, given_at, has_groups, in_range};
ghost use Rattle.kind_table.specs.Values.{maybe_channel_at, number_at, number_of, row_in_range};
ghost use Rattle.kind_table.specs.Values.{takes};

use crate::kinds::{Kind, KindRow, OptForm, OptRow};
use crate::table::row;
use la_base::MOST_PINS;

/// The most options that a kind has.
pub const MOST_OPTIONS: usize = 8;

/// The values of a kind's options: place k is that of row k of its options. A channel is given by
/// its bit in a sample, a number as itself, a word by its place among the words of its choice. None
/// is the usual value; a channel that isn't required has none then.
#[derive(Clone, Copy, PartialEq, Eq)]
pub struct OptValues {
    pub given: [Option<u64>; MOST_OPTIONS],
}

/// The number that an option has: the one that is given, else its usual one. That of a choice is 0,
/// its first word.
pub fn number_of(form: OptForm, value: Option<u64>) -> u64
    ensures { result ≡ number_of (form_of form) value }
{
    match (form, value) {
        (_, Some(number)) => number,
        (OptForm::Number { usual, .. }, None) => usual,
        (OptForm::Pin { .. } | OptForm::Choice { .. }, None) => 0,
    }
}

impl OptValues {
    /// What is given at a place, if anything.
    pub fn at(&self, place: usize) -> Option<u64>
        ensures { result ≡ given_at self.now.given place }
    {
        match self.given.get(place) {
            Some(value) => *value,
            None => None,
        }
    }

    /// The number at a place, by the row there: the one that is given, else the usual one. Where
    /// there is no such row it is 0.
    pub fn number(&self, rows: &[OptRow], place: usize) -> u64
        ensures { result ≡ number_at (map opt_row rows.now) self.now.given place }
    {
        match rows.get(place) {
            Some(row) => number_of(row.form, self.at(place)),
            None => 0,
        }
    }

    /// The bit of the channel at a place, if it is given.
    pub fn maybe_channel(&self, place: usize) -> Option<u32>
        requires { IfSome (given_at self.now.given place) (λ bit. bit < MOST_PINS) }
        ensures { result ≡ maybe_channel_at self.now.given place }
    {
        match self.at(place) {
            Some(bit) => Some(bit as u32),
            None => None,
        }
    }

    /// The bit of the channel at a place, 0 where none is given.
    pub fn channel(&self, place: usize) -> u32
        requires { channel_at self.now.given place < MOST_PINS }
        ensures { result ≡ channel_at self.now.given place }
    {
        match self.at(place) {
            Some(bit) => bit as u32,
            None => 0,
        }
    }
}

// Whether an option takes a value, or none.
fn takes(form: OptForm, value: Option<u64>) -> bool
    ensures { result ≡ takes MOST_PINS (form_of form) value }
{
    match (form, value) {
        (OptForm::Pin { required }, None) => !required,
        (OptForm::Pin { .. }, Some(bit)) => bit < MOST_PINS as u64,
        (OptForm::Number { .. }, None) => true,
        (OptForm::Number { least, most, .. }, Some(number)) => least <= number && number <= most,
        (OptForm::Choice { .. }, None) => true,
        (OptForm::Choice { words }, Some(place)) => place < words.len() as u64,
    }
}

// Whether each option takes the value beside it.
fn all_take(rows: &[OptRow], values: &[Option<u64>]) -> bool
    ensures { result ≡ list_all
        (λ p. takes MOST_PINS (form_of p.0.form) p.1) (zip rows.now values.now) }
{
    rows.iter()
        .zip(values.iter())
        .all(|(row, value)| takes(row.form, *value))
}

// Whether one of a group is given.
fn has_one(group: &[usize], values: &OptValues) -> bool
    ensures { result ≡ list_any (λ place. is_some (given_at values.now.given place)) group.now }
{
    group.iter().any(|place| values.at(*place).is_some())
}

// Whether one of each group is given.
fn has_groups(groups: &[&[usize]], values: &OptValues) -> bool
    ensures { result ≡ list_all
        (λ group. list_any (λ place. is_some (given_at values.now.given place)) group.now)
        groups.now }
{
    groups.iter().all(|group| has_one(group, values))
}

/// Whether each option of a row of the table takes its value, and of each group one is given.
pub fn row_in_range(row: KindRow, values: &OptValues) -> bool
    ensures { result ≡ row_in_range MOST_PINS (row_of row) values.now.given }
{
    all_take(row.options, &values.given) && has_groups(row.groups, values)
}

/// Whether the values of a kind are in range.
pub fn in_range(kind: Kind, values: &OptValues) -> bool
    ensures { result ≡ in_range MOST_PINS kind values.now.given }
{
    row_in_range(row(kind), values)
}
