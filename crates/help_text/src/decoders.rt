// What the help tells of a decoder: all by the table of kinds, and by what it means in words.
ghost use Rattle.std.specs.Prelude.{◌≡◌, IfOk, map, slice_get};
ghost use Rattle.std.specs.List.{flat_map};
ghost use Rattle.std.specs.String.{string_bytes};
ghost use Rattle.kind_table.specs.Kinds.{Choice, form_of, opt_row};
ghost use Rattle.help_text.specs.Decoders.{asked_told, classes_told, first_word, giver_of};
ghost use Rattle.help_text.specs.Decoders.{group_told, joined, kind_line, name_at};
ghost use Rattle.help_text.specs.Decoders.{option_told, options_told, stands_on, takes_text};
ghost use Rattle.help_text.specs.Decoders.{text_in};
ghost use Rattle.help_text.specs.Help.{TellsKind};

use crate::meanings::{meanings_of, what_of};
use kind_table::{
    Asked, KINDS, Kind, OptForm, OptRow, asked_of, classes_of, groups_of, input_of, kind_name,
    options_of, output_of,
};
use la_base::{Wire, same_wire};
use std::alloc::{AllocError, Global};

// Words, with this between two of them.
fn joined(alloc: Global, between: &str, words: &[&str]) -> Result<String, AllocError>
    ensures { IfOk result (λ text. string_bytes text
        ≡ joined between.now (map (λ word. word.now) words.now)) }
{
    words.join(alloc, between)
}

// The first of some words.
fn first_word(words: &[&'static str]) -> &'static str
    ensures { result.now ≡ first_word (map (λ word. word.now) words.now) }
{
    match words.first() {
        Some(word) => word,
        None => "",
    }
}

// The text at a place, and nothing where there is none.
fn text_at(texts: &[&'static str], place: usize) -> &'static str
    ensures { result.now ≡ text_in (slice_get (map (λ text. text.now) texts.now) place) }
{
    match texts.get(place) {
        Some(text) => text,
        None => "",
    }
}

// The name of the option at a place, and nothing where there is none.
fn name_at(rows: &[OptRow], place: usize) -> &'static str
    ensures { result.now ≡ name_at (map opt_row rows.now) place }
{
    match rows.get(place) {
        Some(row) => row.name,
        None => "",
    }
}

// A choice of some words.
fn choice_text(alloc: Global, words: &[&'static str]) -> Result<String, AllocError>
    ensures { IfOk result (λ text. string_bytes text
        ≡ takes_text (Choice (map (λ word. word.now) words.now))) }
{
    let told = joined(alloc, ", ", words)?;
    format!(in alloc;
        "one of\n          {}; usual: {}",
        told.as_str(),
        first_word(words)
    )
}

// What an option takes.
fn takes_text(alloc: Global, form: OptForm) -> Result<String, AllocError>
    ensures { IfOk result (λ text. string_bytes text ≡ takes_text (form_of form)) }
{
    match form {
        OptForm::Pin { required: true } => String::from_str(alloc, "a channel, needed"),
        OptForm::Pin { required: false } => String::from_str(alloc, "a channel"),
        OptForm::Number { least, most, usual } => {
            format!(in alloc; "{least} to {most}; usual: {usual}")
        }
        OptForm::Choice { words } => choice_text(alloc, words),
    }
}

// One option.
fn option_told(alloc: Global, meaning: &str, row: OptRow) -> Result<String, AllocError>
    ensures { IfOk result (λ text. string_bytes text ≡ option_told meaning.now (opt_row row)) }
{
    let takes = takes_text(alloc, row.form)?;
    format!(in alloc; "      {}: {meaning}; {}\n", row.name, takes.as_str())
}

// The options.
#[tactic(auto, using(crate::proofs::Options::options_next))]
fn options_told(
    alloc: Global,
    meanings: &[&'static str],
    rows: &[OptRow],
) -> Result<String, AllocError>
    ensures { IfOk result (λ text. string_bytes text
        ≡ options_told 0 (map (λ meaning. meaning.now) meanings.now) (map opt_row rows.now)) }
{
    let mut text = String::new(alloc);
    for (place, row) in rows.iter().enumerate() {
        let told = option_told(alloc, text_at(meanings, place), *row)?;
        text.push_str(told.as_str())?;
    }
    Ok(text)
}

// The names of a group of options.
#[tactic(auto, using(crate::proofs::Telling::map_next))]
fn group_names(
    alloc: Global,
    rows: &[OptRow],
    group: &[usize],
) -> Result<Vec<&'static str>, AllocError>
    ensures { IfOk result (λ names. map (λ name. name.now) names.items
        ≡ map (λ place. name_at (map opt_row rows.now) place) group.now) }
{
    let mut names = Vec::new(alloc);
    for place in group {
        names.push(name_at(rows, *place))?;
    }
    Ok(names)
}

// A group of options, of which at least one has to be given.
fn group_told(alloc: Global, rows: &[OptRow], group: &[usize]) -> Result<String, AllocError>
    ensures { IfOk result (λ text. string_bytes text ≡ group_told (map opt_row rows.now) group.now) }
{
    let names = group_names(alloc, rows, group)?;
    let told = joined(alloc, " or ", names.as_slice())?;
    format!(in alloc; "      {} is needed\n", told.as_str())
}

// The groups of options.
#[tactic(auto, using(crate::proofs::Telling::flat_map_next))]
fn groups_told(alloc: Global, rows: &[OptRow], groups: &[&[usize]]) -> Result<String, AllocError>
    ensures { IfOk result (λ text. string_bytes text
        ≡ flat_map (λ group. group_told (map opt_row rows.now) group.now) groups.now) }
{
    let mut text = String::new(alloc);
    for group in groups {
        let told = group_told(alloc, rows, group)?;
        text.push_str(told.as_str())?;
    }
    Ok(text)
}

// The classes of binary data, and nothing where there are none.
fn classes_told(alloc: Global, classes: &[&str]) -> Result<String, AllocError>
    ensures { IfOk result (λ text. string_bytes text
        ≡ classes_told (map (λ class. class.now) classes.now)) }
{
    if classes.is_empty() {
        return Ok(String::new(alloc));
    }
    let told = joined(alloc, ", ", classes)?;
    format!(in alloc; "      binary data: {}\n", told.as_str())
}

// The decoder that gives what moves on a wire, if one does.
fn giver_of(wire: Wire) -> Option<Kind>
    ensures { result ≡ giver_of wire }
{
    KINDS
        .iter()
        .copied()
        .find(|kind| same_wire(output_of(*kind), wire))
}

// The numbers that options have to have.
#[tactic(auto, using(crate::proofs::Telling::flat_map_next))]
fn asked_told(alloc: Global, rows: &[OptRow], asked: &[Asked]) -> Result<String, AllocError>
    ensures { IfOk result (λ text. string_bytes text ≡ asked_told (map opt_row rows.now) asked.now) }
{
    let mut text = String::new(alloc);
    for one in asked {
        let told = format!(in alloc; " with {}={}", name_at(rows, one.row), one.number)?;
        text.push_str(told.as_str())?;
    }
    Ok(text)
}

// What a decoder stands on, which asks this of it.
fn stands_on(alloc: Global, asked: &[Asked], parent: Option<Kind>) -> Result<String, AllocError>
    ensures { IfOk result (λ text. string_bytes text ≡ stands_on asked.now parent) }
{
    let Some(parent) = parent else {
        return String::from_str(alloc, "reads samples");
    };
    let told = asked_told(alloc, options_of(parent), asked)?;
    format!(in alloc; "on {}{}", kind_name(parent), told.as_str())
}

// The line of a decoder.
fn kind_line(alloc: Global, kind: Kind) -> Result<String, AllocError>
    ensures { IfOk result (λ text. string_bytes text ≡ kind_line kind) }
{
    let stands = stands_on(alloc, asked_of(kind), giver_of(input_of(kind)))?;
    format!(in alloc;
        "  {}: {}; {}\n",
        kind_name(kind),
        what_of(kind),
        stands.as_str()
    )
}

/// One decoder: what it is and stands on, its options, which of them are needed as a group, and its
/// classes of binary data.
pub fn kind_text(alloc: Global, kind: Kind) -> Result<String, AllocError>
    ensures { IfOk result (λ text. TellsKind kind (string_bytes text)) }
{
    let rows = options_of(kind);
    let mut text = kind_line(alloc, kind)?;
    let options = options_told(alloc, meanings_of(kind), rows)?;
    let groups = groups_told(alloc, rows, groups_of(kind))?;
    let classes = classes_told(alloc, classes_of(kind))?;
    text.push_str(options.as_str())?;
    text.push_str(groups.as_str())?;
    text.push_str(classes.as_str())?;
    Ok(text)
}
