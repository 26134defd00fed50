// The words as `clap` reads them.
ghost use Rattle.std.specs.Prelude.{◌≡◌, false, List, map, Ok, IfOk, IfErr, option_map, [], ◌∷◌};
ghost use Rattle.std.specs.String.{string_bytes};
ghost use Rattle.clap.specs.Words.{rule_of, app_of, found_of, kind_of, rows_of};
ghost use Rattle.words.specs.App.{chains_rule, empty_app, option_rule, options_app, rows_of_uses};
ghost use Rattle.words.specs.App.{some_texts, word_app};
ghost use Rattle.words.specs.Options.{names, row};
ghost use Rattle.words.specs.Settings.{text_of, value_of};
ghost use Rattle.words.specs.Uses.{Used, uses_of, chains_of};

use crate::options::{Name, OPTIONS};
use clap::error::ErrorKind;
use clap::{Arg, ArgAction, ArgMatches, Command, Error};
use std::alloc::{AllocError, Global};

// An option that takes one value.
fn option<'a>(alloc: Global, name: Name) -> Arg<'a>
    ensures rule { rule_of result ≡ option_rule (row name).name }
    ensures local { result.global ≡ false }
{
    let text: &'a str = name.row().name;
    Arg::new(alloc, text).long(text)
}

// The words that are no options.
fn chains<'a>(alloc: Global) -> Arg<'a>
    ensures rule { rule_of result ≡ chains_rule }
    ensures local { result.global ≡ false }
{
    Arg::new(alloc, "chains").action(ArgAction::Append)
}

// The command without its arguments: the words are all words, and no word asks for help.
fn empty_command<'a>(alloc: Global) -> Command<'a>
    ensures { app_of result ≡ empty_app }
{
    Command::new(alloc, "ldecode")
        .no_binary_name(true)
        .disable_help_flag(true)
}

// The command with an argument for each option.
fn options_command<'a>(alloc: Global) -> Result<Command<'a>, AllocError>
    ensures { IfOk result (λ c. app_of c ≡ options_app names) }
{
    let mut command = empty_command(alloc);
    for name in OPTIONS {
        command = command.arg(option(alloc, name))?;
    }
    Ok(command)
}

// The whole command.
fn command<'a>(alloc: Global) -> Result<Command<'a>, AllocError>
    ensures { IfOk result (λ c. app_of c ≡ word_app) }
{
    options_command(alloc)?.arg(chains(alloc))
}

/// What `clap` reads in words that have no fault: their uses. It refuses them only for want of
/// memory.
pub fn matches<'a>(alloc: Global, words: &'a [String]) -> Result<ArgMatches<'a>, Error>
    ensures matches { (uses : List Used) → uses_of (map string_bytes words.entry.now) ≡ Ok uses
        → IfOk result (λ m. rows_of (found_of m) ≡ rows_of_uses [] uses) }
    ensures passes { (uses : List Used) → uses_of (map string_bytes words.entry.now) ≡ Ok uses
        → IfErr result (λ e. kind_of e ≡ ErrorKind.OutOfMemory) }
{
    command(alloc)?.try_get_matches_from(words)
}

/// The value of an option: the one that is given, else the usual one, if there is one.
pub fn value<'a>(matches: &ArgMatches<'a>, name: Name) -> Option<&'a str>
    ensures { (uses : List Used) → rows_of (found_of matches.now) ≡ rows_of_uses [] uses
        → option_map (λ s. s.now) result ≡ value_of name uses }
{
    let row = name.row();
    match matches.get_str(row.name) {
        Some(text) => Some(text),
        None => row.usual,
    }
}

/// The text of an option's value, which is empty where there is no value.
pub fn text<'a>(matches: &ArgMatches<'a>, name: Name) -> &'a str
    ensures { (uses : List Used) → rows_of (found_of matches.now) ≡ rows_of_uses [] uses
        → result.now ≡ text_of name uses }
{
    match value(matches, name) {
        Some(text) => text,
        None => "",
    }
}

/// The words that are no options, if there are any.
pub fn chain_texts<'m, 'a>(matches: &'m ArgMatches<'a>) -> Option<&'m [&'a str]>
    ensures { (uses : List Used) → rows_of (found_of matches.entry.now) ≡ rows_of_uses [] uses
        → option_map (λ s. map (λ t. t.now) s.now) result
        ≡ some_texts (map (λ u. u.text) (chains_of uses)) }
{
    matches.get_strs("chains")
}
