// The words of the command line.
ghost use Rattle.std.specs.Prelude.{◌≡◌, ◌≤◌, [], List, length, map, option_map, IfOk, IfSome};
ghost use Rattle.std.specs.String.{string_bytes};
ghost use Rattle.clap.specs.Words.{found_of, rows_of};
ghost use Rattle.text_parts.specs.Chains.{chain_of};
ghost use Rattle.text_parts.specs.Reading.{Gives};
ghost use Rattle.words.specs.App.{rows_of_uses};
ghost use Rattle.words.specs.Given.{word_fault_in, used_of};
ghost use Rattle.words.specs.Readable.{IsReadable, IsShort};
ghost use Rattle.words.specs.Settings.{AreGood, settings_of, meaning_of, value_of, values_of};
ghost use Rattle.words.specs.Settings.{word_text};
ghost use Rattle.words.specs.Uses.{Used, chains_of};

use crate::alternatives::{clash, fault_behind};
use crate::chains::{binary, chains, numbers, shown};
use crate::command::{chain_texts, matches, text, value};
use crate::options::Name;
use crate::reading::read_uses;
use crate::uses::Given;
use crate::values::{csv_named, format_named, is_yes, job_named, number, rate};
use crate::{Settings, WordsError};
use clap::ArgMatches;
use std::alloc::{AllocError, Global};
use text_parts::ChainWord;

// The words that are no options, as `clap` has them.
fn chains_in(
    alloc: Global,
    matches: &ArgMatches,
    uses: &[Given],
) -> Result<Vec<ChainWord>, AllocError>
    requires { rows_of (found_of matches.now) ≡ rows_of_uses [] (map used_of uses.now) }
    ensures { IfOk result
        (λ v. map chain_of v.items ≡ map word_text (chains_of (map used_of uses.now))) }
{
    let numbers = numbers(alloc, uses)?;
    match chain_texts(matches) {
        Some(texts) => chains(alloc, &numbers, texts),
        None => Ok(Vec::new(alloc)),
    }
}

// The checkpoint that the words give, if they do.
fn checkpoint(alloc: Global, matches: &ArgMatches) -> Result<Option<String>, AllocError>
    ensures { (uses : List Used) → rows_of (found_of matches.now) ≡ rows_of_uses [] uses
        → IfOk result (λ from. option_map string_bytes from ≡ value_of Name.From uses) }
{
    match value(matches, Name::From) {
        Some(text) => Ok(Some(String::from_str(alloc, text)?)),
        None => Ok(None),
    }
}

// What the matches set.
fn settings(alloc: Global, matches: &ArgMatches, uses: &[Given]) -> Result<Settings, AllocError>
    requires rows { rows_of (found_of matches.now) ≡ rows_of_uses [] (map used_of uses.now) }
    requires good { AreGood (map used_of uses.now) }
    ensures { IfOk result (λ s. meaning_of s ≡ values_of (map used_of uses.now)) }
{
    let show = shown(alloc, uses, text(matches, Name::Show))?;
    let binary = binary(alloc, uses, text(matches, Name::Binary))?;
    let from = checkpoint(alloc, matches)?;
    let chains = chains_in(alloc, matches, uses)?;
    let channels = number(Name::Channels, text(matches, Name::Channels));
    let down = number(Name::Down, text(matches, Name::Down));
    let ring = number(Name::Ring, text(matches, Name::Ring));
    let seed = number(Name::Seed, text(matches, Name::Seed));
    let count = number(Name::Count, text(matches, Name::Count));
    Ok(Settings {
        job: job_named(text(matches, Name::Job)),
        format: format_named(text(matches, Name::Format)),
        channels: channels as u32,
        rate: rate(text(matches, Name::Rate)),
        down,
        csv: csv_named(text(matches, Name::Csv)),
        header: is_yes(text(matches, Name::Header)),
        threads: is_yes(text(matches, Name::Threads)),
        ring: ring as u32,
        show,
        binary,
        seed,
        count,
        from,
        watch: is_yes(text(matches, Name::Watch)),
        chains,
    })
}

/// The settings that the words make, or the first fault of the words, counted from the left: the
/// rules for each word and its value come first, then how many chains or alternatives there are,
/// then the alternatives themselves. `NoMemory` comes only for want of memory.
pub fn read_words(alloc: Global, words: &[String]) -> Result<Settings, WordsError>
    ensures gives { Gives meaning_of word_fault_in (settings_of (map string_bytes words.now)) result }
    ensures readable { IfOk result (λ settings. IsReadable settings.job settings.chains.items) }
    ensures shown { IfOk result (λ settings. IfSome settings.show IsShort) }
    ensures binary { IfOk result (λ settings. IfSome settings.binary IsShort) }
    ensures from { IfOk result (λ settings. IfSome settings.from (λ text.
        length (string_bytes text) ≤ 4096)) }
{
    let uses = match read_uses(alloc, words) {
        Ok(uses) => uses,
        Err(error) => return Err(error),
    };
    let Ok(matches) = matches(alloc, words) else {
        return Err(WordsError::NoMemory);
    };
    let Ok(settings) = settings(alloc, &matches, &uses) else {
        return Err(WordsError::NoMemory);
    };
    let count = words.len() as u32;
    match fault_behind(alloc, count, settings.job, &settings.chains) {
        Ok(None) => {}
        Ok(Some(fault)) => return Err(WordsError::Fault(fault)),
        Err(_) => return Err(WordsError::NoMemory),
    }
    match clash(
        count,
        settings.job,
        settings.format,
        settings.binary.as_ref(),
    ) {
        None => Ok(settings),
        Some(fault) => Err(WordsError::Fault(fault)),
    }
}
