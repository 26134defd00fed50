// The words that are no options, and the values that name decoders.
ghost use Rattle.std.specs.Prelude.{◌≡◌, List, length, Some, IfOk, option_and_then, option_map};
ghost use Rattle.std.specs.Prelude.{map, filter, find, not, is_some};
ghost use Rattle.text_parts.specs.Chains.{chain_of};
ghost use Rattle.words.specs.Given.{used_of};
ghost use Rattle.words.specs.Settings.{unless_all, use_of, word_text};
ghost use Rattle.words.specs.Uses.{Used, is_of};

use crate::options::Name;
use crate::rules::is_of;
use crate::uses::Given;
use std::alloc::{AllocError, Global};
use text_parts::ChainWord;

// A text with the number of its word.
fn chain_word(alloc: Global, word: u32, text: &str) -> Result<ChainWord, AllocError>
    ensures { IfOk result (λ chain. chain_of chain ≡ record { word = word; text = text.now }) }
{
    Ok(ChainWord {
        word,
        text: String::from_str(alloc, text)?,
    })
}

/// Texts with the numbers of their words.
pub fn chains(alloc: Global, numbers: &[u32], texts: &[&str]) -> Result<Vec<ChainWord>, AllocError>
    requires { length numbers.now ≡ length texts.now }
    ensures { (uses : List Used) → numbers.now ≡ map (λ u. u.word) uses
        → map (λ t. t.now) texts.now ≡ map (λ u. u.text) uses
        → IfOk result (λ v. map chain_of v.items ≡ map word_text uses) }
{
    let mut chains = Vec::new(alloc);
    for (place, text) in texts.iter().enumerate() {
        chains.push(chain_word(alloc, numbers[place], text)?)?;
    }
    Ok(chains)
}

/// The numbers of the words that are no options.
pub fn numbers(alloc: Global, uses: &[Given]) -> Result<Vec<u32>, AllocError>
    ensures { IfOk result
        (λ v. v.items ≡ map (λ g. g.word) (filter (λ g. not (is_some g.name)) uses.now)) }
{
    uses.iter()
        .filter(|given| given.name.is_none())
        .map(|given| given.word)
        .collect(alloc)
}

// The use of an option.
fn find_given<'u, 'a>(name: Name, uses: &'u [Given<'a>]) -> Option<&'u Given<'a>>
    ensures { option_map (λ g. g.now) result ≡ find (λ g. is_of name g.name) uses.entry.now }
{
    uses.iter().find(|given| is_of(name, given))
}

// The value of an option that is given, with the number of its word.
fn given_value(
    alloc: Global,
    name: Name,
    uses: &[Given],
    text: &str,
) -> Result<Option<ChainWord>, AllocError>
    requires { (used : Used) → use_of name (map used_of uses.now) ≡ Some used
        → text.now ≡ used.text }
    ensures { IfOk result
        (λ o. option_map chain_of o ≡ option_map word_text (use_of name (map used_of uses.now))) }
{
    match find_given(name, uses) {
        Some(given) => Ok(Some(chain_word(alloc, given.word, text)?)),
        None => Ok(None),
    }
}

/// The value of `show` with the number of its word, where it isn't `all`.
pub fn shown(alloc: Global, uses: &[Given], text: &str) -> Result<Option<ChainWord>, AllocError>
    requires { (used : Used) → use_of Name.Show (map used_of uses.now) ≡ Some used
        → text.now ≡ used.text }
    ensures { IfOk result
        (λ o. option_map chain_of o
        ≡ option_and_then unless_all (use_of Name.Show (map used_of uses.now))) }
{
    if text == "all" {
        return Ok(None);
    }
    given_value(alloc, Name::Show, uses, text)
}

/// The value of `binary` with the number of its word.
pub fn binary(alloc: Global, uses: &[Given], text: &str) -> Result<Option<ChainWord>, AllocError>
    requires { (used : Used) → use_of Name.Binary (map used_of uses.now) ≡ Some used
        → text.now ≡ used.text }
    ensures { IfOk result
        (λ o. option_map chain_of o
        ≡ option_map word_text (use_of Name.Binary (map used_of uses.now))) }
{
    given_value(alloc, Name::Binary, uses, text)
}
