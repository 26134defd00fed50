// Reading the words of an alternative.
ghost use Rattle.std.specs.Prelude.{◌≡◌, ◌≤◌, ◌<◌, ◌+◌, ◌^◌, length, Some, OnOk};
ghost use Rattle.std.specs.List.{list_any};
ghost use Rattle.text_parts.specs.Reading.{Gives};
ghost use Rattle.cond_words.specs.Grammar.{is_skip, letter_of, line_term, most_terms, named_term};
ghost use Rattle.cond_words.specs.Grammar.{skip_term, term_at, terms_of};
ghost use Rattle.cond_words.specs.Words.{alt_terms, meaning_of, meanings, fault_in};

use crate::words::{AltWords, CondError, CondFault, CondWhy, Letter, Term};
use std::alloc::Global;
use text_parts::{number_in, place_behind};

// The most terms that an alternative has.
const MOST_TERMS: usize = 64;

// The greatest number of a skip.
const MOST_SKIP: u64 = (1 << 60) - 1;

// A fault as an error.
fn fault(at: u32, why: CondWhy) -> CondError
    ensures { fault_in result ≡ Some (record { at = at; why = why }) }
{
    CondError::Fault(CondFault { at, why })
}

// The letter of a kind of term.
fn letter_of(text: &str) -> Option<Letter>
    ensures { result ≡ letter_of text.now }
{
    match text {
        "l" => Some(Letter::Low),
        "h" => Some(Letter::High),
        "r" => Some(Letter::Rise),
        "f" => Some(Letter::Fall),
        "e" => Some(Letter::Edge),
        "s" => Some(Letter::Steady),
        _ => None,
    }
}

// The term of a reference and what stands behind its `=`.
fn read_line(alloc: Global, reference: &str, at: u32, text: &str) -> Result<Term, CondError>
    ensures { Gives meaning_of fault_in (line_term reference.now at text.now) result }
{
    let Some(letter) = letter_of(text) else {
        return Err(fault(at, CondWhy::Level));
    };
    match String::from_str(alloc, reference) {
        Ok(reference) => Ok(Term::Line { reference, letter }),
        Err(_) => Err(CondError::NoMemory),
    }
}

// Whether a term is a skip.
fn is_skip(term: &Term) -> bool
    ensures { result ≡ is_skip (meaning_of term.now) }
{
    match term {
        Term::Line { .. } => false,
        Term::Skip(_) => true,
    }
}

// Whether there is a skip among the terms.
fn has_skip(terms: &[Term]) -> bool
    ensures { result ≡ list_any is_skip (meanings terms.now) }
{
    terms.iter().any(|term| is_skip(term))
}

// The skip that stands behind `skip=`.
fn read_skip(before: &[Term], at: u32, text: &str) -> Result<Term, CondError>
    ensures { Gives meaning_of fault_in (skip_term (meanings before.now) at text.now) result }
{
    if has_skip(before) {
        return Err(fault(at, CondWhy::Skip));
    }
    match number_in(text, 1, MOST_SKIP) {
        Ok(number) => Ok(Term::Skip(number)),
        Err(_) => Err(fault(at, CondWhy::Skip)),
    }
}

// The term of a name and what stands behind its `=`.
fn read_named(
    alloc: Global,
    before: &[Term],
    name: &str,
    at: u32,
    text: &str,
) -> Result<Term, CondError>
    ensures { Gives meaning_of fault_in (named_term (meanings before.now) name.now at text.now)
        result }
{
    if name == "skip" {
        return read_skip(before, at, text);
    }
    read_line(alloc, name, at, text)
}

// One term, behind those before it.
fn read_term(alloc: Global, before: &[Term], at: u32, text: &str) -> Result<Term, CondError>
    requires { at + length text.now < 2 ^ 32 }
    ensures gives { Gives meaning_of fault_in (term_at (meanings before.now) (at, text.now))
        result }
    ensures few { OnOk result (length before.now < most_terms) }
{
    if before.len() >= MOST_TERMS {
        return Err(fault(at, CondWhy::Many));
    }
    if text.is_empty() {
        return Err(fault(at, CondWhy::Empty));
    }
    let Some((name, value)) = text.split_once('=') else {
        return Err(fault(at, CondWhy::Term));
    };
    if name.is_empty() {
        return Err(fault(at, CondWhy::Term));
    }
    read_named(alloc, before, name, place_behind(at, name), value)
}

/// The terms of an alternative's word of at most 4,096 bytes, or its first fault by place. The word
/// `any` has no term; else at most 64 terms stand between commas. A term is a channel's name or
/// number, `=` and one of the letters `l`, `h`, `r`, `f`, `e`, `s`; or, once, `skip=` and a number
/// from 1 to 2^60 - 1. `NoMemory` comes only for want of memory.
pub fn read_alt(alloc: Global, word: &str) -> Result<AltWords, CondError>
    requires { length word.now ≤ 4096 }
    ensures { Gives alt_terms fault_in (terms_of word.now) result }
{
    let mut terms = Vec::new(alloc);
    if word == "any" {
        return Ok(AltWords { terms });
    }
    let mut at: u32 = 0;
    for text in word.split(',') {
        match read_term(alloc, &terms, at, text) {
            Ok(term) => {
                if terms.push(term).is_err() {
                    return Err(CondError::NoMemory);
                }
            }
            Err(error) => return Err(error),
        }
        at = place_behind(at, text);
    }
    Ok(AltWords { terms })
}
