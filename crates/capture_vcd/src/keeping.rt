// What is kept of the words of a section: as much as tells what they declare.
ghost use Rattle.std.specs.Prelude.{◌≡◌, ◌≤◌, ◌++◌, [], ◌∷◌, take, length, map, OnErr, OnOk};
ghost use Rattle.capture_vcd.specs.Gathered.{placed};
ghost use Rattle.capture_vcd.specs.Keeping.{IsNamed, IsShort, joins, scale_step, variable_step};

use crate::section::{Word, has_no_channel};
use crate::tokens::number_of;
use la_base::NoMemory;
use std::alloc::Global;

// How many bytes are kept of the text of a time scale: one more than the longest good one has.
const MOST_SCALE: usize = 6;

// The first bytes of a text.
fn front(text: &[u8], most: usize) -> &[u8]
    ensures { result.now ≡ take most text.now }
{
    &text[..text.len().min(most)]
}

// Adds a word.
fn add(alloc: Global, words: &mut Vec<Word>, at: u64, text: &[u8]) -> Result<(), NoMemory>
    ensures items { OnOk result
        (map placed words.new.items ≡ map placed words.old.items ++ (at, text.now) ∷ []) }
    ensures stays { OnErr result (words.new.items ≡ words.old.items) }
{
    words.push(Word {
        at,
        text: text.to_vec(alloc)?,
    })?;
    Ok(())
}

/// Keeps a word of a time scale.
pub fn keep_scale(
    alloc: Global,
    words: &mut Vec<Word>,
    at: u64,
    text: &[u8],
) -> Result<(), NoMemory>
    requires { IsShort words.old.items }
    ensures items { OnOk result
        (map placed words.new.items ≡ scale_step (map placed words.old.items) (at, text.now)) }
    ensures short { IsShort words.new.items }
{
    if words.is_empty() {
        return add(alloc, words, at, front(text, MOST_SCALE));
    }
    let room = MOST_SCALE - words[0].text.len();
    words[0].text.extend_from_slice(front(text, room))?;
    Ok(())
}

// Whether further words of a variable belong to its name.
fn joins(kind: &[u8], size: &[u8]) -> bool
    ensures { result ≡ joins kind.now size.now }
{
    if has_no_channel(kind) {
        return false;
    }
    match number_of(size) {
        Some(width) => width == 1,
        None => false,
    }
}

/// Keeps a word of a variable.
pub fn keep_variable(
    alloc: Global,
    words: &mut Vec<Word>,
    at: u64,
    text: &[u8],
) -> Result<(), NoMemory>
    requires { IsNamed (map placed words.old.items) }
    ensures items { OnOk result
        (map placed words.new.items ≡ variable_step (map placed words.old.items) (at, text.now)) }
    ensures named { IsNamed (map placed words.new.items) }
{
    if words.len() < 4 {
        return add(alloc, words, at, text);
    }
    if !joins(&words[0].text, &words[1].text) {
        return Ok(());
    }
    if words.len() == 4 {
        return add(alloc, words, at, text);
    }
    words[4].text.extend_from_slice(text)?;
    Ok(())
}
