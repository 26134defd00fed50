// Reading which instances are shown, and whose binary data is wanted.
ghost use Rattle.std.specs.Prelude.{◌≡◌, ◌<◌, ◌≤◌, [], length, map, slice_get, option_map, IfOk};
ghost use Rattle.std.specs.Prelude.{IfSome};
ghost use Rattle.std.specs.List.{before_first, after_first};
ghost use Rattle.std.specs.String.{string_bytes};
ghost use Rattle.text_parts.specs.Chains.{chain_of};
ghost use Rattle.text_parts.specs.Reading.{Gives};
ghost use Rattle.stack_words.specs.Accepting.{binary_of, class_in, class_of_name, names_of};
ghost use Rattle.stack_words.specs.Accepting.{shown_at, shown_of};
ghost use Rattle.stack_words.specs.Meaning.{stack_fault_in, instance_of};
ghost use Rattle.stack_words.specs.Options.{is_colon};

use crate::errors::fault;
use crate::instance::Instance;
use crate::naming::place_named;
use crate::{StackError, StackWhy};
use kind_table::class_of;
use std::alloc::Global;
use text_parts::{ChainWord, place_behind};

// The place of the instance of a name.
fn read_name(instances: &[Instance], word: u32, at: u32, name: &str) -> Result<u32, StackError>
    requires { length instances.now ≤ 24 }
    ensures { Gives (λ place. place)
        stack_fault_in (shown_at (map instance_of instances.now) word [] (at, name.now)) result }
{
    match place_named(instances, name.as_bytes()) {
        Some(place) => Ok(place),
        None => Err(fault(word, at, StackWhy::Unknown)),
    }
}

// The places of the instances whose names stand between commas.
fn read_names(
    alloc: Global,
    instances: &[Instance],
    word: u32,
    text: &str,
) -> Result<Vec<u32>, StackError>
    requires few { length instances.now ≤ 24 }
    requires short { length text.now ≤ 4096 }
    ensures { Gives
        (λ v. v.items) stack_fault_in (names_of (map instance_of instances.now) word text.now) result }
{
    let mut places = Vec::new(alloc);
    let mut at: u32 = 0;
    for name in text.split(',') {
        match read_name(instances, word, at, name) {
            Ok(place) => {
                if places.push(place).is_err() {
                    return Err(StackError::NoMemory);
                }
            }
            Err(error) => return Err(error),
        }
        at = place_behind(at, name);
    }
    Ok(places)
}

/// The places of the instances that are shown, none for all; or the first fault.
pub fn read_shown(
    alloc: Global,
    instances: &[Instance],
    show: Option<&ChainWord>,
) -> Result<Option<Vec<u32>>, StackError>
    requires few { length instances.now ≤ 24 }
    requires short { IfSome show (λ chain. length (string_bytes chain.now.text) ≤ 4096) }
    ensures { Gives (option_map (λ v. v.items))
        stack_fault_in (shown_of (map instance_of instances.now)
        (option_map (λ chain. chain_of chain.now) show.entry)) result }
{
    match show {
        None => Ok(None),
        Some(show) => {
            let text = show.text.as_str();
            if text == "all" {
                return Ok(None);
            }
            match read_names(alloc, instances, show.word, text) {
                Ok(places) => Ok(Some(places)),
                Err(error) => Err(error),
            }
        }
    }
}

// The class of this name of the instance at a place.
fn class_in(instances: &[Instance], place: u32, name: &[u8]) -> Option<u16>
    ensures { result ≡ class_in (slice_get (map instance_of instances.now) place) name.now }
{
    match instances.get(place as usize) {
        Some(instance) => class_of(instance.kind, name),
        None => None,
    }
}

// What stands before the first colon, and what stands behind it.
fn cut(text: &str) -> (&str, &str)
    ensures name { result.0.now ≡ before_first is_colon text.entry.now }
    ensures class { result.1.now ≡ after_first is_colon text.entry.now }
{
    match text.split_once(':') {
        Some((name, class)) => (name, class),
        None => (text, ""),
    }
}

// An instance and one of its classes, by their names.
fn read_class(instances: &[Instance], word: u32, text: &str) -> Result<(u32, u16), StackError>
    requires few { length instances.now ≤ 24 }
    requires short { length text.now ≤ 4096 }
    ensures gives { Gives (λ p. (p.0, p.1))
        stack_fault_in (class_of_name (map instance_of instances.now) word text.now) result }
    ensures within { IfOk result (λ p. p.0 < length instances.now) }
{
    let (name, class) = cut(text);
    let Some(place) = place_named(instances, name.as_bytes()) else {
        return Err(fault(word, 0, StackWhy::Unknown));
    };
    let at = (name.len() as u32 + 1).min(text.len() as u32);
    match class_in(instances, place, class.as_bytes()) {
        Some(class) => Ok((place, class)),
        None => Err(fault(word, at, StackWhy::Unknown)),
    }
}

/// The instance and the class whose binary data is wanted, if a word names them; or the fault.
pub fn read_binary(
    instances: &[Instance],
    binary: Option<&ChainWord>,
) -> Result<Option<(u32, u16)>, StackError>
    requires few { length instances.now ≤ 24 }
    requires short { IfSome binary (λ chain. length (string_bytes chain.now.text) ≤ 4096) }
    ensures gives { Gives (option_map (λ p. (p.0, p.1)))
        stack_fault_in (binary_of (map instance_of instances.now)
        (option_map (λ chain. chain_of chain.now) binary.entry)) result }
    ensures within { IfOk result (λ b. IfSome b (λ p. p.0 < length instances.now)) }
{
    match binary {
        None => Ok(None),
        Some(binary) => match read_class(instances, binary.word, binary.text.as_str()) {
            Ok(class) => Ok(Some(class)),
            Err(error) => Err(error),
        },
    }
}
