// Reading chains to instances.
ghost use Rattle.std.specs.Prelude.{◌≡◌, ◌+◌, ◌<◌, ◌≤◌, ◌^◌, All, length, map, IfOk, OnOk, vec_len};
ghost use Rattle.std.specs.List.{list_any};
ghost use Rattle.std.specs.String.{string_bytes};
ghost use Rattle.text_parts.specs.Chains.{chain_of};
ghost use Rattle.text_parts.specs.Reading.{Gives};
ghost use Rattle.stack_words.specs.Chains.{added_at, chain_by, head_at, is_dash, instance_at};
ghost use Rattle.stack_words.specs.Chains.{instances_of, kind_text, part_at};
ghost use Rattle.stack_words.specs.Meaning.{stack_fault_in, instance_of};
ghost use Rattle.stack_words.specs.Steps.{ChainStep, PartStep};

use crate::errors::fault;
use crate::instance::Instance;
use crate::naming::{next_number, place_named};
use crate::options::read_options;
use crate::standing::why_not;
use crate::{StackError, StackWhy};
use kind_table::{groups_of, kind_of, options_of};
use std::alloc::Global;
use text_parts::{ChainWord, place_behind};

// What stands before the first colon of an instance.
fn kind_text(text: &str) -> &str
    ensures { result.now ≡ kind_text text.entry.now }
{
    match text.split_once(':') {
        Some((name, _)) => name,
        None => text,
    }
}

// Whether a text has a hyphen.
fn has_dash(text: &str) -> bool
    ensures { result ≡ list_any is_dash text.now }
{
    text.as_bytes().iter().any(|byte| *byte == b'-')
}

// A new instance on its parent, behind the instances before it.
fn read_instance(
    alloc: Global,
    before: &[Instance],
    parent: Option<u32>,
    word: u32,
    at: u32,
    text: &str,
) -> Result<Instance, StackError>
    requires place { at + length text.now + 1 < 2 ^ 32 }
    requires few { length before.now ≤ 24 }
    ensures gives { Gives instance_of
        stack_fault_in (instance_at (map instance_of before.now) parent word (at, text.now)) result }
    ensures room { OnOk result (length before.now < 24) }
{
    let Some(kind) = kind_of(kind_text(text).as_bytes()) else {
        return Err(fault(word, at, StackWhy::Unknown));
    };
    if let Some(why) = why_not(before, parent, kind) {
        return Err(fault(word, at, why));
    }
    match read_options(alloc, options_of(kind), groups_of(kind), word, at, text) {
        Ok(options) => Ok(Instance {
            kind,
            number: next_number(before, kind),
            options,
            parent,
        }),
        Err(error) => Err(error),
    }
}

// Adds a new instance, and answers its place.
fn add_instance(
    alloc: Global,
    instances: &mut Vec<Instance>,
    parent: Option<u32>,
    word: u32,
    at: u32,
    text: &str,
) -> Result<u32, StackError>
    requires place { at + length text.now + 1 < 2 ^ 32 }
    requires few { vec_len instances.old ≤ 24 }
    ensures step { PartStep
        (added_at (map instance_of instances.old.items) parent word (at, text.now))
        (map instance_of instances.old.items) (map instance_of instances.new.items) result }
    ensures few { OnOk result (vec_len instances.new ≤ 24) }
{
    let place = instances.len() as u32;
    match read_instance(alloc, instances, parent, word, at, text) {
        Ok(instance) => {
            if instances.push(instance).is_err() {
                return Err(StackError::NoMemory);
            }
            Ok(place)
        }
        Err(error) => Err(error),
    }
}

// The head of a chain: the name of an earlier instance, or an instance on samples.
fn read_head(
    alloc: Global,
    instances: &mut Vec<Instance>,
    word: u32,
    at: u32,
    text: &str,
) -> Result<u32, StackError>
    requires place { at + length text.now + 1 < 2 ^ 32 }
    requires few { vec_len instances.old ≤ 24 }
    ensures step { PartStep (head_at (map instance_of instances.old.items) word (at, text.now))
        (map instance_of instances.old.items) (map instance_of instances.new.items) result }
    ensures few { OnOk result (vec_len instances.new ≤ 24) }
{
    if !has_dash(kind_text(text)) {
        return add_instance(alloc, instances, None, word, at, text);
    }
    match place_named(instances, text.as_bytes()) {
        Some(place) => Ok(place),
        None => Err(fault(word, at, StackWhy::NoParent)),
    }
}

// A part of a chain: its head, or an instance on that of the part before it.
fn read_part(
    alloc: Global,
    instances: &mut Vec<Instance>,
    parent: Option<u32>,
    word: u32,
    at: u32,
    text: &str,
) -> Result<u32, StackError>
    requires place { at + length text.now + 1 < 2 ^ 32 }
    requires few { vec_len instances.old ≤ 24 }
    ensures step { PartStep
        (part_at (map instance_of instances.old.items) parent word (at, text.now))
        (map instance_of instances.old.items) (map instance_of instances.new.items) result }
    ensures few { OnOk result (vec_len instances.new ≤ 24) }
{
    match parent {
        None => read_head(alloc, instances, word, at, text),
        Some(_) => add_instance(alloc, instances, parent, word, at, text),
    }
}

// The parts of a chain, one behind another. Its new instances join those of earlier chains.
fn read_chain(
    alloc: Global,
    instances: &mut Vec<Instance>,
    word: u32,
    text: &str,
) -> Result<(), StackError>
    requires short { length text.now ≤ 4096 }
    requires few { vec_len instances.old ≤ 24 }
    ensures step { ChainStep
        (chain_by (map instance_of instances.old.items) (record { word = word; text = text.now }))
        (map instance_of instances.old.items) (map instance_of instances.new.items) result }
    ensures few { OnOk result (vec_len instances.new ≤ 24) }
{
    let mut parent = None;
    let mut at: u32 = 0;
    for part in text.split(',') {
        match read_part(alloc, instances, parent, word, at, part) {
            Ok(place) => parent = Some(place),
            Err(error) => return Err(error),
        }
        at = place_behind(at, part);
    }
    Ok(())
}

/// The instances of chains, or the first fault.
pub fn read_chains(alloc: Global, chains: &[ChainWord]) -> Result<Vec<Instance>, StackError>
    requires { All (λ chain. length (string_bytes chain.text) ≤ 4096) chains.now }
    ensures gives { Gives
        (λ v. map instance_of v.items) stack_fault_in (instances_of (map chain_of chains.now)) result }
    ensures few { IfOk result (λ v. vec_len v ≤ 24) }
{
    let mut instances = Vec::new(alloc);
    for chain in chains {
        match read_chain(alloc, &mut instances, chain.word, chain.text.as_str()) {
            Ok(()) => {}
            Err(error) => return Err(error),
        }
    }
    Ok(instances)
}
