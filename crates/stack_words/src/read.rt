// Reading a stack, and what it holds.
ghost use Rattle.std.specs.Prelude.{◌≡◌, ◌==◌, ◌<◌, ◌≤◌, All, IfOk, IfSome, Some, length, map};
ghost use Rattle.std.specs.Prelude.{slice_get, option_map, true};
ghost use Rattle.std.specs.List.{list_any};
ghost use Rattle.std.specs.String.{string_bytes};
ghost use Rattle.text_parts.specs.Chains.{chain_of};
ghost use Rattle.text_parts.specs.Reading.{Gives};
ghost use Rattle.stack_words.specs.Accepting.{is_shown, stack_of};
ghost use Rattle.stack_words.specs.Meaning.{instance_of, stack_fault_in};
ghost use Rattle.stack_words.specs.Sound.{IsForest, is_sound};
ghost use Rattle.stack_words.specs.Stacks.{instances_in, stack_meaning};

use crate::chains::read_chains;
use crate::instance::Instance;
use crate::shown::{read_binary, read_shown};
use crate::{Stack, StackError};
use kind_table::Kind;
use std::alloc::Global;
use text_parts::ChainWord;

/// The stack that chains name, or their first fault: chains from left to right, then the names to
/// be shown, then the class of binary data. No `show` shows all. Each text has at most 4,096 bytes.
/// `NoMemory` comes only for want of memory.
pub fn read_stack(
    alloc: Global,
    chains: &[ChainWord],
    show: Option<&ChainWord>,
    binary: Option<&ChainWord>,
) -> Result<Stack, StackError>
    requires chains { All (λ chain. length (string_bytes chain.text) ≤ 4096) chains.now }
    requires show { IfSome show (λ chain. length (string_bytes chain.now.text) ≤ 4096) }
    requires binary { IfSome binary (λ chain. length (string_bytes chain.now.text) ≤ 4096) }
    ensures gives { Gives stack_meaning
        stack_fault_in (stack_of (map chain_of chains.now)
        (option_map (λ chain. chain_of chain.now) show.entry)
        (option_map (λ chain. chain_of chain.now) binary.entry)) result }
    ensures forest { IfOk result (λ stack. IsForest (instances_in stack)) }
{
    let instances = match read_chains(alloc, chains) {
        Ok(instances) => instances,
        Err(error) => return Err(error),
    };
    let shown = match read_shown(alloc, &instances, show) {
        Ok(shown) => shown,
        Err(error) => return Err(error),
    };
    let binary = match read_binary(&instances, binary) {
        Ok(binary) => binary,
        Err(error) => return Err(error),
    };
    Ok(Stack {
        instances,
        shown,
        binary,
    })
}

// Whether a number is one of these.
fn has(places: &[u32], instance: u32) -> bool
    ensures { result ≡ list_any (λ place. place == instance) places.now }
{
    places.iter().any(|place| *place == instance)
}

impl Stack {
    /// How many instances there are.
    pub fn count(&self) -> u32
        ensures count { result ≡ length (instances_in self.now) }
        ensures few { result ≤ 24 }
    {
        self.instances.len() as u32
    }

    /// The instances in their order: they are sound.
    pub fn instances(&self) -> &[Instance]
        ensures instances { map instance_of result.now ≡ instances_in self.now }
        ensures sound { is_sound (instances_in self.now) ≡ true }
    {
        &self.instances
    }

    /// The kind of an instance.
    pub fn kind(&self, instance: u32) -> Kind
        requires { instance < length (instances_in self.now) }
        ensures { option_map (λ i. i.kind) (slice_get (instances_in self.now) instance)
            ≡ Some result }
    {
        self.instances[instance as usize].kind
    }

    /// The number of an instance among those of its kind, counted from 1.
    pub fn number(&self, instance: u32) -> u32
        requires { instance < length (instances_in self.now) }
        ensures { option_map (λ i. i.number) (slice_get (instances_in self.now) instance)
            ≡ Some result }
    {
        self.instances[instance as usize].number
    }

    /// Whether an instance is shown.
    pub fn shown(&self, instance: u32) -> bool
        ensures { result ≡ is_shown (stack_meaning self.now).shown instance }
    {
        match &self.shown {
            None => true,
            Some(places) => has(places, instance),
        }
    }

    /// The instance and its class whose binary data is wanted.
    pub fn binary(&self) -> Option<(u32, u16)>
        ensures binary { option_map (λ b. (b.0, b.1)) result ≡ (stack_meaning self.now).binary }
        ensures within { IfSome result (λ b. b.0 < length (instances_in self.now)) }
    {
        self.binary
    }
}
