// A run of the job `part`.
ghost use Rattle.std.specs.Prelude.{◌≡◌, ◌≤◌, length, map, IfSome, IfOk, IfErr};
ghost use Rattle.std.specs.Prelude.{option_map};
ghost use Rattle.std.specs.String.{string_bytes};
ghost use Rattle.kind_table.specs.Kinds.{place_of};
ghost use Rattle.decoder_set.specs.Opening.{setup_of};
ghost use Rattle.stack_words.specs.Stacks.{instances_in};
ghost use Rattle.words.specs.Settings.{meaning_of};
ghost use Rattle.words.specs.declared.kinds.Job.TheVariants.{Part};
ghost use Rattle.run_asks.specs.Asking.{NamesNoHead};
ghost use Rattle.run_asks.specs.Parting.{Begun, CanBegin, CantBegin};
ghost use Rattle.ldecode.specs.Calls.{AreRead, CausedOn};
ghost use Rattle.ldecode.specs.Headline.{WorksOn};

use crate::part_status::status_of_part;
use arrayvec::ArrayVec;
use check_point::{CheckFault, CheckWhy, read_check};
use decode_job::{PartStart, part};
use decoder_core::Keep;
use decoder_set::AnyDecoder;
use kind_table::place_of;
use la_io::{Sink, Source};
use run_status::Status;
use stack_open::{Opened, open_stack};
use stack_words::Stack;
use std::alloc::Global;
use tree_runs::new_machines_stand;
use words::Settings;

/// The most decoders that a checkpoint can have.
const MOST_DECODERS: u32 = 8;

// The places of the kinds of a stack's instances.
fn places(stack: &Stack) -> ArrayVec<u8, 8>
    requires { length (instances_in stack.now) ≤ 8 }
    ensures { result.items ≡ map (λ instance. place_of instance.kind) (instances_in stack.now) }
{
    let mut places = ArrayVec::new();
    for instance in 0..stack.count() {
        places.push(place_of(stack.kind(instance)));
    }
    places
}

// Loads the decoders of a stack from the checkpoint that is given, and answers how many samples
// came before; none where no checkpoint is given. A fault says why they can't go on.
fn begin(
    stack: &Stack,
    machines: &mut [AnyDecoder],
    from: Option<&String>,
) -> Result<u64, CheckFault>
    requires short { IfSome from (λ text. length (string_bytes text.now) ≤ 4096) }
    requires kinds { map (λ decoder. (setup_of decoder).kind) machines.old
        ≡ map (λ instance. instance.kind) (instances_in stack.now) }
    ensures begun { IfOk result (Begun ⟦<AnyDecoder as Keep>⟧.saves machines.old
        machines.new (option_map (λ text. string_bytes text.now) from.entry)) }
    ensures begins { IfOk result
        (CanBegin ⟦<AnyDecoder as Keep>⟧.saves (map setup_of machines.old)
        (option_map (λ text. string_bytes text.now) from.entry)) }
    ensures refused { IfErr result
        (CantBegin ⟦<AnyDecoder as Keep>⟧.saves (map setup_of machines.old)
        (option_map (λ text. string_bytes text.now) from.entry)) }
{
    if stack.count() > MOST_DECODERS {
        return Err(CheckFault {
            instance: MOST_DECODERS,
            why: CheckWhy::Many,
        });
    }
    match from {
        None => Ok(0),
        Some(word) => read_check(word.as_str(), machines, places(stack).as_slice()),
    }
}

/// Decodes a part of a capture under the stack that the settings ask for, on this one thread,
/// behind the checkpoint that they name, and writes the checkpoint behind it.
pub fn part_stack<S: Source, K: Sink>(
    alloc: Global,
    settings: &Settings,
    source: &mut S,
    sink: &mut K,
) -> Status
    requires job { settings.now.job ≡ Part }
    requires read { AreRead settings.now }
    ensures works { WorksOn ⟦<AnyDecoder as Keep>⟧.saves (meaning_of settings.now)
        (S.left source.old) (S.left source.new) (K.written sink.old) (K.written sink.new) result }
    ensures causes { CausedOn (NamesNoHead (meaning_of settings.now)) S.faults K.faults
        source.old source.new sink.old sink.new result }
{
    let Opened {
        stack,
        capture,
        machines,
        parents,
    } = match open_stack(alloc, settings, source) {
        Ok(opened) => opened,
        Err(status) => return status,
    };
    let mut machines = machines;
    let machines = machines.as_mut_slice();
    new_machines_stand(machines, &parents);
    let earlier = match begin(&stack, machines, settings.from.as_ref()) {
        Ok(earlier) => earlier,
        Err(fault) => return Status::Check(fault),
    };
    let kinds = places(&stack);
    let start = PartStart {
        stack: &stack,
        parents: &parents,
        kinds: kinds.as_slice(),
        earlier,
    };
    let mut capture = capture;
    status_of_part(part(alloc, &start, &mut capture, machines, source, sink))
}
