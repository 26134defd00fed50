// Binding the instances of a stack to channels.
ghost use Rattle.std.specs.Prelude.{◌≡◌, ◌≤◌, ◌^◌, [], true, Some, length, map, option_map, IfOk};
ghost use Rattle.std.specs.Prelude.{OnOk, vec_len};
ghost use Rattle.std.specs.String.{string_bytes};
ghost use Rattle.la_base.specs.declared.samples.TheConstants.{MOST_PINS};
ghost use Rattle.la_base.specs.Naming.{find_channel};
ghost use Rattle.kind_table.specs.Kinds.{kind_row};
ghost use Rattle.stack_spec.specs.BindSteps.{ArePins, Binds, InstanceStep, RowStep, RowsStep};
ghost use Rattle.stack_spec.specs.Binding.{bind_value, instance_bound, on_channel, rows_bound};
ghost use Rattle.stack_words.specs.Meaning.{given_of, instance_of, meaning_of};
ghost use Rattle.decoder_set.specs.Opening.{setup_of};
ghost use Rattle.stack_words.specs.Sound.{IsForest, options_fit};
ghost use Rattle.stack_words.specs.Stacks.{instances_in};

use crate::Bound;
use cond_words::{BindError, BindFault, BindWhy, place_of};
use decoder_set::AnyDecoder;
use kind_table::{MOST_OPTIONS, OptValues, options_of};
use la_base::{Names, Pins, Rate};
use stack_words::{GivenValue, Instance, Stack, value_at};
use std::alloc::Global;

// The bit of the channel that a reference names, which joins the pins if it isn't one.
fn bind_channel(reference: &str, names: &Names, pins: &mut Pins) -> Result<Option<u64>, BindWhy>
    requires { ArePins MOST_PINS (length names.now) pins.old.items }
    ensures step { RowStep
        (on_channel MOST_PINS pins.old.items (find_channel names.now reference.now)) pins.old.items
        pins.new.items result }
    ensures pins { ArePins MOST_PINS (length names.now) pins.new.items }
{
    let Some(channel) = names.find(reference.as_bytes()) else {
        return Err(BindWhy::Unknown);
    };
    match place_of(pins, channel) {
        Some(place) => Ok(Some(u64::from(place))),
        None => Err(BindWhy::TooMany),
    }
}

// What a row is given, bound.
fn bind_value(
    value: Option<&GivenValue>,
    names: &Names,
    pins: &mut Pins,
) -> Result<Option<u64>, BindWhy>
    requires { ArePins MOST_PINS (length names.now) pins.old.items }
    ensures step { RowStep
        (bind_value MOST_PINS names.now pins.old.items
        (option_map (λ v. meaning_of v.now) value.entry)) pins.old.items pins.new.items result }
    ensures pins { ArePins MOST_PINS (length names.now) pins.new.items }
{
    match value {
        None => Ok(None),
        Some(value) => bind_given(value, names, pins),
    }
}

// A value that is given, bound.
fn bind_given(value: &GivenValue, names: &Names, pins: &mut Pins) -> Result<Option<u64>, BindWhy>
    requires { ArePins MOST_PINS (length names.now) pins.old.items }
    ensures step { RowStep
        (bind_value MOST_PINS names.now pins.old.items (Some (meaning_of value.now))) pins.old.items
        pins.new.items result }
    ensures pins { ArePins MOST_PINS (length names.now) pins.new.items }
{
    match value {
        GivenValue::Number(number) => Ok(Some(*number)),
        GivenValue::Channel(reference) => bind_channel(reference.as_str(), names, pins),
    }
}

// The values of an instance's options, its channels bound in the order of the table.
fn bind_rows(
    instance: &Instance,
    names: &Names,
    entry: u32,
    pins: &mut Pins,
) -> Result<OptValues, BindFault>
    requires { ArePins MOST_PINS (length names.now) pins.old.items }
    ensures step { RowsStep
        (rows_bound MOST_PINS names.now pins.old.items entry (instance_of instance.now))
        pins.old.items pins.new.items result }
    ensures pins { ArePins MOST_PINS (length names.now) pins.new.items }
{
    let mut given = [None; MOST_OPTIONS];
    for row in 0..options_of(instance.kind).len() {
        match bind_value(value_at(&instance.options, row), names, pins) {
            Ok(value) => given[row] = value,
            Err(why) => {
                return Err(BindFault {
                    entry,
                    item: row as u32,
                    why,
                });
            }
        }
    }
    Ok(OptValues { given })
}

// A decoder of an instance, bound.
fn bind_instance(
    instance: &Instance,
    names: &Names,
    rate: Rate,
    entry: u32,
    pins: &mut Pins,
) -> Result<AnyDecoder, BindFault>
    requires pins { ArePins MOST_PINS (length names.now) pins.old.items }
    requires rate { rate.num ≤ 10 ^ 15 }
    requires fit { options_fit (kind_row instance.now.kind)
        (map given_of instance.now.options.items) ≡ true }
    ensures step { InstanceStep
        (instance_bound MOST_PINS names.now rate pins.old.items entry (instance_of instance.now))
        pins.old.items pins.new.items result }
    ensures pins { ArePins MOST_PINS (length names.now) pins.new.items }
{
    match bind_rows(instance, names, entry, pins) {
        Ok(values) => match AnyDecoder::open(instance.kind, values, rate) {
            Ok(decoder) => Ok(decoder),
            // The options of a stack are in range, so it is the rate.
            Err(_) => Err(BindFault {
                entry,
                item: 0,
                why: BindWhy::Rate,
            }),
        },
        Err(fault) => Err(fault),
    }
}

/// Binds a stack to the channels of these names, at a rate: a decoder for each instance, in their
/// order, which has consumed nothing. Instances go in their order, and the channels of each in the
/// order of its kind's options, which `item` counts from 0. `Unknown` comes where a channel isn't
/// found by its reference, `TooMany` where it would be one pin more than `MOST_PINS`, `Rate` behind
/// the channels of an instance where the rate is too low for it. A channel that is used again has
/// the same pin. `NoMemory` comes only for want of memory.
pub fn bind(alloc: Global, stack: &Stack, names: &Names, rate: Rate) -> Result<Bound, BindError>
    requires { rate.num ≤ 10 ^ 15 }
    ensures binds { Binds MOST_PINS names.now rate (instances_in stack.now) result }
    ensures pins { IfOk result (λ bound. ArePins MOST_PINS (length names.now) bound.pins.items) }
    ensures kinds { IfOk result
        (λ bound. map (λ decoder. (setup_of decoder).kind) bound.machines.items
        ≡ map (λ instance. instance.kind) (instances_in stack.now)) }
    ensures forest { IfOk result (λ _. IsForest (instances_in stack.now)) }
{
    let mut machines = Vec::new(alloc);
    let mut parents = Vec::new(alloc);
    let mut pins = Pins::new();
    for (entry, instance) in stack.instances().iter().enumerate() {
        match bind_instance(instance, names, rate, entry as u32, &mut pins) {
            Ok(machine) => {
                if machines.push(machine).is_err() {
                    return Err(BindError::NoMemory);
                }
                if parents.push(instance.parent).is_err() {
                    return Err(BindError::NoMemory);
                }
            }
            Err(fault) => return Err(BindError::Fault(fault)),
        }
    }
    Ok(Bound {
        machines,
        parents,
        pins,
    })
}
