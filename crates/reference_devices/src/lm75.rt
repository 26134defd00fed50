// An LM75: each phase is told by what it means, and by all those before it.
ghost use Rattle.std.specs.Prelude.{◌≡◌, ◌++◌, ◌∷◌, [], map, OnOk, IfOk};
ghost use Rattle.dev_lm75.specs.Thermometer.{lm75_outs, pairs, phase_outs, pointer, read_outs};
ghost use Rattle.dev_lm75.specs.Thermometer.{singles, step, write_outs};
ghost use Rattle.list_cuts.specs.Along.{along};
ghost use Rattle.reference_devices.specs.Meant.{lm75_moved, meant};

use crate::phases::{Meaning, meanings_of};
use decoder_core::span_note;
use dev_lm75::Chip;
use i2c_phases::{byte_note, byte_of};
use la_base::{Out, Packet};
use std::alloc::{AllocError, Global};

// The pointer behind a phase.
fn moved(at: u8, meaning: &Meaning) -> u8
    ensures { result ≡ lm75_moved at (meant meaning.now) }
{
    match meaning {
        Meaning::Writes(bytes) => match bytes.first() {
            Some(first) => byte_of(*first) % 4,
            None => at,
        },
        Meaning::Reads(_) => at,
        Meaning::Reset => 0,
        Meaning::Nothing => at,
    }
}

// The pointer behind some phases.
fn pointer(before: &[Meaning]) -> u8
    ensures { result ≡ pointer (map meant before.now) }
{
    let mut at = 0;
    for meaning in before {
        at = moved(at, meaning);
    }
    at
}

// Appends a note of each byte.
fn add_singles(class: u16, bytes: &[Packet], outs: &mut Vec<Out>) -> Result<(), AllocError>
    ensures { OnOk result (outs.new.items ≡ outs.old.items ++ singles class bytes.now) }
{
    let mut rest = bytes;
    while let [byte, behind @ ..] = rest {
        outs.push(byte_note(class, *byte, byte_of(*byte) as u64, 0))?;
        rest = behind;
    }
    Ok(())
}

// Appends a note of each two bytes.
fn add_pairs(class: u16, bytes: &[Packet], outs: &mut Vec<Out>) -> Result<(), AllocError>
    ensures { OnOk result (outs.new.items ≡ outs.old.items ++ pairs class bytes.now) }
{
    let mut rest = bytes;
    while let [first, second, behind @ ..] = rest {
        let half_degrees = (byte_of(*first) as u64 * 256 + byte_of(*second) as u64) / 128;
        outs.push(span_note(class, first.start, second.end, half_degrees, 0))?;
        rest = behind;
    }
    Ok(())
}

// Appends what bytes give that are written to a register.
fn add_write(at: u8, bytes: &[Packet], outs: &mut Vec<Out>) -> Result<(), AllocError>
    ensures { OnOk result (outs.new.items ≡ outs.old.items ++ write_outs at bytes.now) }
{
    match at {
        1 => add_singles(1, bytes, outs),
        2 => add_pairs(4, bytes, outs),
        3 => add_pairs(6, bytes, outs),
        _ => Ok(()),
    }
}

// Appends what bytes give that are read from a register.
fn add_read(at: u8, bytes: &[Packet], outs: &mut Vec<Out>) -> Result<(), AllocError>
    ensures { OnOk result (outs.new.items ≡ outs.old.items ++ read_outs at bytes.now) }
{
    match at {
        1 => add_singles(2, bytes, outs),
        2 => add_pairs(5, bytes, outs),
        3 => add_pairs(7, bytes, outs),
        _ => add_pairs(3, bytes, outs),
    }
}

// Appends what a phase gives, by the pointer before it.
fn add_phase(from: u8, meaning: &Meaning, outs: &mut Vec<Out>) -> Result<(), AllocError>
    ensures { OnOk result (outs.new.items ≡ outs.old.items ++ phase_outs from (meant meaning.now)) }
{
    match meaning {
        Meaning::Writes(bytes) => match bytes.split_first() {
            Some((first, data)) => {
                let at = byte_of(*first) % 4;
                outs.push(byte_note(0, *first, at as u64, 0))?;
                add_write(at, data, outs)
            }
            None => Ok(()),
        },
        Meaning::Reads(bytes) => add_read(from, bytes, outs),
        Meaning::Nothing => Ok(()),
        Meaning::Reset => Ok(()),
    }
}

// Appends what all phases give, each behind those before it.
fn add_phases(meanings: &[Meaning], outs: &mut Vec<Out>) -> Result<(), AllocError>
    ensures { OnOk result (outs.new.items ≡ outs.old.items ++ along step (map meant meanings.now)) }
{
    for (place, meaning) in meanings.iter().enumerate() {
        let (before, _) = meanings.split_at(place);
        add_phase(pointer(before), meaning, outs)?;
    }
    Ok(())
}

/// All that packets give, by the definition of the LM75: it takes a time that grows as the square
/// of their number.
pub fn lm75_outputs_of(
    alloc: Global,
    chip: Chip,
    packets: &[Packet],
) -> Result<Vec<Out>, AllocError>
    ensures { IfOk result (λ outs. outs.items ≡ lm75_outs chip packets.now) }
{
    let meanings = meanings_of(alloc, 72 + chip.addr as u64, chip.resets, packets)?;
    let mut outs = Vec::new(alloc);
    add_phases(&meanings, &mut outs)?;
    Ok(outs)
}
