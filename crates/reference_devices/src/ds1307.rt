// A DS1307: each phase is told by what it means, and by all those before it.
ghost use Rattle.std.specs.Prelude.{◌≡◌, ◌++◌, ◌∷◌, ◌+◌, ◌%◌, [], map, length, OnOk, IfOk};
ghost use Rattle.dev_ds1307.specs.Clock.{byte_outs, clock_outs, number_of, phase_outs, register};
ghost use Rattle.dev_ds1307.specs.Clock.{step, time_outs};
ghost use Rattle.list_cuts.specs.Along.{along};
ghost use Rattle.reference_devices.specs.Meant.{clock_moved, meant};

use crate::phases::{Meaning, meanings_of};
use decoder_core::span_note;
use dev_ds1307::Chip;
use i2c_phases::{byte_note, byte_of, byte_piece};
use la_base::{Out, Packet};
use std::alloc::{AllocError, Global};

// The classes of notes of bytes, of notes of times, and of pieces.
#[derive(Clone, Copy)]
struct Classes {
    note: u16,
    time: u16,
    piece: u16,
}

const WRITTEN: Classes = Classes {
    note: 1,
    time: 3,
    piece: 0,
};

const READ: Classes = Classes {
    note: 2,
    time: 4,
    piece: 1,
};

// The register so many places behind another number.
fn behind(from: u8, places: usize) -> u8
    ensures { result ≡ (from + places) % 64 }
{
    ((from as u128 + places as u128) % 64) as u8
}

// The register behind a phase.
fn moved(at: u8, meaning: &Meaning) -> u8
    ensures { result ≡ clock_moved at (meant meaning.now) }
{
    match meaning {
        Meaning::Writes(bytes) => match bytes.split_first() {
            Some((first, data)) => behind(byte_of(*first), data.len()),
            None => at % 64,
        },
        Meaning::Reads(bytes) => behind(at, bytes.len()),
        Meaning::Reset => 0,
        Meaning::Nothing => at % 64,
    }
}

// The register behind some phases.
fn register(before: &[Meaning]) -> u8
    ensures { result ≡ register (map meant before.now) }
{
    let mut at = 0;
    for meaning in before {
        at = moved(at, meaning);
    }
    at
}

// Six bytes and one behind them as a number, the first lowest.
fn time_of(six: &[Packet], last: Packet) -> u64
    requires { length six.now ≡ 6 }
    ensures { result ≡ number_of (six.now ++ last ∷ []) }
{
    match six {
        [a, b, c, d, e, f] => {
            let high = byte_of(*e) as u64 + 256 * (byte_of(*f) as u64 + 256 * byte_of(last) as u64);
            let middle = byte_of(*c) as u64 + 256 * (byte_of(*d) as u64 + 256 * high);
            byte_of(*a) as u64 + 256 * (byte_of(*b) as u64 + 256 * middle)
        }
        _ => 0,
    }
}

// Appends the time that a byte at this register ends.
fn add_time(
    class: u16,
    at: u8,
    before: &[Packet],
    byte: Packet,
    outs: &mut Vec<Out>,
) -> Result<(), AllocError>
    ensures { OnOk result (outs.new.items ≡ outs.old.items ++ time_outs class at before.now byte) }
{
    if at != 6 || before.len() < 6 {
        return Ok(());
    }
    let (_, six) = before.split_at(before.len() - 6);
    outs.push(span_note(class, six[0].start, byte.end, time_of(six, byte), 0))?;
    Ok(())
}

// Appends what a byte gives behind those before it in its phase, the first of which is at register
// `from`.
fn add_byte(
    classes: Classes,
    from: u8,
    before: &[Packet],
    byte: Packet,
    outs: &mut Vec<Out>,
) -> Result<(), AllocError>
    ensures { OnOk result
        (outs.new.items ≡ outs.old.items
        ++ byte_outs classes.note classes.time classes.piece from before.now byte) }
{
    let at = behind(from, before.len());
    outs.push(byte_note(classes.note, byte, byte_of(byte) as u64, at as u64))?;
    add_time(classes.time, at, before, byte, outs)?;
    outs.push(byte_piece(classes.piece, byte))?;
    Ok(())
}

// Appends what bytes give, the first of which is at register `from`.
fn add_bytes(
    classes: Classes,
    from: u8,
    bytes: &[Packet],
    outs: &mut Vec<Out>,
) -> Result<(), AllocError>
    ensures { OnOk result
        (outs.new.items ≡ outs.old.items
        ++ along (byte_outs classes.note classes.time classes.piece from) bytes.now) }
{
    for (place, byte) in bytes.iter().enumerate() {
        let (before, _) = bytes.split_at(place);
        add_byte(classes, from, before, *byte, outs)?;
    }
    Ok(())
}

// Appends what a phase gives, by the register before it.
fn add_phase(from: u8, meaning: &Meaning, outs: &mut Vec<Out>) -> Result<(), AllocError>
    ensures { OnOk result (outs.new.items ≡ outs.old.items ++ phase_outs from (meant meaning.now)) }
{
    match meaning {
        Meaning::Writes(bytes) => match bytes.split_first() {
            Some((first, data)) => {
                let byte = byte_of(*first);
                outs.push(byte_note(0, *first, (byte % 64) as u64, 0))?;
                add_bytes(WRITTEN, byte, data, outs)
            }
            None => Ok(()),
        },
        Meaning::Reads(bytes) => add_bytes(READ, from, bytes, outs),
        Meaning::Nothing => Ok(()),
        Meaning::Reset => Ok(()),
    }
}

// Appends what all phases give, each behind those before it.
fn add_phases(meanings: &[Meaning], outs: &mut Vec<Out>) -> Result<(), AllocError>
    ensures { OnOk result (outs.new.items ≡ outs.old.items ++ along step (map meant meanings.now)) }
{
    for (place, meaning) in meanings.iter().enumerate() {
        let (before, _) = meanings.split_at(place);
        add_phase(register(before), meaning, outs)?;
    }
    Ok(())
}

/// All that packets give, by the definition of the DS1307: it takes a time that grows as the square
/// of their number.
pub fn clock_outputs_of(
    alloc: Global,
    chip: Chip,
    packets: &[Packet],
) -> Result<Vec<Out>, AllocError>
    ensures { IfOk result (λ outs. outs.items ≡ clock_outs chip packets.now) }
{
    let meanings = meanings_of(alloc, 104, chip.resets, packets)?;
    let mut outs = Vec::new(alloc);
    add_phases(&meanings, &mut outs)?;
    Ok(outs)
}
