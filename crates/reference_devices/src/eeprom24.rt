// A 24xx EEPROM: each phase is told by what it means, and by all those before it.
ghost use Rattle.std.specs.Prelude.{◌≡◌, ◌≤◌, ◌<◌, ◌++◌, ◌∷◌, [], map, take, drop, length, OnOk};
ghost use Rattle.std.specs.Prelude.{IfOk};
ghost use Rattle.std.specs.List.{flat_map, enumerate_from};
ghost use Rattle.dev_eeprom24.specs.Eeprom.{address_len, data_of, eeprom_outs, has_word, in_page};
ghost use Rattle.dev_eeprom24.specs.Eeprom.{phase_outs, pointer, read_outs, step, word_note};
ghost use Rattle.dev_eeprom24.specs.Eeprom.{word_of, write_outs};
ghost use Rattle.i2c_phases.specs.Phases as phases;
ghost use Rattle.list_cuts.specs.Along.{along};
ghost use Rattle.reference_devices.specs.Meant.{meant, moved};

use crate::phases::{Meaning, meanings_of};
use decoder_core::span_note;
use dev_eeprom24::Chip;
use i2c_phases::{byte_note, byte_of, byte_piece};
use la_base::{Out, Packet};
use std::alloc::{AllocError, Global};

// How many bytes a word address has.
fn address_len(chip: Chip) -> usize
    ensures len { result ≡ address_len chip.size }
    ensures few { (1 ≤ result) × (result ≤ 2) }
{
    if chip.size <= 256 { 1 } else { 2 }
}

// The word address of a phase.
fn word_of(chip: Chip, bytes: &[Packet]) -> u32
    requires { address_len chip.size ≤ length bytes.now }
    ensures { result ≡ word_of chip bytes.now }
{
    let first = byte_of(bytes[0]) as u32;
    if chip.size <= 256 {
        return first % chip.size;
    }
    (first * 256 + byte_of(bytes[1]) as u32) % chip.size
}

// The address of a byte of data, by its place behind a word address.
fn in_page(chip: Chip, word: u32, place: usize) -> u64
    ensures { result ≡ in_page chip word place }
{
    let page = chip.page as u128;
    let place_in_page = (word as u128 + place as u128) % page;
    (word - word % chip.page) as u64 + place_in_page as u64
}

// Where the pointer stands behind a phase.
fn moved(chip: Chip, at: u32, meaning: &Meaning) -> u32
    ensures { result ≡ moved chip at (meant meaning.now) }
{
    let size = chip.size as u128;
    match meaning {
        Meaning::Writes(bytes) => {
            let len = address_len(chip);
            if bytes.len() < len {
                return at % chip.size;
            }
            let word = word_of(chip, bytes);
            (in_page(chip, word, bytes.len() - len) as u128 % size) as u32
        }
        Meaning::Reads(bytes) => ((at as u128 + bytes.len() as u128) % size) as u32,
        Meaning::Reset => 0,
        Meaning::Nothing => at % chip.size,
    }
}

// Where the pointer stands behind some phases.
fn pointer(chip: Chip, before: &[Meaning]) -> u32
    ensures { result ≡ pointer chip (map meant before.now) }
{
    let mut at = 0;
    for meaning in before {
        at = moved(chip, at, meaning);
    }
    at
}

// The note of a word address.
fn word_note(chip: Chip, bytes: &[Packet], word: u32) -> Out
    requires { address_len chip.size ≤ length bytes.now }
    ensures { result ∷ [] ≡ word_note (take (address_len chip.size) bytes.now) word }
{
    if chip.size <= 256 {
        return byte_note(0, bytes[0], word as u64, 0);
    }
    span_note(0, bytes[0].start, bytes[1].end, word as u64, 0)
}

// Appends the bytes of data behind a word address.
fn add_data(chip: Chip, word: u32, data: &[Packet], outs: &mut Vec<Out>) -> Result<(), AllocError>
    ensures { OnOk result
        (outs.new.items ≡ outs.old.items
        ++ flat_map (write_outs chip word) (enumerate_from 0 data.now)) }
{
    for (place, packet) in data.iter().enumerate() {
        let address = in_page(chip, word, place);
        outs.push(byte_note(1, *packet, byte_of(*packet) as u64, address))?;
        outs.push(byte_piece(0, *packet))?;
    }
    Ok(())
}

// Appends a write phase.
fn add_write(chip: Chip, bytes: &[Packet], outs: &mut Vec<Out>) -> Result<(), AllocError>
    ensures { OnOk result
        (outs.new.items ≡ outs.old.items ++ (phase_outs chip 0 (phases.Writes bytes.now))) }
{
    let len = address_len(chip);
    if bytes.len() < len {
        return Ok(());
    }
    let word = word_of(chip, bytes);
    outs.push(word_note(chip, bytes, word))?;
    let (_, data) = bytes.split_at(len);
    add_data(chip, word, data, outs)
}

// Appends a read phase, from the pointer before it on.
fn add_read(chip: Chip, from: u32, bytes: &[Packet], outs: &mut Vec<Out>) -> Result<(), AllocError>
    ensures { OnOk result
        (outs.new.items ≡ outs.old.items
        ++ flat_map (read_outs chip from) (enumerate_from 0 bytes.now)) }
{
    let size = chip.size as u128;
    for (place, packet) in bytes.iter().enumerate() {
        let address = (from as u128 + place as u128) % size;
        let byte = byte_of(*packet) as u64;
        outs.push(byte_note(2, *packet, byte, address as u64))?;
        outs.push(byte_piece(1, *packet))?;
    }
    Ok(())
}

// Appends what a phase gives, by the pointer before it.
fn add_phase(
    chip: Chip,
    from: u32,
    meaning: &Meaning,
    outs: &mut Vec<Out>,
) -> Result<(), AllocError>
    ensures { OnOk result
        (outs.new.items ≡ outs.old.items ++ phase_outs chip from (meant meaning.now)) }
{
    match meaning {
        Meaning::Writes(bytes) => add_write(chip, bytes, outs),
        Meaning::Reads(bytes) => add_read(chip, from, bytes, outs),
        Meaning::Nothing => Ok(()),
        Meaning::Reset => Ok(()),
    }
}

// Appends what all phases give, each behind those before it.
fn add_phases(chip: Chip, meanings: &[Meaning], outs: &mut Vec<Out>) -> Result<(), AllocError>
    ensures { OnOk result
        (outs.new.items ≡ outs.old.items ++ along (step chip) (map meant meanings.now)) }
{
    for (place, meaning) in meanings.iter().enumerate() {
        let (before, _) = meanings.split_at(place);
        add_phase(chip, pointer(chip, before), meaning, outs)?;
    }
    Ok(())
}

/// All that packets give, by the definition of the EEPROM: it takes a time that grows as the square
/// of their number.
pub fn outputs_of(alloc: Global, chip: Chip, packets: &[Packet]) -> Result<Vec<Out>, AllocError>
    ensures { IfOk result (λ outs. outs.items ≡ eeprom_outs chip packets.now) }
{
    let meanings = meanings_of(alloc, 80 + chip.addr as u64, chip.resets, packets)?;
    let mut outs = Vec::new(alloc);
    add_phases(chip, &meanings, &mut outs)?;
    Ok(outs)
}
