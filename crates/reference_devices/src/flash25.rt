//! A serial flash of the 25 series: each transaction is told by its words.
ghost use Rattle.std.specs.Prelude.{◌≡◌, ◌++◌, ◌∷◌, [], length, IfOk, OnOk};
ghost use Rattle.std.specs.List.{flat_map};
ghost use Rattle.decoder_core.specs.Outputs as outputs;
ghost use Rattle.dev_flash25.specs.Flash.{address, behind, behind_dummy, command_of, data_summary};
ghost use Rattle.dev_flash25.specs.Flash.{fast_reads, flash, flash_outs, id_outs, in_page, is_word};
ghost use Rattle.dev_flash25.specs.Flash.{last_in, miso, mosi, program_outs, programs, read_outs};
ghost use Rattle.dev_flash25.specs.Flash.{reads, status_outs, summary, three_bytes, with_three};
ghost use Rattle.dev_flash25.specs.Flash.{word_note, word_piece, words_in, words_outs};
ghost use Rattle.dev_flash25.specs.Flash.{words_summary, written_outs};
ghost use Rattle.reference_devices.specs.FlashParts.{at_summary, data_behind, number_outs};
ghost use Rattle.reference_devices.specs.FlashParts.{whole_summary};

use crate::transactions::{Transacts, outputs_by};
use decoder_core::{span_note, span_piece};
use dev_flash25::Command;
use la_base::{Out, Packet, PacketKind};
use std::alloc::{AllocError, Global};

fn is_word(kind: PacketKind) -> bool
    ensures { result ≡ is_word kind }
{
    matches!(kind, PacketKind::SpiWord)
}

fn mosi(word: Packet) -> u8
    ensures { result ≡ mosi word }
{
    (word.a % 256) as u8
}

fn miso(word: Packet) -> u8
    ensures { result ≡ miso word }
{
    (word.b % 256) as u8
}

fn word_note(class: u16, word: Packet, a: u64, b: u64) -> Out
    ensures { result ≡ word_note class word a b }
{
    span_note(class, word.start, word.end, a, b)
}

fn word_piece(class: u16, word: Packet, byte: u8) -> Out
    ensures { result ≡ word_piece class word byte }
{
    span_piece(class, word.start, word.end, byte)
}

// Which instruction a byte is.
fn command_of(byte: u8) -> Command
    ensures { result ≡ command_of byte }
{
    match byte {
        0x9F => Command::Id,
        0x05 => Command::Status,
        0x01 => Command::WriteStatus,
        0x03 => Command::Read,
        0x0B => Command::FastRead,
        0x02 => Command::Program,
        0x20 => Command::EraseSector,
        0xD8 => Command::EraseBlock,
        0xC7 => Command::EraseChip,
        0x60 => Command::EraseChip,
        _ => Command::Other,
    }
}

// Three bytes as a number, the first the highest.
fn three_bytes(first: u8, second: u8, third: u8) -> u32
    ensures { result ≡ three_bytes first second third }
{
    (first as u32 * 256 + second as u32) * 256 + third as u32
}

fn address(x: Packet, y: Packet, z: Packet) -> u32
    ensures { result ≡ address x y z }
{
    three_bytes(mosi(x), mosi(y), mosi(z))
}

// The address of a byte that is programmed, by its place behind the address.
fn in_page(at: u32, place: usize) -> u64
    ensures { result ≡ in_page at place }
{
    (at - at % 256) as u64 + ((at as u128 + place as u128) % 256) as u64
}

// Appends a word to a list of words, if it is one.
fn add_if_word(packet: Packet, words: &mut Vec<Packet>) -> Result<(), AllocError>
    ensures { OnOk result (words.new.items ≡ words.old.items ++ words_in (packet ∷ [])) }
{
    if !is_word(packet.kind) {
        return Ok(());
    }
    words.push(packet)?;
    Ok(())
}

// The words among packets.
fn words_in(alloc: Global, packets: &[Packet]) -> Result<Vec<Packet>, AllocError>
    ensures { IfOk result (λ words. words.items ≡ words_in packets.now) }
{
    let mut words = Vec::new(alloc);
    for packet in packets {
        add_if_word(*packet, &mut words)?;
    }
    Ok(words)
}

// Appends each status that is read.
fn add_statuses(words: &[Packet], outs: &mut Vec<Out>) -> Result<(), AllocError>
    ensures { OnOk result (outs.new.items ≡ outs.old.items ++ flat_map status_outs words.now) }
{
    for word in words {
        outs.push(word_note(2, *word, miso(*word) as u64, 0))?;
    }
    Ok(())
}

// Appends each status that is written.
fn add_written(words: &[Packet], outs: &mut Vec<Out>) -> Result<(), AllocError>
    ensures { OnOk result (outs.new.items ≡ outs.old.items ++ flat_map written_outs words.now) }
{
    for word in words {
        outs.push(word_note(3, *word, mosi(*word) as u64, 0))?;
    }
    Ok(())
}

// Appends a byte that is read.
fn add_read(at: u64, word: Packet, outs: &mut Vec<Out>) -> Result<(), AllocError>
    ensures { OnOk result (outs.new.items ≡ outs.old.items ++ read_outs at word) }
{
    outs.push(word_note(5, word, miso(word) as u64, at))?;
    outs.push(word_piece(0, word, miso(word)))?;
    Ok(())
}

// Appends a byte that is programmed.
fn add_programmed(at: u64, word: Packet, outs: &mut Vec<Out>) -> Result<(), AllocError>
    ensures { OnOk result (outs.new.items ≡ outs.old.items ++ program_outs at word) }
{
    outs.push(word_note(6, word, mosi(word) as u64, at))?;
    outs.push(word_piece(1, word, mosi(word)))?;
    Ok(())
}

// Appends all bytes that are read from an address on.
fn add_reads(at: u32, words: &[Packet], outs: &mut Vec<Out>) -> Result<(), AllocError>
    ensures { OnOk result (outs.new.items ≡ outs.old.items ++ reads at words.now) }
{
    for (place, word) in words.iter().enumerate() {
        let here = (at as u128 + place as u128) % (1 << 24);
        add_read(here as u64, *word, outs)?;
    }
    Ok(())
}

// Appends all bytes that are programmed in the page of an address.
fn add_programs(at: u32, words: &[Packet], outs: &mut Vec<Out>) -> Result<(), AllocError>
    ensures { OnOk result (outs.new.items ≡ outs.old.items ++ programs at words.now) }
{
    for (place, word) in words.iter().enumerate() {
        add_programmed(in_page(at, place), *word, outs)?;
    }
    Ok(())
}

// Appends all bytes of a fast read, behind the word that says nothing.
fn add_fast_reads(at: u32, words: &[Packet], outs: &mut Vec<Out>) -> Result<(), AllocError>
    ensures { OnOk result (outs.new.items ≡ outs.old.items ++ fast_reads at words.now) }
{
    match words.split_first() {
        Some((_, data)) => add_reads(at, data, outs),
        None => Ok(()),
    }
}

// The first three words behind an instruction.
#[derive(Clone, Copy)]
struct Three {
    x: Packet,
    y: Packet,
    z: Packet,
}

// Appends an address.
fn add_address(three: Three, outs: &mut Vec<Out>) -> Result<(), AllocError>
    ensures { OnOk result
        (outs.new.items ≡ outs.old.items
        ++ outputs.span_note 4 three.x.start three.z.end (address three.x three.y three.z) 0 ∷ []) }
{
    let at = address(three.x, three.y, three.z);
    outs.push(span_note(4, three.x.start, three.z.end, at as u64, 0))?;
    Ok(())
}

// Appends an ID.
fn add_id(three: Three, outs: &mut Vec<Out>) -> Result<(), AllocError>
    ensures { OnOk result (outs.new.items ≡ outs.old.items ++ id_outs three.x three.y three.z []) }
{
    let id = three_bytes(miso(three.x), miso(three.y), miso(three.z));
    outs.push(span_note(1, three.x.start, three.z.end, id as u64, 0))?;
    Ok(())
}

// Appends the data behind an address.
fn add_data(
    command: Command,
    at: u32,
    words: &[Packet],
    outs: &mut Vec<Out>,
) -> Result<(), AllocError>
    ensures { OnOk result (outs.new.items ≡ outs.old.items ++ data_behind command at words.now) }
{
    match command {
        Command::Read => add_reads(at, words, outs),
        Command::FastRead => add_fast_reads(at, words, outs),
        Command::Program => add_programs(at, words, outs),
        _ => Ok(()),
    }
}

// Appends what a number of three bytes says, and the words behind it.
fn add_number(
    command: Command,
    three: Three,
    others: &[Packet],
    outs: &mut Vec<Out>,
) -> Result<(), AllocError>
    ensures { OnOk result
        (outs.new.items ≡ outs.old.items
        ++ number_outs command three.x three.y three.z others.now) }
{
    if matches!(command, Command::Id) {
        return add_id(three, outs);
    }
    add_address(three, outs)?;
    add_data(command, address(three.x, three.y, three.z), others, outs)
}

// Appends what the words behind an instruction say that has a number.
fn add_numbered(command: Command, words: &[Packet], outs: &mut Vec<Out>) -> Result<(), AllocError>
    ensures { OnOk result
        (outs.new.items ≡ outs.old.items ++ with_three (number_outs command) words.now) }
{
    if words.len() < 3 {
        return Ok(());
    }
    let (_, others) = words.split_at(3);
    let three = Three {
        x: words[0],
        y: words[1],
        z: words[2],
    };
    add_number(command, three, others, outs)
}

// Appends what the words behind an instruction say.
fn add_behind(command: Command, words: &[Packet], outs: &mut Vec<Out>) -> Result<(), AllocError>
    ensures { OnOk result (outs.new.items ≡ outs.old.items ++ behind command words.now) }
{
    match command {
        Command::Status => add_statuses(words, outs),
        Command::WriteStatus => add_written(words, outs),
        Command::EraseChip => Ok(()),
        Command::Other => Ok(()),
        Command::Id => add_numbered(command, words, outs),
        Command::Read => add_numbered(command, words, outs),
        Command::FastRead => add_numbered(command, words, outs),
        Command::Program => add_numbered(command, words, outs),
        Command::EraseSector => add_numbered(command, words, outs),
        Command::EraseBlock => add_numbered(command, words, outs),
    }
}

// The last of some words.
fn last_in(command: Packet, words: &[Packet]) -> Packet
    ensures { result ≡ last_in command words.now }
{
    let mut last = command;
    for word in words {
        last = *word;
    }
    last
}

// A transaction's summary: the start of its instruction and the end of its last word.
#[derive(Clone, Copy)]
struct Span {
    first: u64,
    last: u64,
}

// Appends how many bytes of data there were at an address, if there were any.
fn add_count(
    class: u16,
    span: Span,
    at: u32,
    words: &[Packet],
    outs: &mut Vec<Out>,
) -> Result<(), AllocError>
    ensures { OnOk result
        (outs.new.items ≡ outs.old.items
        ++ data_summary class span.first span.last at (length words.now)) }
{
    if words.is_empty() {
        return Ok(());
    }
    let count = (words.len() as u64).min(1 << 60);
    outs.push(span_note(class, span.first, span.last, count, at as u64))?;
    Ok(())
}

// The words behind the one that says nothing.
fn behind_dummy(words: &[Packet]) -> &[Packet]
    ensures { result.now ≡ behind_dummy words.now }
{
    match words.split_first() {
        Some((_, data)) => data,
        None => words,
    }
}

// Appends the summary of an instruction whose address is whole.
fn add_whole(
    command: Command,
    span: Span,
    at: u32,
    others: &[Packet],
    outs: &mut Vec<Out>,
) -> Result<(), AllocError>
    ensures { OnOk result
        (outs.new.items ≡ outs.old.items ++ at_summary command span.first span.last at others.now) }
{
    match command {
        Command::Read => add_count(7, span, at, others, outs),
        Command::FastRead => add_count(7, span, at, behind_dummy(others), outs),
        Command::Program => add_count(8, span, at, others, outs),
        Command::EraseSector => {
            outs.push(span_note(9, span.first, span.last, 0, at as u64))?;
            Ok(())
        }
        Command::EraseBlock => {
            outs.push(span_note(10, span.first, span.last, 0, at as u64))?;
            Ok(())
        }
        _ => Ok(()),
    }
}

// Appends the summary of an instruction that has an address, where that is whole.
fn add_addressed(
    command: Command,
    span: Span,
    words: &[Packet],
    outs: &mut Vec<Out>,
) -> Result<(), AllocError>
    ensures { OnOk result
        (outs.new.items ≡ outs.old.items
        ++ with_three (whole_summary command span.first span.last) words.now) }
{
    if words.len() < 3 {
        return Ok(());
    }
    let (_, others) = words.split_at(3);
    let at = address(words[0], words[1], words[2]);
    add_whole(command, span, at, others, outs)
}

// Appends the summary of a transaction.
fn add_summary(
    command: Command,
    span: Span,
    words: &[Packet],
    outs: &mut Vec<Out>,
) -> Result<(), AllocError>
    ensures { OnOk result
        (outs.new.items ≡ outs.old.items ++ summary command span.first span.last words.now) }
{
    match command {
        Command::Read => add_addressed(command, span, words, outs),
        Command::FastRead => add_addressed(command, span, words, outs),
        Command::Program => add_addressed(command, span, words, outs),
        Command::EraseSector => add_addressed(command, span, words, outs),
        Command::EraseBlock => add_addressed(command, span, words, outs),
        Command::EraseChip => {
            outs.push(span_note(11, span.first, span.last, 0, 0))?;
            Ok(())
        }
        Command::Id => Ok(()),
        Command::Status => Ok(()),
        Command::WriteStatus => Ok(()),
        Command::Other => Ok(()),
    }
}

// Appends what the words of a transaction say.
fn add_words(words: &[Packet], outs: &mut Vec<Out>) -> Result<(), AllocError>
    ensures { OnOk result (outs.new.items ≡ outs.old.items ++ words_outs words.now) }
{
    match words.split_first() {
        Some((command, others)) => {
            outs.push(word_note(0, *command, mosi(*command) as u64, 0))?;
            add_behind(command_of(mosi(*command)), others, outs)
        }
        None => Ok(()),
    }
}

// Appends the summary of the words of a transaction.
fn add_closing(words: &[Packet], outs: &mut Vec<Out>) -> Result<(), AllocError>
    ensures { OnOk result (outs.new.items ≡ outs.old.items ++ words_summary words.now) }
{
    match words.split_first() {
        Some((command, others)) => {
            let span = Span {
                first: command.start,
                last: last_in(*command, others).end,
            };
            add_summary(command_of(mosi(*command)), span, others, outs)
        }
        None => Ok(()),
    }
}

// A flash by its transactions.
#[derive(Drop)]
struct Words {
    alloc: Global,
}

impl Transacts for Words {
    ghost device = { λ _. flash };

    fn begins(&self, packet: Packet) -> bool {
        matches!(packet.kind, PacketKind::SpiSelect)
    }

    fn ends(&self, packet: Packet) -> bool {
        matches!(packet.kind, PacketKind::SpiDeselect)
    }

    fn add_inside(&self, packets: &[Packet], outs: &mut Vec<Out>) -> Result<(), AllocError> {
        let words = words_in(self.alloc, packets)?;
        add_words(&words, outs)
    }

    fn add_closing(&self, packets: &[Packet], outs: &mut Vec<Out>) -> Result<(), AllocError> {
        let words = words_in(self.alloc, packets)?;
        add_closing(&words, outs)
    }
}

/// All that packets give, by the definition of the flash.
pub fn outputs_of(alloc: Global, packets: &[Packet]) -> Result<Vec<Out>, AllocError>
    ensures { IfOk result (λ outs. outs.items ≡ flash_outs packets.now) }
{
    let flash = Words { alloc };
    outputs_by(alloc, &flash, packets)
}
