// The words of a transaction, one by one.
ghost use Rattle.std.specs.Prelude.{◌≡◌, ◌≤◌, ◌%◌, []};
ghost use Rattle.dev_flash25.specs.Flash.{command_of, miso, mosi, read_outs, three_bytes};
ghost use Rattle.dev_flash25.specs.Flash.{word_note, word_piece};
ghost use Rattle.dev_flash25.specs.laws.Held.{data_outs, each_outs, has_dummy, has_number};
ghost use Rattle.dev_flash25.specs.laws.Held.{number_byte, number_class, number_next, rest_begun};
ghost use Rattle.dev_flash25.specs.laws.Held.{room_of, said_gives, said_next, whole_begun};
ghost use Rattle.dev_flash25.specs.laws.Held.{words_give, words_next};

use crate::{Command, Said, Words};
use decoder_core::{Outs, span_note, span_piece};
use la_base::{Out, Packet};

// The most bytes of data that are counted.
const MOST: u64 = 1 << 60;

// The byte that the master sends in a word.
fn mosi(word: Packet) -> u8
    ensures { result ≡ mosi word }
{
    (word.a % 256) as u8
}

// The byte that the flash sends in a word.
fn miso(word: Packet) -> u8
    ensures { result ≡ miso word }
{
    (word.b % 256) as u8
}

fn word_note(class: u16, word: Packet, a: u64, b: u64) -> Out
    ensures { result ≡ word_note class word a b }
{
    span_note(class, word.start, word.end, a, b)
}

fn word_piece(class: u16, word: Packet, byte: u8) -> Out
    ensures { result ≡ word_piece class word byte }
{
    span_piece(class, word.start, word.end, byte)
}

// Which instruction a byte is.
fn command_of(byte: u8) -> Command
    ensures { result ≡ command_of byte }
{
    match byte {
        0x9F => Command::Id,
        0x05 => Command::Status,
        0x01 => Command::WriteStatus,
        0x03 => Command::Read,
        0x0B => Command::FastRead,
        0x02 => Command::Program,
        0x20 => Command::EraseSector,
        0xD8 => Command::EraseBlock,
        0xC7 => Command::EraseChip,
        0x60 => Command::EraseChip,
        _ => Command::Other,
    }
}

// Whether three bytes behind an instruction make up a number.
fn has_number(command: Command) -> bool
    ensures { result ≡ has_number command }
{
    match command {
        Command::Id => true,
        Command::Read => true,
        Command::FastRead => true,
        Command::Program => true,
        Command::EraseSector => true,
        Command::EraseBlock => true,
        Command::Status => false,
        Command::WriteStatus => false,
        Command::EraseChip => false,
        Command::Other => false,
    }
}

// Whether a word behind the address says nothing.
fn has_dummy(command: Command) -> bool
    ensures { result ≡ has_dummy command }
{
    matches!(command, Command::FastRead)
}

// How many addresses there are up to where data go on at the front: those of a page, or all.
fn room_of(command: Command) -> u32
    ensures room { result ≡ room_of command }
    ensures some { 1 ≤ result }
{
    match command {
        Command::Program => 256,
        _ => 1 << 24,
    }
}

// The byte of a word that belongs to the number: an ID is sent by the flash.
fn number_byte(command: Command, word: Packet) -> u8
    ensures { result ≡ number_byte command word }
{
    match command {
        Command::Id => miso(word),
        _ => mosi(word),
    }
}

// Three bytes as a number, the first the highest.
fn three_bytes(first: u8, second: u8, third: u8) -> u32
    ensures { result ≡ three_bytes first second third }
{
    (first as u32 * 256 + second as u32) * 256 + third as u32
}

// A place below so many.
fn modulo(place: u64, room: u32) -> u32
    requires { 1 ≤ room }
    ensures { result ≡ place % room }
{
    (place % room as u64) as u32
}

// What is kept behind a number: the place of the first byte of data.
fn whole_begun(command: Command, number: u32) -> Said
    ensures { result ≡ whole_begun command number }
{
    Said::Whole {
        number,
        place: modulo(number as u64, room_of(command)),
        count: 0,
    }
}

// What is kept behind a number and before what follows it.
fn rest_begun(command: Command, number: u32) -> Said
    ensures { result ≡ rest_begun command number }
{
    if has_dummy(command) {
        Said::Dummy { number }
    } else {
        whole_begun(command, number)
    }
}

// What is kept behind one more word of an instruction with a number.
fn number_next(command: Command, said: Said, word: Packet) -> Said
    ensures { result ≡ number_next command said word }
{
    match said {
        Said::Nothing => Said::One {
            first: number_byte(command, word),
            start: word.start,
        },
        Said::One { first, start } => Said::Two {
            first,
            second: number_byte(command, word),
            start,
        },
        Said::Two { first, second, .. } => {
            let number = three_bytes(first, second, number_byte(command, word));
            rest_begun(command, number)
        }
        Said::Dummy { number } => whole_begun(command, number),
        Said::Whole {
            number,
            place,
            count,
        } => Said::Whole {
            number,
            place: modulo(place as u64 + 1, room_of(command)),
            count: count.min(MOST - 1) + 1,
        },
    }
}

// What is kept behind one more word of an instruction.
fn said_next(command: Command, said: Said, word: Packet) -> Said
    ensures { result ≡ said_next command said word }
{
    if has_number(command) {
        number_next(command, said, word)
    } else {
        said
    }
}

// Puts out a word that stands for itself.
fn give_each(command: Command, word: Packet, into: &mut Outs)
    requires { into.old ≡ [] }
    ensures { into.new ≡ each_outs command word }
{
    match command {
        Command::Status => into.push(word_note(2, word, miso(word) as u64, 0)),
        Command::WriteStatus => into.push(word_note(3, word, mosi(word) as u64, 0)),
        _ => {}
    }
}

// Puts out a byte that is read, or one that is programmed, which stays in its page.
fn give_data(command: Command, number: u32, place: u32, word: Packet, into: &mut Outs)
    requires { into.old ≡ [] }
    ensures { into.new ≡ data_outs command number place word }
{
    match command {
        Command::Read => give_read(place, word, into),
        Command::FastRead => give_read(place, word, into),
        Command::Program => {
            let at = (number - number % 256) as u64 + place as u64;
            let byte = mosi(word);
            into.push(word_note(6, word, byte as u64, at));
            into.push(word_piece(1, word, byte));
        }
        _ => {}
    }
}

// Puts out a byte that is read at an address.
fn give_read(at: u32, word: Packet, into: &mut Outs)
    requires { into.old ≡ [] }
    ensures { into.new ≡ read_outs at word }
{
    let byte = miso(word);
    into.push(word_note(5, word, byte as u64, at as u64));
    into.push(word_piece(0, word, byte));
}

// Puts out what one more word says behind an instruction.
fn give_said(command: Command, said: Said, word: Packet, into: &mut Outs)
    requires { into.old ≡ [] }
    ensures { into.new ≡ said_gives command said word }
{
    match said {
        Said::Nothing => give_each(command, word, into),
        Said::One { .. } => {}
        Said::Two {
            first,
            second,
            start,
        } => {
            let number = three_bytes(first, second, number_byte(command, word));
            let class = number_class(command);
            into.push(span_note(class, start, word.end, number as u64, 0));
        }
        Said::Dummy { .. } => {}
        Said::Whole { number, place, .. } => give_data(command, number, place, word, into),
    }
}

// The class of a number's note.
fn number_class(command: Command) -> u16
    ensures { result ≡ number_class command }
{
    match command {
        Command::Id => 1,
        _ => 4,
    }
}

/// Puts out what one more word of a transaction says.
pub fn give_word(words: Words, word: Packet, into: &mut Outs)
    requires { into.old ≡ [] }
    ensures { into.new ≡ words_give words word }
{
    match words {
        Words::Empty => into.push(word_note(0, word, mosi(word) as u64, 0)),
        Words::Begun { command, said, .. } => give_said(command, said, word, into),
    }
}

/// What is kept behind one more word.
pub fn words_next(words: Words, word: Packet) -> Words
    ensures { result ≡ words_next words word }
{
    match words {
        Words::Empty => Words::Begun {
            command: command_of(mosi(word)),
            from: word.start,
            end: word.end,
            said: Said::Nothing,
        },
        Words::Begun {
            command,
            from,
            said,
            ..
        } => Words::Begun {
            command,
            from,
            end: word.end,
            said: said_next(command, said, word),
        },
    }
}
