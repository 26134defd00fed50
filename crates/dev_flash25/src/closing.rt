// What the deselect says behind the words of a transaction.
ghost use Rattle.std.specs.Prelude.{◌≡◌, []};
ghost use Rattle.dev_flash25.specs.laws.Held.{bare_summary, count_summary, said_summary};
ghost use Rattle.dev_flash25.specs.laws.Held.{whole_summary, words_close};

use crate::{Command, Said, Words};
use decoder_core::{Outs, span_note};

// Puts out how many bytes of data there were at an address, if there were any.
fn give_count(class: u16, from: u64, end: u64, number: u32, count: u64, into: &mut Outs)
    requires { into.old ≡ [] }
    ensures { into.new ≡ count_summary class from end number count }
{
    if count != 0 {
        into.push(span_note(class, from, end, count, number as u64));
    }
}

// Puts out the summary of an instruction that has its number.
fn give_whole(command: Command, from: u64, end: u64, number: u32, count: u64, into: &mut Outs)
    requires { into.old ≡ [] }
    ensures { into.new ≡ whole_summary command from end number count }
{
    match command {
        Command::Read => give_count(7, from, end, number, count, into),
        Command::FastRead => give_count(7, from, end, number, count, into),
        Command::Program => give_count(8, from, end, number, count, into),
        Command::EraseSector => into.push(span_note(9, from, end, 0, number as u64)),
        Command::EraseBlock => into.push(span_note(10, from, end, 0, number as u64)),
        _ => {}
    }
}

// Puts out the summary of an instruction that has none.
fn give_bare(command: Command, from: u64, end: u64, into: &mut Outs)
    requires { into.old ≡ [] }
    ensures { into.new ≡ bare_summary command from end }
{
    if matches!(command, Command::EraseChip) {
        into.push(span_note(11, from, end, 0, 0));
    }
}

// Puts out the summary of an instruction and of the words behind it.
fn give_said(command: Command, from: u64, end: u64, said: Said, into: &mut Outs)
    requires { into.old ≡ [] }
    ensures { into.new ≡ said_summary command from end said }
{
    match said {
        Said::Nothing => give_bare(command, from, end, into),
        Said::Whole { number, count, .. } => give_whole(command, from, end, number, count, into),
        Said::One { .. } => {}
        Said::Two { .. } => {}
        Said::Dummy { .. } => {}
    }
}

/// Puts out the summary of a transaction.
pub fn give_summary(words: Words, into: &mut Outs)
    requires { into.old ≡ [] }
    ensures { into.new ≡ words_close words }
{
    match words {
        Words::Empty => {}
        Words::Begun {
            command,
            from,
            end,
            said,
        } => give_said(command, from, end, said, into),
    }
}
