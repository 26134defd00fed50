// What statuses say.
ghost use Rattle.std.specs.Prelude.{◌≡◌, []};
ghost use Rattle.dec_midi.specs.Midi.{class_of, message, takes};
ghost use Rattle.dec_midi.specs.laws.Steps.{behind, by_two, runs};

use crate::{Held, Takes};
use decoder_core::{Outs, span_note};

/// What data a status takes.
pub fn takes(status: u8) -> Takes
    ensures { result ≡ takes status }
{
    if status < 0xC0 {
        Takes::Twos
    } else if status < 0xE0 {
        Takes::Ones
    } else if status < 0xF0 {
        Takes::Twos
    } else if status == 0xF0 {
        Takes::Any
    } else if status == 0xF2 {
        Takes::Two
    } else if status == 0xF1 || status == 0xF3 {
        Takes::One
    } else {
        Takes::Nothing
    }
}

/// Whether a message has two data bytes.
pub fn by_two(takes: Takes) -> bool
    ensures { result ≡ by_two takes }
{
    matches!(takes, Takes::Two | Takes::Twos)
}

// Whether another message may follow with no other status.
fn runs(takes: Takes) -> bool
    ensures { result ≡ runs takes }
{
    matches!(takes, Takes::Ones | Takes::Twos)
}

/// What is kept behind a whole message.
pub fn behind(status: u8) -> Held
    ensures { result ≡ behind status }
{
    if runs(takes(status)) {
        Held::Running { status }
    } else {
        Held::Stray
    }
}

// The class of a message; a decoder that stands for no packets may hold any status.
fn class_of(status: u8) -> u16
    ensures { result ≡ class_of status }
{
    if status < 0xF0 {
        u16::from((status / 16).saturating_sub(8))
    } else {
        u16::from(status.saturating_sub(0xEA))
    }
}

/// Puts out a message.
pub fn give_message(status: u8, first: u64, last: u64, one: u8, two: u8, into: &mut Outs)
    requires { into.old ≡ [] }
    ensures { into.new ≡ message status first last one two }
{
    let value = u64::from(status) * 65536 + u64::from(one) * 256 + u64::from(two);
    into.push(span_note(class_of(status), first, last, value, 0));
}
