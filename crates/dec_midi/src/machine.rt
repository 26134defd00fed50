// MIDI as a decoder of packets.
ghost use Rattle.std.specs.Prelude.{◌≡◌, ◌<◌, ◌≤◌, [], ◌++◌, length};
ghost use Rattle.la_base.specs.declared.wires.Wire.TheVariants.{Nothing as NoWire};
ghost use Rattle.la_base.specs.declared.wires.Wire.TheVariants.{Uart as UartWire};
ghost use Rattle.dec_midi.specs.Midi.{byte_note, midi_near, midi_outs, own_outs, sort_of, takes};
ghost use Rattle.dec_midi.specs.Opening.{Opens};
ghost use Rattle.dec_midi.specs.laws.Steps.{by_two, data_gives, data_next, first_gives};
ghost use Rattle.dec_midi.specs.laws.Steps.{first_next, gives, held_of, midi_walk, near_by, next};
ghost use Rattle.dec_midi.specs.laws.Steps.{opened, sort_gives, sort_next, status_gives};
ghost use Rattle.dec_midi.specs.laws.Pushed.{midi_pushed, near_is};
ghost use Rattle.dec_midi.specs.laws.Sound.{midi_fits, midi_sound};

use crate::bytes::{as_byte, is_byte, sort_of};
use crate::status::{behind, by_two, give_message, takes};
use crate::{Held, Midi, MidiOpts, Sort, Takes};
use decoder_core::{Follower, OptFault, Outs, is_send, span_note};
use la_base::{Packet, Rate, Wire};
use packet_walks::{WalkState, Walking};

// The most data bytes that are counted.
const MOST: u64 = 1 << 60;

// A byte that isn't real time, as a number of eight bits.
fn small(byte: u64) -> u8
    requires { byte < 248 }
    ensures { result ≡ byte }
{
    byte as u8
}

// Puts out a note on a byte by itself.
fn give_byte(class: u16, byte: Packet, into: &mut Outs)
    requires { into.old ≡ [] }
    ensures { into.new ≡ byte_note class byte }
{
    into.push(span_note(class, byte.start, byte.end, byte.a, 0));
}

// The first data byte of a message that starts at `start`, which is whole if it has only one.
fn first(status: u8, start: u64, byte: Packet, into: &mut Outs) -> Held
    requires small { byte.a < 128 }
    requires empty { into.old ≡ [] }
    ensures gives { into.new ≡ first_gives (by_two (takes status)) status start byte }
    ensures next { result ≡ first_next (by_two (takes status)) status start byte }
{
    let datum = small(byte.a);
    if by_two(takes(status)) {
        return Held::Begun {
            status,
            start,
            first: Some(datum),
        };
    }
    give_message(status, start, byte.end, datum, 0, into);
    behind(status)
}

// A data byte.
fn datum(held: Held, byte: Packet, into: &mut Outs) -> Held
    requires small { byte.a < 128 }
    requires empty { into.old ≡ [] }
    ensures gives { into.new ≡ data_gives held byte }
    ensures next { result ≡ data_next held byte }
{
    match held {
        Held::Stray => {
            give_byte(14, byte, into);
            Held::Stray
        }
        Held::Running { status } => first(status, byte.start, byte, into),
        Held::Begun {
            status,
            start,
            first: None,
        } => first(status, start, byte, into),
        Held::Begun {
            status,
            start,
            first: Some(one),
        } => {
            give_message(status, start, byte.end, one, small(byte.a), into);
            behind(status)
        }
        Held::Exclusive { start, count, .. } => Held::Exclusive {
            start,
            end: byte.end,
            count: count.min(MOST - 1) + 1,
        },
    }
}

// Puts out what a status gives by itself.
fn give_own(status: Packet, into: &mut Outs)
    requires { length into.old < 16 }
    ensures { into.new ≡ into.old ++ own_outs status }
{
    match status.a {
        0xF6 => into.push(span_note(10, status.start, status.end, status.a, 0)),
        0xF4 | 0xF5 | 0xF7 => into.push(span_note(15, status.start, status.end, status.a, 0)),
        _ => {}
    }
}

// Puts out what a status gives, behind what it ends.
fn give_status(held: Held, status: Packet, into: &mut Outs)
    requires { into.old ≡ [] }
    ensures { into.new ≡ status_gives held status }
{
    match held {
        Held::Exclusive { start, end, count } => {
            if status.a == 0xF7 {
                into.push(span_note(12, start, status.end, count, 0));
            } else {
                into.push(span_note(13, start, end, count, 0));
                give_own(status, into);
            }
        }
        _ => give_own(status, into),
    }
}

// What is kept behind a status.
fn opened(status: Packet) -> Held
    requires { status.a < 248 }
    ensures { result ≡ opened (takes status.a) status }
{
    let byte = small(status.a);
    match takes(byte) {
        Takes::Nothing => Held::Stray,
        Takes::Any => Held::Exclusive {
            start: status.start,
            end: status.end,
            count: 0,
        },
        _ => Held::Begun {
            status: byte,
            start: status.start,
            first: None,
        },
    }
}

// A byte: puts out what it gives, and answers what is then kept.
fn byte(held: Held, packet: Packet, into: &mut Outs) -> Held
    requires { into.old ≡ [] }
    ensures gives { into.new ≡ sort_gives (sort_of packet.a) held packet }
    ensures next { result ≡ sort_next (sort_of packet.a) held packet }
{
    match sort_of(packet.a) {
        Sort::Data => datum(held, packet, into),
        Sort::Status => {
            give_status(held, packet, into);
            opened(packet)
        }
        Sort::RealTime => {
            give_byte(11, packet, into);
            held
        }
    }
}

// A packet: puts out what it gives, and answers what is then kept.
fn take(held: Held, packet: Packet, into: &mut Outs) -> Held
    requires { into.old ≡ [] }
    ensures gives { into.new ≡ gives held packet }
    ensures next { result ≡ next held packet }
{
    if is_byte(packet) {
        byte(held, as_byte(packet), into)
    } else {
        held
    }
}

// Where that starts which has begun and may still give notes; else `from`.
fn near(held: Held, from: u64) -> u64
    ensures { result ≡ near_by held from }
{
    match held {
        Held::Stray => from,
        Held::Running { .. } => from,
        Held::Begun { start, .. } => start,
        Held::Exclusive { start, .. } => start,
    }
}

impl WalkState for Held {
    type Setup = MidiOpts;

    ghost wire = { UartWire };

    ghost gives = { NoWire };

    ghost outs = { λ _ packets. midi_outs packets };

    ghost near = { λ _ packets from. midi_near packets from };

    ghost walk = { λ _. midi_walk };

    ghost kept = { λ _ packets. held_of packets };

    ghost fits = { midi_fits };

    fn wants() -> Wire {
        Wire::Uart
    }

    fn begin(_setup: &MidiOpts) -> Held {
        Held::Stray
    }

    fn take(&mut self, _setup: &MidiOpts, packet: Packet, into: &mut Outs) {
        *self = take(*self, packet, into);
    }

    fn near(&self, _setup: &MidiOpts, from: u64) -> u64 {
        near(*self, from)
    }

    ghost pushed = { λ _. midi_pushed };

    ghost sound = { λ _. midi_sound };

    ghost near_is = { λ _. near_is };
}

/// Opens a decoder at any rate; it stands for no packets. There is nothing to refuse.
pub fn open(opts: MidiOpts, _rate: Rate) -> Result<Midi, OptFault>
    ensures { Opens result }
{
    Ok(Walking::new(opts))
}

// It may move to another thread, and so may what feeds it.
fn machine_is_send() {
    is_send::<Follower<Midi>>();
}
