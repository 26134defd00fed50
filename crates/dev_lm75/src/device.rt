// An LM75, by what it does with the bytes of its own phases.
ghost use Rattle.std.specs.Prelude.{◌≡◌, [], ◌∷◌, ◌++◌, ◌+◌, List};
ghost use Rattle.i2c_phases.specs.Phases.{Nothing, Reads, Reset, Writes};
ghost use Rattle.dev_lm75.specs.Thermometer.{step};
ghost use Rattle.dev_lm75.specs.laws.GivenLaws.{lm75_by_byte, lm75_no_packets};
ghost use Rattle.dev_lm75.specs.laws.KnowingLaws.{knows_opened, one_lm75};
ghost use Rattle.dev_lm75.specs.laws.Held.{Knows, byte_gives, get_gives, next_part, pair_gives};
ghost use Rattle.dev_lm75.specs.laws.Held.{put_by};
ghost use Rattle.dev_lm75.specs.laws.Held.{put_gives, set_gives};

use crate::{Chip, Held, Lm75, Part};
use decoder_core::{Configured, Follower, Outs, is_send, span_note};
use i2c_phases::{I2cDevice, Phased, byte_note, byte_of};
use la_base::Packet;

// A byte that counts by itself.
fn single(class: u16, packet: Packet, into: &mut Outs)
    requires { into.old ≡ [] }
    ensures { into.new ≡ byte_gives class packet }
{
    into.push(byte_note(class, packet, byte_of(packet) as u64, 0));
}

// A byte that may be the second one of a pair.
fn pair(class: u16, part: Part, packet: Packet, into: &mut Outs)
    requires { into.old ≡ [] }
    ensures { into.new ≡ pair_gives class part packet }
{
    match part {
        Part::Half(high, first) => {
            let half_degrees = (high as u64 * 256 + byte_of(packet) as u64) / 128;
            into.push(span_note(class, first, packet.end, half_degrees, 0));
        }
        Part::Fresh => {}
        Part::Even => {}
    }
}

// What a byte behind the pointer byte gives: the register of the temperature can't be written.
fn set(pointer: u8, part: Part, packet: Packet, into: &mut Outs)
    requires { into.old ≡ [] }
    ensures { into.new ≡ set_gives pointer part packet }
{
    match pointer {
        1 => single(1, packet, into),
        2 => pair(4, part, packet, into),
        3 => pair(6, part, packet, into),
        _ => {}
    }
}

// What a byte that is read gives.
fn get(pointer: u8, part: Part, packet: Packet, into: &mut Outs)
    requires { into.old ≡ [] }
    ensures { into.new ≡ get_gives pointer part packet }
{
    match pointer {
        1 => single(2, packet, into),
        2 => pair(5, part, packet, into),
        3 => pair(7, part, packet, into),
        _ => pair(3, part, packet, into),
    }
}

// What a byte that is written gives.
fn put(pointer: u8, part: Part, packet: Packet, into: &mut Outs)
    requires { into.old ≡ [] }
    ensures { into.new ≡ put_gives pointer part packet }
{
    match part {
        Part::Fresh => into.push(byte_note(0, packet, (byte_of(packet) % 4) as u64, 0)),
        Part::Even => set(pointer, part, packet, into),
        Part::Half(_, _) => set(pointer, part, packet, into),
    }
}

// What is kept behind a byte that is written.
fn put_by(pointer: u8, part: Part, packet: Packet) -> Held
    ensures { result ≡ put_by pointer part packet }
{
    match part {
        Part::Fresh => Held {
            pointer: byte_of(packet) % 4,
            part: Part::Even,
        },
        Part::Even => Held {
            pointer,
            part: Part::Half(byte_of(packet), packet.start),
        },
        Part::Half(_, _) => Held {
            pointer,
            part: Part::Even,
        },
    }
}

// What the open phase has behind a byte that is read.
fn next_part(part: Part, packet: Packet) -> Part
    ensures { result ≡ next_part Part.Fresh part packet }
{
    match part {
        Part::Fresh => Part::Half(byte_of(packet), packet.start),
        Part::Even => Part::Half(byte_of(packet), packet.start),
        Part::Half(_, _) => Part::Fresh,
    }
}

impl Configured for Lm75 {
    type Setup = Chip;

    ghost setup = { λ device. device.chip };
}

impl I2cDevice for Lm75 {
    ghost bus_address = { λ chip. 72 + chip.addr };

    ghost takes_reset = { λ chip. chip.resets };

    ghost step = { λ _. step };

    ghost knows = { λ device phases. Knows device phases };

    fn address(&self) -> u64 {
        72 + self.chip.addr as u64
    }

    fn resets(&self) -> bool {
        self.chip.resets
    }

    fn begin(&mut self) {
        self.held = Held {
            pointer: self.held.pointer,
            part: Part::Fresh,
        };
    }

    fn write(&mut self, byte: Packet, into: &mut Outs) {
        put(self.held.pointer, self.held.part, byte, into);
        self.held = put_by(self.held.pointer, self.held.part, byte);
    }

    fn read(&mut self, byte: Packet, into: &mut Outs) {
        get(self.held.pointer, self.held.part, byte, into);
        self.held = Held {
            pointer: self.held.pointer,
            part: next_part(self.held.part, byte),
        };
    }

    fn reset(&mut self) {
        self.held = Held {
            pointer: 0,
            part: Part::Fresh,
        };
    }

    ghost opened = { λ device. knows_opened device };

    ghost by_byte = { λ _. lm75_by_byte };

    ghost no_packets = { λ _. lm75_no_packets };

    ghost one_device = { one_lm75 };
}

// It may move to another thread, and so may what hands it its phases and packets.
fn machine_is_send() {
    is_send::<Follower<Phased<Lm75>>>();
}
