// A DS1307, by what it does with the bytes of its own phases.
ghost use Rattle.std.specs.Prelude.{◌≡◌, ◌≤◌, [], ◌∷◌, ◌++◌, ◌+◌, ◌%◌, List, length};
ghost use Rattle.i2c_phases.specs.Phases.{Nothing, Reads, Reset, Writes};
ghost use Rattle.dev_ds1307.specs.Clock.{step};
ghost use Rattle.dev_ds1307.specs.laws.GivenLaws.{clock_by_byte, clock_no_packets};
ghost use Rattle.dev_ds1307.specs.laws.KnowingLaws.{knows_opened, one_clock};
ghost use Rattle.dev_ds1307.specs.laws.Held.{Knows, byte_gives, collect, moved, next_part};
ghost use Rattle.dev_ds1307.specs.laws.Held.{next_row};
ghost use Rattle.dev_ds1307.specs.laws.Held.{put_by, put_gives, row_gives};

use crate::{Chip, Clock, Held, Part};
use decoder_core::{Configured, Follower, Outs, is_send, span_note};
use i2c_phases::{I2cDevice, Phased, byte_note, byte_of, byte_piece};
use la_base::Packet;

// The highest of seven bytes.
const HIGHEST: u64 = 1 << 48;

// A number of seven bytes behind one more: it comes in as the highest, and the lowest is lost.
fn collect(number: u64, packet: Packet) -> u64
    ensures { result ≡ collect number packet }
{
    number / 256 + byte_of(packet) as u64 * HIGHEST
}

// The register behind this one.
fn next_register(register: u8) -> u8
    ensures { result ≡ (register + 1) % 64 }
{
    ((register as u16 + 1) % 64) as u8
}

// What a phase has behind a byte of registers 1 to 5: a row goes on, and where there is none it
// stays `none`.
fn next_row(none: Part, part: Part, packet: Packet) -> Part
    ensures { result ≡ next_row none part packet }
{
    match part {
        Part::Row(start, number) => Part::Row(start, collect(number, packet)),
        Part::Fresh => none,
        Part::Apart => none,
    }
}

// What a phase has behind a byte of this register, where `none` is what it has without a row.
fn next_part(none: Part, register: u8, part: Part, packet: Packet) -> Part
    ensures { result ≡ next_part none register part packet }
{
    if register == 0 {
        Part::Row(packet.start, collect(0, packet))
    } else if 6 <= register {
        none
    } else {
        next_row(none, part, packet)
    }
}

// The time, where a byte of this register is its last.
fn give_time(class: u16, register: u8, part: Part, packet: Packet, into: &mut Outs)
    requires { length into.old ≤ 1 }
    ensures gives { into.new ≡ into.old ++ row_gives class register part packet }
    ensures few { length into.new ≤ 2 }
{
    if register == 6 {
        match part {
            Part::Row(start, number) => {
                let time = collect(number, packet);
                into.push(span_note(class, start, packet.end, time, 0));
            }
            Part::Fresh => {}
            Part::Apart => {}
        }
    }
}

// What a byte that is written gives.
fn put(register: u8, part: Part, packet: Packet, into: &mut Outs)
    requires { into.old ≡ [] }
    ensures { into.new ≡ put_gives register part packet }
{
    match part {
        Part::Fresh => into.push(byte_note(0, packet, (byte_of(packet) % 64) as u64, 0)),
        Part::Apart => put_data(register, part, packet, into),
        Part::Row(_, _) => put_data(register, part, packet, into),
    }
}

// What a byte gives that is written to this register.
fn put_data(register: u8, part: Part, packet: Packet, into: &mut Outs)
    requires { into.old ≡ [] }
    ensures { into.new ≡ byte_gives 1 3 0 register part packet }
{
    into.push(byte_note(1, packet, byte_of(packet) as u64, register as u64));
    give_time(3, register, part, packet, into);
    into.push(byte_piece(0, packet));
}

// What a byte gives that is read from this register.
fn get(register: u8, part: Part, packet: Packet, into: &mut Outs)
    requires { into.old ≡ [] }
    ensures { into.new ≡ byte_gives 2 4 1 register part packet }
{
    into.push(byte_note(2, packet, byte_of(packet) as u64, register as u64));
    give_time(4, register, part, packet, into);
    into.push(byte_piece(1, packet));
}

// What is kept behind a byte that is written.
fn put_by(register: u8, part: Part, packet: Packet) -> Held
    ensures { result ≡ put_by register part packet }
{
    match part {
        Part::Fresh => Held {
            register: byte_of(packet) % 64,
            part: Part::Apart,
        },
        Part::Apart => moved(Part::Apart, register, part, packet),
        Part::Row(_, _) => moved(Part::Apart, register, part, packet),
    }
}

// What is kept behind a byte of this register, where `none` is what a phase has without a row.
fn moved(none: Part, register: u8, part: Part, packet: Packet) -> Held
    ensures { result ≡ moved none register part packet }
{
    Held {
        register: next_register(register),
        part: next_part(none, register, part, packet),
    }
}

impl Configured for Clock {
    type Setup = Chip;

    ghost setup = { λ device. device.chip };
}

impl I2cDevice for Clock {
    ghost bus_address = { λ _. 104 };

    ghost takes_reset = { λ chip. chip.resets };

    ghost step = { λ _. step };

    ghost knows = { λ device phases. Knows device phases };

    fn address(&self) -> u64 {
        104
    }

    fn resets(&self) -> bool {
        self.chip.resets
    }

    fn begin(&mut self) {
        self.held = Held {
            register: self.held.register,
            part: Part::Fresh,
        };
    }

    fn write(&mut self, byte: Packet, into: &mut Outs) {
        put(self.held.register, self.held.part, byte, into);
        self.held = put_by(self.held.register, self.held.part, byte);
    }

    fn read(&mut self, byte: Packet, into: &mut Outs) {
        get(self.held.register, self.held.part, byte, into);
        self.held = moved(Part::Fresh, self.held.register, self.held.part, byte);
    }

    fn reset(&mut self) {
        self.held = Held {
            register: 0,
            part: Part::Fresh,
        };
    }

    ghost opened = { λ device. knows_opened device };

    ghost by_byte = { λ _. clock_by_byte };

    ghost no_packets = { λ _. clock_no_packets };

    ghost one_device = { one_clock };
}

// It may move to another thread, and so may what hands it its phases and packets.
fn machine_is_send() {
    is_send::<Follower<Phased<Clock>>>();
}
