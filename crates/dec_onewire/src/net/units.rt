// Commands, ROMs and bytes, bit by bit.
ghost use Rattle.std.specs.Prelude.{◌≡◌, ◌≤◌, []};
ghost use Rattle.dec_onewire.specs.Net.{role_outs, sends_rom, searches, size_of};
ghost use Rattle.dec_onewire.specs.laws.NetMachine.{none_begun, put_bit, with_bit, start_of};
ghost use Rattle.dec_onewire.specs.laws.NetMachine.{role_next, bit_gives, bit_next, given_by};

use super::crc::crc_wrong;
use super::packets::bit_in;
use super::{Begun, Held, Role};
use decoder_core::{Outs, span_note, span_packet, span_piece};
use la_base::{Packet, PacketKind};

/// No bit has come of what is next.
pub fn none_begun() -> Begun
    ensures { result ≡ none_begun }
{
    Begun {
        count: 0,
        start: 0,
        number: 0,
    }
}

// How many bits there are of a role.
fn size_of(role: Role) -> u8
    ensures size { result ≡ size_of role }
    ensures few { result ≤ 192 }
{
    match role {
        Role::Command => 8,
        Role::Rom => 64,
        Role::Search => 192,
        Role::Byte => 8,
    }
}

// A number of so many bits with one more bit above them. A decoder that stands for no packets may
// hold any number.
fn put_bit(place: u8, number: u64, bit: bool) -> u64
    ensures { result ≡ put_bit place number bit }
{
    let unit = 1 << place.min(63);
    number % unit + bit as u64 * unit
}

// The number that bits say with one more: in a search each third one is a direction.
fn with_bit(role: Role, begun: Begun, bit: bool) -> u64
    ensures { result ≡ with_bit role begun bit }
{
    match role {
        Role::Search => {
            if begun.count % 3 == 2 {
                put_bit(begun.count / 3, begun.number, bit)
            } else {
                begun.number
            }
        }
        _ => put_bit(begun.count, begun.number, bit),
    }
}

// Where what is next starts, with one more bit.
fn start_of(begun: Begun, packet: Packet) -> u64
    ensures { result ≡ start_of begun packet }
{
    if begun.count == 0 {
        packet.start
    } else {
        begun.start
    }
}

// Whether the ROM is sent behind a command: Read ROM, Match ROM, Overdrive match ROM.
fn sends_rom(command: u64) -> bool
    ensures { result ≡ sends_rom command }
{
    command == 0x33 || command == 0x55 || command == 0x69
}

// Whether a command searches: Search ROM, Alarm search.
fn searches(command: u64) -> bool
    ensures { result ≡ searches command }
{
    command == 0xF0 || command == 0xEC
}

// What stands behind bits of a role that say this number.
fn role_next(role: Role, number: u64) -> Role
    ensures { result ≡ role_next role number }
{
    match role {
        Role::Command => {
            if sends_rom(number) {
                Role::Rom
            } else if searches(number) {
                Role::Search
            } else {
                Role::Byte
            }
        }
        _ => Role::Byte,
    }
}

// Puts out a ROM.
fn give_rom(start: u64, end: u64, rom: u64, into: &mut Outs)
    requires { into.old ≡ [] }
    ensures { into.new ≡ role_outs Role.Rom start end rom }
{
    let wrong = crc_wrong(rom) as u64;
    into.push(span_note(2, start, end, rom, wrong));
    into.push(span_packet(PacketKind::NetRom, start, end, rom, wrong));
}

// Puts out what whole bits of a role say.
fn give(role: Role, start: u64, end: u64, number: u64, into: &mut Outs)
    requires { into.old ≡ [] }
    ensures { into.new ≡ given_by role start end number }
{
    match role {
        Role::Command => {
            into.push(span_note(1, start, end, number, 0));
            into.push(span_packet(PacketKind::NetCommand, start, end, number, 0));
        }
        Role::Rom => give_rom(start, end, number, into),
        Role::Search => give_rom(start, end, number, into),
        Role::Byte => {
            let byte = (number % 256) as u8;
            into.push(span_note(3, start, end, byte as u64, 0));
            into.push(span_piece(0, start, end, byte));
            into.push(span_packet(PacketKind::NetByte, start, end, byte as u64, 0));
        }
    }
}

/// One more bit of a segment: puts out what it makes whole, and answers what is then kept.
pub fn bit(role: Role, begun: Begun, packet: Packet, into: &mut Outs) -> Held
    requires { into.old ≡ [] }
    ensures gives { into.new ≡ bit_gives role begun packet }
    ensures next { result ≡ bit_next role begun packet }
{
    let number = with_bit(role, begun, bit_in(packet));
    let start = start_of(begun, packet);
    if (begun.count as u16 + 1) < size_of(role) as u16 {
        let begun = Begun {
            count: begun.count + 1,
            start,
            number,
        };
        return Held::Inside { role, begun };
    }
    give(role, start, packet.end, number, into);
    Held::Inside {
        role: role_next(role, number),
        begun: none_begun(),
    }
}
