// What an event puts out.
ghost use Rattle.std.specs.Prelude.{◌≡◌, ◌≤◌, ◌++◌, length};
ghost use Rattle.dec_i2c.specs.Bytes.{address_outs, data_outs, first_class, first_outs, read_by};
ghost use Rattle.dec_i2c.specs.Bytes.{byte_outs};
ghost use Rattle.dec_i2c.specs.Bus.{start_outs, stop_outs, ack_outs};
ghost use Rattle.dec_i2c.specs.laws.Machine.{event_met, clock_gives, gives};

use crate::steps::{grown, is_prefix, is_read, read_by, ten_bits};
use crate::{Role, Segment};
use decoder_core::{Outs, note_at, packet_at, span_note, span_packet, span_piece};
use la_base::PacketKind;

#[inline(never)]
fn give_start(again: bool, at: u64, into: &mut Outs)
    requires { length into.old ≤ 16 }
    ensures { into.new ≡ into.old ++ start_outs again at }
{
    if again {
        into.push(note_at(1, at, 0));
        into.push(packet_at(PacketKind::I2cStart, at, 1));
    } else {
        into.push(note_at(0, at, 0));
        into.push(packet_at(PacketKind::I2cStart, at, 0));
    }
}

#[inline(never)]
fn give_stop(at: u64, into: &mut Outs)
    requires { length into.old ≤ 16 }
    ensures { into.new ≡ into.old ++ stop_outs at }
{
    into.push(note_at(2, at, 0));
    into.push(packet_at(PacketKind::I2cStop, at, 0));
}

#[inline(never)]
fn give_ack(at: u64, level: bool, into: &mut Outs)
    requires { length into.old ≤ 16 }
    ensures { into.new ≡ into.old ++ ack_outs at level }
{
    if level {
        into.push(note_at(8, at, 0));
        into.push(packet_at(PacketKind::I2cAck, at, 1));
    } else {
        into.push(note_at(7, at, 0));
        into.push(packet_at(PacketKind::I2cAck, at, 0));
    }
}

fn give_address(class: u16, first: u64, last: u64, a: u64, b: u64, into: &mut Outs)
    requires { length into.old ≤ 16 }
    ensures { into.new ≡ into.old ++ address_outs class first last a b }
{
    into.push(span_note(class, first, last, a, 0));
    into.push(span_packet(PacketKind::I2cAddress, first, last, a, b));
}

// A data byte; `read` is 0 where it is written and 1 where it is read.
fn give_data(class: u16, read: u16, first: u64, last: u64, byte: u8, into: &mut Outs)
    requires { length into.old ≤ 16 }
    ensures { into.new ≡ into.old ++ data_outs class read first last byte }
{
    let value = byte as u64;
    into.push(span_note(class, first, last, value, 0));
    into.push(span_piece(read, first, last, byte));
    into.push(span_packet(PacketKind::I2cData, first, last, value, read as u64));
}

// A general call, a prefix, or an address.
fn first_class(byte: u8) -> u16
    ensures { result ≡ first_class byte }
{
    if byte == 0 {
        9
    } else if is_prefix(byte) {
        if is_read(byte) { 13 } else { 10 }
    } else {
        if is_read(byte) { 4 } else { 3 }
    }
}

fn give_first(own: Option<u16>, first: u64, last: u64, byte: u8, into: &mut Outs)
    requires { length into.old ≤ 16 }
    ensures { into.new ≡ into.old ++ first_outs own first last byte }
{
    match own {
        Some(address) => give_address(12, first, last, address as u64, 3, into),
        None => give_address(
            first_class(byte),
            first,
            last,
            (byte / 2) as u64,
            (byte % 2) as u64,
            into,
        ),
    }
}

#[inline(never)]
fn give_byte(role: Role, ten: Option<u16>, first: u64, last: u64, byte: u8, into: &mut Outs)
    requires { length into.old ≤ 16 }
    ensures { into.new ≡ into.old ++ byte_outs (λ own. read_by own ten) role first last byte }
{
    match role {
        Role::First => give_first(read_by(byte, ten), first, last, byte, into),
        Role::Lower(two) => give_address(11, first, last, ten_bits(two, byte) as u64, 2, into),
        Role::Command => give_data(14, 0, first, last, byte, into),
        Role::Write => give_data(5, 0, first, last, byte, into),
        Role::Read => give_data(6, 1, first, last, byte, into),
    }
}

fn give_clock(segment: &Segment, at: u64, level: bool, into: &mut Outs)
    requires { length into.old ≤ 16 }
    ensures { into.new ≡ into.old ++ clock_gives segment.now at level }
{
    if segment.bits == 7 {
        let byte = grown(segment.byte, level);
        give_byte(segment.role, segment.ten, segment.first, at, byte, into);
    } else if segment.bits == 8 {
        give_ack(at, level, into);
    }
}

/// Puts out what the event gives that meets this set of alternatives.
pub fn give(held: &Option<Segment>, met: u8, at: u64, level: bool, into: &mut Outs)
    requires { length into.old ≤ 16 }
    ensures { into.new ≡ into.old ++ gives held.now (event_met met at level) }
{
    if met == 1 {
        if level {
            give_stop(at, into);
        } else {
            give_start(held.is_some(), at, into);
        }
    } else if let Some(segment) = held {
        give_clock(segment, at, level, into);
    }
}
