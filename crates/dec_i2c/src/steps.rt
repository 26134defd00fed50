// How an event changes what is kept.
ghost use Rattle.std.specs.Prelude.{◌≡◌, ◌<◌, if◌then◌else◌, Some, None};
ghost use Rattle.dec_i2c.specs.Bytes.{is_read, is_prefix, two_bits, ten_bits, read_by, direction};
ghost use Rattle.dec_i2c.specs.Bytes.{role_second};
ghost use Rattle.dec_i2c.specs.laws.Machine.{event_met, grown, role_next, ten_next, handed_by};
ghost use Rattle.dec_i2c.specs.laws.Machine.{handed, begun, byte_next, bit_next, clock_next, next};
ghost use Rattle.dec_i2c.specs.laws.Machine.{is_bit, taken};

use crate::{Role, Segment};

/// R/W of a first byte: whether its segment is read.
pub fn is_read(first: u8) -> bool
    ensures { result ≡ is_read first }
{
    first % 2 == 1
}

/// Whether a first byte is a prefix of ten-bit addresses.
pub fn is_prefix(first: u8) -> bool
    ensures { result ≡ is_prefix first }
{
    first / 8 == 30
}

// The upper two bits of an address, in its prefix.
fn two_bits(first: u8) -> u8
    ensures { result ≡ two_bits first }
{
    first / 2 % 4
}

/// A ten-bit address of its upper two bits and its lower eight.
pub fn ten_bits(two: u8, lower: u8) -> u16
    ensures { result ≡ ten_bits two lower }
{
    256 * two as u16 + lower as u16
}

/// The ten-bit address, where this first byte reads from it.
pub fn read_by(first: u8, ten: Option<u16>) -> Option<u16>
    ensures { result ≡ read_by first ten }
{
    match ten {
        Some(address) => {
            if is_prefix(first) && is_read(first) && two_bits(first) as u16 == address / 256 {
                Some(address)
            } else {
                None
            }
        }
        None => None,
    }
}

/// A byte with one more bit behind it.
pub fn grown(byte: u8, level: bool) -> u8
    ensures { result ≡ grown byte level }
{
    byte % 128 * 2 + level as u8
}

fn direction(first: u8) -> Role
    ensures { result ≡ direction first }
{
    if is_read(first) {
        Role::Read
    } else {
        Role::Write
    }
}

// What the second byte is, by the first.
fn role_second(first: u8) -> Role
    ensures { result ≡ role_second first }
{
    if is_prefix(first) && !is_read(first) {
        Role::Lower(two_bits(first))
    } else if first == 0 {
        Role::Command
    } else {
        direction(first)
    }
}

// What follows a byte.
fn role_next(role: Role, byte: u8) -> Role
    ensures { result ≡ role_next role byte }
{
    match role {
        Role::First => role_second(byte),
        Role::Lower(_) => Role::Write,
        Role::Command => Role::Write,
        Role::Write => Role::Write,
        Role::Read => Role::Read,
    }
}

// The ten-bit address that is kept behind a byte: another first byte than its prefix clears it.
fn ten_next(role: Role, byte: u8, ten: Option<u16>) -> Option<u16>
    ensures { result ≡ ten_next role byte ten }
{
    match role {
        Role::First => read_by(byte, ten),
        Role::Lower(two) => Some(ten_bits(two, byte)),
        Role::Command => ten,
        Role::Write => ten,
        Role::Read => ten,
    }
}

// The ten-bit address that a segment leaves to the next.
fn handed_by(role: Role, ten: Option<u16>) -> Option<u16>
    ensures { result ≡ handed_by role ten }
{
    match role {
        Role::First => None,
        Role::Lower(_) => ten,
        Role::Command => ten,
        Role::Write => ten,
        Role::Read => ten,
    }
}

fn handed(held: &Option<Segment>) -> Option<u16>
    ensures { result ≡ handed held.now }
{
    match held {
        Some(segment) => handed_by(segment.role, segment.ten),
        None => None,
    }
}

// A segment that has just begun.
fn begun(ten: Option<u16>) -> Segment
    ensures { result ≡ begun ten }
{
    Segment {
        role: Role::First,
        ten,
        bits: 0,
        byte: 0,
        first: 0,
    }
}

// A START or a STOP.
fn mark(held: &mut Option<Segment>, level: bool)
    ensures { held.new ≡ (if level then None else Some (begun (handed held.old))) }
{
    *held = if level {
        None
    } else {
        Some(begun(handed(held)))
    };
}

// The eighth clock of a byte.
fn end_byte(segment: &mut Segment, byte: u8)
    ensures { segment.new ≡ byte_next segment.old byte }
{
    segment.ten = ten_next(segment.role, byte, segment.ten);
    segment.role = role_next(segment.role, byte);
    segment.bits = 8;
    segment.byte = byte;
}

// A clock before the eighth of a byte, in an open segment.
#[inline(always)]
fn take(segment: &mut Segment, at: u64, level: bool)
    requires { segment.old.bits < 7 }
    ensures { segment.new ≡ bit_next segment.old (grown segment.old.byte level) at }
{
    if segment.bits == 0 {
        segment.first = at;
    }
    segment.bits += 1;
    segment.byte = grown(segment.byte, level);
}

// A clock in an open segment.
fn clock(segment: &mut Segment, at: u64, level: bool)
    ensures { segment.new ≡ clock_next segment.old at level }
{
    if segment.bits == 7 {
        let byte = grown(segment.byte, level);
        end_byte(segment, byte);
    } else if segment.bits < 7 {
        take(segment, at, level);
    } else {
        segment.bits = 0;
        segment.byte = 0;
        segment.first = 0;
    }
}

/// Takes in place what gives nothing and ends nothing: a clock before the eighth of a byte, or one
/// outside of a segment. Answers whether it did; nothing is changed where it didn't.
#[inline(always)]
pub fn takes_bit(held: &mut Option<Segment>, met: u8, at: u64, level: bool) -> bool
    ensures answers { result ≡ is_bit held.old met }
    ensures keeps { held.new ≡ taken held.old met at level }
{
    if met != 1 {
        match held {
            Some(segment) => {
                if segment.bits < 7 {
                    take(segment, at, level);
                    true
                } else {
                    false
                }
            }
            None => true,
        }
    } else {
        false
    }
}

/// Changes what is kept by the event that meets this set of alternatives.
pub fn step(held: &mut Option<Segment>, met: u8, at: u64, level: bool)
    ensures { held.new ≡ next held.old (event_met met at level) }
{
    if met == 1 {
        mark(held, level);
    } else if let Some(segment) = held {
        clock(segment, at, level);
    }
}
