//! A thermometer DS18B20: each transaction is told by its bytes.
ghost use Rattle.std.specs.Prelude.{◌≡◌, ◌<◌, ◌≤◌, ◌++◌, ◌∷◌, [], Option, length, map, IfOk, OnOk};
ghost use Rattle.dev_ds18b20.specs.Probe.{behind_function, behind_own, byte_piece, bytes_in};
ghost use Rattle.dev_ds18b20.specs.Probe.{bytes_outs, crc_of, first_bytes, is_byte, is_own};
ghost use Rattle.dev_ds18b20.specs.Probe.{note_over, nth, own_outs, probe, probe_outs, resolution};
ghost use Rattle.dev_ds18b20.specs.Probe.{scratchpad_outs, spot_of, steps_of, temperature, value};
ghost use Rattle.dev_ds18b20.specs.Probe.{written_outs};
ghost use Rattle.reference_devices.specs.ProbeParts.{behind};

use crate::transactions::{Transacts, outputs_by};
use dec_onewire::net::crc8;
use decoder_core::{span_note, span_piece};
use dev_ds18b20::Spot;
use la_base::{Out, Packet, PacketKind};
use std::alloc::{AllocError, Global};

fn is_byte(kind: PacketKind) -> bool
    ensures { result ≡ is_byte kind }
{
    matches!(kind, PacketKind::NetByte)
}

// Whether a packet makes a transaction the thermometer's: Skip ROM, or a ROM of its family.
fn is_own(packet: Packet) -> bool
    ensures { result ≡ is_own packet }
{
    match packet.kind {
        PacketKind::NetCommand => packet.a == 0xCC,
        PacketKind::NetRom => packet.a % 256 == 0x28,
        _ => false,
    }
}

// A packet of a byte as its byte and its span.
fn spot_of(packet: Packet) -> Spot
    ensures { result ≡ spot_of packet }
{
    Spot {
        start: packet.start,
        end: packet.end,
        byte: (packet.a % 256) as u8,
    }
}

fn note_over(class: u16, first: Spot, last: Spot, a: u64, b: u64) -> Out
    ensures { result ≡ note_over class first last a b }
{
    span_note(class, first.start, last.end, a, b)
}

fn byte_piece(byte: Spot) -> Out
    ensures { result ≡ byte_piece byte }
{
    span_piece(0, byte.start, byte.end, byte.byte)
}

// The byte of this place.
fn nth(bytes: &[Spot], place: usize) -> Spot
    requires { place < length bytes.now }
    ensures { result ≡ nth bytes.now place }
{
    bytes[place]
}

fn value(bytes: &[Spot], place: usize) -> u8
    requires { place < length bytes.now }
    ensures { result ≡ value bytes.now place }
{
    nth(bytes, place).byte
}

// What bits 6 and 5 of a configuration say.
fn steps_of(configuration: u8) -> u8
    ensures steps { result ≡ steps_of configuration }
    ensures few { result ≤ 3 }
{
    configuration / 32 % 4
}

fn resolution(configuration: u8) -> u64
    ensures { result ≡ resolution configuration }
{
    9 + steps_of(configuration) as u64
}

// The temperature in 16 bits, without the bits that the resolution leaves undefined.
fn temperature(low: u8, high: u8, configuration: u8) -> u64
    ensures { result ≡ temperature low high configuration }
{
    let unit = 1 << (3 - steps_of(configuration));
    (high as u64 * 256 + low as u64) / unit * unit
}

// The CRC of the first eight bytes.
fn crc_of(bytes: &[Spot]) -> u8
    requires { 8 ≤ length bytes.now }
    ensures { result ≡ crc_of bytes.now }
{
    crc8(&[
        value(bytes, 0),
        value(bytes, 1),
        value(bytes, 2),
        value(bytes, 3),
        value(bytes, 4),
        value(bytes, 5),
        value(bytes, 6),
        value(bytes, 7),
    ])
}

// The packets behind the first that makes a transaction the thermometer's.
fn behind_own(packets: &[Packet]) -> Option<&[Packet]>
    ensures { behind result ≡ behind_own packets.now }
{
    for (place, packet) in packets.iter().enumerate() {
        if is_own(*packet) {
            let (_, others) = packets.split_at(place + 1);
            return Some(others);
        }
    }
    None
}

// Appends the byte of a packet, if it is one.
fn add_if_byte(packet: Packet, bytes: &mut Vec<Spot>) -> Result<(), AllocError>
    ensures { OnOk result (bytes.new.items ≡ bytes.old.items ++ bytes_in (packet ∷ [])) }
{
    if !is_byte(packet.kind) {
        return Ok(());
    }
    bytes.push(spot_of(packet))?;
    Ok(())
}

// The bytes among packets.
fn bytes_in(alloc: Global, packets: &[Packet]) -> Result<Vec<Spot>, AllocError>
    ensures { IfOk result (λ bytes. bytes.items ≡ bytes_in packets.now) }
{
    let mut bytes = Vec::new(alloc);
    for packet in packets {
        add_if_byte(*packet, &mut bytes)?;
    }
    Ok(bytes)
}

// Appends a piece for each byte.
fn add_pieces(bytes: &[Spot], outs: &mut Vec<Out>) -> Result<(), AllocError>
    ensures { OnOk result (outs.new.items ≡ outs.old.items ++ map byte_piece bytes.now) }
{
    for byte in bytes {
        outs.push(byte_piece(*byte))?;
    }
    Ok(())
}

// Appends what a scratchpad says whose first eight bytes these are.
fn add_scratchpad(bytes: &[Spot], last: Spot, outs: &mut Vec<Out>) -> Result<(), AllocError>
    requires { length bytes.now ≡ 8 }
    ensures { OnOk result (outs.new.items ≡ outs.old.items ++ scratchpad_outs bytes.now last) }
{
    let configuration = value(bytes, 4);
    let degrees = temperature(value(bytes, 0), value(bytes, 1), configuration);
    outs.push(note_over(1, nth(bytes, 0), nth(bytes, 1), degrees, 0))?;
    let (high, low) = (value(bytes, 2), value(bytes, 3));
    outs.push(note_over(2, nth(bytes, 2), nth(bytes, 3), high as u64, low as u64))?;
    let bits = resolution(configuration);
    outs.push(note_over(3, nth(bytes, 4), nth(bytes, 4), bits, 0))?;
    let wrong = crc_of(bytes) != last.byte;
    outs.push(note_over(4, last, last, wrong as u64, 0))?;
    add_pieces(bytes, outs)?;
    outs.push(byte_piece(last))?;
    Ok(())
}

// Appends what is written to a scratchpad.
fn add_written(bytes: &[Spot], last: Spot, outs: &mut Vec<Out>) -> Result<(), AllocError>
    requires { length bytes.now ≡ 2 }
    ensures { OnOk result (outs.new.items ≡ outs.old.items ++ written_outs bytes.now last) }
{
    let (high, low) = (value(bytes, 0), value(bytes, 1));
    outs.push(note_over(5, nth(bytes, 0), nth(bytes, 1), high as u64, low as u64))?;
    outs.push(note_over(6, last, last, resolution(last.byte), 0))?;
    Ok(())
}

// Appends what nine bytes say that are read, if there are so many.
fn add_read(bytes: &[Spot], outs: &mut Vec<Out>) -> Result<(), AllocError>
    ensures { OnOk result
        (outs.new.items ≡ outs.old.items ++ first_bytes 8 scratchpad_outs bytes.now) }
{
    if bytes.len() < 9 {
        return Ok(());
    }
    let (front, _) = bytes.split_at(8);
    add_scratchpad(front, bytes[8], outs)
}

// Appends what three bytes say that are written, if there are so many.
fn add_three(bytes: &[Spot], outs: &mut Vec<Out>) -> Result<(), AllocError>
    ensures { OnOk result
        (outs.new.items ≡ outs.old.items ++ first_bytes 2 written_outs bytes.now) }
{
    if bytes.len() < 3 {
        return Ok(());
    }
    let (front, _) = bytes.split_at(2);
    add_written(front, bytes[2], outs)
}

// Appends what the bytes behind a function say.
fn add_behind(function: u8, bytes: &[Spot], outs: &mut Vec<Out>) -> Result<(), AllocError>
    ensures { OnOk result (outs.new.items ≡ outs.old.items ++ behind_function function bytes.now) }
{
    match function {
        0xBE => add_read(bytes, outs),
        0x4E => add_three(bytes, outs),
        _ => Ok(()),
    }
}

// Appends what the bytes of a transaction say.
fn add_bytes(bytes: &[Spot], outs: &mut Vec<Out>) -> Result<(), AllocError>
    ensures { OnOk result (outs.new.items ≡ outs.old.items ++ bytes_outs bytes.now) }
{
    match bytes.split_first() {
        Some((function, others)) => {
            let byte = function.byte;
            outs.push(note_over(0, *function, *function, byte as u64, 0))?;
            add_behind(byte, others, outs)
        }
        None => Ok(()),
    }
}

// A thermometer by its transactions.
#[derive(Drop)]
struct Bytes {
    alloc: Global,
}

impl Transacts for Bytes {
    ghost device = { λ _. probe };

    fn begins(&self, packet: Packet) -> bool {
        matches!(packet.kind, PacketKind::NetReset)
    }

    fn ends(&self, packet: Packet) -> bool {
        matches!(packet.kind, PacketKind::NetReset)
    }

    fn add_inside(&self, packets: &[Packet], outs: &mut Vec<Out>) -> Result<(), AllocError> {
        match behind_own(packets) {
            Some(others) => {
                let bytes = bytes_in(self.alloc, others)?;
                add_bytes(&bytes, outs)
            }
            None => Ok(()),
        }
    }

    fn add_closing(&self, _packets: &[Packet], _outs: &mut Vec<Out>) -> Result<(), AllocError> {
        Ok(())
    }
}

/// All that packets give, by the definition of the thermometer.
pub fn outputs_of(alloc: Global, packets: &[Packet]) -> Result<Vec<Out>, AllocError>
    ensures { IfOk result (λ outs. outs.items ≡ probe_outs packets.now) }
{
    let probe = Bytes { alloc };
    outputs_by(alloc, &probe, packets)
}
