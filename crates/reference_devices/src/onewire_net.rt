//! The network of 1-Wire: the whole list of packets, cut at resets, and what the bits of each
//! segment say.
ghost use Rattle.std.specs.Prelude.{◌≡◌, ◌<◌, ◌≤◌, ◌^◌, ◌++◌, ◌∷◌, [], length, map, option_map};
ghost use Rattle.std.specs.Prelude.{IfOk, OnOk};
ghost use Rattle.std.specs.List.{flat_map};
ghost use Rattle.list_cuts.specs.Bits.{bit_of, low_first};
ghost use Rattle.dec_onewire.specs.Net.{behind, bit_in, bits_in, bytes_cut, crc_wrong, directions};
ghost use Rattle.dec_onewire.specs.Net.{ends_at, group_outs, is_bit, is_presence, is_reset};
ghost use Rattle.dec_onewire.specs.Net.{last_bit, last_in, net_outs, number_in, number_of};
ghost use Rattle.dec_onewire.specs.Net.{reset_outs, rom_behind, rom_outs, segment_cut};
ghost use Rattle.dec_onewire.specs.Net.{segment_outs, size_of, starts_at};
ghost use Rattle.dec_onewire.specs.declared.net.held.Role.TheVariants.{Byte, Command};
ghost use Rattle.reference_devices.specs.NetParts.{role_of};

use dec_onewire::net::crc8;
use decoder_core::{span_note, span_packet, span_piece};
use la_base::{Out, Packet, PacketKind};
use list_cuts::{Test, parts_of};
use std::alloc::{AllocError, Global};

/// How a ROM comes: bit by bit, or by the steps of a search.
#[derive(Clone, Copy)]
pub enum Rom {
    Sent,
    Found,
}

fn is_presence(kind: PacketKind) -> bool
    ensures { result ≡ is_presence kind }
{
    matches!(kind, PacketKind::OwPresence)
}

fn is_bit(kind: PacketKind) -> bool
    ensures { result ≡ is_bit kind }
{
    matches!(kind, PacketKind::OwBit)
}

// Resets cut packets into parts.
#[derive(Clone, Copy)]
struct IsReset;

impl Test<Packet> for IsReset {
    ghost passes = { λ _ packet. is_reset packet.kind };

    fn test(&self, item: &Packet) -> bool {
        matches!(item.kind, PacketKind::OwReset)
    }
}

fn bit_in(packet: Packet) -> bool
    ensures { result ≡ bit_in packet }
{
    packet.a % 2 == 1
}

// Appends a packet, if it is a bit.
fn add_if_bit(packet: Packet, bits: &mut Vec<Packet>) -> Result<(), AllocError>
    ensures { OnOk result (bits.new.items ≡ bits.old.items ++ bits_in (packet ∷ [])) }
{
    if !is_bit(packet.kind) {
        return Ok(());
    }
    bits.push(packet)?;
    Ok(())
}

// The bits among packets.
fn bits_in(alloc: Global, packets: &[Packet]) -> Result<Vec<Packet>, AllocError>
    ensures { IfOk result (λ bits. bits.items ≡ bits_in packets.now) }
{
    let mut bits = Vec::new(alloc);
    for packet in packets {
        add_if_bit(*packet, &mut bits)?;
    }
    Ok(bits)
}

// A bit as a number.
fn bit_of(bit: bool) -> u64
    ensures value { result ≡ bit_of bit }
    ensures small { result ≤ 1 }
{
    bit as u64
}

// The number that bits make up, the first the lowest.
fn low_first(bits: &[bool]) -> u64
    requires { length bits.now ≤ 64 }
    ensures number { result ≡ low_first bits.now }
    ensures small { result < 2 ^ length bits.now }
{
    let mut number: u64 = 0;
    let mut place = bits.len();
    while 0 < place {
        place -= 1;
        number = 2 * number + bit_of(bits[place]);
    }
    number
}

// What packets say, bit by bit.
fn levels_of(alloc: Global, bits: &[Packet]) -> Result<Vec<bool>, AllocError>
    ensures { IfOk result (λ levels. levels.items ≡ map bit_in bits.now) }
{
    let mut levels = Vec::new(alloc);
    for bit in bits {
        levels.push(bit_in(*bit))?;
    }
    Ok(levels)
}

// The number that bits say.
fn number_of(alloc: Global, bits: &[Packet]) -> Result<u64, AllocError>
    requires { length bits.now ≤ 64 }
    ensures number { IfOk result (λ number. number ≡ number_of bits.now) }
    ensures small { IfOk result (λ number. number < 2 ^ length bits.now) }
{
    let levels = levels_of(alloc, bits)?;
    Ok(low_first(&levels))
}

// The last of a packet and others behind it.
fn last_in(first: Packet, others: &[Packet]) -> Packet
    ensures { result ≡ last_in first others.now }
{
    let mut last = first;
    for packet in others {
        last = *packet;
    }
    last
}

fn last_bit(bits: &[Packet]) -> bool
    ensures { result ≡ last_bit bits.now }
{
    match bits.split_first() {
        Some((first, others)) => bit_in(last_in(*first, others)),
        None => false,
    }
}

fn starts_at(bits: &[Packet]) -> u64
    ensures { result ≡ starts_at bits.now }
{
    match bits.split_first() {
        Some((first, _)) => first.start,
        None => 0,
    }
}

fn ends_at(bits: &[Packet]) -> u64
    ensures { result ≡ ends_at bits.now }
{
    match bits.split_first() {
        Some((first, others)) => last_in(*first, others).end,
        None => 0,
    }
}

// The directions of a search, the last bit of each three.
fn directions(alloc: Global, bits: &[Packet]) -> Result<Vec<bool>, AllocError>
    ensures { IfOk result (λ list. list.items ≡ directions bits.now) }
{
    let mut list = Vec::new(alloc);
    let mut rest = bits;
    while 3 <= rest.len() {
        let (step, behind) = rest.split_at(3);
        list.push(last_bit(step))?;
        rest = behind;
    }
    Ok(list)
}

// Whether the last byte of a ROM isn't the CRC of the others.
fn crc_wrong(rom: u64) -> bool
    ensures { result ≡ crc_wrong rom }
{
    let bytes = rom.to_le_bytes();
    crc8(&bytes[..7]) != bytes[7]
}

// How many bits a ROM has.
fn size_of(rom: Rom) -> usize
    ensures { result ≡ size_of (role_of rom) }
{
    match rom {
        Rom::Sent => 64,
        Rom::Found => 192,
    }
}

// The number that the bits of a ROM say.
fn rom_in(alloc: Global, rom: Rom, bits: &[Packet]) -> Result<u64, AllocError>
    requires { length bits.now ≡ size_of (role_of rom) }
    ensures { IfOk result (λ number. number ≡ number_in (role_of rom) bits.now) }
{
    match rom {
        Rom::Sent => number_of(alloc, bits),
        Rom::Found => {
            let list = directions(alloc, bits)?;
            Ok(low_first(&list))
        }
    }
}

// Appends a command.
fn add_command(bits: &[Packet], command: u64, outs: &mut Vec<Out>) -> Result<(), AllocError>
    requires { command ≡ number_of bits.now }
    ensures { OnOk result (outs.new.items ≡ outs.old.items
        ++ group_outs (record { role = Command; bits = bits.now })) }
{
    let (first, last) = (starts_at(bits), ends_at(bits));
    outs.push(span_note(1, first, last, command, 0))?;
    outs.push(span_packet(PacketKind::NetCommand, first, last, command, 0))?;
    Ok(())
}

// Appends what a ROM gives.
fn add_rom_outs(first: u64, last: u64, number: u64, outs: &mut Vec<Out>) -> Result<(), AllocError>
    ensures { OnOk result (outs.new.items ≡ outs.old.items ++ rom_outs first last number) }
{
    let wrong = crc_wrong(number) as u64;
    outs.push(span_note(2, first, last, number, wrong))?;
    outs.push(span_packet(PacketKind::NetRom, first, last, number, wrong))?;
    Ok(())
}

// Appends a ROM.
fn add_rom(alloc: Global, rom: Rom, bits: &[Packet], outs: &mut Vec<Out>) -> Result<(), AllocError>
    requires { length bits.now ≡ size_of (role_of rom) }
    ensures { OnOk result (outs.new.items ≡ outs.old.items
        ++ group_outs (record { role = role_of rom; bits = bits.now })) }
{
    let number = rom_in(alloc, rom, bits)?;
    add_rom_outs(starts_at(bits), ends_at(bits), number, outs)?;
    Ok(())
}

// Appends a byte.
fn add_byte(bits: &[Packet], byte: u64, outs: &mut Vec<Out>) -> Result<(), AllocError>
    requires number { byte ≡ number_of bits.now }
    requires small { byte < 256 }
    ensures { OnOk result (outs.new.items ≡ outs.old.items
        ++ group_outs (record { role = Byte; bits = bits.now })) }
{
    let (first, last) = (starts_at(bits), ends_at(bits));
    outs.push(span_note(3, first, last, byte, 0))?;
    outs.push(span_piece(0, first, last, byte as u8))?;
    outs.push(span_packet(PacketKind::NetByte, first, last, byte, 0))?;
    Ok(())
}

// Appends the bytes of eight bits each.
fn add_bytes(alloc: Global, bits: &[Packet], outs: &mut Vec<Out>) -> Result<(), AllocError>
    ensures { OnOk result (outs.new.items ≡ outs.old.items
        ++ flat_map group_outs (bytes_cut bits.now).whole) }
{
    let mut rest = bits;
    while 8 <= rest.len() {
        let (group, behind) = rest.split_at(8);
        let byte = number_of(alloc, group)?;
        add_byte(group, byte, outs)?;
        rest = behind;
    }
    Ok(())
}

// Appends what stands behind a command: a ROM, if it has one, and bytes.
fn add_behind(
    alloc: Global,
    rom: Option<Rom>,
    bits: &[Packet],
    outs: &mut Vec<Out>,
) -> Result<(), AllocError>
    ensures { OnOk result (outs.new.items ≡ outs.old.items
        ++ flat_map group_outs (behind (option_map role_of rom) bits.now).whole) }
{
    match rom {
        Some(rom) => {
            if bits.len() < size_of(rom) {
                return Ok(());
            }
            let (first, others) = bits.split_at(size_of(rom));
            add_rom(alloc, rom, first, outs)?;
            add_bytes(alloc, others, outs)
        }
        None => add_bytes(alloc, bits, outs),
    }
}

// What stands between a command and the bytes, if anything does.
fn rom_behind(command: u64) -> Option<Rom>
    ensures { option_map role_of result ≡ rom_behind command }
{
    match command {
        0x33 | 0x55 | 0x69 => Some(Rom::Sent),
        0xF0 | 0xEC => Some(Rom::Found),
        _ => None,
    }
}

// Appends what the bits of a segment say: a command, and what stands behind it.
fn add_groups(alloc: Global, bits: &[Packet], outs: &mut Vec<Out>) -> Result<(), AllocError>
    ensures { OnOk result (outs.new.items ≡ outs.old.items
        ++ flat_map group_outs (segment_cut bits.now).whole) }
{
    if bits.len() < 8 {
        return Ok(());
    }
    let (first, others) = bits.split_at(8);
    let command = number_of(alloc, first)?;
    add_command(first, command, outs)?;
    add_behind(alloc, rom_behind(command), others, outs)
}

// Appends a reset that a device has answered.
fn add_reset(reset: Packet, presence: Packet, outs: &mut Vec<Out>) -> Result<(), AllocError>
    ensures { OnOk result (outs.new.items ≡ outs.old.items ++ reset_outs reset presence) }
{
    let (first, last) = (reset.start, presence.end);
    outs.push(span_note(0, first, last, 0, 0))?;
    outs.push(span_packet(PacketKind::NetReset, first, last, 0, 0))?;
    Ok(())
}

// Appends what stands from a reset up to the next.
fn add_segment(alloc: Global, part: &[Packet], outs: &mut Vec<Out>) -> Result<(), AllocError>
    ensures { OnOk result (outs.new.items ≡ outs.old.items ++ segment_outs part.now) }
{
    match part.split_first() {
        Some((reset, rest)) => match rest.split_first() {
            Some((presence, others)) => {
                if !is_presence(presence.kind) {
                    return Ok(());
                }
                add_reset(*reset, *presence, outs)?;
                let bits = bits_in(alloc, others)?;
                add_groups(alloc, &bits, outs)
            }
            None => Ok(()),
        },
        None => Ok(()),
    }
}

// Appends what all of them give.
fn add_segments(alloc: Global, parts: &[Vec<Packet>], outs: &mut Vec<Out>) -> Result<(), AllocError>
    ensures { OnOk result (outs.new.items ≡ outs.old.items
        ++ flat_map segment_outs (map (λ part. part.items) parts.now)) }
{
    for part in parts {
        add_segment(alloc, part, outs)?;
    }
    Ok(())
}

/// All that packets give, by the definition of the network.
pub fn outputs_of(alloc: Global, packets: &[Packet]) -> Result<Vec<Out>, AllocError>
    ensures { IfOk result (λ outs. outs.items ≡ net_outs packets.now) }
{
    let parts = parts_of(alloc, &IsReset, packets)?;
    let mut outs = Vec::new(alloc);
    add_segments(alloc, &parts, &mut outs)?;
    Ok(outs)
}
