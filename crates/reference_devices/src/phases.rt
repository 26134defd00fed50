// The phases of I2C: the whole list of packets, cut into parts, and what each means to a device.
ghost use Rattle.std.specs.Prelude.{◌≡◌, ◌&&◌, ◌==◌, ◌++◌, ◌∷◌, [], length, map, IfOk, OnOk};
ghost use Rattle.std.specs.List.{flat_map};
ghost use Rattle.i2c_phases.specs.Phases.{acknowledged, data_in, first_of, is_ack, is_address};
ghost use Rattle.i2c_phases.specs.Phases.{is_data, is_mark, is_six, is_start, is_stop, meaning};
ghost use Rattle.i2c_phases.specs.Phases.{meanings, phase_in};
ghost use Rattle.reference_devices.specs.Meant.{found, meant, wants};

use i2c_phases::byte_of;
use la_base::{Packet, PacketKind};
use list_cuts::{Test, parts_of};
use std::alloc::{AllocError, Global};

/// What a phase means to a device.
#[derive(Drop)]
pub enum Meaning {
    Nothing,
    Writes(Vec<Packet>),
    Reads(Vec<Packet>),
    Reset,
}

fn is_start(kind: PacketKind) -> bool
    ensures { result ≡ is_start kind }
{
    matches!(kind, PacketKind::I2cStart)
}

fn is_stop(kind: PacketKind) -> bool
    ensures { result ≡ is_stop kind }
{
    matches!(kind, PacketKind::I2cStop)
}

fn is_data(kind: PacketKind) -> bool
    ensures { result ≡ is_data kind }
{
    matches!(kind, PacketKind::I2cData)
}

// Starts and stops cut packets into parts.
#[derive(Clone, Copy)]
struct IsMark;

impl Test<Packet> for IsMark {
    ghost passes = { λ _ packet. is_mark packet };

    fn test(&self, item: &Packet) -> bool {
        is_start(item.kind) || is_stop(item.kind)
    }
}

// What is looked for in a phase.
#[derive(Clone, Copy)]
enum Wanted {
    Address,
    Ack,
}

// A packet, and those behind it.
#[derive(Clone, Copy)]
struct Found<'a> {
    packet: Packet,
    others: &'a [Packet],
}

fn is_wanted(wanted: Wanted, kind: PacketKind) -> bool
    ensures { result ≡ wants wanted kind }
{
    match wanted {
        Wanted::Address => matches!(kind, PacketKind::I2cAddress),
        Wanted::Ack => matches!(kind, PacketKind::I2cAck),
    }
}

// The first packet that is wanted.
fn first_of(wanted: Wanted, list: &[Packet]) -> Option<Found<'_>>
    ensures { found result ≡ first_of (wants wanted) list.now }
{
    for (place, packet) in list.iter().enumerate() {
        if is_wanted(wanted, packet.kind) {
            let (_, others) = list.split_at(place + 1);
            return Some(Found {
                packet: *packet,
                others,
            });
        }
    }
    None
}

// The first address of a phase with the packets behind its acknowledge bit, where that is 0.
fn acknowledged(phase: &[Packet]) -> Option<Found<'_>>
    ensures { found result ≡ acknowledged phase.now }
{
    match first_of(Wanted::Address, phase) {
        Some(address) => match first_of(Wanted::Ack, address.others) {
            Some(ack) => {
                if ack.packet.a == 0 {
                    return Some(Found {
                        packet: address.packet,
                        others: ack.others,
                    });
                }
                None
            }
            None => None,
        },
        None => None,
    }
}

// Appends a packet where it is data.
fn add_if_data(packet: Packet, bytes: &mut Vec<Packet>) -> Result<(), AllocError>
    ensures { OnOk result (bytes.new.items ≡ bytes.old.items ++ data_in (packet ∷ [])) }
{
    if !is_data(packet.kind) {
        return Ok(());
    }
    bytes.push(packet)?;
    Ok(())
}

// The data among packets.
fn data_in(alloc: Global, list: &[Packet]) -> Result<Vec<Packet>, AllocError>
    ensures { IfOk result (λ bytes. bytes.items ≡ data_in list.now) }
{
    let mut bytes = Vec::new(alloc);
    for packet in list {
        add_if_data(*packet, &mut bytes)?;
    }
    Ok(bytes)
}

fn is_six(bytes: &[Packet]) -> bool
    ensures { result ≡ is_six bytes.now }
{
    match bytes.first() {
        Some(packet) => byte_of(*packet) == 6,
        None => false,
    }
}

// Whether a phase with these bytes, of which these stand behind the acknowledge, is a general
// call's reset.
fn is_reset(address: Packet, all: &[Packet], behind: &[Packet]) -> bool
    ensures { result ≡ ((address.a == 0 && address.b == 0)
        && (length all.now == length behind.now && is_six behind.now)) }
{
    (address.a == 0 && address.b == 0) && (all.len() == behind.len() && is_six(behind))
}

// What a phase means to the device at an address, which takes a general call's reset or doesn't.
fn meaning_of(
    alloc: Global,
    device: u64,
    resets: bool,
    phase: &[Packet],
) -> Result<Meaning, AllocError>
    ensures { IfOk result (λ own. meant own ≡ meaning device resets phase.now) }
{
    match acknowledged(phase) {
        Some(address) => {
            let all = data_in(alloc, phase)?;
            let bytes = data_in(alloc, address.others)?;
            if address.packet.a == device && address.packet.b == 0 {
                return Ok(Meaning::Writes(bytes));
            }
            if address.packet.a == device && address.packet.b == 1 {
                return Ok(Meaning::Reads(bytes));
            }
            if resets && is_reset(address.packet, &all, &bytes) {
                return Ok(Meaning::Reset);
            }
            Ok(Meaning::Nothing)
        }
        None => Ok(Meaning::Nothing),
    }
}

// Appends what a part means, where it is a phase.
fn add_part(
    alloc: Global,
    device: u64,
    resets: bool,
    part: &[Packet],
    meanings: &mut Vec<Meaning>,
) -> Result<(), AllocError>
    ensures { OnOk result
        (map meant meanings.new.items ≡ map meant meanings.old.items
        ++ map (meaning device resets) (phase_in part.now)) }
{
    match part.split_first() {
        Some((head, phase)) => {
            if !is_start(head.kind) {
                return Ok(());
            }
            meanings.push(meaning_of(alloc, device, resets, phase)?)?;
            Ok(())
        }
        None => Ok(()),
    }
}

// Appends what those parts mean that are phases.
fn add_parts(
    alloc: Global,
    device: u64,
    resets: bool,
    parts: &[Vec<Packet>],
    meanings: &mut Vec<Meaning>,
) -> Result<(), AllocError>
    ensures { OnOk result
        (map meant meanings.new.items ≡ map meant meanings.old.items
        ++ map (meaning device resets) (flat_map phase_in (map (λ part. part.items) parts.now))) }
{
    for part in parts {
        add_part(alloc, device, resets, part, meanings)?;
    }
    Ok(())
}

/// What all phases mean to a device.
pub fn meanings_of(
    alloc: Global,
    device: u64,
    resets: bool,
    packets: &[Packet],
) -> Result<Vec<Meaning>, AllocError>
    ensures { IfOk result (λ all. map meant all.items ≡ meanings device resets packets.now) }
{
    let parts = parts_of(alloc, &IsMark, packets)?;
    let mut meanings = Vec::new(alloc);
    add_parts(alloc, device, resets, &parts, &mut meanings)?;
    Ok(meanings)
}
