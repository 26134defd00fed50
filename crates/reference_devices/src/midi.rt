//! MIDI: the bytes among packets, cut at their statuses, and what each gives with those before it.
ghost use Rattle.std.specs.Prelude.{◌≡◌, ◌<◌, ◌++◌, ◌∷◌, [], None, Some, false, length, map};
ghost use Rattle.std.specs.Prelude.{option_map, true, IfOk, OnOk, if◌then◌else◌};
ghost use Rattle.dec_midi.specs.Midi.{as_byte, byte_note, bytes_in, class_of, data_count, data_end};
ghost use Rattle.dec_midi.specs.Midi.{data_in, datum_outs, exclusive_outs, is_byte, is_data_sort};
ghost use Rattle.dec_midi.specs.Midi.{is_frame, is_status, message, midi_outs, of_one, of_two};
ghost use Rattle.dec_midi.specs.Midi.{one_outs, ones_outs, own_outs, sort_of, starts, status_outs};
ghost use Rattle.dec_midi.specs.Midi.{stray, takes, two_outs, twos_outs};
ghost use Rattle.reference_devices.specs.MidiParts.{byte_gives, datum, head, head_behind, inner_outs};
ghost use Rattle.reference_devices.specs.MidiParts.{others_behind, part_by};

use crate::midi_bytes::{Datum, Status};
use dec_midi::Takes;
use decoder_core::span_note;
use la_base::{Out, Packet, PacketKind};
use std::alloc::{AllocError, Global};

fn is_frame(kind: PacketKind) -> bool
    ensures { result ≡ is_frame kind }
{
    matches!(kind, PacketKind::UartFrame)
}

// Whether a packet is a byte.
fn is_byte(packet: Packet) -> bool
    ensures { result ≡ is_byte packet }
{
    is_frame(packet.kind) && packet.b == 0
}

// A frame as a byte: of its value the lowest eight bits are read.
fn as_byte(frame: Packet) -> Packet
    ensures { result ≡ as_byte frame }
{
    Packet {
        kind: frame.kind,
        start: frame.start,
        end: frame.end,
        a: frame.a % 256,
        b: frame.b,
    }
}

// Appends a packet, if it is a byte.
fn add_if_byte(packet: Packet, bytes: &mut Vec<Packet>) -> Result<(), AllocError>
    ensures { OnOk result (bytes.new.items ≡ bytes.old.items ++ bytes_in (packet ∷ [])) }
{
    if !is_byte(packet) {
        return Ok(());
    }
    bytes.push(as_byte(packet))?;
    Ok(())
}

// The bytes among packets.
fn bytes_in(alloc: Global, packets: &[Packet]) -> Result<Vec<Packet>, AllocError>
    ensures { IfOk result (λ bytes. bytes.items ≡ bytes_in packets.now) }
{
    let mut bytes = Vec::new(alloc);
    for packet in packets {
        add_if_byte(*packet, &mut bytes)?;
    }
    Ok(bytes)
}

// A byte as a status, if it is one.
fn status_of(byte: Packet) -> Option<Status>
    ensures { head result ≡ (if is_status byte then Some byte else None) }
{
    if 128 <= byte.a && byte.a < 248 {
        return Some(Status { byte });
    }
    None
}

// A byte as a data byte, if it is one.
fn datum_of(byte: Packet) -> Option<Datum>
    ensures { option_map datum result
        ≡ (if is_data_sort (sort_of byte.a) then Some byte else None) }
{
    if byte.a < 128 {
        return Some(Datum { byte });
    }
    None
}

// Appends a byte, if it is a data byte.
fn add_if_datum(byte: Packet, list: &mut Vec<Datum>) -> Result<(), AllocError>
    ensures { OnOk result
        (map datum list.new.items ≡ map datum list.old.items ++ data_in (byte ∷ [])) }
{
    match datum_of(byte) {
        Some(one) => {
            list.push(one)?;
            Ok(())
        }
        None => Ok(()),
    }
}

// The data bytes among bytes.
fn data_in(alloc: Global, bytes: &[Packet]) -> Result<Vec<Datum>, AllocError>
    ensures { IfOk result (λ list. map datum list.items ≡ data_in bytes.now) }
{
    let mut list = Vec::new(alloc);
    for byte in bytes {
        add_if_datum(*byte, &mut list)?;
    }
    Ok(list)
}

// What data a status takes.
fn takes(status: u64) -> Takes
    ensures { result ≡ takes status }
{
    if status < 0xC0 {
        Takes::Twos
    } else if status < 0xE0 {
        Takes::Ones
    } else if status < 0xF0 {
        Takes::Twos
    } else if status == 0xF0 {
        Takes::Any
    } else if status == 0xF2 {
        Takes::Two
    } else if status == 0xF1 || status == 0xF3 {
        Takes::One
    } else {
        Takes::Nothing
    }
}

// The class of a message.
fn class_of(status: u64) -> u16
    requires { status < 248 }
    ensures { result ≡ class_of status }
{
    if status < 0xF0 {
        (status / 16).saturating_sub(8) as u16
    } else {
        (status - 0xEA) as u16
    }
}

// Appends a note on a byte by itself.
fn add_note(class: u16, byte: Packet, outs: &mut Vec<Out>) -> Result<(), AllocError>
    ensures { OnOk result (outs.new.items ≡ outs.old.items ++ byte_note class byte) }
{
    outs.push(span_note(class, byte.start, byte.end, byte.a, 0))?;
    Ok(())
}

// Appends a message.
fn add_message(
    status: Status,
    first: u64,
    last: u64,
    one: Datum,
    two: u64,
    outs: &mut Vec<Out>,
) -> Result<(), AllocError>
    requires { two < 128 }
    ensures { OnOk result (outs.new.items ≡ outs.old.items
        ++ message status.byte.a first last one.byte.a two) }
{
    let code = status.byte.a;
    let value = code * 65536 + one.byte.a * 256 + two;
    outs.push(span_note(class_of(code), first, last, value, 0))?;
    Ok(())
}

// Appends a message of one data byte.
fn add_of_one(status: Status, from: u64, byte: Datum, outs: &mut Vec<Out>) -> Result<(), AllocError>
    ensures { OnOk result
        (outs.new.items ≡ outs.old.items ++ of_one status.byte from byte.byte) }
{
    add_message(status, from, byte.byte.end, byte, 0, outs)
}

// Appends a message of two data bytes.
fn add_of_two(
    status: Status,
    from: u64,
    one: Datum,
    two: Datum,
    outs: &mut Vec<Out>,
) -> Result<(), AllocError>
    ensures { OnOk result
        (outs.new.items ≡ outs.old.items ++ of_two status.byte from one.byte two.byte) }
{
    add_message(status, from, two.byte.end, one, two.byte.a, outs)
}

// Appends what a data byte gives of a status that takes the first one.
fn add_one(
    status: Status,
    before: &[Datum],
    byte: Datum,
    outs: &mut Vec<Out>,
) -> Result<(), AllocError>
    ensures { OnOk result (outs.new.items ≡ outs.old.items
        ++ one_outs status.byte (map datum before.now) byte.byte) }
{
    match before.split_first() {
        Some(_) => add_note(14, byte.byte, outs),
        None => add_of_one(status, status.byte.start, byte, outs),
    }
}

// Appends what one gives of a status that takes the first two.
fn add_two(
    status: Status,
    before: &[Datum],
    byte: Datum,
    outs: &mut Vec<Out>,
) -> Result<(), AllocError>
    ensures { OnOk result (outs.new.items ≡ outs.old.items
        ++ two_outs status.byte (map datum before.now) byte.byte) }
{
    match before.split_first() {
        Some((one, others)) => match others.split_first() {
            Some(_) => add_note(14, byte.byte, outs),
            None => add_of_two(status, status.byte.start, *one, byte, outs),
        },
        None => Ok(()),
    }
}

// Appends what one gives of a status that takes each as a message.
fn add_ones(
    status: Status,
    before: &[Datum],
    byte: Datum,
    outs: &mut Vec<Out>,
) -> Result<(), AllocError>
    ensures { OnOk result (outs.new.items ≡ outs.old.items
        ++ ones_outs status.byte (map datum before.now) byte.byte) }
{
    match before.split_first() {
        Some(_) => add_of_one(status, byte.byte.start, byte, outs),
        None => add_of_one(status, status.byte.start, byte, outs),
    }
}

// Where a message starts.
fn starts(first: bool, status: Packet, one: Packet) -> u64
    ensures { result ≡ starts first status one }
{
    if first { status.start } else { one.start }
}

// Appends what one gives of two by two, behind fewer than two of them.
fn add_last_two(
    first: bool,
    status: Status,
    before: &[Datum],
    byte: Datum,
    outs: &mut Vec<Out>,
) -> Result<(), AllocError>
    requires { length before.now < 2 }
    ensures { OnOk result (outs.new.items ≡ outs.old.items
        ++ twos_outs first status.byte (map datum before.now) byte.byte) }
{
    match before.split_first() {
        Some((one, _)) => {
            let from = starts(first, status.byte, one.byte);
            add_of_two(status, from, *one, byte, outs)
        }
        None => Ok(()),
    }
}

// Appends what one gives of a status that takes them two by two.
fn add_twos(
    status: Status,
    before: &[Datum],
    byte: Datum,
    outs: &mut Vec<Out>,
) -> Result<(), AllocError>
    ensures { OnOk result (outs.new.items ≡ outs.old.items
        ++ twos_outs true status.byte (map datum before.now) byte.byte) }
{
    let mut first = true;
    let mut rest = before;
    while 2 <= rest.len() {
        let (_, behind) = rest.split_at(2);
        first = false;
        rest = behind;
    }
    add_last_two(first, status, rest, byte, outs)
}

// Appends what a data byte gives, behind those of its status that come before it.
fn add_datum(
    status: Status,
    before: &[Datum],
    byte: Datum,
    outs: &mut Vec<Out>,
) -> Result<(), AllocError>
    ensures { OnOk result (outs.new.items ≡ outs.old.items
        ++ datum_outs (takes status.byte.a) status.byte (map datum before.now) byte.byte) }
{
    match takes(status.byte.a) {
        Takes::Nothing => add_note(14, byte.byte, outs),
        Takes::One => add_one(status, before, byte, outs),
        Takes::Two => add_two(status, before, byte, outs),
        Takes::Ones => add_ones(status, before, byte, outs),
        Takes::Twos => add_twos(status, before, byte, outs),
        Takes::Any => Ok(()),
    }
}

// Appends what a byte gives that is no status, in the part of a status or before any.
fn add_inner(
    alloc: Global,
    status: Option<Status>,
    others: &[Packet],
    byte: Packet,
    outs: &mut Vec<Out>,
) -> Result<(), AllocError>
    requires { is_status byte ≡ false }
    ensures { OnOk result
        (outs.new.items ≡ outs.old.items ++ inner_outs (head status) others.now byte) }
{
    match datum_of(byte) {
        Some(one) => match status {
            Some(status) => {
                let before = data_in(alloc, others)?;
                add_datum(status, &before, one, outs)
            }
            None => add_note(14, byte, outs),
        },
        None => add_note(11, byte, outs),
    }
}

// Where data bytes end.
fn data_end(last: u64, list: &[Datum]) -> u64
    ensures { result ≡ data_end last (map datum list.now) }
{
    let mut end = last;
    for one in list {
        end = one.byte.end;
    }
    end
}

// How many there are.
fn data_count(list: &[Datum]) -> u64
    ensures { result ≡ data_count (map datum list.now) }
{
    (list.len() as u64).min(1 << 60)
}

// Appends what a status gives by itself.
fn add_own(status: Packet, outs: &mut Vec<Out>) -> Result<(), AllocError>
    ensures { OnOk result (outs.new.items ≡ outs.old.items ++ own_outs status) }
{
    match status.a {
        0xF6 => add_note(10, status, outs),
        0xF4 | 0xF5 | 0xF7 => add_note(15, status, outs),
        _ => Ok(()),
    }
}

// Appends what a status gives that ends system exclusive.
fn add_exclusive(
    exclusive: Packet,
    list: &[Datum],
    status: Packet,
    outs: &mut Vec<Out>,
) -> Result<(), AllocError>
    ensures { OnOk result (outs.new.items ≡ outs.old.items
        ++ exclusive_outs exclusive (map datum list.now) status) }
{
    let count = data_count(list);
    if status.a == 0xF7 {
        outs.push(span_note(12, exclusive.start, status.end, count, 0))?;
        return Ok(());
    }
    let end = data_end(exclusive.end, list);
    outs.push(span_note(13, exclusive.start, end, count, 0))?;
    add_own(status, outs)
}

// Appends what a status gives behind the part that it ends, if there is one.
fn add_status(
    alloc: Global,
    before: Option<Status>,
    others: &[Packet],
    status: Packet,
    outs: &mut Vec<Out>,
) -> Result<(), AllocError>
    ensures { OnOk result (outs.new.items ≡ outs.old.items
        ++ status_outs (part_by (head before) others.now) status) }
{
    match before {
        Some(before) => match takes(before.byte.a) {
            Takes::Any => {
                let list = data_in(alloc, others)?;
                add_exclusive(before.byte, &list, status, outs)
            }
            _ => add_own(status, outs),
        },
        None => add_own(status, outs),
    }
}

// Appends what a byte gives behind the last part.
fn add_byte(
    alloc: Global,
    status: Option<Status>,
    others: &[Packet],
    byte: Packet,
    outs: &mut Vec<Out>,
) -> Result<(), AllocError>
    ensures { OnOk result
        (outs.new.items ≡ outs.old.items ++ byte_gives (head status) others.now byte) }
{
    match status_of(byte) {
        Some(_) => add_status(alloc, status, others, byte, outs),
        None => add_inner(alloc, status, others, byte, outs),
    }
}

// The status of the last part behind a byte.
fn head_behind(status: Option<Status>, byte: Packet) -> Option<Status>
    ensures { head result ≡ head_behind (head status) byte }
{
    match status_of(byte) {
        Some(own) => Some(own),
        None => status,
    }
}

// The other bytes of that part.
fn others_behind(alloc: Global, others: &[Packet], byte: Packet) -> Result<Vec<Packet>, AllocError>
    ensures { IfOk result (λ all. all.items ≡ others_behind others.now byte) }
{
    let mut all = Vec::new(alloc);
    if status_of(byte).is_some() {
        return Ok(all);
    }
    all.extend_from_slice(others)?;
    all.push(byte)?;
    Ok(all)
}

/// All that packets give, by the definition of MIDI.
pub fn outputs_of(alloc: Global, packets: &[Packet]) -> Result<Vec<Out>, AllocError>
    ensures { IfOk result (λ outs. outs.items ≡ midi_outs packets.now) }
{
    let bytes = bytes_in(alloc, packets)?;
    let mut outs = Vec::new(alloc);
    let mut status = None;
    let mut others: Vec<Packet> = Vec::new(alloc);
    for byte in &bytes {
        add_byte(alloc, status, &others, *byte, &mut outs)?;
        others = others_behind(alloc, &others, *byte)?;
        status = head_behind(status, *byte);
    }
    Ok(outs)
}
