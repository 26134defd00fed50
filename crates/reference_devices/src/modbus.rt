//! Messages of Modbus RTU: the whole list of packets, cut into rows, and what each row gives.
ghost use Rattle.std.specs.Prelude.{◌≡◌, ◌<◌, ◌≤◌, ◌^◌, ◌++◌, ◌∷◌, [], get_or, length, map};
ghost use Rattle.std.specs.Prelude.{IfOk, OnOk};
ghost use Rattle.std.specs.Int.Bits.{bit_xor};
ghost use Rattle.dec_modbus.specs.Modbus.{byte_in, byte_outs, crc16, crc_wrong, follows, gap_of};
ghost use Rattle.dec_modbus.specs.Modbus.{has_error, is_frame, last_in, message_note};
ghost use Rattle.dec_modbus.specs.Modbus.{message_outs, modbus_outs, shifted, shifts, together};
ghost use Rattle.reference_devices.specs.MessageParts.{joins, packet_outs, with_packet};

use dec_modbus::ModbusOpts;
use decoder_core::span_note;
use la_base::{Out, Packet, PacketKind, Rate};
use rate_math::samples_of_ns;
use std::alloc::{AllocError, Global};

fn is_frame(kind: PacketKind) -> bool
    ensures { result ≡ is_frame kind }
{
    matches!(kind, PacketKind::UartFrame)
}

// The byte of a frame.
fn byte_in(frame: Packet) -> u8
    ensures { result ≡ byte_in frame }
{
    (frame.a % 256) as u8
}

// Whether a frame begins less than `gap` samples behind an end, or before it.
fn follows(gap: u64, end: u64, packet: Packet) -> bool
    ensures { result ≡ follows gap end packet }
{
    is_frame(packet.kind) && (packet.start as u128) < end as u128 + gap as u128
}

// Whether two neighbours are of one message.
fn together(gap: u64, before: Packet, packet: Packet) -> bool
    ensures { result ≡ together gap before packet }
{
    is_frame(before.kind) && follows(gap, before.end, packet)
}

// The last of a packet and others behind it.
fn last_in(first: Packet, others: &[Packet]) -> Packet
    ensures { result ≡ last_in first others.now }
{
    let mut last = first;
    for packet in others {
        last = *packet;
    }
    last
}

// Whether a packet joins a row.
fn joins(gap: u64, row: &[Packet], packet: Packet) -> bool
    ensures { result ≡ joins gap row.now packet }
{
    match row.split_first() {
        Some((first, others)) => together(gap, last_in(*first, others), packet),
        None => false,
    }
}

// One shift of the register of the CRC.
fn shifted(crc: u16) -> u16
    ensures { result ≡ shifted crc }
{
    if crc % 2 == 1 {
        crc / 2 ^ 0xA001
    } else {
        crc / 2
    }
}

// The register behind a byte, which goes in with its eight bits.
fn with_byte(crc: u16, byte: u8) -> u16
    ensures { result ≡ shifts 8 (bit_xor crc byte) }
{
    let mut register = crc ^ byte as u16;
    for _ in 0..8_u8 {
        register = shifted(register);
    }
    register
}

// The CRC of bytes.
fn crc16(bytes: &[u8]) -> u16
    ensures { result ≡ crc16 bytes.now }
{
    let mut crc = 0xFFFF_u16;
    for byte in bytes {
        crc = with_byte(crc, *byte);
    }
    crc
}

// The byte at a place.
fn byte_at(bytes: &[u8], place: usize) -> u8
    requires { place < length bytes.now }
    ensures { result ≡ get_or bytes.now place 0 }
{
    bytes[place]
}

// Whether the last two bytes aren't the CRC of those before them.
fn crc_wrong(bytes: &[u8]) -> bool
    requires { 1 ≤ length bytes.now }
    ensures { result ≡ crc_wrong bytes.now }
{
    let place = bytes.len().saturating_sub(2);
    let (front, _) = bytes.split_at(place);
    let sent = byte_at(bytes, place) as u16 + 256 * byte_at(bytes, bytes.len() - 1) as u16;
    crc16(front) != sent
}

// The bytes of frames.
fn bytes_of(alloc: Global, row: &[Packet]) -> Result<Vec<u8>, AllocError>
    ensures { IfOk result (λ bytes. bytes.items ≡ map byte_in row.now) }
{
    let mut bytes = Vec::new(alloc);
    for frame in row {
        bytes.push(byte_in(*frame))?;
    }
    Ok(bytes)
}

// Whether a frame has an error.
fn has_error(row: &[Packet]) -> bool
    ensures { result ≡ has_error row.now }
{
    row.iter().any(|frame| frame.b != 0)
}

// The note on a message of so many bytes.
fn message_note(first: u64, last: u64, count: u64, errors: bool, wrong: bool) -> Out
    ensures { result ≡ message_note first last count errors wrong }
{
    let told = count.min(1 << 60);
    if errors {
        span_note(6, first, last, told, 0)
    } else if count < 4 {
        span_note(4, first, last, told, 0)
    } else if 256 < count {
        span_note(5, first, last, told, 0)
    } else {
        span_note(3, first, last, told, wrong as u64)
    }
}

// Appends the note on a row that has ended, if it is a message.
fn add_message(alloc: Global, row: &[Packet], outs: &mut Vec<Out>) -> Result<(), AllocError>
    ensures { OnOk result (outs.new.items ≡ outs.old.items ++ message_outs row.now) }
{
    match row.split_first() {
        Some((first, others)) => {
            if !is_frame(first.kind) {
                return Ok(());
            }
            let bytes = bytes_of(alloc, row)?;
            let end = last_in(*first, others).end;
            let count = row.len() as u64;
            let (errors, wrong) = (has_error(row), crc_wrong(&bytes));
            outs.push(message_note(first.start, end, count, errors, wrong))?;
            Ok(())
        }
        None => Ok(()),
    }
}

// Appends the byte of a frame, by its place in its message.
fn add_byte(place: u64, packet: Packet, outs: &mut Vec<Out>) -> Result<(), AllocError>
    ensures { OnOk result (outs.new.items ≡ outs.old.items ++ byte_outs place packet) }
{
    if !is_frame(packet.kind) {
        return Ok(());
    }
    let class = place.min(2) as u16;
    let byte = byte_in(packet) as u64;
    outs.push(span_note(class, packet.start, packet.end, byte, 0))?;
    Ok(())
}

// Appends what a packet gives behind the row that nothing has ended yet.
fn add_packet(
    alloc: Global,
    gap: u64,
    row: &[Packet],
    packet: Packet,
    outs: &mut Vec<Out>,
) -> Result<(), AllocError>
    ensures { OnOk result (outs.new.items ≡ outs.old.items ++ packet_outs gap row.now packet) }
{
    if joins(gap, row, packet) {
        return add_byte(row.len() as u64, packet, outs);
    }
    add_message(alloc, row, outs)?;
    add_byte(0, packet, outs)
}

// The row that nothing has ended behind a packet: the longer one, or the packet alone.
fn with_packet(
    alloc: Global,
    gap: u64,
    row: &[Packet],
    packet: Packet,
) -> Result<Vec<Packet>, AllocError>
    ensures { IfOk result (λ longer. longer.items ≡ with_packet gap row.now packet) }
{
    let mut longer = Vec::new(alloc);
    if joins(gap, row, packet) {
        longer.extend_from_slice(row)?;
    }
    longer.push(packet)?;
    Ok(longer)
}

/// All that packets give, by the definition of messages.
pub fn outputs_of(
    alloc: Global,
    opts: ModbusOpts,
    rate: Rate,
    packets: &[Packet],
) -> Result<Vec<Out>, AllocError>
    requires gap { opts.gap ≤ 10 ^ 9 }
    requires rate { rate.num ≤ 10 ^ 15 }
    ensures { IfOk result (λ outs. outs.items ≡ modbus_outs (gap_of opts rate) packets.now) }
{
    let gap = samples_of_ns(rate, opts.gap);
    let mut outs = Vec::new(alloc);
    let mut row: Vec<Packet> = Vec::new(alloc);
    for packet in packets {
        add_packet(alloc, gap, &row, *packet, &mut outs)?;
        row = with_packet(alloc, gap, &row, *packet)?;
    }
    Ok(outs)
}
