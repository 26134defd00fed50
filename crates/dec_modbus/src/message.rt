// A message, byte by byte.
ghost use Rattle.std.specs.Prelude.{◌≡◌, ◌≤◌, ◌++◌, length};
ghost use Rattle.dec_modbus.specs.Modbus.{byte_in, byte_outs, follows, is_frame, message_note};
ghost use Rattle.dec_modbus.specs.laws.Machine.{begun, is_bad, longer, longer_crc, note_of};
ghost use Rattle.dec_modbus.specs.laws.Machine.{wrong_in};

use crate::Message;
use crate::crc::with_byte;
use decoder_core::{Outs, span_note};
use la_base::{Out, Packet, PacketKind};

// The most bytes that are counted.
const MOST_BYTES: u64 = 1 << 60;

pub fn is_frame(kind: PacketKind) -> bool
    ensures { result ≡ is_frame kind }
{
    matches!(kind, PacketKind::UartFrame)
}

// The byte of a frame: the lowest eight bits of its value.
fn byte_in(frame: Packet) -> u8
    ensures { result ≡ byte_in frame }
{
    (frame.a % 256) as u8
}

// Whether a frame has an error.
fn is_bad(frame: Packet) -> bool
    ensures { result ≡ is_bad frame }
{
    frame.b != 0
}

/// Whether a packet is a frame that begins less than `gap` samples behind an end, or before it.
pub fn follows(gap: u64, end: u64, packet: Packet) -> bool
    ensures { result ≡ follows gap end packet }
{
    is_frame(packet.kind) && (packet.start < end || packet.start - end < gap)
}

/// Puts out the byte of a frame, by its place in its message.
pub fn give_byte(place: u64, packet: Packet, into: &mut Outs)
    requires { length into.old ≤ 1 }
    ensures { into.new ≡ into.old ++ byte_outs place packet }
{
    if is_frame(packet.kind) {
        let class = place.min(2) as u16;
        let byte = byte_in(packet) as u64;
        into.push(span_note(class, packet.start, packet.end, byte, 0));
    }
}

// The note on a message of so many bytes.
fn message_note(message: Message, count: u64, wrong: bool) -> Out
    ensures { result
        ≡ message_note message.start message.end count message.errors wrong }
{
    let told = count.min(MOST_BYTES);
    if message.errors {
        span_note(6, message.start, message.end, told, 0)
    } else if count < 4 {
        span_note(4, message.start, message.end, told, 0)
    } else if count > 256 {
        span_note(5, message.start, message.end, told, 0)
    } else {
        span_note(3, message.start, message.end, told, wrong as u64)
    }
}

// Whether the last two bytes aren't the CRC of the others.
fn wrong_in(message: Message) -> bool
    ensures { result ≡ wrong_in message }
{
    message.crc != message.low as u16 + 256 * message.high as u16
}

/// The note on a message.
pub fn note_of(message: Message) -> Out
    ensures { result ≡ note_of message }
{
    message_note(message, message.count, wrong_in(message))
}

/// A message of one frame.
pub fn begun(first: Packet) -> Message
    ensures { result ≡ begun first }
{
    Message {
        start: first.start,
        end: first.end,
        count: 1,
        crc: 0xFFFF,
        low: byte_in(first),
        high: byte_in(first),
        errors: is_bad(first),
    }
}

// The CRC behind one more byte: the last byte but one goes in, if there is one.
fn longer_crc(message: Message) -> u16
    ensures { result ≡ longer_crc message }
{
    if message.count < 2 {
        message.crc
    } else {
        with_byte(message.crc, message.low)
    }
}

/// A message with one more frame.
pub fn longer(message: Message, frame: Packet) -> Message
    ensures { result ≡ longer message frame }
{
    Message {
        start: message.start,
        end: frame.end,
        count: message.count.min(MOST_BYTES - 1) + 1,
        crc: longer_crc(message),
        low: message.high,
        high: byte_in(frame),
        errors: message.errors || is_bad(frame),
    }
}
