// What a device tells of a byte of its phases.
ghost use Rattle.std.specs.Prelude.{◌≡◌};
ghost use Rattle.i2c_phases.specs.Phases.{byte_of};
ghost use Rattle.i2c_phases.specs.Bytes.{byte_note, byte_piece};

use decoder_core::{span_note, span_piece};
use la_base::{Out, Packet};

/// The byte of a packet of data: its lowest eight bits.
pub fn byte_of(packet: Packet) -> u8
    ensures { result ≡ byte_of packet }
{
    (packet.a % 256) as u8
}

/// A note of one byte, with its span.
pub fn byte_note(class: u16, packet: Packet, a: u64, b: u64) -> Out
    ensures { result ≡ byte_note class packet a b }
{
    span_note(class, packet.start, packet.end, a, b)
}

/// A piece of one byte, with its span.
pub fn byte_piece(class: u16, packet: Packet) -> Out
    ensures { result ≡ byte_piece class packet }
{
    span_piece(class, packet.start, packet.end, byte_of(packet))
}
