// What a packet of a serial line is for MIDI.
ghost use Rattle.std.specs.Prelude.{◌≡◌, ◌<◌};
ghost use Rattle.dec_midi.specs.Midi.{as_byte, is_byte, sort_of};

use crate::Sort;
use la_base::{Packet, PacketKind};

/// Whether a packet is a byte: a frame without an error.
pub fn is_byte(packet: Packet) -> bool
    ensures { result ≡ is_byte packet }
{
    matches!(packet.kind, PacketKind::UartFrame) && packet.b == 0
}

/// A frame as a byte: of its value the lowest eight bits are read.
pub fn as_byte(frame: Packet) -> Packet
    ensures { result ≡ as_byte frame }
{
    Packet {
        kind: frame.kind,
        start: frame.start,
        end: frame.end,
        a: frame.a % 256,
        b: frame.b,
    }
}

/// What a byte is.
pub fn sort_of(byte: u64) -> Sort
    ensures { result ≡ sort_of byte }
{
    if byte < 0x80 {
        Sort::Data
    } else if byte < 0xF8 {
        Sort::Status
    } else {
        Sort::RealTime
    }
}
