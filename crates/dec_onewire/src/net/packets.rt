// What a packet of the link is.
ghost use Rattle.std.specs.Prelude.{◌≡◌};
ghost use Rattle.dec_onewire.specs.Net.{is_reset, is_presence, is_bit, bit_in};

use la_base::{Packet, PacketKind};

pub fn is_reset(kind: PacketKind) -> bool
    ensures { result ≡ is_reset kind }
{
    matches!(kind, PacketKind::OwReset)
}

pub fn is_presence(kind: PacketKind) -> bool
    ensures { result ≡ is_presence kind }
{
    matches!(kind, PacketKind::OwPresence)
}

pub fn is_bit(kind: PacketKind) -> bool
    ensures { result ≡ is_bit kind }
{
    matches!(kind, PacketKind::OwBit)
}

/// The bit that a packet says: the lowest one of its value.
pub fn bit_in(packet: Packet) -> bool
    ensures { result ≡ bit_in packet }
{
    packet.a % 2 == 1
}
