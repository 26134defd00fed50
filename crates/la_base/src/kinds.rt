// The wire of each kind of packet.
ghost use Rattle.std.specs.Prelude.{◌≡◌};
ghost use Rattle.la_base.specs.Kinds.{same_wire, wire_of};

use crate::{PacketKind, Wire};

/// The wire that packets of a kind run on: what a decoder reads that is fed with them.
pub fn wire_of(kind: PacketKind) -> Wire
    ensures { result ≡ wire_of kind }
{
    match kind {
        PacketKind::I2cStart
        | PacketKind::I2cStop
        | PacketKind::I2cAddress
        | PacketKind::I2cData
        | PacketKind::I2cAck => Wire::I2c,
        PacketKind::SpiSelect | PacketKind::SpiWord | PacketKind::SpiDeselect => Wire::Spi,
        PacketKind::UartFrame | PacketKind::UartBreak => Wire::Uart,
        PacketKind::OwReset | PacketKind::OwPresence | PacketKind::OwBit => Wire::OwLink,
        PacketKind::NetReset | PacketKind::NetCommand | PacketKind::NetRom | PacketKind::NetByte =>
            Wire::OwNet,
    }
}

/// Whether two wires are the same.
pub fn same_wire(one: Wire, other: Wire) -> bool
    ensures { result ≡ same_wire one other }
{
    one == other
}
