// The definition and the decoder. Nothing is done.
ghost use Rattle.std.specs.Prelude.{◌≡◌, List};
ghost use Rattle.la_base.specs.declared.wires.Packet.{Packet};
ghost use Rattle.dev_eeprom24.specs.Eeprom.{eeprom_outs};
ghost use Rattle.dev_eeprom24.specs.declared.chip.Chip.{Chip};

use crate::Eeprom;
use decoder_core::PacketMachine;
use i2c_phases::Phased;

/// What a decoder gives of packets is what the definition of its EEPROM says. (A law; nothing is
/// done.)
pub fn outputs_are_by_the_definition()
    ensures { (chip : Chip) (packets : List Packet)
        → ⟦<Phased<Eeprom> as PacketMachine>⟧.outs chip packets ≡ eeprom_outs chip packets }
{}
