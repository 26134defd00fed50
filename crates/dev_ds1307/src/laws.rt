// The definition and the decoder. Nothing is done.
ghost use Rattle.std.specs.Prelude.{◌≡◌, ◌≤◌, ◌+◌, ◌-◌, ◌%◌, ℕ, List};
ghost use Rattle.la_base.specs.declared.wires.Packet.{Packet};
ghost use Rattle.dev_ds1307.specs.Clock.{clock_outs};
ghost use Rattle.dev_ds1307.specs.declared.chip.Chip.{Chip};

use crate::Clock;
use decoder_core::PacketMachine;
use i2c_phases::Phased;

/// What a decoder gives of packets is what the definition of its clock says. (A law; nothing is
/// done.)
pub fn outputs_are_by_the_definition()
    ensures { (chip : Chip) (packets : List Packet)
        → ⟦<Phased<Clock> as PacketMachine>⟧.outs chip packets ≡ clock_outs chip packets }
{}

/// A byte of register 6 with six bytes before it in its phase ends a time: the seven are those of
/// registers 0 to 6, wherever the first byte of the phase belongs. (A law; nothing is done.)
pub fn a_time_is_seven_registers()
    ensures { (from place : ℕ) → 6 ≤ place → (from + place) % 64 ≡ 6 → (k : ℕ) → k ≤ 6
        → (from + (place - 6 + k)) % 64 ≡ k }
{}
