// A device on an I2C bus, by what it does with the bytes of its own phases.
ghost use Rattle.std.specs.Prelude.{◌≡◌, [], ◌∷◌, ◌++◌, ℕ, Bool, List};
ghost use Rattle.la_base.specs.declared.wires.Out.{Out};
ghost use Rattle.i2c_phases.specs.Phases.{Meaning, Nothing, Writes, Reads, Reset};
ghost use Rattle.i2c_phases.specs.Devices.{GivesByByte, GivesNoPackets, KnowsOpened, OneDevice};
ghost use Rattle.i2c_phases.specs.Devices.{TakesByte};

use decoder_core::{Configured, Outs};
use la_base::Packet;

/// A device on an I2C bus, between two packets. It sees its own phases alone: their bytes, and
/// resets. Every call is safe for every value of the type; what is said of phases is said of all
/// those that the value knows. It puts out no packets.
pub trait I2cDevice: Configured {
    /// Its address on the bus.
    ghost bus_address: { Self.Setup → ℕ };

    /// Whether a general call resets it.
    ghost takes_reset: { Self.Setup → Bool };

    /// What a phase gives behind earlier ones, by the device's definition.
    ghost step: { Self.Setup → List Meaning → Meaning → List Out };

    /// It knows these phases, the last of which may still be open.
    ghost knows: { Self → List Meaning → Type 0 };

    fn address(&self) -> u64
        ensures { result ≡ bus_address (Self.setup self.now) };

    fn resets(&self) -> bool
        ensures { result ≡ takes_reset (Self.setup self.now) };

    /// A phase begins.
    fn begin(&mut self)
        ensures setup { Self.setup self.new ≡ Self.setup self.old }
        ensures knows { (phases : List Meaning) → knows self.old phases
            → knows self.new (phases ++ Nothing ∷ []) };

    /// A byte is written to it.
    fn write(&mut self, byte: Packet, into: &mut Outs)
        requires empty { into.old ≡ [] }
        ensures setup { Self.setup self.new ≡ Self.setup self.old }
        ensures takes { TakesByte Writes (knows self.old) (knows self.new)
            (step (Self.setup self.old)) byte into.new };

    /// A byte is read from it.
    fn read(&mut self, byte: Packet, into: &mut Outs)
        requires empty { into.old ≡ [] }
        ensures setup { Self.setup self.new ≡ Self.setup self.old }
        ensures takes { TakesByte Reads (knows self.old) (knows self.new)
            (step (Self.setup self.old)) byte into.new };

    /// It is reset by the open phase.
    fn reset(&mut self)
        ensures setup { Self.setup self.new ≡ Self.setup self.old }
        ensures knows { (before : List Meaning) → knows self.old (before ++ Nothing ∷ [])
            → knows self.new (before ++ Reset ∷ []) };

    /// A phase without bytes leaves it as one that isn't the device's.
    ghost opened: { (device : Self) → KnowsOpened (knows device) };

    /// *By byte*: each byte of a phase adds at most 16 outputs, whose notes start no earlier than
    /// the phase's bytes; and nothing else adds any.
    ghost by_byte: { (device : Self) → GivesByByte (step (Self.setup device)) };

    /// It puts out no packets.
    ghost no_packets: { (device : Self) → GivesNoPackets (step (Self.setup device)) };

    /// *One device*: two devices of one setup that know the same phases are equal.
    ghost one_device: { OneDevice Self.setup knows };
}
