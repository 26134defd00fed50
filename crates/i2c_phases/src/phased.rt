// A device on an I2C bus as a decoder of packets.
ghost use Rattle.std.specs.Prelude.{◌≡◌, [], ◌∷◌, ◌++◌, List};
ghost use Rattle.la_base.specs.declared.wires.Wire.TheVariants.{I2c, Nothing as NoWire};
ghost use Rattle.i2c_phases.specs.Phases.{phase_near};
ghost use Rattle.i2c_phases.specs.laws.OneLaw.{one_phased};
ghost use Rattle.i2c_phases.specs.Devices.{Happens, StandsFor, near_by, phased};
ghost use Rattle.i2c_phases.specs.laws.DeviceLaws.{phased_promises};

use crate::tracker::no_phase;
use crate::{Event, I2cDevice, Track};
use decoder_core::{Configured, Follower, Outs, PacketMachine, is_send};
use la_base::{Packet, Wire};

/// A device on an I2C bus as a decoder of packets: it finds the device's own phases, and hands on
/// their bytes.
#[derive(Drop)]
pub struct Phased<D: I2cDevice> {
    pub(crate) device: D,
    pub(crate) kept: Track,
}

// What a packet is to the device happens to it.
fn happen<D: I2cDevice>(device: &mut D, event: Event, packet: Packet, into: &mut Outs)
    requires empty { into.old ≡ [] }
    ensures setup { D.setup device.new ≡ D.setup device.old }
    ensures happens { Happens (D.knows device.old) (D.knows device.new)
        (D.step (D.setup device.old)) event packet into.new }
{
    match event {
        Event::Begins => device.begin(),
        Event::WriteByte => device.write(packet, into),
        Event::ReadByte => device.read(packet, into),
        Event::Resets => device.reset(),
        Event::Passes => {}
    }
}

// Where the open phase starts, else where the last packet does.
fn near(kept: Track, from: u64) -> u64
    ensures { result ≡ near_by kept from }
{
    if kept.begun { kept.start } else { from }
}

impl<D: I2cDevice> Phased<D> {
    /// A decoder that stands for no packets. The device must know no phases.
    pub fn new(device: D) -> Phased<D>
        requires { D.knows device [] }
        ensures device { result.device ≡ device }
        ensures stands { StandsFor (D.knows result.device) (D.bus_address (D.setup result.device))
            (D.takes_reset (D.setup result.device)) result.kept [] }
    {
        Phased {
            device,
            kept: no_phase(),
        }
    }
}

impl<D: I2cDevice> Configured for Phased<D> {
    type Setup = D::Setup;

    ghost setup = { λ m. D.setup m.device };
}

impl<D: I2cDevice> PacketMachine for Phased<D> {
    ghost wire = { λ _. I2c };

    ghost gives = { λ _. NoWire };

    ghost outs = { λ setup packets.
        phased (D.bus_address setup) (D.takes_reset setup) (D.step setup) packets };

    ghost near = { λ _ packets from. phase_near packets from };

    ghost stands = { λ m packets. StandsFor (D.knows m.device) (D.bus_address (D.setup m.device))
        (D.takes_reset (D.setup m.device)) m.kept packets };

    fn wants(&self) -> Wire {
        Wire::I2c
    }

    fn accept(&mut self, packet: Packet, into: &mut Outs) {
        let address = self.device.address();
        let resets = self.device.resets();
        let event = self.kept.event(packet);
        let kept = self.kept.next(address, resets, packet);
        happen(&mut self.device, event, packet, into);
        self.kept = kept;
    }

    fn floor(&self, from: u64) -> u64 {
        near(self.kept, from)
    }

    ghost nothing = { λ m. (phased_promises (D.step (D.setup m.device)) (D.no_packets m.device)
        (D.bus_address (D.setup m.device)) (D.takes_reset (D.setup m.device))
        (D.by_byte m.device)).nothing };

    ghost prefix = { λ m. (phased_promises (D.step (D.setup m.device)) (D.no_packets m.device)
        (D.bus_address (D.setup m.device)) (D.takes_reset (D.setup m.device))
        (D.by_byte m.device)).prefix };

    ghost order = { λ m. (phased_promises (D.step (D.setup m.device)) (D.no_packets m.device)
        (D.bus_address (D.setup m.device)) (D.takes_reset (D.setup m.device))
        (D.by_byte m.device)).order };

    ghost few = { λ m. (phased_promises (D.step (D.setup m.device)) (D.no_packets m.device)
        (D.bus_address (D.setup m.device)) (D.takes_reset (D.setup m.device))
        (D.by_byte m.device)).few };

    ghost on_wire = { λ m. (phased_promises (D.step (D.setup m.device)) (D.no_packets m.device)
        (D.bus_address (D.setup m.device)) (D.takes_reset (D.setup m.device))
        (D.by_byte m.device)).on_wire };

    ghost one_machine = { one_phased D.setup D.bus_address D.takes_reset D.knows D.one_device };
}

// It may move to another thread where the device may, and so may what feeds it.
fn machine_is_send<D: I2cDevice + Send>() {
    is_send::<Follower<Phased<D>>>();
}
