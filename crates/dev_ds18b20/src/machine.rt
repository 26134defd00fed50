// A thermometer by its transactions.
ghost use Rattle.std.specs.Prelude.{◌≡◌, []};
ghost use Rattle.la_base.specs.declared.wires.Wire.TheVariants.{OwNet as NetWire};
ghost use Rattle.dev_ds18b20.specs.Probe.{is_reset, probe};
ghost use Rattle.dev_ds18b20.specs.laws.ByteLaws.{probe_pushed};
ghost use Rattle.dev_ds18b20.specs.laws.Held.{probe_steps, transaction_kept};
ghost use Rattle.dev_ds18b20.specs.laws.SoundLaws.{probe_fits, probe_sound};

use crate::{Bytes, Probe, ProbeOpts, Stage, Transaction};
use decoder_core::{Follower, Outs, is_send};
use la_base::{Packet, PacketKind, Wire};
use packet_walks::OpenTransaction;

fn is_reset(kind: PacketKind) -> bool
    ensures { result ≡ is_reset kind }
{
    matches!(kind, PacketKind::NetReset)
}

impl OpenTransaction for Transaction {
    type Opts = ProbeOpts;

    ghost opts = { record {} };

    ghost wire = { NetWire };

    ghost device = { probe };

    ghost steps = { probe_steps };

    ghost kept = { transaction_kept };

    ghost fits = { probe_fits };

    fn wants() -> Wire {
        Wire::OwNet
    }

    fn begins(packet: Packet) -> bool {
        is_reset(packet.kind)
    }

    fn ends(packet: Packet) -> bool {
        is_reset(packet.kind)
    }

    fn begin(packet: Packet) -> Transaction {
        Transaction {
            start: packet.start,
            stage: Stage::Foreign,
            bytes: Bytes::new(),
        }
    }

    fn take(&mut self, packet: Packet, into: &mut Outs) {
        self.give(packet, into);
        self.follow(packet);
    }

    fn close(&self, _into: &mut Outs) {}

    fn near(&self, from: u64) -> u64 {
        match self.stage {
            Stage::Told => self.start.max(from),
            _ => self.start,
        }
    }

    ghost pushed = { probe_pushed };

    ghost sound = { probe_sound };
}

// It may move to another thread, and so may what feeds it.
fn machine_is_send() {
    is_send::<Follower<Probe>>();
}
