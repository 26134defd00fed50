// The state of a walk over packets, as a decoder of packets.
ghost use Rattle.std.specs.Prelude.{◌≡◌, []};
ghost use Rattle.packet_walks.specs.laws.WalkLaws.{walk_promises};
ghost use Rattle.packet_walks.specs.laws.Walking.{StandsFor, one_walking};

use crate::WalkState;
use decoder_core::{Configured, Follower, Outs, PacketMachine, is_send};
use la_base::{Packet, Wire};

/// A decoder of packets that keeps the state of a walk over them, beside what was set when it was
/// opened.
#[derive(Drop)]
pub struct Walking<W: WalkState> {
    pub(crate) setup: W::Setup,
    pub(crate) held: W,
}

impl<W: WalkState> Walking<W> {
    /// A decoder of this setup; it stands for no packets.
    pub fn new(setup: W::Setup) -> Walking<W>
        ensures setup { result.setup ≡ setup }
        ensures stands { StandsFor W.kept result [] }
    {
        let held = W::begin(&setup);
        Walking { setup, held }
    }
}

impl<W: WalkState> Configured for Walking<W> {
    type Setup = W::Setup;

    ghost setup = { λ m. m.setup };
}

impl<W: WalkState> PacketMachine for Walking<W> {
    ghost wire = { λ _. W.wire };

    ghost gives = { λ _. W.gives };

    ghost outs = { λ setup packets. W.outs setup packets };

    ghost near = { λ setup packets from. W.near setup packets from };

    ghost stands = { λ m packets. StandsFor W.kept m packets };

    fn wants(&self) -> Wire {
        W::wants()
    }

    fn accept(&mut self, packet: Packet, into: &mut Outs) {
        self.held.take(&self.setup, packet, into);
    }

    fn floor(&self, from: u64) -> u64 {
        self.held.near(&self.setup, from)
    }

    ghost nothing = { λ m. (walk_promises (W.walk m.setup) (W.outs m.setup) (W.kept m.setup)
        (W.pushed m.setup) W.gives W.fits (W.sound m.setup) W.wire).nothing };

    ghost prefix = { λ m. (walk_promises (W.walk m.setup) (W.outs m.setup) (W.kept m.setup)
        (W.pushed m.setup) W.gives W.fits (W.sound m.setup) W.wire).prefix };

    ghost order = { λ m. (walk_promises (W.walk m.setup) (W.outs m.setup) (W.kept m.setup)
        (W.pushed m.setup) W.gives W.fits (W.sound m.setup) W.wire).order };

    ghost few = { λ m. (walk_promises (W.walk m.setup) (W.outs m.setup) (W.kept m.setup)
        (W.pushed m.setup) W.gives W.fits (W.sound m.setup) W.wire).few };

    ghost on_wire = { λ m. (walk_promises (W.walk m.setup) (W.outs m.setup) (W.kept m.setup)
        (W.pushed m.setup) W.gives W.fits (W.sound m.setup) W.wire).on_wire };

    ghost one_machine = { one_walking W.kept };
}

// It may move to another thread where what it keeps may, and so may what feeds it.
fn machine_is_send<W: WalkState + Send>()
where
    W::Setup: Send,
{
    is_send::<Follower<Walking<W>>>();
}
