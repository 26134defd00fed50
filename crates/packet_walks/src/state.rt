// What a walk over packets keeps, by what one more packet does to it.
ghost use Rattle.std.specs.Prelude.{◌≡◌, [], ℕ, List};
ghost use Rattle.la_base.specs.declared.wires.Out.{Out};
ghost use Rattle.la_base.specs.declared.wires.Packet.{Packet};
ghost use Rattle.la_base.specs.declared.wires.Wire.{Wire};
ghost use Rattle.packet_walks.specs.Walks.{IsNear, PacketWalk, PushedPackets, SoundPackets};

use decoder_core::Outs;
use la_base::{Packet, Wire};

/// What a decoder of packets keeps between two packets: what one more packet gives and changes, and
/// where that starts which is open. Every call is safe for every value of the type.
pub trait WalkState: Drop {
    /// What is set when a decoder is opened, and stays from then on.
    type Setup;

    /// The wire of the packets that it wants.
    ghost wire: { Wire };

    /// The wire of the packets that it puts out; Nothing where it puts none out.
    ghost gives: { Wire };

    /// The outputs of a whole list of packets, by the decoder's definition.
    ghost outs: { Self.Setup → List Packet → List Out };

    /// Where what has begun in these packets and may still give notes starts; where nothing has,
    /// the place from which on all that come start.
    ghost near: { Self.Setup → List Packet → ℕ → ℕ };

    /// The walk from packet to packet.
    ghost walk: { Self.Setup → PacketWalk Self };

    /// What is kept of a whole list of packets.
    ghost kept: { Self.Setup → List Packet → Self };

    /// It may be kept behind packets the last of which starts there.
    ghost fits: { Self → ℕ → Type 0 };

    fn wants() -> Wire
        ensures { result ≡ wire };

    /// What is kept of no packets.
    fn begin(setup: &Self::Setup) -> Self
        ensures { result ≡ (walk setup.now).begin };

    /// Takes one more packet: puts out what it gives, and keeps what it changes.
    fn take(&mut self, setup: &Self::Setup, packet: Packet, into: &mut Outs)
        requires { into.old ≡ [] }
        ensures gives { into.new ≡ (walk setup.now).gives self.old packet }
        ensures next { self.new ≡ (walk setup.now).next self.old packet };

    /// Where that starts which may still give notes, where all packets that come start at `from`
    /// or later.
    fn near(&self, setup: &Self::Setup, from: u64) -> u64
        ensures { result ≡ (walk setup.now).near self.now from };

    /// *Pushed*: with one more packet, what a whole list of packets gives and leaves is what the
    /// walk says.
    ghost pushed: { (setup : Self.Setup)
        → PushedPackets (walk setup) (outs setup) (kept setup) };

    /// *Sound*: each packet gives few outputs, whose packets are of the wire that it gives; they
    /// start at the near place or later, and that never goes back.
    ghost sound: { (setup : Self.Setup) → SoundPackets (walk setup) gives fits };

    /// *Near*: what is kept tells where that starts which is open.
    ghost near_is: { (setup : Self.Setup) → IsNear (walk setup) (near setup) (kept setup) };
}
