// A transaction that is open, by what a device keeps of it.
ghost use Rattle.std.specs.Prelude.{◌≡◌, [], ℕ, List};
ghost use Rattle.la_base.specs.declared.wires.Packet.{Packet};
ghost use Rattle.la_base.specs.declared.wires.Wire.{Wire};
ghost use Rattle.packet_walks.specs.Transactions.{Device};
ghost use Rattle.packet_walks.specs.laws.Steps.{Pushed, Sound, Steps};

use decoder_core::Outs;
use la_base::{Packet, Wire};

/// What a device without options keeps of a transaction that is open, between two packets: how
/// packets begin it, change it and end it, and what they give. Every call is safe for every value
/// of the type. It gives no packets.
pub trait OpenTransaction: Drop {
    /// The type of the device's options, of which there are none.
    type Opts;

    /// The value of that type.
    ghost opts: { Self.Opts };

    /// The wire of the packets that it wants.
    ghost wire: { Wire };

    /// The device by its transactions.
    ghost device: { Device };

    /// What is kept, packet by packet.
    ghost steps: { Steps Self };

    /// What is kept of a whole transaction: of the packet that begins it, and those behind it.
    ghost kept: { Packet → List Packet → Self };

    /// It may be kept behind packets the last of which starts there.
    ghost fits: { Self → ℕ → Type 0 };

    fn wants() -> Wire
        ensures { result ≡ wire };

    /// Whether a packet begins a transaction.
    fn begins(packet: Packet) -> bool
        ensures { result ≡ device.begins packet };

    /// Whether a packet ends one.
    fn ends(packet: Packet) -> bool
        ensures { result ≡ device.ends packet };

    /// What is kept behind the packet that begins it.
    fn begin(packet: Packet) -> Self
        ensures { result ≡ steps.opens packet };

    /// Takes a packet that doesn't end it: puts out what that gives, and keeps what it changes.
    fn take(&mut self, packet: Packet, into: &mut Outs)
        requires { into.old ≡ [] }
        ensures gives { into.new ≡ steps.gives self.old packet }
        ensures next { self.new ≡ steps.next self.old packet };

    /// Puts out what the packet gives that ends it.
    fn close(&self, into: &mut Outs)
        requires { into.old ≡ [] }
        ensures { into.new ≡ steps.closes self.now };

    /// Where that starts which may still give notes, where all packets that come start at `from`
    /// or later.
    fn near(&self, from: u64) -> u64
        ensures { result ≡ steps.near self.now from };

    /// *Pushed*: with one more packet, what a whole transaction gives and leaves is what the steps
    /// say.
    ghost pushed: { Pushed device steps kept };

    /// *Sound*: each step gives few outputs, none of them a packet, whose notes start at the near
    /// place or later; and that never goes back.
    ghost sound: { Sound device steps fits };
}
