// Gives a decoder of packets the packets that count.
ghost use Rattle.std.specs.Prelude.{◌≡◌, [], ◌∷◌, List, max};
ghost use Rattle.decoder_core.specs.Inputs.{Item, Pack};
ghost use Rattle.decoder_core.specs.Packets.{Follows, NoneCount, counted_packets, counts};
ghost use Rattle.decoder_core.specs.Packets.{last_start};
ghost use Rattle.decoder_core.specs.laws.PacketLaws.{nothing_followed, front_followed};
ghost use Rattle.decoder_core.specs.laws.PacketLaws.{order_followed, few_followed, wire_followed};

use crate::{Machine, Outs, PacketMachine, Taken};
use la_base::{Feed, Packet, Run, Wire, same_wire, wire_of};

/// A decoder of packets as a machine of any input: it hands on the packets that count. Those are
/// the packets of the wire that it wants which start no earlier than the one that counted before;
/// samples don't count.
#[derive(Drop)]
pub struct Follower<D: PacketMachine> {
    pub(crate) machine: D,
    // where the last packet that counted starts; 0 where there is none
    pub(crate) from: u64,
}

// Whether a packet counts behind one that starts at `from`.
fn counts(wants: Wire, from: u64, packet: Packet) -> bool
    ensures { result ≡ counts wants from packet }
{
    same_wire(wire_of(packet.kind), wants) && from <= packet.start
}

impl<D: PacketMachine> Follower<D> {
    /// A follower that has consumed nothing. The machine must stand for no packets.
    pub fn new(machine: D) -> Follower<D>
        requires { D.stands machine [] }
        ensures stands { Follows D.stands
            (D.wire (D.setup result.machine)) result.machine result.from [] }
        ensures machine { result.machine ≡ machine }
    {
        Follower { machine, from: 0 }
    }
}

impl<D: PacketMachine> Machine for Follower<D> {
    type Setup = D::Setup;

    ghost setup = { λ f. D.setup f.machine };

    ghost outputs = { λ setup input. D.outs setup (counted_packets (D.wire setup) input) };

    ghost near = { λ setup input above.
        let packets = counted_packets (D.wire setup) input in
        D.near setup packets (max (last_start 0 packets) above) };

    ghost wire = { λ setup. D.wire setup };

    ghost gives = { λ setup. D.gives setup };

    ghost consumed = { λ f input. Follows D.stands
        (D.wire (D.setup f.machine)) f.machine f.from input };

    ghost sleeps = { λ f input more. NoneCount (D.wire (D.setup f.machine)) input more };

    fn wants(&self) -> Wire {
        self.machine.wants()
    }

    fn step(&mut self, feed: Feed, into: &mut Outs) -> Option<Feed> {
        match feed {
            Feed::Packet(packet) => {
                if counts(self.machine.wants(), self.from, packet) {
                    self.machine.accept(packet, into);
                    self.from = packet.start;
                }
                None
            }
            Feed::Run(_) => None,
            Feed::From(_) => None,
            Feed::End => None,
        }
    }

    fn step_runs(&mut self, runs: &[Run], _into: &mut Outs) -> Taken {
        Taken {
            count: runs.len(),
            rest: None,
        }
    }

    fn step_run(&mut self, _run: Run, _into: &mut Outs) -> Option<Run> {
        None
    }

    fn floor(&self, above: u64) -> u64 {
        self.machine.floor(self.from.max(above))
    }

    ghost nothing = { λ f. nothing_followed (D.wire (D.setup f.machine))
        (D.outs (D.setup f.machine)) (D.nothing f.machine) };

    ghost prefix = { λ f. front_followed (D.wire (D.setup f.machine)) (D.outs (D.setup f.machine))
        (D.prefix f.machine) };

    ghost order = { λ f. order_followed (D.wire (D.setup f.machine)) (D.outs (D.setup f.machine))
        (D.order f.machine) };

    ghost few = { λ f. few_followed (D.wire (D.setup f.machine)) (D.outs (D.setup f.machine))
        (D.few f.machine) };

    ghost on_wire = { λ f. wire_followed (D.wire (D.setup f.machine)) (D.outs (D.setup f.machine))
        (D.gives (D.setup f.machine)) (D.on_wire f.machine) };
}

/// The input makes the follower: two followers of one setup that have consumed the same input hold
/// equal machines, and the last packet that counted starts at the same sample. (A law; nothing is
/// done.)
pub fn one_input_makes_one_follower<D: PacketMachine>(one: &Follower<D>, other: &Follower<D>)
    ensures { (input : List Item) → D.setup one.now.machine ≡ D.setup other.now.machine
        → Follows D.stands (D.wire (D.setup one.now.machine)) one.now.machine one.now.from input
        → Follows D.stands (D.wire (D.setup other.now.machine))
        other.now.machine other.now.from input
        → (one.now.machine ≡ other.now.machine) × (one.now.from ≡ other.now.from) }
{}
