// Laws of machines. Nothing is done.
ghost use Rattle.std.specs.Prelude.{◌≡◌, List, map};
ghost use Rattle.decoder_core.specs.Inputs.{Item, Pack};
ghost use Rattle.decoder_core.specs.Packets.{counted_packets};
ghost use Rattle.decoder_core.specs.Trees.{packets_of};

use crate::{Driver, Follower, LogicMachine, Machine, Outs, PacketMachine};

/// Every packet that a machine puts out counts for a decoder that wants its wire.
pub fn packets_of_a_parent_count<M: Machine>(parent: &M)
    ensures { (input : List Item)
        → let packets = packets_of (M.outputs (M.setup parent.now) input) in
        map Pack (counted_packets (M.gives (M.setup parent.now)) packets) ≡ packets }
{}

/// Asks that a type may move to another thread. Nothing is done.
pub fn is_send<T: Send>() {}

// What drives a machine may move to another thread where the machine may.
fn drivers_are_send<L: LogicMachine + Send, D: PacketMachine + Send>() {
    is_send::<Driver<L>>();
    is_send::<Follower<D>>();
    is_send::<Outs>();
}
