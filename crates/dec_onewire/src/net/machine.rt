// The network as a decoder of packets.
ghost use Rattle.std.specs.Prelude.{◌≡◌, []};
ghost use Rattle.la_base.specs.declared.wires.Wire.TheVariants.{OwLink as LinkWire};
ghost use Rattle.la_base.specs.declared.wires.Wire.TheVariants.{OwNet as NetWire};
ghost use Rattle.dec_onewire.specs.Net.{net_outs, net_near};
ghost use Rattle.dec_onewire.specs.laws.NetMachine.{gives, next, near_by, answered_gives};
ghost use Rattle.dec_onewire.specs.laws.NetMachine.{answered_next, held_of, inside_gives};
ghost use Rattle.dec_onewire.specs.laws.NetMachine.{inside_next, net_walk};
ghost use Rattle.dec_onewire.specs.laws.NetPushed.{near_is, net_pushed};
ghost use Rattle.dec_onewire.specs.laws.NetSound.{net_fits, net_sound};

use super::packets::{is_bit, is_presence, is_reset};
use super::units::{bit, none_begun};
use super::{Held, OwNet, OwNetOpts, Role};
use decoder_core::{Follower, Outs, is_send, span_note, span_packet};
use la_base::{Packet, PacketKind, Wire};
use packet_walks::WalkState;

// The packet right behind a reset, which starts at `start`: it opens a segment if it is a presence.
fn answered(start: u64, packet: Packet, into: &mut Outs) -> Held
    requires { into.old ≡ [] }
    ensures gives { into.new ≡ answered_gives start packet }
    ensures next { result ≡ answered_next packet }
{
    if !is_presence(packet.kind) {
        return Held::Outside;
    }
    into.push(span_note(0, start, packet.end, 0, 0));
    into.push(span_packet(PacketKind::NetReset, start, packet.end, 0, 0));
    Held::Inside {
        role: Role::Command,
        begun: none_begun(),
    }
}

// A packet that is no reset.
fn follow(held: Held, packet: Packet, into: &mut Outs) -> Held
    requires { into.old ≡ [] }
    ensures gives { into.new ≡ inside_gives held packet }
    ensures next { result ≡ inside_next held packet }
{
    match held {
        Held::Outside => Held::Outside,
        Held::Reset { start } => answered(start, packet, into),
        Held::Inside { role, begun } => {
            if is_bit(packet.kind) {
                bit(role, begun, packet, into)
            } else {
                held
            }
        }
    }
}

// What is kept behind a packet, which puts out what it gives.
fn take(held: Held, packet: Packet, into: &mut Outs) -> Held
    requires { into.old ≡ [] }
    ensures gives { into.new ≡ gives held packet }
    ensures next { result ≡ next held packet }
{
    if is_reset(packet.kind) {
        Held::Reset {
            start: packet.start,
        }
    } else {
        follow(held, packet, into)
    }
}

// Where the reset starts that nothing has followed yet, or what has begun and isn't whole; else
// `from`.
fn near(held: Held, from: u64) -> u64
    ensures { result ≡ near_by held from }
{
    match held {
        Held::Outside => from,
        Held::Reset { start } => start,
        Held::Inside { begun, .. } => { if begun.count == 0 { from } else { begun.start } }
    }
}

impl WalkState for Held {
    type Setup = OwNetOpts;

    ghost wire = { LinkWire };

    ghost gives = { NetWire };

    ghost outs = { λ _ packets. net_outs packets };

    ghost near = { λ _ packets from. net_near packets from };

    ghost walk = { λ _. net_walk };

    ghost kept = { λ _ packets. held_of packets };

    ghost fits = { net_fits };

    fn wants() -> Wire {
        Wire::OwLink
    }

    fn begin(_setup: &OwNetOpts) -> Held {
        Held::Outside
    }

    fn take(&mut self, _setup: &OwNetOpts, packet: Packet, into: &mut Outs) {
        *self = take(*self, packet, into);
    }

    fn near(&self, _setup: &OwNetOpts, from: u64) -> u64 {
        near(*self, from)
    }

    ghost pushed = { λ _. net_pushed };

    ghost sound = { λ _. net_sound };

    ghost near_is = { λ _. near_is };
}

// It may move to another thread, and so may what feeds it.
fn machine_is_send() {
    is_send::<Follower<OwNet>>();
}
