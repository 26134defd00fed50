// Messages as a decoder of packets.
ghost use Rattle.std.specs.Prelude.{◌≡◌, []};
ghost use Rattle.la_base.specs.declared.wires.Wire.TheVariants.{Nothing as NoWire};
ghost use Rattle.la_base.specs.declared.wires.Wire.TheVariants.{Uart as UartWire};
ghost use Rattle.dec_modbus.specs.Modbus.{gap_of, modbus_near, modbus_outs};
ghost use Rattle.dec_modbus.specs.laws.Machine.{begin_next, gives, held_of, modbus_walk, near_by};
ghost use Rattle.dec_modbus.specs.laws.Machine.{next};
ghost use Rattle.dec_modbus.specs.laws.Pushed.{modbus_pushed, near_is};
ghost use Rattle.dec_modbus.specs.laws.Sound.{modbus_fits, modbus_sound};

use crate::message::{begun, follows, give_byte, is_frame, longer, note_of};
use crate::{Held, Line, Modbus};
use decoder_core::{Follower, Outs, is_send};
use la_base::{Packet, Wire};
use packet_walks::WalkState;

// What is kept behind a packet that goes on with no message.
fn begin_next(packet: Packet) -> Held
    ensures { result ≡ begin_next packet }
{
    if is_frame(packet.kind) {
        Held::Inside {
            message: begun(packet),
        }
    } else {
        Held::Outside
    }
}

// What is kept behind a packet, which puts out what it gives: a packet that ends a message gives
// the note on that first.
fn take(gap: u64, held: Held, packet: Packet, into: &mut Outs) -> Held
    requires { into.old ≡ [] }
    ensures gives { into.new ≡ gives gap held packet }
    ensures next { result ≡ next gap held packet }
{
    match held {
        Held::Outside => {
            give_byte(0, packet, into);
            begin_next(packet)
        }
        Held::Inside { message } => {
            if follows(gap, message.end, packet) {
                give_byte(message.count, packet, into);
                Held::Inside {
                    message: longer(message, packet),
                }
            } else {
                into.push(note_of(message));
                give_byte(0, packet, into);
                begin_next(packet)
            }
        }
    }
}

// Where the message starts that nothing has ended yet; else `from`.
fn near(held: Held, from: u64) -> u64
    ensures { result ≡ near_by held from }
{
    match held {
        Held::Outside => from,
        Held::Inside { message } => message.start,
    }
}

impl WalkState for Held {
    type Setup = Line;

    ghost wire = { UartWire };

    ghost gives = { NoWire };

    ghost outs = { λ line packets. modbus_outs (gap_of line.opts line.rate) packets };

    ghost near = { λ line packets from. modbus_near (gap_of line.opts line.rate) packets from };

    ghost walk = { λ line. modbus_walk (gap_of line.opts line.rate) };

    ghost kept = { λ line packets. held_of (gap_of line.opts line.rate) packets };

    ghost fits = { modbus_fits };

    fn wants() -> Wire {
        Wire::Uart
    }

    fn begin(_line: &Line) -> Held {
        Held::Outside
    }

    fn take(&mut self, line: &Line, packet: Packet, into: &mut Outs) {
        *self = take(line.gap, *self, packet, into);
    }

    fn near(&self, _line: &Line, from: u64) -> u64 {
        near(*self, from)
    }

    ghost pushed = { λ line. modbus_pushed (gap_of line.opts line.rate) };

    ghost sound = { λ line. modbus_sound (gap_of line.opts line.rate) };

    ghost near_is = { λ line. near_is (gap_of line.opts line.rate) };
}

// It may move to another thread, and so may what feeds it.
fn machine_is_send() {
    is_send::<Follower<Modbus>>();
}
