// A device that tells of transactions, as a decoder of packets.
ghost use Rattle.std.specs.Prelude.{◌≡◌, []};
ghost use Rattle.la_base.specs.declared.wires.Wire.TheVariants.{Nothing as NoWire};
ghost use Rattle.packet_walks.specs.Transactions.{transaction_near, transaction_outs};
ghost use Rattle.packet_walks.specs.laws.Steps.{begin_next, held_gives, held_near, held_next};
ghost use Rattle.packet_walks.specs.laws.Steps.{held_of};
ghost use Rattle.packet_walks.specs.laws.Transacting.{one_transacting};
ghost use Rattle.packet_walks.specs.laws.TransactionLaws.{promises};

use crate::OpenTransaction;
use decoder_core::{Configured, Follower, OptFault, Outs, PacketMachine, is_send};
use la_base::{Packet, Rate, Wire};

/// A device that tells of transactions as a decoder of packets: it keeps what the device does of
/// the transaction that is open, if there is one.
#[derive(Drop)]
pub struct Transacting<O: OpenTransaction> {
    pub(crate) held: Option<O>,
}

// What is kept behind a packet where no transaction is open.
fn begin<O: OpenTransaction>(packet: Packet) -> Option<O>
    ensures { result ≡ begin_next O.device O.steps packet }
{
    if O::begins(packet) {
        Some(O::begin(packet))
    } else {
        None
    }
}

impl<O: OpenTransaction> Transacting<O> {
    ghost use Rattle.packet_walks.specs.laws.Transacting.{Opens};

    /// Opens a decoder at any rate; it stands for no packets. There is nothing to refuse.
    pub fn open(_opts: O::Opts, _rate: Rate) -> Result<Transacting<O>, OptFault>
    where
        O::Opts: Copy,
        ensures { Opens O.device O.steps O.kept result }
    {
        Ok(Transacting { held: None })
    }

    // Puts out what a packet gives, and keeps what it changes.
    fn take(&mut self, packet: Packet, into: &mut Outs)
        requires { into.old ≡ [] }
        ensures gives { into.new ≡ held_gives O.device O.steps self.old.held packet }
        ensures next { self.new.held ≡ held_next O.device O.steps self.old.held packet }
    {
        match &mut self.held {
            None => self.held = begin(packet),
            Some(open) => {
                if O::ends(packet) {
                    open.close(into);
                    self.held = begin(packet);
                } else {
                    open.take(packet, into);
                }
            }
        }
    }

    // Where that starts which may still give notes; `from` where no transaction is open.
    fn near(&self, from: u64) -> u64
        ensures { result ≡ held_near O.device O.steps self.now.held from }
    {
        match &self.held {
            None => from,
            Some(open) => open.near(from),
        }
    }
}

impl<O: OpenTransaction> Configured for Transacting<O> {
    type Setup = O::Opts;

    ghost setup = { λ _. O.opts };
}

impl<O: OpenTransaction> PacketMachine for Transacting<O> {
    ghost wire = { λ _. O.wire };

    ghost gives = { λ _. NoWire };

    ghost outs = { λ _ packets. transaction_outs O.device packets };

    ghost near = { λ _ packets from. transaction_near O.device packets from };

    ghost stands = { λ m packets. m.held ≡ held_of O.device O.steps O.kept packets };

    fn wants(&self) -> Wire {
        O::wants()
    }

    fn accept(&mut self, packet: Packet, into: &mut Outs) {
        self.take(packet, into);
    }

    fn floor(&self, from: u64) -> u64 {
        self.near(from)
    }

    ghost nothing = { λ _.
        (promises O.device O.steps O.wire O.fits O.kept O.sound O.pushed).all.nothing };

    ghost prefix = { λ _.
        (promises O.device O.steps O.wire O.fits O.kept O.sound O.pushed).all.prefix };

    ghost order = { λ _. (promises O.device O.steps O.wire O.fits O.kept O.sound O.pushed).all.order };

    ghost few = { λ _. (promises O.device O.steps O.wire O.fits O.kept O.sound O.pushed).all.few };

    ghost on_wire = { λ _.
        (promises O.device O.steps O.wire O.fits O.kept O.sound O.pushed).all.on_wire };

    ghost one_machine = { one_transacting O.device O.steps O.kept O.opts };
}

// It may move to another thread where what is open may, and so may what feeds it.
fn machine_is_send<O: OpenTransaction + Send>() {
    is_send::<Follower<Transacting<O>>>();
}
