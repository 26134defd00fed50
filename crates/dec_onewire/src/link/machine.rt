// The link as a decoder of samples: it sleeps from edge to edge.
ghost use Rattle.std.specs.Prelude.{◌≡◌, ◌<◌, ◌^◌, ◌∷◌, [], ℕ, List};
ghost use Rattle.la_base.specs.declared.samples.TheConstants.{MOST_PINS};
ghost use Rattle.la_base.specs.declared.wires.Wire.TheVariants.{OwLink as LinkWire};
ghost use Rattle.sample_walks.specs.laws.EventDecoders.{quiet_of};
ghost use Rattle.dec_onewire.specs.Link.{link_outs, link_near};
ghost use Rattle.dec_onewire.specs.Opening.{StandsFor, alts_of};
ghost use Rattle.dec_onewire.specs.laws.LinkMachine.{edge_alt};
ghost use Rattle.dec_onewire.specs.laws.LinkLaws.{link_decoder, link_promises};
ghost use Rattle.dec_onewire.specs.laws.LinkMachineLaws.{one_link, link_one_stop};

use super::pulses::{give, near, next};
use super::{Line, OwLink};
use decoder_core::{Configured, Driver, LogicMachine, Outs, is_send};
use la_base::{MOST_PINS, Word, mask, pin};
use wait_cond::{Alt, Cond, Waiter};

// An edge of a line.
fn edge_alt(line: u32) -> Alt
    requires { line < MOST_PINS }
    ensures { result ≡ edge_alt line }
{
    Alt {
        low: 0,
        high: 0,
        rise: 0,
        fall: 0,
        edge: mask(line),
        steady: 0,
        skip: 0,
    }
}

impl Configured for OwLink {
    type Setup = Line;

    ghost setup = { λ machine. machine.line };
}

impl LogicMachine for OwLink {
    ghost outs = { λ line list. link_outs line.opts line.rate list };

    ghost near = { λ line list. link_near line.opts list };

    ghost gives = { λ _. LinkWire };

    ghost stands = { λ machine list. StandsFor machine list };

    ghost alts = { λ machine. alts_of machine };

    fn cond(&self) -> Cond {
        Cond::one(edge_alt(self.line.opts.dq))
    }

    fn wait(&self, waiter: &mut Waiter) {
        waiter.renew_one(edge_alt(self.line.opts.dq));
    }

    // The same edges are waited for all the time.
    fn resume(&mut self, at: u64, value: Word, _met: u8, into: &mut Outs) -> bool {
        let level = pin(value, self.line.opts.dq);
        give(&self.lengths, self.held, at, level, into);
        self.held = next(&self.lengths, self.held, at, level);
        false
    }

    fn floor(&self, next: u64) -> u64 {
        near(self.held, next)
    }

    ghost quiet = { λ machine seen more stands rests.
        quiet_of (link_decoder machine.line.opts machine.line.rate) machine.held seen more
        (stands.0, stands.1) rests };

    ghost nothing = { λ machine. (link_promises machine.line.opts machine.line.rate).nothing };

    ghost prefix = { λ machine. (link_promises machine.line.opts machine.line.rate).prefix };

    ghost order = { λ machine. (link_promises machine.line.opts machine.line.rate).order };

    ghost few = { λ machine. (link_promises machine.line.opts machine.line.rate).few };

    ghost on_wire = { λ machine. (link_promises machine.line.opts machine.line.rate).on_wire };

    ghost one_machine = { λ one other list same stands also.
        one_link one other list same stands also };

    ghost one_stop = { λ one other seen more same stands also rests.
        link_one_stop one other seen more same stands also rests };
}

// It may move to another thread, and so may what drives it.
fn machine_is_send() {
    is_send::<Driver<OwLink>>();
}
