// SPI as a decoder of samples: it sleeps between two events.
ghost use Rattle.std.specs.Prelude.{◌≡◌, ◌∷◌, [], ℕ, List};
ghost use Rattle.la_base.specs.declared.wires.Wire.TheVariants.{Spi as SpiWire};
ghost use Rattle.sample_walks.specs.laws.EventDecoders.{quiet_of};
ghost use Rattle.dec_spi.specs.Bus.{spi_outs, spi_near};
ghost use Rattle.dec_spi.specs.Opening.{opts_of, alts_of, StandsFor};
ghost use Rattle.dec_spi.specs.laws.SpiLaws.{spi_decoder, spi_promises};
ghost use Rattle.dec_spi.specs.laws.MachineLaws.{one_spi, spi_one_stop};

use crate::alternatives::{first_select, next_event};
use crate::lines::takes_clock;
use crate::stops::{is_fresh, stop};
use crate::words::near;
use crate::{Held, Spi, SpiOpts};
use decoder_core::{Configured, Driver, LogicMachine, Outs, is_send};
use la_base::{Word, low_half};
use wait_cond::{Cond, Waiter};

impl Configured for Spi {
    type Setup = SpiOpts;

    ghost setup = { λ machine. opts_of machine };
}

impl LogicMachine for Spi {
    ghost outs = { λ opts list. spi_outs opts list };

    ghost near = { λ opts list. spi_near opts list };

    ghost gives = { λ _. SpiWire };

    ghost stands = { λ machine list. StandsFor machine list };

    ghost alts = { λ machine. alts_of machine };

    // No edge is met at the first sample, so what is waited for first is a level; later it is
    // always the same.
    fn cond(&self) -> Cond {
        match self.held {
            Held::Fresh => first_select(&self.bus),
            Held::Outside => next_event(&self.bus),
            Held::Inside(_) => next_event(&self.bus),
        }
    }

    fn wait(&self, waiter: &mut Waiter) {
        waiter.renew(self.cond());
    }

    // Inlined into both steps of a driver.
    #[inline(always)]
    fn resume(&mut self, at: u64, value: Word, _met: u8, into: &mut Outs) -> bool {
        if takes_clock(
            &self.bus,
            &self.lines,
            &mut self.held,
            at,
            low_half(value),
            into,
        ) {
            return false;
        }
        let fresh = is_fresh(self.held);
        self.held = stop(&self.bus, self.held, at, value, into);
        fresh
    }

    fn floor(&self, next: u64) -> u64 {
        near(self.held, next)
    }

    ghost quiet = { λ machine seen more stands rests.
        quiet_of (spi_decoder machine.bus.opts machine.bus.bits_some machine.bus.bits_few)
        machine.held seen more stands rests };

    ghost nothing = { λ machine.
        (spi_promises machine.bus.opts machine.bus.bits_some machine.bus.bits_few).nothing };

    ghost prefix = { λ machine.
        (spi_promises machine.bus.opts machine.bus.bits_some machine.bus.bits_few).prefix };

    ghost order = { λ machine.
        (spi_promises machine.bus.opts machine.bus.bits_some machine.bus.bits_few).order };

    ghost few = { λ machine.
        (spi_promises machine.bus.opts machine.bus.bits_some machine.bus.bits_few).few };

    ghost on_wire = { λ machine.
        (spi_promises machine.bus.opts machine.bus.bits_some machine.bus.bits_few).on_wire };

    ghost one_machine = { λ one other list same stands also.
        one_spi one other list same stands also };

    ghost one_stop = { λ one other seen more same stands also rests.
        spi_one_stop one other seen more same stands also rests };
}

// It may move to another thread, and so may what drives it.
fn machine_is_send() {
    is_send::<Driver<Spi>>();
}
