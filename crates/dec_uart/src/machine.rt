// A serial line as a decoder of samples: it sleeps from point to point.
ghost use Rattle.std.specs.Prelude.{◌≡◌, ◌≢◌, ◌<◌, ◌^◌, ◌∷◌, [], ℕ, List, false};
ghost use Rattle.la_base.specs.declared.wires.Wire.TheVariants.{Uart as UartWire};
ghost use Rattle.dec_uart.specs.Frames.{uart_outs, uart_near};
ghost use Rattle.dec_uart.specs.Opening.{StandsFor, alts_of};
ghost use Rattle.dec_uart.specs.laws.Machine.{held_alt, held_near, held_time};
ghost use Rattle.dec_uart.specs.laws.MachineLaws.{one_uart, uart_one_stop, uart_promises};
ghost use Rattle.dec_uart.specs.laws.MachineLaws.{uart_quiet};

use crate::outputs::give;
use crate::steps::{step, takes_point};
use crate::{Held, Line, Uart};
use decoder_core::{Configured, Driver, LogicMachine, Outs, is_send};
use la_base::{Word, mask, pin};
use wait_cond::{Alt, Cond, Waiter};

// A line that is high, one that falls, or so many samples behind the last stop.
fn alt(high: Word, fall: Word, skip: u64) -> Alt
    ensures { result
        ≡ record {
          low = 0;
          high = high;
          rise = 0;
          fall = fall;
          edge = 0;
          steady = 0;
          skip = skip;
        } }
{
    Alt {
        low: 0,
        high,
        rise: 0,
        fall,
        edge: 0,
        steady: 0,
        skip,
    }
}

impl Uart {
    // How many samples come up to the next point of the frame that is open, that one too; 0 where
    // none is open.
    #[inline(always)]
    fn time(&self) -> u64
        ensures { result ≡ held_time self.now.line.opts self.now.line.rate self.now.held }
    {
        match self.held {
            Held::Inside {
                points,
                reached,
                ..
            } => self.points[points.min(self.last) as usize].saturating_sub(reached),
            Held::Idle | Held::Low { .. } => 0,
        }
    }

    // What is waited for: a frame, its next point, or the end of a line that stays low.
    fn alt(&self) -> Alt
        ensures { result ≡ held_alt self.now.line.opts self.now.line.rate self.now.held }
    {
        match self.held {
            Held::Idle => alt(0, mask(self.line.opts.rx), 0),
            Held::Inside { .. } => alt(0, 0, self.time()),
            Held::Low { .. } => alt(mask(self.line.opts.rx), 0, 0),
        }
    }
}

// The line in the lower half of a sample; 0 where it isn't there.
#[inline(always)]
fn low_mask(line: u32) -> u64
    ensures { result ≢ 0 → (result ≡ 2 ^ line) × (result < 2 ^ 64) }
{
    if line < 64 { 1 << line } else { 0 }
}

// Where the frame starts that is open, else the number of samples.
fn near(held: Held, next: u64) -> u64
    ensures { result ≡ held_near held next }
{
    match held {
        Held::Idle => next,
        Held::Inside { start, .. } => start,
        Held::Low { start } => start,
    }
}

impl Configured for Uart {
    type Setup = Line;

    ghost setup = { λ machine. machine.line };
}

impl LogicMachine for Uart {
    ghost outs = { λ line list. uart_outs line.opts line.rate list };

    ghost near = { λ line list. uart_near line.opts line.rate list };

    ghost gives = { λ _. UartWire };

    ghost stands = { λ machine list. StandsFor machine list };

    ghost alts = { λ machine. alts_of machine };

    fn cond(&self) -> Cond {
        Cond::one(self.alt())
    }

    fn wait(&self, waiter: &mut Waiter) {
        waiter.renew_one(self.alt());
    }

    // Inlined into both steps of a driver.
    #[inline(always)]
    fn resume(&mut self, at: u64, value: Word, _met: u8, into: &mut Outs) -> bool {
        let level = pin(value, self.line.opts.rx);
        if takes_point(&mut self.held, self.last, at, level) {
            return true;
        }
        give(self.line, self.held, at, level, into);
        self.held = step(self.line, self.held, at, level);
        true
    }

    #[inline(always)]
    fn skip(&self) -> u64 {
        self.time()
    }

    #[inline(always)]
    fn falls(&self) -> u64 {
        match self.held {
            Held::Idle => low_mask(self.line.opts.rx),
            Held::Inside { .. } | Held::Low { .. } => 0,
        }
    }

    fn floor(&self, next: u64) -> u64 {
        near(self.held, next)
    }

    ghost quiet = { λ machine seen more stands rests. uart_quiet machine seen more stands rests };

    ghost nothing = { λ machine.
        (uart_promises machine.line.opts machine.line.rate machine.line.in_range machine.line.fast).nothing };

    ghost prefix = { λ machine.
        (uart_promises machine.line.opts machine.line.rate machine.line.in_range machine.line.fast).prefix };

    ghost order = { λ machine.
        (uart_promises machine.line.opts machine.line.rate machine.line.in_range machine.line.fast).order };

    ghost few = { λ machine.
        (uart_promises machine.line.opts machine.line.rate machine.line.in_range machine.line.fast).few };

    ghost on_wire = { λ machine.
        (uart_promises machine.line.opts machine.line.rate machine.line.in_range machine.line.fast).on_wire };

    ghost one_machine = { λ one other list same stands also.
        one_uart one other list same stands also };

    ghost one_stop = { λ one other seen more same stands also rests.
        uart_one_stop one other seen more same stands also rests };
}

// It may move to another thread, and so may what drives it.
fn machine_is_send() {
    is_send::<Driver<Uart>>();
}
