// I2C as a decoder of samples: it sleeps between two events.
ghost use Rattle.std.specs.Prelude.{◌≡◌, ◌==◌, ◌∷◌, [], ℕ, List, true, not};
ghost use Rattle.std.specs.Int.Bits.{bit_and};
ghost use Rattle.la_base.specs.declared.wires.Wire.TheVariants.{I2c as I2cWire};
ghost use Rattle.sample_walks.specs.laws.EventDecoders.{quiet_of};
ghost use Rattle.dec_i2c.specs.Bus.{i2c_outs, i2c_near};
ghost use Rattle.dec_i2c.specs.Opening.{StandsFor, Opens};
ghost use Rattle.dec_i2c.specs.laws.Machine.{mark_alt, clock_alt, i2c_alts, near_by};
ghost use Rattle.dec_i2c.specs.laws.I2cLaws.{i2c_decoder, i2c_promises};
ghost use Rattle.dec_i2c.specs.laws.MachineLaws.{one_i2c, i2c_one_stop};

use crate::outputs::give;
use crate::steps::{step, takes_bit};
use crate::{Bus, I2c, I2cOpts, Segment};
use decoder_core::{Configured, Driver, LogicMachine, OptFault, Outs, is_send};
use la_base::{MOST_PINS, Rate, Word, mask};
use wait_cond::{Alt, Cond, Waiter};

// SCL stays high, and SDA rises or falls.
fn mark_alt(bus: Bus) -> Alt
    ensures { result ≡ mark_alt bus.scl bus.sda }
{
    let scl = mask(bus.scl);
    Alt {
        low: 0,
        high: scl,
        rise: 0,
        fall: 0,
        edge: mask(bus.sda),
        steady: scl,
        skip: 0,
    }
}

// SCL rises.
fn clock_alt(bus: Bus) -> Alt
    ensures { result ≡ clock_alt bus.scl }
{
    Alt {
        low: 0,
        high: 0,
        rise: mask(bus.scl),
        fall: 0,
        edge: 0,
        steady: 0,
        skip: 0,
    }
}

// Whether the line of a mask is high.
#[inline(always)]
fn reads(mask: Word, value: Word) -> bool
    ensures { result ≡ not (bit_and value mask == 0) }
{
    value & mask != 0
}

// Where the byte that has begun and isn't given yet starts, else the number of samples.
fn near(held: &Option<Segment>, next: u64) -> u64
    ensures { result ≡ near_by held.now next }
{
    match held {
        Some(segment) => {
            if 0 < segment.bits && segment.bits < 8 {
                segment.first
            } else {
                next
            }
        }
        None => next,
    }
}

impl I2c {
    /// Opens a decoder of these lines at any rate; it stands for no samples. Answers Range where a
    /// line isn't one of the bits of a sample, and never Rate.
    pub fn open(opts: I2cOpts, _rate: Rate) -> Result<I2c, OptFault>
        ensures { Opens MOST_PINS opts result }
    {
        if opts.scl < MOST_PINS && opts.sda < MOST_PINS {
            let bus = Bus {
                scl: opts.scl,
                sda: opts.sda,
            };
            Ok(I2c {
                bus,
                sda_mask: mask(bus.sda),
                held: None,
            })
        } else {
            Err(OptFault::Range)
        }
    }
}

impl Configured for I2c {
    type Setup = Bus;

    ghost setup = { λ machine. machine.bus };
}

impl LogicMachine for I2c {
    ghost outs = { λ bus list. i2c_outs bus.scl bus.sda list };

    ghost near = { λ bus list. i2c_near bus.scl bus.sda list };

    ghost gives = { λ _. I2cWire };

    ghost stands = { λ machine list. StandsFor machine list };

    ghost alts = { λ machine. i2c_alts machine.bus.scl machine.bus.sda };

    fn cond(&self) -> Cond {
        let mut cond = Cond::one(mark_alt(self.bus));
        cond.add(clock_alt(self.bus));
        cond
    }

    fn wait(&self, waiter: &mut Waiter) {
        waiter.renew(self.cond());
    }

    // Inlined into both steps of a driver.
    #[inline(always)]
    fn resume(&mut self, at: u64, value: Word, met: u8, into: &mut Outs) -> bool {
        let level = reads(self.sda_mask, value);
        if takes_bit(&mut self.held, met, at, level) {
            return false;
        }
        give(&self.held, met, at, level, into);
        step(&mut self.held, met, at, level);
        false
    }

    fn floor(&self, next: u64) -> u64 {
        near(&self.held, next)
    }

    ghost quiet = { λ machine seen more stands rests.
        quiet_of (i2c_decoder machine.bus.scl machine.bus.sda) machine.held seen more stands
        rests };

    ghost nothing = { λ machine. (i2c_promises machine.bus.scl machine.bus.sda).nothing };

    ghost prefix = { λ machine. (i2c_promises machine.bus.scl machine.bus.sda).prefix };

    ghost order = { λ machine. (i2c_promises machine.bus.scl machine.bus.sda).order };

    ghost few = { λ machine. (i2c_promises machine.bus.scl machine.bus.sda).few };

    ghost on_wire = { λ machine. (i2c_promises machine.bus.scl machine.bus.sda).on_wire };

    ghost one_machine = { λ one other list same stands also.
        one_i2c one other list same stands also };

    ghost one_stop = { λ one other seen more same stands also rests.
        i2c_one_stop one other seen more same stands also rests };
}

// It may move to another thread, and so may what drives it.
fn machine_is_send() {
    is_send::<Driver<I2c>>();
}
