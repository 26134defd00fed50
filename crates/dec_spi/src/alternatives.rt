// What is waited for.
ghost use Rattle.std.specs.Prelude.{◌≡◌, ◌<◌, ◌∷◌, []};
ghost use Rattle.std.specs.Option.{ForSome};
ghost use Rattle.la_base.specs.declared.samples.TheConstants.{MOST_PINS};
ghost use Rattle.wait_cond.specs.Conds.{cond_alts};
ghost use Rattle.dec_spi.specs.Bus.{is_active_high};
ghost use Rattle.dec_spi.specs.laws.Machine.{mask_of, low_mask, high_mask, rise_mask, fall_mask};
ghost use Rattle.dec_spi.specs.laws.Machine.{select_alt, clock_alt_of, change_alt, event_alts};

use crate::Bus;
use crate::levels::{is_active_high, reads_rises};
use la_base::{MOST_PINS, Word, mask};
use wait_cond::{Alt, Cond};

// The mask of the select line, if it is given.
fn select_mask(bus: &Bus) -> Word
    ensures { result ≡ mask_of bus.now.opts.cs }
{
    match bus.opts.cs {
        Some(line) => mask(line),
        None => 0,
    }
}

// The sample is selected.
fn select_alt(bus: &Bus) -> Alt
    ensures { result ≡ select_alt bus.now.opts.cs (is_active_high bus.now.opts) }
{
    let select = select_mask(bus);
    let high = is_active_high(&bus.opts);
    Alt {
        low: if high { 0 } else { select },
        high: if high { select } else { 0 },
        rise: 0,
        fall: 0,
        edge: 0,
        steady: 0,
        skip: 0,
    }
}

// It is selected as the one before it was, and the clock has an edge at which a bit is read.
fn clock_alt(bus: &Bus) -> Alt
    ensures { result ≡ clock_alt_of bus.now.opts }
{
    let select = select_mask(bus);
    let clock = mask(bus.opts.sck);
    let high = is_active_high(&bus.opts);
    let rises = reads_rises(&bus.opts);
    Alt {
        low: if high { 0 } else { select },
        high: if high { select } else { 0 },
        rise: if rises { clock } else { 0 },
        fall: if rises { 0 } else { clock },
        edge: 0,
        steady: select,
        skip: 0,
    }
}

// The select line changes.
fn change_alt(line: u32) -> Alt
    requires { line < MOST_PINS }
    ensures { result ≡ change_alt line }
{
    Alt {
        low: 0,
        high: 0,
        rise: 0,
        fall: 0,
        edge: mask(line),
        steady: 0,
        skip: 0,
    }
}

/// The first selected sample.
pub fn first_select(bus: &Bus) -> Cond
    ensures { cond_alts result ≡ select_alt bus.now.opts.cs (is_active_high bus.now.opts) ∷ [] }
{
    Cond::one(select_alt(bus))
}

/// Any event behind the first select. Each alternative asks an edge, so that samples at which
/// neither line changes are passed over at once.
pub fn next_event(bus: &Bus) -> Cond
    ensures { cond_alts result ≡ event_alts bus.now.opts }
{
    let mut cond = Cond::one(clock_alt(bus));
    if let Some(line) = bus.opts.cs {
        cond.add(change_alt(line));
    }
    cond
}
