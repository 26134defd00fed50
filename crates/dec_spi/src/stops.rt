// What a stop puts out, and what is kept behind it.
ghost use Rattle.std.specs.Prelude.{◌≡◌, ◌≤◌, ◌++◌, length};
ghost use Rattle.dec_spi.specs.declared.held.Held.TheVariants.{Inside};
ghost use Rattle.dec_spi.specs.laws.Machine.{gives, next, clock_of, event_of, is_fresh};

use crate::levels::{is_low_first, is_selected, level_of};
use crate::outputs::{give_deselect, give_select, give_word};
use crate::words::{begun, start_of, with_bit};
use crate::{Bits, Bus, Held};
use decoder_core::Outs;
use la_base::Word;

// A clock in a stretch.
fn clock(bus: &Bus, word: Bits, at: u64, value: Word, into: &mut Outs) -> Held
    requires { length into.old ≤ 16 }
    ensures gives { into.new ≡ into.old
        ++ gives bus.now.opts (Inside word) (clock_of bus.now.opts at value) }
    ensures next { result ≡ next bus.now.opts (Inside word) (clock_of bus.now.opts at value) }
{
    let low_first = is_low_first(&bus.opts);
    let mosi = with_bit(
        low_first,
        word.count,
        word.mosi,
        level_of(bus.opts.mosi, value),
    );
    let miso = with_bit(
        low_first,
        word.count,
        word.miso,
        level_of(bus.opts.miso, value),
    );
    let first = start_of(word.count, word.first, at);
    if word.count as u64 + 1 < bus.opts.bits {
        Held::Inside(Bits {
            count: word.count + 1,
            mosi,
            miso,
            first,
        })
    } else {
        give_word(bus, first, at, mosi, miso, into);
        begun()
    }
}

/// Whether no sample was selected yet.
pub fn is_fresh(held: Held) -> bool
    ensures { result ≡ is_fresh held }
{
    match held {
        Held::Fresh => true,
        Held::Outside => false,
        Held::Inside(_) => false,
    }
}

/// Puts out what a stop gives, and answers what is then kept.
pub fn stop(bus: &Bus, held: Held, at: u64, value: Word, into: &mut Outs) -> Held
    requires { length into.old ≤ 16 }
    ensures gives { into.new ≡ into.old
        ++ gives bus.now.opts held (event_of bus.now.opts held at value) }
    ensures next { result ≡ next bus.now.opts held (event_of bus.now.opts held at value) }
{
    match held {
        Held::Inside(word) => {
            if is_selected(bus, value) {
                clock(bus, word, at, value, into)
            } else {
                give_deselect(at, into);
                Held::Outside
            }
        }
        _ => {
            give_select(at, into);
            begun()
        }
    }
}
