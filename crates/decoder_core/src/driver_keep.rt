// A driver is kept as the numbers of its waiter and, behind them, the bytes of its machine.
ghost use Rattle.std.specs.Prelude.{◌≡◌, ◌≤◌, ◌<◌, ◌+◌, ◌^◌, ◌↔◌, ℕ, List, length, true, IsTrue};
ghost use Rattle.std.specs.Prelude.{IfSome, MatchBool};
ghost use Rattle.wait_cond.specs.Waiting.{behind_stop};
ghost use Rattle.decoder_core.specs.Keeping.{DriverSaves, NumbersFit};
ghost use Rattle.decoder_core.specs.laws.KeepLaws.{driver_one_saved};

use crate::driver::Driver;
use crate::{Hold, Keep, LogicMachine, Saved};
use la_base::Word;
use plain_bytes::{Plain, front_of};
use wait_cond::Waiter;

// The sample behind a stop, or the first of all where there is none.
fn behind_stop(stop: Option<u64>) -> u64
    requires { IfSome stop (λ at. at < 2 ^ 60) }
    ensures { result ≡ behind_stop stop }
{
    match stop {
        Some(at) => at + 1,
        None => 0,
    }
}

// The stop before a sample, if there is one.
fn stop_before(from: u64) -> Option<u64>
    ensures stop { behind_stop result ≡ from }
    ensures before { IfSome result (λ at. at < from) }
{
    if from == 0 { None } else { Some(from - 1) }
}

// Whether a waiter can have these numbers.
fn fit(consumed: u64, from: u64, last: Word) -> bool
    ensures { MatchBool result (NumbersFit consumed from last) (¬ NumbersFit consumed from last) }
{
    if consumed > 1 << 60 || from > consumed {
        return false;
    }
    consumed > 0 || last == 0
}

impl<L: LogicMachine + Hold> Keep for Driver<L> {
    ghost saves = { λ d bytes. DriverSaves ⟦<(u64, (u64, Word)) as Plain>⟧.fits
        ⟦<(u64, (u64, Word)) as Plain>⟧.bytes_of L.puts d.machine d.waiter bytes };

    fn save(&self) -> Saved {
        let mut saved = Saved::new();
        let (consumed, stop, last) = self.waiter.kept();
        (consumed, (behind_stop(stop), last)).put(&mut saved);
        self.machine.put(&mut saved);
        saved
    }

    fn load(&mut self, saved: &Saved) -> bool {
        match front_of::<(u64, (u64, Word))>(saved.as_slice()) {
            Some(((consumed, (from, last)), rest)) => {
                if !fit(consumed, from, last) {
                    return false;
                }
                if !self.machine.get(rest) {
                    return false;
                }
                self.waiter = Waiter::made(self.machine.cond(), consumed, stop_before(from), last);
                true
            }
            None => false,
        }
    }

    ghost one_saved = { λ one other input bytes more same d e s t. driver_one_saved L.setup L.stands
        L.alts L.one_machine L.one_stop L.one_form one.machine other.machine one.waiter other.waiter
        input bytes more same d e s t };
}
