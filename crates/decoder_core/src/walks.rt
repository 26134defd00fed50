// A decoder of samples over many runs.
ghost use Rattle.std.specs.Prelude.{◌≡◌, ◌≢◌, ◌≤◌, ◌<◌, ◌++◌, [], ℕ, List, length, take, false};
ghost use Rattle.std.specs.Prelude.{true, OnErr};
ghost use Rattle.la_base.specs.Runs.{samples_of};
ghost use Rattle.wait_cond.specs.Walks.{walk_from, walked};
ghost use Rattle.decoder_core.specs.Treading.{Treads};

use crate::{LogicMachine, Outs};
use la_base::Run;
use wait_cond::{Pair, Walk};

/// What a walk took of runs: how many, and whether another wait begins behind the last stop. Then
/// of the last of them the first sample alone was consumed, which is that stop.
#[derive(Clone, Copy, PartialEq, Eq)]
pub struct Walked {
    pub count: usize,
    pub anew: bool,
}

// The first sample of a run.
#[inline(always)]
fn first_of(run: Run) -> Run
    ensures len { result.len ≡ 1 }
    ensures value { result.value ≡ run.value }
{
    Run {
        value: run.value,
        len: 1,
    }
}

/// Takes a machine through runs, by the masks of the alternatives that it waits for: over those
/// without a stop, and over stops behind which it waits on for the same. It ends behind a stop
/// behind which it waits for something else, or where there may be no room for what one more gives.
#[inline(always)]
pub fn walk_runs<L: LogicMachine>(
    machine: &mut L,
    pair: Pair,
    walk: &mut Walk,
    runs: &[Run],
    into: &mut Outs,
) -> Walked
    requires empty { into.old ≡ [] }
    requires some { walked walk.old ≢ 0 }
    ensures setup { L.setup machine.new ≡ L.setup machine.old }
    ensures within { result.count ≤ length runs.now }
    ensures some { walked walk.new ≢ 0 }
    ensures alts { result.anew ≡ false → L.alts machine.new ≡ L.alts machine.old }
    ensures begun { result.anew ≡ true → 0 < result.count }
    ensures none { result.count ≡ 0 → into.new ≡ [] }
    ensures there { result.anew ≡ true → walk_from walk.new ≡ walked walk.new }
    ensures treads { Treads (L.outs (L.setup machine.old)) L.stands
        (L.alts machine.old) pair machine.old machine.new
        walk.old walk.new runs.now result.count result.anew into.new }
{
    for (place, run) in runs.iter().enumerate() {
        if !walk.has_room(*run) {
            return Walked {
                count: place,
                anew: false,
            };
        }
        let met = pair.met(walk.last(), run.value);
        if met == 0 {
            walk.pass(*run);
        } else {
            let at = walk.consumed();
            if machine.resume(at, run.value, met, into) {
                walk.stop(first_of(*run));
                return Walked {
                    count: place + 1,
                    anew: true,
                };
            }
            walk.stop(*run);
            if into.is_full() {
                return Walked {
                    count: place + 1,
                    anew: false,
                };
            }
        }
    }
    Walked {
        count: runs.len(),
        anew: false,
    }
}
