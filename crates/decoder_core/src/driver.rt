// Drives a decoder of samples by the waits that it asks for.
ghost use Rattle.std.specs.Prelude.{◌≡◌, ◌≤◌, ◌<◌, ◌+◌, ◌^◌, [], ◌∷◌, ◌++◌, ℕ, List, length, min};
ghost use Rattle.std.specs.Prelude.{replicate, take, ◌≢◌, ◌-◌, true, false, IfSome};
ghost use Rattle.la_base.specs.Samples.{samples};
ghost use Rattle.la_base.specs.declared.wires.Wire.TheVariants.{Logic};
ghost use Rattle.wait_cond.specs.Conds.{IsExact, IsFall, IsTimer};
ghost use Rattle.la_base.specs.Runs.{samples_of};
ghost use Rattle.wait_cond.specs.Waiting.{Waits, alts_of, wait_from, consumed_by, last_of};
ghost use Rattle.wait_cond.specs.Waiting.{rest_len, rest_samples};
ghost use Rattle.decoder_core.specs.Inputs.{Item, Sample, counted_samples, items_of, left_feed};
ghost use Rattle.decoder_core.specs.Inputs.{left_items};
ghost use Rattle.decoder_core.specs.Driving.{LeavesFewer, Passes, ReachesStop, Steps, StepsRuns};
ghost use Rattle.decoder_core.specs.Driving.{StopsFirst};
ghost use Rattle.decoder_core.specs.Driving.{Drives, Sleeps, SameState};
ghost use Rattle.decoder_core.specs.laws.CountedLaws.{nothing_counted, front_counted, few_counted};

use crate::timed::{first_next, walk_stops};
use crate::walks::walk_runs;
use crate::{LogicMachine, Machine, Outs, Taken};
use la_base::{Feed, Run, Wire};
use wait_cond::{Scan, Waiter};

// How many samples count.
const MOST_SAMPLES: u64 = 1 << 60;

/// A decoder of samples as a machine of any input: it waits for the samples that the decoder asks
/// for, and stands for the samples that count. Those are all that are numbered below 2^60; packets
/// don't count.
#[derive(Drop)]
pub struct Driver<L: LogicMachine> {
    pub(crate) machine: L,
    pub(crate) waiter: Waiter,
}

impl<L: LogicMachine> Driver<L> {
    /// A driver that has consumed nothing. The machine must stand for no samples.
    pub fn new(machine: L) -> Driver<L>
        requires { L.stands machine [] }
        ensures stands { Drives L.stands L.alts result.machine result.waiter [] }
        ensures machine { result.machine ≡ machine }
    {
        let waiter = Waiter::new(machine.cond());
        Driver { machine, waiter }
    }

    // Consumes what is left of a run where it is plain that it has no stop, and answers whether it
    // did. Else nothing changes.
    #[inline(always)]
    fn pass_rest(&mut self, rest: Run) -> bool
        ensures passes { result ≡ true → Passes
            (Drives L.stands L.alts self.old.machine self.old.waiter)
            (Drives L.stands L.alts self.new.machine self.new.waiter)
            (λ input. L.outs (L.setup self.old.machine) (counted_samples input)) (samples rest) }
        ensures setup { L.setup self.new.machine ≡ L.setup self.old.machine }
        ensures kept { result ≡ false → self.new ≡ self.old }
    {
        if rest.len > MOST_SAMPLES - self.waiter.consumed() {
            return false;
        }
        if self.waiter.rests(rest) {
            self.waiter.pass(rest);
            return true;
        }
        if self.waiter.passes(rest) {
            self.waiter.pass(rest);
            return true;
        }
        false
    }

    // Consumes samples up to their first stop, and those behind it if it is plain that they have
    // none. It isn't inlined, so that the loop over runs has its registers for those without a
    // stop.
    #[inline(never)]
    fn look_on(&mut self, run: Run, into: &mut Outs) -> Option<Run>
        requires { into.old ≡ [] }
        ensures setup { L.setup self.new.machine ≡ L.setup self.old.machine }
        ensures step { Steps
            (Drives L.stands L.alts self.old.machine self.old.waiter)
            (Drives L.stands L.alts self.new.machine self.new.waiter)
            (λ input. L.outs (L.setup self.old.machine) (counted_samples input))
            (Feed.Run run) (left_feed result) into.new }
        ensures stops { ReachesStop
            (Drives L.stands L.alts self.old.machine self.old.waiter)
            (Sleeps L.alts self.old.machine self.old.waiter)
            (Feed.Run run) (left_feed result) }
    {
        match self.look(run, into) {
            Some(rest) => {
                if self.pass_rest(rest) {
                    return None;
                }
                Some(rest)
            }
            None => None,
        }
    }

    // Consumes runs by the masks of what is waited for. It isn't inlined, so that the walk has its
    // registers.
    #[inline(never)]
    fn step_exact(&mut self, runs: &[Run], into: &mut Outs) -> Taken
        requires empty { into.old ≡ [] }
        requires exact { IsExact (alts_of self.old.waiter) }
        requires some { consumed_by self.old.waiter ≢ 0 }
        ensures setup { L.setup self.new.machine ≡ L.setup self.old.machine }
        ensures within { result.count ≤ length runs.now }
        ensures none { result.count ≡ 0 → into.new ≡ [] }
        ensures steps { StepsRuns
            (Drives L.stands L.alts self.old.machine self.old.waiter)
            (Drives L.stands L.alts self.new.machine self.new.waiter)
            (λ input. L.outs (L.setup self.old.machine) (counted_samples input))
            (samples_of (take result.count runs.now)) result.rest into.new }
        ensures fewer { LeavesFewer (samples_of (take result.count runs.now)) result.rest }
    {
        let pair = self.waiter.pair();
        let mut walk = self.waiter.walk();
        let walked = walk_runs(&mut self.machine, pair, &mut walk, runs, into);
        self.waiter.put(walk);
        if !walked.anew {
            return Taken {
                count: walked.count,
                rest: None,
            };
        }
        self.machine.wait(&mut self.waiter);
        Taken {
            count: walked.count,
            rest: self.pass_behind(runs[walked.count - 1]),
        }
    }

    // Consumes runs while the fall of these lines alone is waited for, or where there are none a
    // time alone, over many stops. It isn't inlined, so that the walk has its registers.
    #[inline(never)]
    fn step_stops(&mut self, falls: u64, skip: u64, runs: &[Run], into: &mut Outs) -> Taken
        requires empty { into.old ≡ [] }
        requires timer { falls ≡ 0 → IsTimer (L.alts self.old.machine) skip }
        requires fall { falls ≢ 0 → IsFall (L.alts self.old.machine) falls }
        requires some { consumed_by self.old.waiter ≢ 0 }
        ensures setup { L.setup self.new.machine ≡ L.setup self.old.machine }
        ensures within { result.count ≤ length runs.now }
        ensures none { result.count ≡ 0 → into.new ≡ [] }
        ensures steps { StepsRuns
            (Drives L.stands L.alts self.old.machine self.old.waiter)
            (Drives L.stands L.alts self.new.machine self.new.waiter)
            (λ input. L.outs (L.setup self.old.machine) (counted_samples input))
            (samples_of (take result.count runs.now)) result.rest into.new }
        ensures fewer { LeavesFewer (samples_of (take result.count runs.now)) result.rest }
    {
        let mut walk = self.waiter.walk();
        let first = first_next(&walk, falls, skip);
        let strode = walk_stops(&mut self.machine, &mut walk, first, runs, into);
        self.waiter.take_stop();
        self.machine.wait(&mut self.waiter);
        self.waiter.put(walk);
        Taken {
            count: strode.count,
            rest: self.pass_left(strode.rest),
        }
    }

    // The same where such a wait may be; where it isn't, no run is taken.
    #[inline(always)]
    fn step_skipping(&mut self, runs: &[Run], into: &mut Outs) -> Taken
        requires { into.old ≡ [] }
        ensures setup { L.setup self.new.machine ≡ L.setup self.old.machine }
        ensures within { result.count ≤ length runs.now }
        ensures none { result.count ≡ 0 → into.new ≡ [] }
        ensures steps { StepsRuns
            (Drives L.stands L.alts self.old.machine self.old.waiter)
            (Drives L.stands L.alts self.new.machine self.new.waiter)
            (λ input. L.outs (L.setup self.old.machine) (counted_samples input))
            (samples_of (take result.count runs.now)) result.rest into.new }
        ensures fewer { LeavesFewer (samples_of (take result.count runs.now)) result.rest }
    {
        let none = Taken {
            count: 0,
            rest: None,
        };
        if self.waiter.consumed() == 0 {
            return none;
        }
        let falls = self.machine.falls();
        let skip = self.machine.skip();
        if !is_some(falls, skip) {
            return none;
        }
        self.step_stops(falls, skip, runs, into)
    }

    // Consumes runs by the other ways, at least one where there is one.
    #[inline(always)]
    fn step_others(&mut self, runs: &[Run], into: &mut Outs) -> Taken
        requires { into.old ≡ [] }
        ensures setup { L.setup self.new.machine ≡ L.setup self.old.machine }
        ensures within { result.count ≤ length runs.now }
        ensures some { 0 < length runs.now → 0 < result.count }
        ensures steps { StepsRuns
            (Drives L.stands L.alts self.old.machine self.old.waiter)
            (Drives L.stands L.alts self.new.machine self.new.waiter)
            (λ input. L.outs (L.setup self.old.machine) (counted_samples input))
            (samples_of (take result.count runs.now)) result.rest into.new }
        ensures fewer { LeavesFewer (samples_of (take result.count runs.now)) result.rest }
    {
        if self.waiter.is_exact() {
            let taken = self.step_exact(runs, into);
            if taken.count > 0 {
                return taken;
            }
        }
        self.step_any(runs, into)
    }

    // Consumes what is left of a run where it is plain that it has no stop, or answers it.
    #[inline(always)]
    fn pass_left(&mut self, left: Option<Run>) -> Option<Run>
        ensures setup { L.setup self.new.machine ≡ L.setup self.old.machine }
        ensures steps { StepsRuns
            (Drives L.stands L.alts self.old.machine self.old.waiter)
            (Drives L.stands L.alts self.new.machine self.new.waiter)
            (λ input. L.outs (L.setup self.old.machine) (counted_samples input))
            (rest_samples left) result [] }
        ensures few { rest_len result ≤ rest_len left }
    {
        match left {
            Some(rest) => {
                if self.pass_rest(rest) {
                    return None;
                }
                Some(rest)
            }
            None => None,
        }
    }

    // Consumes what is behind the first sample of a run where it is plain that it has no stop, or
    // answers it.
    #[inline(always)]
    fn pass_behind(&mut self, run: Run) -> Option<Run>
        ensures setup { L.setup self.new.machine ≡ L.setup self.old.machine }
        ensures steps { StepsRuns
            (Drives L.stands L.alts self.old.machine self.old.waiter)
            (Drives L.stands L.alts self.new.machine self.new.waiter)
            (λ input. L.outs (L.setup self.old.machine) (counted_samples input))
            (replicate (run.len - 1) run.value) result [] }
        ensures few { length (left_items (left_feed result)) ≤ run.len - 1 }
    {
        match behind(run, 1) {
            Some(rest) => {
                if self.pass_rest(rest) {
                    return None;
                }
                Some(rest)
            }
            None => None,
        }
    }

    // Consumes runs as long as it is plain that they have no stop, and then one up to its first
    // stop.
    #[inline(never)]
    fn step_any(&mut self, runs: &[Run], into: &mut Outs) -> Taken
        requires { into.old ≡ [] }
        ensures setup { L.setup self.new.machine ≡ L.setup self.old.machine }
        ensures within { result.count ≤ length runs.now }
        ensures some { 0 < length runs.now → 0 < result.count }
        ensures steps { StepsRuns
            (Drives L.stands L.alts self.old.machine self.old.waiter)
            (Drives L.stands L.alts self.new.machine self.new.waiter)
            (λ input. L.outs (L.setup self.old.machine) (counted_samples input))
            (samples_of (take result.count runs.now)) result.rest into.new }
        ensures fewer { LeavesFewer (samples_of (take result.count runs.now)) result.rest }
    {
        let passed = self.waiter.pass_runs(runs);
        if passed >= runs.len() {
            return Taken {
                count: passed,
                rest: None,
            };
        }
        Taken {
            count: passed + 1,
            rest: self.look_on(runs[passed], into),
        }
    }

    // Consumes samples up to their first stop. It is inlined into both steps: a call would cost a
    // tenth of a decode.
    #[inline(always)]
    fn look(&mut self, run: Run, into: &mut Outs) -> Option<Run>
        requires { into.old ≡ [] }
        ensures setup { L.setup self.new.machine ≡ L.setup self.old.machine }
        ensures step { Steps
            (Drives L.stands L.alts self.old.machine self.old.waiter)
            (Drives L.stands L.alts self.new.machine self.new.waiter)
            (λ input. L.outs (L.setup self.old.machine) (counted_samples input))
            (Feed.Run run) (left_feed result) into.new }
        ensures stops { StopsFirst
            (Drives L.stands L.alts self.old.machine self.old.waiter)
            (Sleeps L.alts self.old.machine self.old.waiter)
            (Feed.Run run) (left_feed result) }
    {
        let before = self.waiter.consumed();
        if before >= MOST_SAMPLES {
            return None;
        }
        match self.waiter.scan(part_of(run, MOST_SAMPLES - before)) {
            Scan::Through => None,
            Scan::Met { at, value, met, .. } => {
                let anew = self.machine.resume(at, value, met, into);
                wait_on(&self.machine, anew, &mut self.waiter);
                behind(run, at + 1 - before)
            }
        }
    }
}

// Whether one of two numbers isn't 0.
#[inline(always)]
fn is_some(one: u64, other: u64) -> bool
    ensures { result ≡ true → one ≡ 0 → other ≢ 0 }
{
    if one != 0 {
        return true;
    }
    other != 0
}

// Begins the wait for what a machine waits for, behind its last stop. Where that is what it waited
// for before, the waiter has it already: to make it anew at each stop would take a third of a
// decode.
fn wait_on<L: LogicMachine>(machine: &L, anew: bool, waiter: &mut Waiter)
    requires { wait_from waiter.old ≡ consumed_by waiter.old }
    ensures waits { (list : List ℕ) → Waits waiter.old list → Waits waiter.new list }
    ensures from { wait_from waiter.new ≡ wait_from waiter.old }
    ensures alts { (anew ≡ false → alts_of waiter.old ≡ L.alts machine.now)
        → alts_of waiter.new ≡ L.alts machine.now }
    ensures consumed { consumed_by waiter.new ≡ consumed_by waiter.old }
    ensures last { last_of waiter.new ≡ last_of waiter.old }
{
    if anew {
        machine.wait(waiter);
    }
}

// The front of a run, as far as there is room.
fn part_of(run: Run, room: u64) -> Run
    requires { 0 < room }
    ensures len { result.len ≡ min run.len room }
    ensures value { result.value ≡ run.value }
{
    Run {
        value: run.value,
        len: run.len.min(room),
    }
}

// The samples of a run behind its first `count`.
fn behind(run: Run, count: u64) -> Option<Run>
    requires { count ≤ run.len }
    ensures rest { left_items (left_feed result) ≡ replicate (run.len - count) (Sample run.value) }
    ensures more { IfSome (left_feed result) (λ rest. 0 < length (items_of rest)) }
{
    if count < run.len {
        Some(Run {
            value: run.value,
            len: run.len - count,
        })
    } else {
        None
    }
}

impl<L: LogicMachine> Machine for Driver<L> {
    type Setup = L::Setup;

    ghost setup = { λ d. L.setup d.machine };

    ghost outputs = { λ setup input. L.outs setup (counted_samples input) };

    ghost near = { λ setup input above. L.near setup (counted_samples input) };

    ghost wire = { λ _. Logic };

    ghost gives = { λ setup. L.gives setup };

    ghost consumed = { λ d input. Drives L.stands L.alts d.machine d.waiter input };

    ghost sleeps = { λ d input more. Sleeps L.alts d.machine d.waiter input more };

    fn wants(&self) -> Wire {
        Wire::Logic
    }

    fn step(&mut self, feed: Feed, into: &mut Outs) -> Option<Feed> {
        match feed {
            Feed::Run(run) => match self.look(run, into) {
                Some(rest) => Some(Feed::Run(rest)),
                None => None,
            },
            Feed::Packet(_) => None,
            Feed::From(_) => None,
            Feed::End => None,
        }
    }

    fn step_runs(&mut self, runs: &[Run], into: &mut Outs) -> Taken {
        let taken = self.step_skipping(runs, into);
        if taken.count > 0 {
            return taken;
        }
        self.step_others(runs, into)
    }

    fn step_run(&mut self, run: Run, into: &mut Outs) -> Option<Run> {
        self.look_on(run, into)
    }

    fn floor(&self, _above: u64) -> u64 {
        self.machine.floor(self.waiter.consumed())
    }

    ghost nothing = { λ d. nothing_counted (L.outs (L.setup d.machine)) (L.nothing d.machine) };

    ghost prefix = { λ d. front_counted (L.outs (L.setup d.machine)) (L.prefix d.machine) };

    ghost order = { λ d input. L.order d.machine (counted_samples input) };

    ghost few = { λ d. few_counted (L.outs (L.setup d.machine)) (L.few d.machine) };

    ghost on_wire = { λ d input. L.on_wire d.machine (counted_samples input) };
}

/// The input makes the driver: two drivers of one setup that have consumed the same input hold
/// equal machines and equal counts of samples, last stops, last samples and alternatives. (A law;
/// nothing is done.)
pub fn one_input_makes_one_driver<L: LogicMachine>(one: &Driver<L>, other: &Driver<L>)
    ensures { (input : List Item) → L.setup one.now.machine ≡ L.setup other.now.machine
        → Drives L.stands L.alts one.now.machine one.now.waiter input
        → Drives L.stands L.alts other.now.machine other.now.waiter input
        → SameState one.now.machine other.now.machine one.now.waiter other.now.waiter }
{}
