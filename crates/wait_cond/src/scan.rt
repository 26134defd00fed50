// The wait itself.
ghost use Rattle.std.specs.Prelude.{◌≡◌, ◌≤◌, ◌^◌};

use crate::behind::behind;
use crate::met::met_set;
use crate::pair::Pair;
use crate::standing::first_standing;
use crate::walk::{Walk, timer_place};
use crate::{Alt, Cond};
use la_base::{Run, Word};

// How many samples may be consumed.
const MOST_SAMPLES: u64 = 1 << 60;

/// Waits for the next sample that meets a condition. It stands for the samples that it has
/// consumed, its last stop among them, and its condition; of the samples it holds three numbers.
#[derive(Drop)]
pub struct Waiter {
    cond: Cond,
    consumed: u64,
    from: u64,
    last: Word,
    ghost stop: { from ≤ consumed },
    ghost few: { consumed ≤ 2 ^ 60 },
    ghost unseen: { consumed ≡ 0 → last ≡ 0 },
}

/// Where a wait stopped, or that it goes on behind the run.
#[derive(Clone, Copy, PartialEq, Eq)]
pub enum Scan {
    Met {
        at: u64,
        value: Word,
        met: u8,
        rest: Option<Run>,
    },
    Through,
}

impl Waiter {
    ghost use Rattle.std.specs.Prelude.{◌≡◌, ◌≢◌, ◌+◌, ◌≤◌, ◌<◌, ◌^◌, ◌++◌, ◌==◌, if◌then◌else◌};
    ghost use Rattle.std.specs.Prelude.{[], ◌∷◌, List, ℕ, length, take, Some, IfSome, true};
    ghost use Rattle.la_base.specs.Runs.{samples_of};
    ghost use Rattle.la_base.specs.Samples.{samples};
    ghost use Rattle.wait_cond.specs.Conds.{IsExact, IsTimer, cond_alts};
    ghost use Rattle.wait_cond.specs.Pairs.{Says};
    ghost use Rattle.wait_cond.specs.Watching.{NeverMet};
    ghost use Rattle.wait_cond.specs.Standing.{FirstStanding};
    ghost use Rattle.wait_cond.specs.Stops.{MetSet, NoneMet};
    ghost use Rattle.wait_cond.specs.Walks.{Walks, walked, walk_from};
    ghost use Rattle.wait_cond.specs.Waiting.{Waits, MadeOf, Scanned, Counts, ThroughCounts};
    ghost use Rattle.wait_cond.specs.Waiting.{FindsIn, alts_of, behind_stop, wait_from};
    ghost use Rattle.wait_cond.specs.Waiting.{consumed_by, last_of};

    /// A waiter that has consumed no sample yet.
    pub fn new(cond: Cond) -> Waiter
        ensures new { Waits result [] }
        ensures alts { alts_of result ≡ cond_alts cond }
        ensures from { wait_from result ≡ 0 }
    {
        Waiter {
            cond,
            consumed: 0,
            from: 0,
            last: 0,
        }
    }

    /// A waiter from what is kept of one: how many samples it had consumed, its last stop and its
    /// last sample, which says nothing where it had consumed none.
    pub fn made(cond: Cond, consumed: u64, stop: Option<u64>, last: Word) -> Waiter
        requires few { consumed ≤ 2 ^ 60 }
        requires within { IfSome stop (λ at. at < consumed) }
        ensures alts { alts_of result ≡ cond_alts cond }
        ensures consumed { consumed_by result ≡ consumed }
        ensures from { wait_from result ≡ behind_stop stop }
        ensures last { 0 < consumed → last_of result ≡ last }
        ensures waits { (list : List ℕ)
            → MadeOf (cond_alts cond) consumed (behind_stop stop) last list → Waits result list }
    {
        let from = match stop {
            Some(at) => at + 1,
            None => 0,
        };
        Waiter {
            cond,
            consumed,
            from,
            last: if consumed == 0 { 0 } else { last },
        }
    }

    /// What is to be kept of it beside its condition: how many samples it consumed, its last stop,
    /// and its last sample, 0 where it consumed none.
    pub fn kept(&self) -> (u64, Option<u64>, Word)
        ensures consumed { result.0 ≡ consumed_by self.now }
        ensures few { result.0 ≤ 2 ^ 60 }
        ensures stop { behind_stop result.1 ≡ wait_from self.now }
        ensures within { IfSome result.1 (λ at. at < result.0) }
        ensures last { result.2 ≡ last_of self.now }
        ensures unseen { result.0 ≡ 0 → result.2 ≡ 0 }
    {
        let stop = if self.from == 0 {
            None
        } else {
            Some(self.from - 1)
        };
        (self.consumed, stop, self.last)
    }

    /// Sets the condition of the next wait to one alternative, as `renew` does; it makes no
    /// condition anew.
    pub fn renew_one(&mut self, alt: Alt)
        requires { wait_from self.old ≡ consumed_by self.old }
        ensures waits { (list : List ℕ) → Waits self.old list → Waits self.new list }
        ensures alts { alts_of self.new ≡ alt ∷ [] }
        ensures from { wait_from self.new ≡ wait_from self.old }
        ensures consumed { consumed_by self.new ≡ consumed_by self.old }
        ensures last { last_of self.new ≡ last_of self.old }
    {
        self.cond.set_one(alt);
    }

    /// Sets the condition of the next wait; without it the same condition is waited for again. The
    /// last sample that was consumed must be the last stop, or none was consumed.
    pub fn renew(&mut self, cond: Cond)
        requires { wait_from self.old ≡ consumed_by self.old }
        ensures waits { (list : List ℕ) → Waits self.old list → Waits self.new list }
        ensures alts { alts_of self.new ≡ cond_alts cond }
        ensures from { wait_from self.new ≡ wait_from self.old }
        ensures consumed { consumed_by self.new ≡ consumed_by self.old }
        ensures last { last_of self.new ≡ last_of self.old }
    {
        self.cond = cond;
    }

    /// How many samples were consumed.
    pub fn consumed(&self) -> u64
        ensures consumed { result ≡ consumed_by self.now }
        ensures few { result ≤ 2 ^ 60 }
        ensures stop { wait_from self.now ≤ result }
    {
        self.consumed
    }

    // The sample before the next one, if there is one.
    fn before(&self) -> Option<Word>
        ensures { result ≡ (if self.now.consumed == 0 then None else Some self.now.last) }
    {
        if self.consumed > 0 {
            Some(self.last)
        } else {
            None
        }
    }

    /// Whether it is plain that no sample of a run meets the condition, without a look at each
    /// alternative: each asks one line to be high that is low, or each asks an edge and none of
    /// these lines changes, or each skips more samples than there are up to the end of the run.
    #[inline]
    pub fn passes(&self, run: Run) -> bool
        requires { consumed_by self.now + run.len ≤ 2 ^ 60 }
        ensures none { result ≡ true → (list : List ℕ) → Waits self.now list
            → NoneMet (list ++ samples run) (alts_of self.now) (wait_from self.now)
            (length list + run.len) }
    {
        if self.cond.is_still(self.before(), run.value) {
            return true;
        }
        self.cond.skips_more(self.consumed + run.len - self.from)
    }

    /// Whether it is plain that no sample of a run meets the condition, since it goes on with the
    /// value of the last one and each alternative asks an edge. So it mostly is with what is left
    /// of a run.
    #[inline]
    pub fn rests(&self, run: Run) -> bool
        requires { consumed_by self.now + run.len ≤ 2 ^ 60 }
        ensures none { result ≡ true → (list : List ℕ) → Waits self.now list
            → NoneMet (list ++ samples run) (alts_of self.now) (wait_from self.now)
            (length list + run.len) }
    {
        if self.consumed == 0 {
            return false;
        }
        if self.last != run.value {
            return false;
        }
        self.cond.asks_edges()
    }

    /// Consumes a run no sample of which meets the condition.
    #[inline]
    pub fn pass(&mut self, run: Run)
        requires { consumed_by self.old + run.len ≤ 2 ^ 60 }
        ensures waits { (list : List ℕ) → Waits self.old list
            → NoneMet (list ++ samples run) (alts_of self.old) (wait_from self.old)
            (length list + run.len) → Waits self.new (list ++ samples run) }
        ensures counts { ThroughCounts self.old self.new run }
        ensures alts { alts_of self.new ≡ alts_of self.old }
    {
        self.consumed += run.len;
        self.last = run.value;
    }

    /// Consumes runs, from the first one on, as long as it is plain that they have no stop, and
    /// answers how many. It ends before a run with which there would be more than 2^60 samples.
    pub fn pass_runs(&mut self, runs: &[Run]) -> usize
        ensures within { result ≤ length runs.now }
        ensures waits { (list : List ℕ) → Waits self.old list
            → Waits self.new (list ++ samples_of (take result runs.now)) }
        ensures count { consumed_by self.new
            ≡ consumed_by self.old + length (samples_of (take result runs.now)) }
        ensures from { wait_from self.new ≡ wait_from self.old }
        ensures alts { alts_of self.new ≡ alts_of self.old }
    {
        for (place, run) in runs.iter().enumerate() {
            if run.len > MOST_SAMPLES - self.consumed || !self.passes(*run) {
                return place;
            }
            self.pass(*run);
        }
        runs.len()
    }

    /// Whether it waits for one or two alternatives of which masks say all, and has consumed a
    /// sample. Then `pair` and `walk` take it through runs faster.
    #[inline(always)]
    pub fn is_exact(&self) -> bool
        ensures { result ≡ true → IsExact (alts_of self.now) × (consumed_by self.now ≢ 0) }
    {
        self.cond.is_exact() && self.consumed != 0
    }

    /// The alternatives that it waits for, by their masks. None is met while a value stands, since
    /// each asks an edge.
    #[inline(always)]
    pub fn pair(&self) -> Pair
        requires { IsExact (alts_of self.now) }
        ensures says { Says result (alts_of self.now) }
        ensures stands { (value : ℕ) → NeverMet (alts_of self.now) (Some value) value }
    {
        self.cond.pair()
    }

    /// The wait in the midst of runs, without its condition.
    #[inline(always)]
    pub fn walk(&self) -> Walk
        ensures waits { (list : List ℕ) → Waits self.now list
            → Walks (alts_of self.now) result list }
        ensures walked { walked result ≡ consumed_by self.now }
        ensures from { walk_from result ≡ wait_from self.now }
    {
        Walk {
            room: MOST_SAMPLES - self.consumed,
            from: self.from,
            last: self.last,
        }
    }

    /// Goes on where a walk ended that has consumed a sample.
    #[inline(always)]
    pub fn put(&mut self, walk: Walk)
        requires { walked walk ≢ 0 }
        ensures waits { (list : List ℕ) → Walks (alts_of self.old) walk list → Waits self.new list }
        ensures consumed { consumed_by self.new ≡ walked walk }
        ensures from { wait_from self.new ≡ walk_from walk }
        ensures alts { alts_of self.new ≡ alts_of self.old }
    {
        self.consumed = walk.consumed();
        self.from = walk.from;
        self.last = walk.last;
    }

    /// Takes the last sample that was consumed for the last stop, so that another condition can be
    /// set where a walk ended; then `put` sets its numbers.
    #[inline(always)]
    pub fn take_stop(&mut self)
        ensures { wait_from self.new ≡ consumed_by self.new }
    {
        self.from = self.consumed;
    }

    // The alternatives that the next sample meets, where it has this value.
    #[inline(always)]
    fn met_next(&self, value: Word) -> u8
        requires { self.now.consumed < 2 ^ 60 }
        ensures { MetSet self.now.cond (if self.now.consumed == 0 then None else Some self.now.last)
            value self.now.from self.now.consumed result }
    {
        met_set(
            self.cond.alts(),
            self.before(),
            value,
            self.from,
            self.consumed,
        )
    }

    // The first sample of a run behind its first one that meets the condition, by its place among
    // all samples, or that behind the run: as the value stands, only a skip can begin to hold. It
    // isn't inlined, so that runs of one sample are passed quickly.
    #[inline(never)]
    fn standing_stop(&self, run: Run) -> u64
        requires { self.now.consumed + run.len ≤ 2 ^ 60 }
        ensures { FirstStanding self.now.cond run.value self.now.from (self.now.consumed + 1)
            (self.now.consumed + run.len) result }
    {
        first_standing(
            self.cond.alts(),
            run.value,
            self.from,
            self.consumed + 1,
            self.consumed + run.len,
        )
    }

    // The alternatives that a sample meets which has the value of the one before it.
    #[inline(never)]
    fn met_standing(&self, value: Word, at: u64) -> u8
        requires { at < 2 ^ 60 }
        ensures { MetSet self.now.cond (Some value) value self.now.from at result }
    {
        met_set(self.cond.alts(), Some(value), value, self.from, at)
    }

    // The first sample of a run that meets the condition, and the alternatives that it meets.
    #[inline(always)]
    fn find(&self, run: Run) -> Option<(u64, u8)>
        requires { self.now.consumed + run.len ≤ 2 ^ 60 }
        ensures found { FindsIn self.now run result }
        ensures within { IfSome result (λ x. (x.0 < run.len) × (x.1 ≢ 0)) }
    {
        if let Some(skip) = self.cond.only_skip() {
            return self.find_timer(skip, run);
        }
        let met = self.met_next(run.value);
        if met != 0 {
            return Some((0, met));
        }
        if run.len == 1 {
            return None;
        }
        if self.cond.is_still(Some(run.value), run.value) {
            return None;
        }
        let at = self.standing_stop(run);
        if at == self.consumed + run.len {
            return None;
        }
        Some((at - self.consumed, self.met_standing(run.value, at)))
    }

    // The same of a wait for a time alone, which no value of a sample decides.
    #[inline(always)]
    fn find_timer(&self, skip: u64, run: Run) -> Option<(u64, u8)>
        requires few { self.now.consumed + run.len ≤ 2 ^ 60 }
        requires timer { IsTimer self.now.cond skip }
        ensures found { FindsIn self.now run result }
        ensures within { IfSome result (λ x. (x.0 < run.len) × (x.1 ≢ 0)) }
    {
        let place = timer_place(self.from, skip, self.consumed);
        if place < run.len {
            Some((place, 1))
        } else {
            None
        }
    }

    /// Consumes samples up to the first one of the run that meets an alternative and lies behind
    /// the last stop. `Met` has its place among all samples, its value, the set of all alternatives
    /// that it meets (bit i is alternative i) and the samples of the run behind it. `Through` comes
    /// exactly where there is none; the whole run is consumed then. All samples together are at
    /// most 2^60.
    // Inlined, since of its answer callers look at some parts alone.
    #[inline(always)]
    pub fn scan(&mut self, run: Run) -> Scan
        requires { consumed_by self.old + run.len ≤ 2 ^ 60 }
        ensures scanned { (list : List ℕ) → Waits self.old list
            → Scanned self.old self.new (list ++ samples run) result }
        ensures counts { Counts self.old self.new run result }
        ensures alts { alts_of self.new ≡ alts_of self.old }
    {
        match self.find(run) {
            Some((k, met)) => {
                let at = self.consumed + k;
                self.consumed = at + 1;
                self.from = at + 1;
                self.last = run.value;
                Scan::Met {
                    at,
                    value: run.value,
                    met,
                    rest: behind(run, k),
                }
            }
            None => {
                self.consumed += run.len;
                self.last = run.value;
                Scan::Through
            }
        }
    }
}
