// A wait in the midst of runs.
ghost use Rattle.std.specs.Prelude.{◌≡◌, ◌≤◌, ◌+◌, ◌-◌, ◌^◌, max, min, MatchBool};
ghost use Rattle.wait_cond.specs.Meets.{AllFall};

use la_base::{Run, Word, low_half};

// How many samples may be consumed.
const MOST_SAMPLES: u64 = 1 << 60;

/// A wait in the midst of runs: how many samples there is room for, where the wait began, and the
/// last sample that was consumed. Its numbers stay in registers where those of a waiter are stored
/// at each run. Which alternatives are waited for is not a part of it: who walks asks a `Pair`.
#[derive(Clone, Copy)]
pub struct Walk {
    pub(crate) room: u64,
    pub(crate) from: u64,
    pub(crate) last: Word,
    ghost few: { room ≤ 2 ^ 60 },
    ghost stop: { from ≤ 2 ^ 60 - room },
}

impl Walk {
    ghost use Rattle.std.specs.Prelude.{◌≡◌, ◌≢◌, ◌+◌, ◌≤◌, ◌<◌, ◌-◌, ◌^◌, ◌++◌, List, ℕ, length};
    ghost use Rattle.std.specs.Prelude.{Some, true};
    ghost use Rattle.la_base.specs.Samples.{samples};
    ghost use Rattle.wait_cond.specs.declared.alt.Alt.{Alt};
    ghost use Rattle.wait_cond.specs.Stops.{MetSet, NoneMet, IsStop};
    ghost use Rattle.wait_cond.specs.Watching.{NeverMet};
    ghost use Rattle.wait_cond.specs.Conds.{IsFall};
    ghost use Rattle.wait_cond.specs.Walks.{IsTimeLeft, StopsBehind, Walks, walked, walk_from};
    ghost use Rattle.wait_cond.specs.Walks.{walk_last};

    /// Whether there is room for a run.
    #[inline(always)]
    pub fn has_room(&self, run: Run) -> bool
        ensures { result ≡ true → walked self.now + run.len ≤ 2 ^ 60 }
    {
        run.len <= self.room
    }

    /// How many samples were consumed.
    #[inline(always)]
    pub fn consumed(&self) -> u64
        ensures { result ≡ walked self.now }
    {
        MOST_SAMPLES - self.room
    }

    /// The last sample that was consumed.
    #[inline(always)]
    pub fn last(&self) -> Word
        ensures { result ≡ walk_last self.now }
    {
        self.last
    }

    /// Consumes a run whose first sample is a stop, where none is met while its value stands.
    #[inline(always)]
    pub fn stop(&mut self, run: Run)
        requires room { walked self.old + run.len ≤ 2 ^ 60 }
        ensures waits { (alts : List Alt) (list : List ℕ) (met : ℕ) → Walks alts self.old list
            → walked self.old ≢ 0 → met ≢ 0
            → MetSet alts (Some (walk_last self.old)) run.value (walk_from self.old)
            (walked self.old) met
            → NeverMet alts (Some run.value) run.value
            → IsStop (list ++ samples run) alts (walk_from self.old) (length list) met
            × Walks alts self.new (list ++ samples run) }
        ensures walked { walked self.new ≡ walked self.old + run.len }
        ensures from { walk_from self.new ≡ walked self.old + 1 }
    {
        self.from = MOST_SAMPLES - self.room + 1;
        self.room -= run.len;
        self.last = run.value;
    }

    /// Consumes a run that has no stop.
    #[inline(always)]
    pub fn pass(&mut self, run: Run)
        requires room { walked self.old + run.len ≤ 2 ^ 60 }
        ensures waits { (alts : List Alt) (list : List ℕ) → Walks alts self.old list
            → walked self.old ≢ 0
            → MetSet alts (Some (walk_last self.old)) run.value (walk_from self.old)
            (walked self.old) 0
            → NeverMet alts (Some run.value) run.value
            → NoneMet (list ++ samples run) alts (walk_from self.old) (length list + run.len)
            × Walks alts self.new (list ++ samples run) }
        ensures none { (alts : List Alt) (list : List ℕ) → Walks alts self.old list
            → NoneMet (list ++ samples run) alts (walk_from self.old) (length list + run.len)
            → Walks alts self.new (list ++ samples run) }
        ensures walked { walked self.new ≡ walked self.old + run.len }
        ensures from { walk_from self.new ≡ walk_from self.old }
    {
        self.room -= run.len;
        self.last = run.value;
    }

    /// Consumes a run whose last sample is a stop, behind which any wait may begin.
    #[inline(always)]
    pub fn stop_behind(&mut self, run: Run)
        requires room { walked self.old + run.len ≤ 2 ^ 60 }
        ensures waits { (asked alts : List Alt) (list : List ℕ) → Walks asked self.old list
            → Walks alts self.new (list ++ samples run) }
        ensures walked { walked self.new ≡ walked self.old + run.len }
        ensures from { walk_from self.new ≡ walked self.old + run.len }
    {
        self.room -= run.len;
        self.from = MOST_SAMPLES - self.room;
        self.last = run.value;
    }

    /// How many samples come before the first one at which so many were skipped, of those that
    /// there is room for.
    #[inline(always)]
    pub fn time_left(&self, skip: u64) -> u64
        ensures { IsTimeLeft self.now skip result }
    {
        let place = timer_place(self.from, skip, MOST_SAMPLES - self.room);
        place.min(self.room)
    }

    /// The same where the last sample was a stop.
    #[inline(always)]
    pub fn time_begun(&self, skip: u64) -> u64
        requires stop { walk_from self.now ≡ walked self.now }
        requires some { 0 < skip }
        ensures { IsTimeLeft self.now skip result }
    {
        self.room.min(skip - 1)
    }

    /// How many samples of a value come before the first one at which all of these lines fall, of
    /// those that there is room for: none, or all of them.
    #[inline(always)]
    pub fn fall_left(&self, lines: u64, value: Word) -> u64
        requires { walked self.now ≢ 0 }
        ensures { (alts : List Alt) → IsFall alts lines → StopsBehind alts self.now value result }
    {
        let before = low_half(self.last);
        let now = low_half(value);
        if all_fall(lines, before, now) {
            0
        } else {
            self.room
        }
    }
}

// Whether each of these lines falls.
#[inline(always)]
fn all_fall(lines: u64, before: u64, now: u64) -> bool
    ensures { MatchBool result (AllFall lines before now) (¬ AllFall lines before now) }
{
    if lines & before != lines {
        return false;
    }
    lines & now == 0
}

/// The first sample from the next one on at which so many were skipped, counted from there; where it
/// isn't among those that there is room for, any other number that isn't either.
pub fn timer_place(from: u64, skip: u64, consumed: u64) -> u64
    requires early { from ≤ 2 ^ 60 }
    requires few { consumed ≤ 2 ^ 60 }
    ensures { min result (2 ^ 60) ≡ min (max 1 (from + skip - consumed) - 1) (2 ^ 60) }
{
    from.saturating_add(skip).saturating_sub(consumed).max(1) - 1
}
