// A decoder of samples over many runs, while it waits for a time alone or for the fall of lines.
ghost use Rattle.std.specs.Prelude.{◌≡◌, ◌≢◌, ◌≤◌, ◌<◌, ◌+◌, ◌-◌, ◌^◌, ◌++◌, [], ℕ, List, length};
ghost use Rattle.std.specs.Prelude.{take, replicate, true, false};
ghost use Rattle.la_base.specs.Runs.{samples_of};
ghost use Rattle.wait_cond.specs.Conds.{IsFall, IsTimer};
ghost use Rattle.wait_cond.specs.Waiting.{rest_len, rest_samples};
ghost use Rattle.wait_cond.specs.Walks.{StopsBehind, walk_from, walked};
ghost use Rattle.wait_cond.specs.declared.alt.Alt.{Alt};
ghost use Rattle.decoder_core.specs.Striding.{Awaits, PassesOver, Strides, StridesOver, Timed};

use crate::{LogicMachine, Outs};
use la_base::{Run, Word};
use wait_cond::Walk;

/// What a walk took of runs: how many, and what is left of the last of them, if anything is.
#[derive(Clone, Copy, PartialEq, Eq)]
pub struct Strode {
    pub count: usize,
    pub rest: Option<Run>,
}

/// What a machine waits for: the fall of these lines alone, or where there are none a time alone;
/// so many samples come before the stop, which of a wait for a fall says nothing from one run to the
/// next. Or that the walk has ended: it waits for something else, or there may be no room for what
/// one more stop gives.
#[derive(Clone, Copy, PartialEq, Eq)]
pub struct Next {
    pub falls: u64,
    pub left: u64,
    pub ended: bool,
}

/// How far a machine came in a run: how many of its samples are left, and what it waits for then.
/// Where the walk hasn't ended, nothing is left.
#[derive(Clone, Copy, PartialEq, Eq)]
pub struct Came {
    pub rest: u64,
    pub next: Next,
}

// So many samples of one value, if there are any.
#[inline(always)]
fn rest_of(value: Word, len: u64) -> Option<Run>
    ensures samples { rest_samples result ≡ replicate len value }
    ensures len { rest_len result ≡ len }
{
    if len > 0 {
        Some(Run { value, len })
    } else {
        None
    }
}

// So many samples of a run's value.
#[inline(always)]
fn front(run: Run, len: u64) -> Run
    requires { 0 < len }
    ensures len { result.len ≡ len }
    ensures value { result.value ≡ run.value }
{
    Run {
        value: run.value,
        len,
    }
}

/// What is waited for at the begin of a walk.
#[inline(always)]
pub fn first_next(walk: &Walk, falls: u64, skip: u64) -> Next
    ensures { (alts : List Alt) → (falls ≡ 0 → IsTimer alts skip) → (falls ≢ 0 → IsFall alts falls)
        → Awaits alts walk.now result.falls result.left }
{
    if falls != 0 {
        return Next {
            falls,
            left: 0,
            ended: false,
        };
    }
    Next {
        falls: 0,
        left: walk.time_left(skip),
        ended: false,
    }
}

// What is waited for behind a stop, where its value goes on.
#[inline(always)]
fn next_of<L: LogicMachine>(machine: &L, walk: &Walk, value: Word, into: &Outs) -> Next
    requires some { walked walk.now ≢ 0 }
    requires stop { walk_from walk.now ≡ walked walk.now }
    ensures room { result.ended ≡ false → length into.now ≤ 16 }
    ensures awaits { result.ended ≡ false
        → Awaits (L.alts machine.now) walk.now result.falls result.left }
    ensures stops { result.ended ≡ false
        → StopsBehind (L.alts machine.now) walk.now value result.left }
{
    let ended = Next {
        falls: 0,
        left: 0,
        ended: true,
    };
    if into.is_full() {
        return ended;
    }
    let falls = machine.falls();
    if falls != 0 {
        return Next {
            falls,
            left: walk.fall_left(falls, value),
            ended: false,
        };
    }
    let skip = machine.skip();
    if skip == 0 {
        return ended;
    }
    Next {
        falls: 0,
        left: walk.time_begun(skip),
        ended: false,
    }
}

// How many samples of a run come before the next stop.
#[inline(always)]
fn ahead(walk: &Walk, next: Next, value: Word) -> u64
    requires { walked walk.now ≢ 0 }
    ensures stops { (alts : List Alt) → Awaits alts walk.now next.falls next.left
        → StopsBehind alts walk.now value result }
    ensures awaits { (alts : List Alt) → Awaits alts walk.now next.falls next.left
        → Awaits alts walk.now next.falls result }
{
    if next.falls == 0 {
        return next.left;
    }
    walk.fall_left(next.falls, value)
}

/// Takes a machine through a run with stops, before the first of which so many samples come.
#[inline(always)]
pub fn stride<L: LogicMachine>(
    machine: &mut L,
    walk: &mut Walk,
    first: Next,
    run: Run,
    into: &mut Outs,
) -> Came
    requires awaits { Awaits (L.alts machine.old) walk.old first.falls first.left }
    requires stops { StopsBehind (L.alts machine.old) walk.old run.value first.left }
    requires fits { walked walk.old + run.len ≤ 2 ^ 60 }
    requires some { first.left < run.len }
    requires room { length into.old ≤ 16 }
    ensures setup { L.setup machine.new ≡ L.setup machine.old }
    ensures rest { result.rest < run.len }
    ensures through { result.next.ended ≡ false → result.rest ≡ 0 }
    ensures room { result.next.ended ≡ false → length into.new ≤ 16 }
    ensures awaits { result.next.ended ≡ false
        → Awaits (L.alts machine.new) walk.new result.next.falls result.next.left }
    ensures walked { walked walk.new ≡ walked walk.old + (run.len - result.rest) }
    ensures strides { Strides (L.outs (L.setup machine.old)) L.stands L.alts
        machine.old machine.new walk.old walk.new into.old into.new
        (replicate (run.len - result.rest) run.value) }
{
    let mut next = first;
    let mut rest = run.len;
    while next.left < rest {
        let at = walk.consumed() + next.left;
        machine.resume(at, run.value, 1, into);
        let part = front(run, next.left + 1);
        walk.stop_behind(part);
        rest -= next.left + 1;
        next = next_of(machine, walk, run.value, into);
        if next.ended {
            return Came { rest, next };
        }
    }
    if rest == 0 {
        return Came { rest, next };
    }
    let last = front(run, rest);
    walk.pass(last);
    Came {
        rest: 0,
        next: Next {
            left: next.left - rest,
            ..next
        },
    }
}

// How far a walk came before a time: the run at which it is over, and how many samples come before it
// there.
#[derive(Clone, Copy, PartialEq, Eq)]
struct Passed {
    place: usize,
    left: u64,
}

// Passes runs that end before a time is over. It has a loop of its own, since most runs are such ones.
#[inline(always)]
fn pass_timed<L: LogicMachine>(
    machine: &L,
    walk: &mut Walk,
    first: u64,
    runs: &[Run],
    from: usize,
) -> Passed
    requires from { from ≤ length runs.now }
    requires some { walked walk.old ≢ 0 }
    requires timed { Timed (L.alts machine.now) walk.old first }
    ensures from { from ≤ result.place }
    ensures within { result.place ≤ length runs.now }
    ensures some { walked walk.new ≢ 0 }
    ensures timed { Timed (L.alts machine.now) walk.new result.left }
    ensures passes { PassesOver (L.outs (L.setup machine.now)) L.stands L.alts machine.now
        walk.old walk.new (samples_of (take from runs.now))
        (samples_of (take result.place runs.now)) }
{
    let mut place = from;
    let mut left = first;
    while place < runs.len() {
        let run = runs[place];
        if run.len > left {
            return Passed { place, left };
        }
        walk.pass(run);
        left -= run.len;
        place += 1;
    }
    Passed { place, left }
}

// Passes runs in which these lines don't all fall, where their fall alone is waited for, and answers
// the place of the run that isn't passed. It has a loop of its own too.
#[inline(always)]
fn pass_steady<L: LogicMachine>(
    machine: &L,
    walk: &mut Walk,
    falls: u64,
    runs: &[Run],
    from: usize,
) -> usize
    requires from { from ≤ length runs.now }
    requires some { walked walk.old ≢ 0 }
    requires falls { IsFall (L.alts machine.now) falls }
    ensures from { from ≤ result }
    ensures within { result ≤ length runs.now }
    ensures some { walked walk.new ≢ 0 }
    ensures passes { PassesOver (L.outs (L.setup machine.now)) L.stands L.alts machine.now
        walk.old walk.new (samples_of (take from runs.now)) (samples_of (take result runs.now)) }
{
    let mut place = from;
    while place < runs.len() {
        let run = runs[place];
        if run.len > walk.fall_left(falls, run.value) {
            return place;
        }
        walk.pass(run);
        place += 1;
    }
    place
}

// Passes runs before the one in which a time is over or lines fall, whichever is waited for.
#[inline(always)]
fn pass_before<L: LogicMachine>(
    machine: &L,
    walk: &mut Walk,
    next: Next,
    runs: &[Run],
    from: usize,
) -> Passed
    requires from { from ≤ length runs.now }
    requires some { walked walk.old ≢ 0 }
    requires awaits { Awaits (L.alts machine.now) walk.old next.falls next.left }
    ensures from { from ≤ result.place }
    ensures within { result.place ≤ length runs.now }
    ensures some { walked walk.new ≢ 0 }
    ensures awaits { Awaits (L.alts machine.now) walk.new next.falls result.left }
    ensures passes { PassesOver (L.outs (L.setup machine.now)) L.stands L.alts machine.now
        walk.old walk.new (samples_of (take from runs.now))
        (samples_of (take result.place runs.now)) }
{
    if next.falls != 0 {
        return Passed {
            place: pass_steady(machine, walk, next.falls, runs, from),
            left: next.left,
        };
    }
    pass_timed(machine, walk, next.left, runs, from)
}

/// Takes a machine through runs while it waits for a time alone or for the fall of lines alone, over
/// those without a stop and over stops. It ends behind a stop behind which it waits for something
/// else, or where there may be no room for what one more gives.
#[inline(always)]
pub fn walk_stops<L: LogicMachine>(
    machine: &mut L,
    walk: &mut Walk,
    first: Next,
    runs: &[Run],
    into: &mut Outs,
) -> Strode
    requires empty { into.old ≡ [] }
    requires some { walked walk.old ≢ 0 }
    requires awaits { Awaits (L.alts machine.old) walk.old first.falls first.left }
    ensures setup { L.setup machine.new ≡ L.setup machine.old }
    ensures within { result.count ≤ length runs.now }
    ensures some { walked walk.new ≢ 0 }
    ensures none { result.count ≡ 0 → into.new ≡ [] }
    ensures fewer { 0 < length (samples_of (take result.count runs.now))
        → rest_len result.rest < length (samples_of (take result.count runs.now)) }
    ensures strides { StridesOver (L.outs (L.setup machine.old)) L.stands L.alts
        machine.old machine.new walk.old walk.new into.new
        (samples_of (take result.count runs.now)) (rest_samples result.rest) }
{
    let mut next = first;
    let mut place = 0;
    while place < runs.len() {
        let passed = pass_before(machine, walk, next, runs, place);
        if passed.place >= runs.len() {
            return Strode {
                count: runs.len(),
                rest: None,
            };
        }
        let run = runs[passed.place];
        let waits = Next {
            left: passed.left,
            ..next
        };
        let left = ahead(walk, waits, run.value);
        if run.len <= left {
            walk.pass(run);
            next.left = left - run.len;
        } else {
            if !walk.has_room(run) {
                return Strode {
                    count: passed.place,
                    rest: None,
                };
            }
            let came = stride(machine, walk, Next { left, ..next }, run, into);
            if came.next.ended {
                return Strode {
                    count: passed.place + 1,
                    rest: rest_of(run.value, came.rest),
                };
            }
            next = came.next;
        }
        place = passed.place + 1;
    }
    Strode {
        count: runs.len(),
        rest: None,
    }
}
