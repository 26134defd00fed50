// Short rows of what is still to be done or given, oldest first: room that is used again and again.
ghost use Rattle.std.specs.Prelude.{◌≡◌, ◌≤◌, ◌<◌, ◌+◌, ◌++◌, ◌∷◌, [], length, take, drop, nat_eq};
ghost use Rattle.std.specs.Prelude.{Option, IfSome, map, true};
ghost use Rattle.la_base.specs.Runs.{samples_of};
ghost use Rattle.decoder_core.specs.Inputs.{Sample};
ghost use Rattle.stack_laws.specs.Feeds.{items_in};
ghost use Rattle.stage_ring.specs.Link.{received, rx_link, rx_misses, more_if};
ghost use Rattle.stage_run.specs.Inputs.{feeds_in, told_behind};
ghost use Rattle.stage_run.specs.Rows.{Kept, none_kept, waiting, with_left};

use crate::input::HalfRun;
use la_base::Run;
use stage_ring::Rx;
use std::marker::Model;

/// How many things a row has room for.
pub(crate) const ROOM: usize = 64;

/// At most `ROOM` things, of which those before a place are done.
#[derive(Drop)]
pub(crate) struct Row<T: Copy> {
    room: [T; ROOM],
    count: usize,
    at: usize,
}

impl<T: Copy> Model for Row<T> {
    ghost Value = { Kept T };

    ghost view = { λ r. record { list = take r.count r.room; at = r.at } };

    ghost invariant = { λ r. (r.count ≤ 64) × (r.at ≤ r.count) };
}

impl<T: Copy> Row<T> {
    /// A row of none; its room is filled with a blank.
    pub(crate) fn new(blank: T) -> Row<T>
        ensures { result ≡ none_kept }
    {
        Row {
            room: [blank; ROOM],
            count: 0,
            at: 0,
        }
    }

    /// Puts a thing behind the others.
    #[inline(always)]
    pub(crate) fn push(&mut self, thing: T)
        requires { length self.old.list < 64 }
        ensures { self.new ≡ record { list = self.old.list ++ thing ∷ []; at = self.old.at } }
    {
        self.room[self.count] = thing;
        self.count += 1;
    }

    /// Those that aren't done.
    #[inline(always)]
    pub(crate) fn waiting(&self) -> &[T]
        ensures list { result.now ≡ waiting self.now }
        ensures few { length result.now ≤ 64 }
    {
        let all = &self.room[..];
        &all[self.at..self.count]
    }

    /// The number of all, those that are done counted.
    #[inline(always)]
    pub(crate) fn count(&self) -> usize
        ensures count { result ≡ length self.now.list }
        ensures within { self.now.at ≤ length self.now.list }
    {
        let all = &self.room[..self.count];
        all.len()
    }

    /// Whether all are done.
    #[inline(always)]
    pub(crate) fn is_done(&self) -> bool
        ensures { result ≡ nat_eq (length (waiting self.now)) 0 }
    {
        self.waiting().is_empty()
    }

    /// So many more are done.
    #[inline(always)]
    pub(crate) fn skip(&mut self, count: usize)
        requires { count ≤ length (waiting self.old) }
        ensures { self.new ≡ record { list = self.old.list; at = self.old.at + count } }
    {
        self.at += count;
    }

    /// None is done any more.
    #[inline(always)]
    pub(crate) fn again(&mut self)
        ensures { self.new ≡ record { list = self.old.list; at = 0 } }
    {
        self.at = 0;
    }

    /// So many more are done, but for what is left of the last of them.
    #[inline(always)]
    pub(crate) fn skip_but(&mut self, count: usize, left: Option<T>)
        requires within { count ≤ length (waiting self.old) }
        requires some { IfSome left (λ _. 0 < count) }
        ensures { waiting self.new ≡ with_left left (drop count (waiting self.old)) }
    {
        self.at += count;
        if let Some(thing) = left {
            self.at -= 1;
            self.room[self.at] = thing;
        }
    }

    /// Lets all of them go.
    #[inline(always)]
    pub(crate) fn clear(&mut self)
        ensures { self.new ≡ none_kept }
    {
        self.count = 0;
        self.at = 0;
    }
}

impl<T: Copy + Send> Row<T> {
    /// Receives as many things as there are and as there is room for, in place of what it had. It
    /// isn't inlined, so that the loop over them knows that the row and the link lie apart.
    #[inline(never)]
    pub(crate) fn fill(&mut self, from: &mut Rx<T>) -> usize
        ensures link { rx_link from.new ≡ rx_link from.old }
        ensures start { self.new.at ≡ 0 }
        ensures few { result ≤ 64 }
        ensures count { length self.new.list ≡ result }
        ensures received { received from.new ≡ received from.old ++ self.new.list }
        ensures misses { rx_misses from.new ≡ more_if (nat_eq result 0) (rx_misses from.old) }
    {
        self.at = 0;
        self.count = from.take_some(&mut self.room);
        self.count
    }
}

impl Row<Run> {
    /// Puts in the runs of these half runs, in place of what it had, and answers whether it could.
    /// It can't where one of them has no samples. `upper` is the upper half of all their lines.
    #[inline]
    pub(crate) fn put(&mut self, upper: u64, half_runs: &[HalfRun]) -> bool
        requires { length half_runs.now ≤ 64 }
        ensures start { result ≡ true → self.new.at ≡ 0 }
        ensures items { result ≡ true → map Sample (samples_of self.new.list)
            ≡ items_in (feeds_in upper half_runs.now) }
        ensures upper { result ≡ true → told_behind upper half_runs.now ≡ upper }
    {
        self.at = 0;
        self.count = 0;
        if !all_runs(&mut self.room, upper, half_runs) {
            return false;
        }
        self.count = half_runs.len();
        true
    }
}

// The runs of half runs, at the front of room for them; the answer is whether each has samples.
// Behind one that has none nothing is put.
#[inline]
fn all_runs(room: &mut [Run; ROOM], upper: u64, half_runs: &[HalfRun]) -> bool
    requires { length half_runs.now ≤ 64 }
    ensures len { length room.new ≡ 64 }
    ensures items { result ≡ true → map Sample (samples_of (take (length half_runs.now) room.new))
        ≡ items_in (feeds_in upper half_runs.now) }
    ensures upper { result ≡ true → told_behind upper half_runs.now ≡ upper }
{
    for place in 0..half_runs.len() {
        let half_run = half_runs[place];
        if half_run.len == 0 {
            return false;
        }
        let run = &mut room[place];
        run.value = half_run.whole(upper);
        run.len = half_run.len;
    }
    true
}
