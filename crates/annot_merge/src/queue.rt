// The notes of one instance that are held.
ghost use Rattle.std.specs.Prelude.{◌≡◌, ◌+◌, ◌≤◌, ◌<◌, ◌^◌, ◌∷◌, ◌++◌, [], ℕ, IfSome, IfNone, OnErr};
ghost use Rattle.std.specs.Prelude.{OnOk, Some, List, vec_len, drop, length, true};
ghost use Rattle.std.specs.List.{All, HoldsAt};
ghost use Rattle.note_order.specs.declared.entry.Entry.{Entry};
ghost use Rattle.annot_merge.specs.Merging.{InOrder, PutsIn};
ghost use Rattle.annot_merge.specs.Places.{GoesOn, IsWithin, StopsAt, StopsFirst};

use crate::limit::Limit;
use crate::limits::{allows, is_lower};
use crate::place::{behind_given, is_late, settle_last};
use la_base::NoMemory;
use note_order::Entry;
use std::alloc::Global;

/// Notes in order, from `first` on. Those before it were given.
#[derive(Drop)]
pub struct Queue {
    pub entries: Vec<Entry>,
    pub first: usize,
    ghost within: { first ≤ vec_len entries },
    // Of those that were given, few keep their room, or no more than are held.
    ghost room: { first + first ≤ 64 + vec_len entries },
}

// Where a note starts.
#[inline(always)]
fn start_of(entry: &Entry) -> u64
    ensures { result ≡ entry.now.note.start }
{
    entry.note.start
}

// The instance of a note.
#[inline(always)]
fn instance_of(entry: &Entry) -> u32
    ensures { result ≡ entry.now.instance }
{
    entry.instance
}

impl Queue {
    ghost use Rattle.annot_merge.specs.Queues.{head_of, live};

    /// Nothing is held.
    pub fn new(alloc: Global) -> Queue
        ensures { live result ≡ [] }
    {
        Queue {
            entries: Vec::new(alloc),
            first: 0,
        }
    }

    /// Whether some are held, and a note that starts here stands before none of them.
    #[inline(always)]
    pub fn goes_last(&self, entry: &Entry) -> bool
        ensures puts { result ≡ true → InOrder (live self.now)
            → PutsIn entry.now (live self.now) (live self.now ++ entry.now ∷ []) }
        ensures head { result ≡ true
            → head_of (live self.now ++ entry.now ∷ []) ≡ head_of (live self.now) }
    {
        if self.first >= self.entries.len() {
            return false;
        }
        is_late(&self.entries, self.first, entry)
    }

    /// Puts a note behind those that are held.
    #[inline(always)]
    pub fn push(&mut self, entry: Entry) -> Result<(), NoMemory>
        ensures last { OnOk result (live self.new ≡ live self.old ++ entry ∷ []) }
        ensures some { OnOk result (self.new.first < vec_len self.new.entries) }
        ensures kept { OnErr result (live self.new ≡ live self.old) }
    {
        match self.entries.push(entry) {
            Ok(()) => Ok(()),
            Err(_) => Err(NoMemory),
        }
    }

    /// Puts the last one in its place.
    pub fn settle(&mut self)
        requires { self.old.first < vec_len self.old.entries }
        ensures { (before : List Entry) (entry : Entry) → live self.old ≡ before ++ entry ∷ []
            → InOrder before → PutsIn entry before (live self.new) }
    {
        settle_last(&mut self.entries, self.first);
    }

    /// The start of the first.
    #[inline(always)]
    pub fn head(&self) -> Option<u64>
        ensures head { result ≡ head_of (live self.now) }
        ensures fits { IfSome result (λ start. start < 2 ^ 64) }
    {
        if self.first >= self.entries.len() {
            return None;
        }
        Some(start_of(&self.entries[self.first]))
    }

    /// The first.
    pub fn first(&self) -> Option<Entry>
        ensures some { IfSome result (λ entry. live self.now ≡ entry ∷ drop 1 (live self.now)) }
        ensures none { IfNone result (live self.now ≡ []) }
    {
        if self.first >= self.entries.len() {
            return None;
        }
        Some(self.entries[self.first])
    }

    // Those that are held.
    #[inline(always)]
    fn held(&self) -> &[Entry]
        ensures { result.now ≡ live self.now }
    {
        &self.entries[self.first..]
    }

    /// Those that are held, up to the first that is behind the limit, or not before the others.
    #[inline(always)]
    pub fn front(&self, limit: &Limit, others: &Limit) -> &[Entry]
        ensures parts { (rest : List Entry) × (live self.now ≡ result.now ++ rest) }
        ensures within { All (IsWithin limit.now) result.now }
        ensures before { All (λ entry. GoesOn others.now entry) (drop 1 result.now) }
        ensures none { result.now ≡ [] → StopsFirst limit.now (live self.now) }
    {
        let held = self.held();
        let count = front_of(held, limit, others);
        &held[..count]
    }

    /// Lets go of the first `count`.
    #[inline(always)]
    pub fn let_go(&mut self, count: usize)
        requires { count ≤ length (live self.old) }
        ensures { live self.new ≡ drop count (live self.old) }
    {
        self.first = behind_given(&mut self.entries, self.first + count);
    }
}

// How many notes there are before the first that is behind the limit or not before the others. The
// first is before the others.
#[inline(always)]
fn front_of(held: &[Entry], limit: &Limit, others: &Limit) -> usize
    ensures most { result ≤ length held.now }
    ensures within { (k : ℕ) → k < result
        → HoldsAt (IsWithin limit.now) held.now k }
    ensures before { (k : ℕ) → 0 < k → k < result
        → HoldsAt (λ entry. GoesOn others.now entry) held.now k }
    ensures none { result ≡ 0 → 0 < length held.now
        → HoldsAt (StopsAt limit.now) held.now 0 }
{
    let mut count = 0;
    while count < held.len() {
        let place = stands_at(&held[count]);
        if !allows(limit, &place) {
            break;
        }
        if count > 0 {
            if !is_lower(place.start, place.instance, others) {
                break;
            }
        }
        count += 1;
    }
    count
}

/// Where a note stands.
#[inline(always)]
pub fn stands_at(entry: &Entry) -> Limit
    ensures start { result.start ≡ entry.now.note.start }
    ensures instance { result.instance ≡ entry.now.instance }
    ensures low { result.start < 2 ^ 64 }
    ensures few { result.instance < 2 ^ 32 }
{
    let start = start_of(entry);
    let instance = instance_of(entry);
    Limit { start, instance }
}
