// The notes of all instances that are held.
ghost use Rattle.std.specs.Prelude.{All, ◌≡◌, ◌≤◌, ◌<◌, ◌^◌, ◌+◌, IfOk, IfSome, IfNone, OnErr};
ghost use Rattle.std.specs.Prelude.{OnOk, Some, List, length, slice_get, vec_len, ◌∷◌, ◌++◌, []};
ghost use Rattle.note_order.specs.Order.{entry_of};
ghost use Rattle.note_order.specs.declared.entry.Entry.{Entry};
ghost use Rattle.annot_merge.specs.Merging.{PutsIn};
ghost use Rattle.annot_merge.specs.Places.{IsWithin, StopsFirst};
ghost use Rattle.annot_merge.specs.Queues.{Arranged, FirstAt, RunAt, Settles, lists_of};
ghost use Rattle.annot_merge.specs.Queues.{listing_of, live};

use crate::bounds::same_bounds;
use crate::limit::{Lead, Limit};
use crate::limits::{lead_behind, lead_of, lead_past};
use crate::queue::Queue;
use la_base::{NoMemory, Note};
use note_order::Entry;
use std::alloc::Global;

/// A queue for each instance.
#[derive(Drop)]
pub struct Queues {
    pub queues: Vec<Queue>,
    // Where the first note of each starts.
    pub heads: Vec<Option<u64>>,
    // The first of these.
    pub lead: Lead,
    pub many: u64,
    ghost arranged: { ∥ Arranged (lists_of queues.items) heads.items lead ∥₁ },
    ghost many_are: { many ≡ length (listing_of queues.items) },
}

// An empty queue for each of so many instances.
fn empty_queues(alloc: Global, count: u32) -> Result<Vec<Queue>, NoMemory>
    ensures { IfOk result
        (λ queues. (length queues.items ≡ count) × All (λ queue. live queue ≡ []) queues.items) }
{
    let mut queues = Vec::new(alloc);
    for _ in 0..count {
        match queues.push(Queue::new(alloc)) {
            Ok(()) => {}
            Err(_) => return Err(NoMemory),
        }
    }
    Ok(queues)
}

// Puts the last note of an instance in its place among those of the instance.
#[inline(never)]
fn settle(queues: &mut Vec<Queue>, heads: &mut Vec<Option<u64>>, lead: &mut Lead, instance: u32)
    requires within { instance < length queues.old.items }
    requires each { length heads.old.items ≡ length queues.old.items }
    requires few { length heads.old.items < 2 ^ 32 }
    requires some { (queue : Queue) → slice_get queues.old.items instance ≡ Some queue
        → queue.first < vec_len queue.entries }
    ensures { Settles queues.old.items queues.new.items heads.old.items heads.new.items
        lead.old lead.new instance }
{
    let place = instance as usize;
    queues[place].settle();
    let head = queues[place].head();
    if heads[place] == head {
        return;
    }
    heads[place] = head;
    *lead = lead_behind(*lead, heads, instance, head);
}

impl Queues {
    /// Nothing is held.
    pub fn new(alloc: Global, count: u32) -> Result<Queues, NoMemory>
        ensures width { IfOk result (λ held. vec_len held.queues ≡ count) }
        ensures none { IfOk result (λ held. listing_of held.queues.items ≡ []) }
    {
        let queues = match empty_queues(alloc, count) {
            Ok(queues) => queues,
            Err(NoMemory) => return Err(NoMemory),
        };
        let heads = match same_bounds(alloc, count, None) {
            Ok(heads) => heads,
            Err(NoMemory) => return Err(NoMemory),
        };
        let lead = lead_of(&heads);
        Ok(Queues {
            queues,
            heads,
            lead,
            many: 0,
        })
    }

    /// Where the first of all starts.
    #[inline(always)]
    pub fn first_place(&self) -> Option<Limit>
        ensures some { IfSome result (λ place. FirstAt self.now.queues.items place) }
        ensures none { IfNone result (listing_of self.now.queues.items ≡ []) }
    {
        if self.lead.least.instance as usize >= self.queues.len() {
            return None;
        }
        Some(self.lead.least)
    }

    /// The first of all.
    pub fn first(&self) -> Option<Entry>
        ensures some { IfSome result (λ entry.
            RunAt self.now.queues.items self.now.lead.least.instance (entry ∷ [])) }
        ensures none { IfNone result (listing_of self.now.queues.items ≡ []) }
    {
        let place = self.lead.least.instance as usize;
        if place >= self.queues.len() {
            return None;
        }
        self.queues[place].first()
    }

    /// The first of all that aren't behind a limit, of one instance.
    #[inline(always)]
    pub fn front(&self, limit: &Limit) -> &[Entry]
        ensures run { 0 < length result.now
            → RunAt self.now.queues.items self.now.lead.least.instance result.now }
        ensures within { All (IsWithin limit.now) result.now }
        ensures none { result.now ≡ [] → StopsFirst limit.now (listing_of self.now.queues.items) }
    {
        let place = self.lead.least.instance as usize;
        if place >= self.queues.len() {
            return &[];
        }
        self.queues[place].front(limit, &self.lead.others)
    }

    /// Holds one more note. Mostly it is the last of its instance.
    #[inline(always)]
    pub fn put(&mut self, instance: u32, note: Note) -> Result<(), NoMemory>
        requires { instance < vec_len self.old.queues }
        ensures width { vec_len self.new.queues ≡ vec_len self.old.queues }
        ensures puts { OnOk result
            (PutsIn (entry_of instance note) (listing_of self.old.queues.items)
            (listing_of self.new.queues.items)) }
        ensures longer { OnOk result
            (length (listing_of self.new.queues.items)
            ≡ length (listing_of self.old.queues.items) + 1) }
        ensures kept { OnErr result
            (listing_of self.new.queues.items ≡ listing_of self.old.queues.items) }
    {
        if self.many == u64::MAX {
            return Err(NoMemory);
        }
        let place = instance as usize;
        let entry = Entry { instance, note };
        let goes_last = self.queues[place].goes_last(&entry);
        match self.queues[place].push(entry) {
            Ok(()) => {}
            Err(NoMemory) => return Err(NoMemory),
        }
        self.many += 1;
        if !goes_last {
            settle(&mut self.queues, &mut self.heads, &mut self.lead, instance);
        }
        Ok(())
    }

    /// Lets go of the first `count` of the front.
    #[inline(always)]
    pub fn let_go(&mut self, count: usize)
        requires { (run : List Entry) × (length run ≡ count)
            × RunAt self.old.queues.items self.old.lead.least.instance run }
        ensures width { vec_len self.new.queues ≡ vec_len self.old.queues }
        ensures rest { (run : List Entry) → length run ≡ count
            → RunAt self.old.queues.items self.old.lead.least.instance run
            → listing_of self.old.queues.items ≡ run ++ listing_of self.new.queues.items }
    {
        let place = self.lead.least.instance as usize;
        if place >= self.queues.len() {
            return;
        }
        self.queues[place].let_go(count);
        let head = self.queues[place].head();
        self.heads[place] = head;
        self.many -= count as u64;
        self.lead = lead_past(self.lead, &self.heads);
    }
}
