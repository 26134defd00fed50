// The merge.
ghost use Rattle.std.specs.Prelude.{◌≡◌, ◌≤◌, ◌<◌, ◌+◌, ◌^◌, ◌∷◌, [], IfNone, IfOk, IfSome, List};
ghost use Rattle.std.specs.Prelude.{MatchBool, OnErr, OnOk, length, slice_set, vec_len};
ghost use Rattle.annot_merge.specs.Limits.{IsLimit};
ghost use Rattle.annot_merge.specs.Marks.{notes_in};
ghost use Rattle.note_order.specs.declared.entry.Entry.{Entry};

use crate::bounds::same_bounds;
use crate::limit::Limit;
use crate::limits::{allows, limit_behind, limit_of};
use crate::queue::stands_at;
use crate::queues::Queues;
use la_base::{Mark, NoMemory, Note};
use note_order::Entry;
use std::alloc::Global;

/// Takes the marks of several instances, each in its order, and gives their notes in the order of a
/// listing, each as soon as no later one can come before it.
///
/// Its memory is at most a fixed multiple of the most that it held: the room of notes that were
/// given is used again once, of an instance, they are 64 and no fewer than those that it holds.
#[derive(Drop)]
pub struct Merge {
    count: u32,
    // The last floor of each instance; none where it has ended.
    bounds: Vec<Option<u64>>,
    limit: Limit,
    held: Queues,
    ghost each: { vec_len bounds ≡ count },
    ghost few: { count < 2 ^ 32 },
    ghost queues: { vec_len held.queues ≡ count },
}

impl Merge {
    ghost use Rattle.annot_merge.specs.Held.{AreReady, CanGive, Gives, GivesAll, GivesNone, Keeps};
    ghost use Rattle.annot_merge.specs.Held.{Stands, Takes};
    ghost use Rattle.annot_merge.specs.Held.{count_of, held_in};

    /// A merge of so many instances, of which nothing was pushed.
    pub fn new(alloc: Global, instances: u32) -> Result<Merge, NoMemory>
        ensures count { IfOk result (λ merge. count_of merge ≡ instances) }
        ensures stands { IfOk result (λ merge. Stands merge (λ _. []) []) }
        ensures none { IfOk result (λ merge. held_in merge ≡ []) }
    {
        let bounds = match same_bounds(alloc, instances, Some(0)) {
            Ok(bounds) => bounds,
            Err(NoMemory) => return Err(NoMemory),
        };
        let limit = limit_of(&bounds);
        let held = match Queues::new(alloc, instances) {
            Ok(held) => held,
            Err(NoMemory) => return Err(NoMemory),
        };
        Ok(Merge {
            count: instances,
            bounds,
            limit,
            held,
        })
    }

    // Holds a note.
    #[inline(always)]
    fn hold(&mut self, instance: u32, note: Note) -> Result<(), NoMemory>
        requires { instance < count_of self.old }
        ensures count { count_of self.new ≡ count_of self.old }
        ensures holds { OnOk result (Takes self.old self.new instance (Mark.Note note)) }
        ensures longer { OnOk result (length (held_in self.new) ≡ length (held_in self.old) + 1) }
        ensures kept { OnErr result (Keeps self.old self.new) }
    {
        self.held.put(instance, note)
    }

    // Sets the bound of an instance.
    fn set_bound(&mut self, instance: u32, bound: Option<u64>)
        requires { instance < count_of self.old }
        ensures count { count_of self.new ≡ count_of self.old }
        ensures bounds { self.new.bounds.items ≡ slice_set self.old.bounds.items instance bound }
        ensures limit { IsLimit self.old.bounds.items self.old.limit
            → IsLimit self.new.bounds.items self.new.limit }
        ensures held { held_in self.new ≡ held_in self.old }
    {
        self.bounds[instance as usize] = bound;
        self.limit = limit_behind(self.limit, &self.bounds, instance, bound);
    }

    /// Takes a mark of an instance. A piece changes nothing. After `NoMemory` all is as it was.
    #[inline(always)]
    pub fn push(&mut self, instance: u32, mark: Mark) -> Result<(), NoMemory>
        requires { instance < count_of self.old }
        ensures count { count_of self.new ≡ count_of self.old }
        ensures takes { OnOk result (Takes self.old self.new instance mark) }
        ensures held { OnOk result
            (length (held_in self.new)
            ≡ length (held_in self.old) + length (notes_in (mark ∷ []))) }
        ensures kept { OnErr result (Keeps self.old self.new) }
    {
        match mark {
            Mark::Note(note) => self.hold(instance, note),
            Mark::Piece(_) => Ok(()),
            Mark::Floor(floor) => {
                self.set_bound(instance, Some(floor));
                Ok(())
            }
            Mark::End => {
                self.set_bound(instance, None);
                Ok(())
            }
        }
    }

    /// Whether `ready` gives a note.
    #[inline(always)]
    pub fn is_ready(&self) -> bool
        ensures { MatchBool result (CanGive self.now) (GivesNone self.now self.now) }
    {
        if self.held.lead.least.start > self.limit.start {
            return false;
        }
        match self.held.first_place() {
            Some(place) => allows(&self.limit, &place),
            None => false,
        }
    }

    /// The first notes of the order that are held and before which no later note can come, of one
    /// instance: none where there is no such note. They stay held.
    #[inline(always)]
    pub fn ready_notes(&self) -> &[Entry]
        ensures ready { 0 < length result.now → AreReady self.now result.now }
        ensures none { result.now ≡ [] → GivesNone self.now self.now }
    {
        self.held.front(&self.limit)
    }

    /// Gives the first `count` of those. It takes no memory.
    #[inline(always)]
    pub fn let_go(&mut self, count: usize)
        requires { (notes : List Entry) × (length notes ≡ count) × AreReady self.old notes }
        ensures count { count_of self.new ≡ count_of self.old }
        ensures gives { (notes : List Entry) → length notes ≡ count → AreReady self.old notes
            → GivesAll self.old self.new notes }
    {
        self.held.let_go(count);
    }

    /// Gives the note that is held and is the first of the order, with its instance, where no later
    /// note can come before it. It takes no memory.
    pub fn ready(&mut self) -> Option<(u32, Note)>
        ensures count { count_of self.new ≡ count_of self.old }
        ensures gives { IfSome result (Gives self.old self.new) }
        ensures none { IfNone result (GivesNone self.old self.new) }
    {
        match self.held.first() {
            Some(entry) => {
                if !allows(&self.limit, &stands_at(&entry)) {
                    return None;
                }
                self.held.let_go(1);
                Some((entry.instance, entry.note))
            }
            None => None,
        }
    }

    /// How many notes were pushed and not yet given.
    pub fn held(&self) -> u64
        ensures { result ≡ length (held_in self.now) }
    {
        self.held.many
    }
}
