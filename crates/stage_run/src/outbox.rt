// What a stage makes for its links, and what of that it hasn't given yet.
ghost use Rattle.std.specs.Prelude.{◌≡◌, ◌≤◌, ◌<◌, ◌+◌, ◌++◌, ◌∷◌, [], List, ℕ, length, map, true};
ghost use Rattle.std.specs.Prelude.{vec_len, min, ◌-◌, ◌*◌, ◌^◌, ◌≢◌};
ghost use Rattle.la_base.specs.declared.wires.Feed.{Feed as FeedIs};
ghost use Rattle.la_base.specs.declared.wires.Mark.{Mark as MarkIs};
ghost use Rattle.la_base.specs.declared.wires.Feed.TheVariants.{End as EndFeed};
ghost use Rattle.la_base.specs.declared.wires.Feed.TheVariants.{From as FromFeed};
ghost use Rattle.la_base.specs.declared.wires.Mark.TheVariants.{End as EndMark, Floor as FloorMark};
ghost use Rattle.tree_io.specs.Feeds.{marks_of};
ghost use Rattle.stack_laws.specs.Feeds.{feeds_of};
ghost use Rattle.stack_laws.specs.Moves.{makes};
ghost use Rattle.stage_ring.specs.Link.{sent, tx_link};
ghost use Rattle.stage_run.specs.Acts.{Acts};
ghost use Rattle.stage_run.specs.Rows.{none_kept, waiting};

use crate::kept::{keep_feeds, keep_marks};
use crate::row::Row;
use crate::turn::{Act, act_of};
use la_base::{Feed, Mark, Out};
use stage_ring::Tx;

/// The links that a stage sends on, and short rows of what is kept for them: marks, and feeds, of
/// which each child gets all. `place` is the child that gets them now.
#[derive(Drop)]
pub(crate) struct Outbox {
    pub(crate) children: Vec<Tx<Feed>>,
    pub(crate) marks: Tx<Mark>,
    pub(crate) kept_marks: Row<Mark>,
    pub(crate) fed: Row<Feed>,
    pub(crate) place: usize,
    // none of a row but some are done, and feeds are kept for children alone
    ghost some_marks: { kept_marks.at ≤ length kept_marks.list - 1 },
    ghost some_fed: { fed.at ≤ length fed.list - 1 },
    ghost served: { place ≤ vec_len children - 1 },
    ghost for_some: { place ≤ 2 ^ 64 * length fed.list },
    ghost for_children: { length fed.list ≤ 64 * vec_len children },
}

impl Outbox {
    ghost use Rattle.stage_run.specs.Boxes.{HasRoom, IsFresh, SameLinks, SameSent, is_empty};
    ghost use Rattle.stage_run.specs.Boxes.{children_of, given_by, missed_by, served, told_of};
    ghost use Rattle.stage_run.specs.Sendings.{Gives, Sends};

    /// Nothing is kept.
    pub(crate) fn new(children: Vec<Tx<Feed>>, marks: Tx<Mark>) -> Outbox
        ensures links { (result.children ≡ children) × (result.marks ≡ marks) }
        ensures empty { is_empty result ≡ true }
    {
        Outbox {
            children,
            marks,
            kept_marks: Row::new(Mark::End),
            fed: Row::new(Feed::End),
            place: 0,
        }
    }

    /// Whether nothing is kept.
    #[inline(always)]
    pub(crate) fn is_empty(&self) -> bool
        ensures empty { result ≡ is_empty self.now }
        ensures fresh { result ≡ true → IsFresh self.now }
    {
        self.kept_marks.count() == 0 && self.fed.count() == 0 && self.place == 0
    }

    /// Whether there is room for what one more step puts out, at most 32 outputs, and for a floor
    /// behind it.
    #[inline(always)]
    pub(crate) fn has_room(&self) -> bool
        ensures room { result ≡ true → HasRoom 33 self.now }
        ensures empty { is_empty self.now ≡ true → result ≡ true }
    {
        self.kept_marks.count() <= 31 && self.fed.count() <= 31
    }

    /// Keeps the outputs of a step: notes and pieces for the marks, packets for each child.
    #[inline]
    pub(crate) fn keep(&mut self, outs: &[Out])
        requires fresh { IsFresh self.old }
        requires room { HasRoom (length outs.now) self.old }
        ensures same { SameSent self.old self.new }
        ensures fresh { IsFresh self.new }
        ensures room { (n : ℕ) → HasRoom (n + length outs.now) self.old → HasRoom n self.new }
        ensures told { told_of self.new ≡ makes (marks_of outs.now) (told_of self.old) }
        ensures children { children_of self.new
            ≡ map (makes (feeds_of outs.now)) (children_of self.old) }
    {
        keep_marks(&mut self.kept_marks, outs);
        if !self.children.is_empty() {
            keep_feeds(&mut self.fed, outs);
        }
    }

    /// Keeps a floor after the marks, and for each child the place from which on its packets come.
    #[inline]
    pub(crate) fn tell(&mut self, floor: u64)
        requires fresh { IsFresh self.old }
        requires room { HasRoom 1 self.old }
        ensures same { SameSent self.old self.new }
        ensures fresh { IsFresh self.new }
        ensures told { told_of self.new ≡ makes (FloorMark floor ∷ []) (told_of self.old) }
        ensures children { children_of self.new
            ≡ map (makes (FromFeed floor ∷ [])) (children_of self.old) }
    {
        self.kept_marks.push(Mark::Floor(floor));
        if !self.children.is_empty() {
            self.fed.push(Feed::From(floor));
        }
    }

    /// Keeps an end for each link.
    pub(crate) fn end(&mut self)
        requires fresh { IsFresh self.old }
        requires room { HasRoom 1 self.old }
        ensures same { SameSent self.old self.new }
        ensures fresh { IsFresh self.new }
        ensures told { told_of self.new ≡ makes (EndMark ∷ []) (told_of self.old) }
        ensures children { children_of self.new
            ≡ map (makes (EndFeed ∷ [])) (children_of self.old) }
    {
        self.kept_marks.push(Mark::End);
        if !self.children.is_empty() {
            self.fed.push(Feed::End);
        }
    }

    /// Gives as many of the marks that are kept as there is room for.
    pub(crate) fn give_marks(&mut self) -> Act
        requires some { 0 < length self.old.kept_marks.list }
        ensures some { result ≢ Act.Worked }
        ensures going { result ≢ Act.Ended }
        ensures links { SameLinks self.old self.new }
        ensures gives { (marks : List MarkIs) × (length marks ≤ 64)
            × Sends marks (told_of self.old) (told_of self.new) }
        ensures children { children_of self.new ≡ children_of self.old }
        ensures act { Acts result (given_by self.old) (given_by self.new)
            (missed_by self.old) (missed_by self.new) }
    {
        let kept = self.kept_marks.waiting().len();
        let count = self.marks.offer_some(self.kept_marks.waiting());
        if count < kept {
            self.kept_marks.skip(count);
            return act_of(count, kept);
        }
        self.kept_marks.clear();
        act_of(count, kept)
    }

    // All that is kept was given to a child.
    fn go_on(&mut self)
        requires within { self.old.place < vec_len self.old.children }
        requires some { 0 < length self.old.fed.list }
        ensures same { SameSent self.old self.new }
        ensures told { told_of self.new ≡ told_of self.old }
        ensures children { children_of self.new ≡ served (self.old.place + 1)
            (record { list = self.old.fed.list; at = 0 }) (map sent self.old.children.items) }
    {
        self.place += 1;
        if self.place >= self.children.len() {
            self.place = 0;
            self.fed.clear();
        } else {
            self.fed.again();
        }
    }

    /// Gives as many of the feeds that are kept as the next child has room for.
    pub(crate) fn give_feeds(&mut self) -> Act
        requires some { 0 < length self.old.fed.list }
        ensures some { result ≢ Act.Worked }
        ensures going { result ≢ Act.Ended }
        ensures links { SameLinks self.old self.new }
        ensures gives { (place : ℕ) × (feeds : List FeedIs) × (length feeds ≤ 64)
            × Gives place feeds (children_of self.old) (children_of self.new) }
        ensures told { told_of self.new ≡ told_of self.old }
        ensures act { Acts result (given_by self.old) (given_by self.new)
            (missed_by self.old) (missed_by self.new) }
    {
        let kept = self.fed.waiting().len();
        let count = self.children[self.place].offer_some(self.fed.waiting());
        if count < kept {
            self.fed.skip(count);
            return act_of(count, kept);
        }
        self.go_on();
        act_of(count, kept)
    }

    /// How often a link had no room.
    pub(crate) fn misses(&self) -> u64
        ensures { result ≡ min (missed_by self.now) (2 ^ 64 - 1) }
    {
        let mut misses = self.marks.misses();
        for child in &self.children {
            misses = misses.saturating_add(child.misses());
        }
        misses
    }
}
