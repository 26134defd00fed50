// One stage.
ghost use Rattle.std.specs.Prelude.{◌≡◌, ◌≢◌, ◌≤◌, ◌<◌, ◌+◌, [], List, length, map, true, false};
ghost use Rattle.std.specs.List.{All};
ghost use Rattle.la_base.specs.declared.wires.Feed.{Feed as FeedIs};
ghost use Rattle.decoder_core.specs.Inputs.{Item};
ghost use Rattle.stage_ring.specs.Link.{sent, tx_link};
ghost use Rattle.stage_run.specs.Acts.{Acts, Goings, Lessening, Lessens};
ghost use Rattle.stage_run.specs.Boxes.{HasRoom, IsFresh, SameSent, is_empty, is_idle, left_in};
ghost use Rattle.stage_run.specs.Inputs.{input_link, reads_samples, taken};
ghost use Rattle.stage_run.specs.Rows.{waiting};

use crate::inbox::{Inbox, place_of};
use crate::input::Input;
use crate::outbox::Outbox;
use crate::turn::{Act, Peer, Peers, Progress, Turn, progressed};
use decoder_core::{Machine, Outs};
use la_base::{Feed, Mark};
use stack_laws::laws::moves_keep;
use stage_ring::Tx;
use std::cell::Cell;

/// What a stage is made of.
#[derive(Drop)]
pub struct Parts<M> {
    pub machine: M,
    pub input: Input,
    pub children: Vec<Tx<Feed>>,
    pub marks: Tx<Mark>,
}

/// A machine between its links. It keeps what it received and didn't step over yet, and what it has
/// made and didn't give yet: short rows of each.
#[derive(Drop)]
pub struct Stage<M> {
    machine: M,
    inbox: Inbox,
    outbox: Outbox,
    // the outputs of one step
    outs: Outs,
    // each packet that is still to come starts there or later
    above: u64,
    // a floor was told behind all that was consumed
    floor_sent: bool,
    // the end was made for each link
    closed: bool,
    // to whom it gave, or from whom it took, since that was asked
    touched: Cell<Peers>,
}

impl<M: Machine> Stage<M> {
    ghost use Rattle.stage_run.specs.Stages.{ActsOn, ActsOnce, Answers, Closing, Giving, Goes};
    ghost use Rattle.stage_run.specs.Stages.{KeepsOn, Means, PartsMean, SameEnds, Stepping, Taking};
    ghost use Rattle.stage_run.specs.Stages.{Telling, blank, is_over, left_of, links, missed, misses_of};
    ghost use Rattle.stage_run.specs.Stages.{parts_links, passed};
    ghost use Rattle.stack_laws.specs.Moves.{View};

    // Steps over runs that it received, and keeps what that puts out.
    #[inline(always)]
    fn step_runs(&mut self)
        requires going { self.old.closed ≡ false }
        requires some { 0 < length (waiting self.old.inbox.runs) }
        requires fresh { IsFresh self.old.outbox }
        requires room { HasRoom 33 self.old.outbox }
        ensures goes { Goes M.Machine Stepping 1 self.old self.new }
        ensures same { SameEnds self.old self.new }
        ensures fresh { IsFresh self.new.outbox }
        ensures less { left_in self.new.inbox < left_in self.old.inbox }
        ensures untold { self.new.floor_sent ≡ false }
    {
        self.outs.clear();
        let taken = self
            .machine
            .step_runs(self.inbox.runs.waiting(), &mut self.outs);
        self.inbox.runs.skip_but(taken.count, taken.rest);
        self.outbox.keep(self.outs.list());
        self.floor_sent = false;
    }

    // Steps over the first feed that it received, and keeps what that puts out.
    fn step_feed(&mut self)
        requires going { self.old.closed ≡ false }
        requires some { 0 < length (waiting self.old.inbox.feeds) }
        requires no_runs { waiting self.old.inbox.runs ≡ [] }
        requires fresh { IsFresh self.old.outbox }
        requires room { HasRoom 33 self.old.outbox }
        ensures goes { Goes M.Machine Stepping 1 self.old self.new }
        ensures same { SameEnds self.old self.new }
        ensures fresh { IsFresh self.new.outbox }
        ensures less { left_in self.new.inbox < left_in self.old.inbox }
        ensures untold { self.new.floor_sent ≡ false }
    {
        let feed = self.inbox.feeds.waiting()[0];
        self.above = self.above.max(place_of(feed));
        self.outs.clear();
        let left = self.machine.step(feed, &mut self.outs);
        self.inbox.feeds.skip_but(1, left);
        self.outbox.keep(self.outs.list());
        self.floor_sent = false;
    }

    // Tells a floor after all that was consumed: as a mark, and to each child as the place from which
    // on its packets come. The larger of two is told, each of which is true: what is promised of it
    // hangs on no place.
    fn tell_floor(&mut self)
        requires going { self.old.closed ≡ false }
        requires fresh { IsFresh self.old.outbox }
        requires room { HasRoom 33 self.old.outbox }
        ensures goes { Goes M.Machine Stepping 1 self.old self.new }
        ensures same { SameEnds self.old self.new }
        ensures fresh { IsFresh self.new.outbox }
        ensures input { self.new.inbox ≡ self.old.inbox }
        ensures told { self.new.floor_sent ≡ true }
    {
        let own = self.machine.floor(0);
        let over = self.machine.floor(self.above);
        self.outbox.tell(own.max(over));
        self.floor_sent = true;
    }

    // Steps over what waits, or tells a floor where nothing does. Answers whether to go on.
    #[inline(always)]
    fn step(&mut self) -> bool
        requires going { self.old.closed ≡ false }
        requires fresh { IsFresh self.old.outbox }
        requires busy { is_idle self.old.inbox ≡ true → self.old.floor_sent ≡ false }
        ensures goes { Goes M.Machine Stepping 1 self.old self.new }
        ensures same { SameEnds self.old self.new }
        ensures fresh { IsFresh self.new.outbox }
        ensures untold { result ≡ true → self.new.floor_sent ≡ false }
        ensures no_more { left_of self.new ≤ left_of self.old }
        ensures less { is_empty self.old.outbox ≡ true → left_of self.new < left_of self.old }
    {
        if !self.outbox.has_room() {
            return false;
        }
        if !self.inbox.runs.is_done() {
            self.step_runs();
            return true;
        }
        if !self.inbox.feeds.is_done() {
            self.step_feed();
            return true;
        }
        self.tell_floor();
        false
    }

    // Steps on, as far as there is room for what that puts out, and tells a floor behind all that
    // was received.
    fn work(&mut self)
        requires going { self.old.closed ≡ false }
        requires fresh { IsFresh self.old.outbox }
        requires empty { is_empty self.old.outbox ≡ true }
        requires busy { is_idle self.old.inbox ≡ true → self.old.floor_sent ≡ false }
        ensures goes { Goes M.Machine Stepping 65 self.old self.new }
        ensures same { SameEnds self.old self.new }
        ensures less { left_of self.new < left_of self.old }
    {
        if !self.step() {
            return;
        }
        for _ in 0..64u32 {
            if !self.step() {
                return;
            }
        }
    }

    // Makes an end for each link.
    fn close(&mut self)
        requires going { self.old.closed ≡ false }
        requires over { self.old.inbox.over ≡ true }
        requires done { is_idle self.old.inbox ≡ true }
        requires told { self.old.floor_sent ≡ true }
        requires fresh { IsFresh self.old.outbox }
        requires empty { is_empty self.old.outbox ≡ true }
        ensures goes { Goes M.Machine Closing 1 self.old self.new }
        ensures input { self.new.inbox ≡ self.old.inbox }
        ensures sent { SameSent self.old.outbox self.new.outbox }
        ensures less { left_of self.new < left_of self.old }
    {
        self.outbox.end();
        self.closed = true;
    }

    // Notes whom an act touched, where it gave or took something.
    #[inline]
    fn note(&self, act: Act, peer: Peer) {
        if act == Act::Passed || act == Act::Short {
            self.touched.set(self.touched.get().with(peer));
        }
    }

    // Receives what there is.
    fn receive(&mut self) -> Act
        requires going { self.old.closed ≡ false }
        requires told { self.old.floor_sent ≡ true }
        requires done { is_idle self.old.inbox ≡ true }
        ensures goes { Goes M.Machine Taking 64 self.old self.new }
        ensures act { Acts result (passed self.old) (passed self.new)
            (missed self.old) (missed self.new) }
        ensures left { Lessens result (left_of self.old) (left_of self.new) }
        ensures going { result ≢ Act.Ended }
    {
        let count = self.inbox.receive();
        if count == 0 { Act::Missed } else { Act::Passed }
    }

    // Gives marks that are kept.
    fn give_marks(&mut self) -> Act
        requires some { 0 < length self.old.outbox.kept_marks.list }
        ensures goes { Goes M.Machine Telling 64 self.old self.new }
        ensures act { Acts result (passed self.old) (passed self.new)
            (missed self.old) (missed self.new) }
        ensures left { Lessens result (left_of self.old) (left_of self.new) }
        ensures going { result ≢ Act.Ended }
    {
        self.outbox.give_marks()
    }

    // Gives a child feeds that are kept.
    fn give_feeds(&mut self) -> Act
        requires some { 0 < length self.old.outbox.fed.list }
        ensures goes { Goes M.Machine Giving 64 self.old self.new }
        ensures act { Acts result (passed self.old) (passed self.new)
            (missed self.old) (missed self.new) }
        ensures left { Lessens result (left_of self.old) (left_of self.new) }
        ensures going { result ≢ Act.Ended }
    {
        self.outbox.give_feeds()
    }

    // Gives, works, closes or receives once.
    fn act(&mut self) -> Act
        ensures acts { ActsOnce M.Machine self.old self.new }
        ensures act { Acts result (passed self.old) (passed self.new)
            (missed self.old) (missed self.new) }
        ensures left { Lessens result (left_of self.old) (left_of self.new) }
        ensures ended { result ≡ Act.Ended → is_over self.new ≡ true }
    {
        if self.outbox.kept_marks.count() > 0 {
            let act = self.give_marks();
            self.note(act, Peer::Driver);
            return act;
        }
        if !self.outbox.is_empty() {
            let place = self.outbox.place;
            let act = self.give_feeds();
            self.note(act, Peer::Child(place));
            return act;
        }
        if self.closed {
            return Act::Ended;
        }
        if !self.inbox.is_idle() || !self.floor_sent {
            self.work();
            return Act::Worked;
        }
        if self.inbox.over {
            self.close();
            return Act::Worked;
        }
        let act = self.receive();
        self.note(act, Peer::Upstream);
        act
    }

    // At most `budget` acts. It stops at a miss, or where nothing is left to do.
    fn move_on(&mut self, budget: u32) -> Progress
        requires some { 1 ≤ budget }
        ensures acts { ActsOn M.Machine budget self.old self.new }
        ensures progress { Goings result (passed self.old) (passed self.new)
            (missed self.old) (missed self.new) }
        ensures left { Lessening result (left_of self.old) (left_of self.new) }
        ensures some { result.passed ≡ false → result.worked ≡ false → result.missed ≡ false
            → is_over self.new ≡ true }
    {
        let mut passed = false;
        let mut worked = false;
        for _ in 0..budget {
            match self.act() {
                Act::Worked => worked = true,
                Act::Passed => passed = true,
                Act::Short => return progressed(true, true, worked),
                Act::Missed => return progressed(passed, true, worked),
                Act::Ended => return progressed(passed, false, worked),
            }
        }
        progressed(passed, false, worked)
    }

    /// Whether the end was taken and all was given.
    #[inline]
    pub fn is_over(&self) -> bool
        ensures { result ≡ is_over self.now }
    {
        self.closed && self.outbox.is_empty()
    }

    /// To whom it gave, or from whom it took, since this was asked last. No clause speaks of it: it is
    /// for waking those who wait.
    pub fn touched(&self) -> Peers {
        self.touched.replace(Peers::none())
    }

    /// For whom it waits, where a turn gave and took nothing.
    pub fn waits_for(&self) -> Peer {
        if self.outbox.kept_marks.count() > 0 {
            return Peer::Driver;
        }
        if !self.outbox.is_empty() {
            return Peer::Child(self.outbox.place);
        }
        Peer::Upstream
    }

    /// How often one of its ends had no room or nothing to take.
    pub fn misses(&self) -> u64
        ensures { result ≡ misses_of self.now }
    {
        self.outbox.misses().saturating_add(self.inbox.misses())
    }

    /// A turn: at most `budget` acts, each a few moves of one kind. A stage takes what comes, steps
    /// its machine over it, makes what that gives, and sends on each link what it made for it. It
    /// stops at a miss, or once the end was taken and all was given. It takes no memory and waits
    /// for nobody.
    pub fn turn(&mut self, budget: u32) -> Turn
        requires some { 1 ≤ budget }
        requires going { is_over self.old ≡ false }
        ensures acts { ActsOn M.Machine budget self.old self.new }
        ensures keeps { KeepsOn M.Machine self.old self.new }
        ensures answers { Answers result self.old self.new }
    {
        moves_keep();
        let made = self.move_on(budget);
        if self.is_over() {
            return Turn::Ended;
        }
        if made.missed && !made.passed && !made.worked {
            return Turn::Idle;
        }
        Turn::Moved
    }

    /// A stage that has received and given nothing, of a machine that may have consumed an input.
    pub fn open(machine: M, input: Input, children: Vec<Tx<Feed>>, marks: Tx<Mark>) -> Stage<M>
        requires ends { (taken input ≡ 0) × (sent marks ≡ [])
            × All (λ child. sent child ≡ []) children.items }
        ensures links { links result ≡ record {
          input = input_link input;
          samples = reads_samples input;
          children = map tx_link children.items;
          marks = tx_link marks;
        } }
        ensures setup { M.setup result.machine ≡ M.setup machine }
        ensures means { (start : List Item) → M.consumed machine start
            → Means M.Machine start result (blank (length children.items)) }
    {
        Stage {
            machine,
            inbox: Inbox::new(input),
            outbox: Outbox::new(children, marks),
            outs: Outs::new(),
            above: 0,
            floor_sent: true,
            closed: false,
            touched: Cell::new(Peers::none()),
        }
    }

    /// What the stage is made of, once it has ended.
    pub fn into_parts(self) -> Parts<M>
        requires { is_over self ≡ true }
        ensures links { parts_links result ≡ links self }
        ensures setup { M.setup result.machine ≡ M.setup self.machine }
        ensures means { (start : List Item) (view : View) → Means M.Machine start self view
            → PartsMean M.Machine start result view }
    {
        let Stage {
            machine,
            inbox,
            outbox,
            ..
        } = self;
        Parts {
            machine,
            input: inbox.input,
            children: outbox.children,
            marks: outbox.marks,
        }
    }
}
