// How the runs of a feed are sent to the roots.
ghost use Rattle.std.specs.Prelude.{◌≡◌, ◌≤◌, ◌||◌, [], List, length, map, true, false};
ghost use Rattle.stage_ring.specs.Link.{sent, tx_link};
ghost use Rattle.stage_run.specs.declared.input.HalfRun.{HalfRun as HalfRunIs};

use crate::fan::{Cursor, hand_out};
use crate::row::SendRow;
use crate::status::{CrewStatus, READER};
use la_base::high_half;
use stage_ring::Tx;
use stage_run::{HalfRun, Peer, Peers};
use std::cell::Cell;
use tree_io::RunFeed;

/// How far the runs of a feed were sent. `at` is the place of the next run that is to be put into
/// the row, of those that the feed gave last; `upper`: the upper half of the lines that was told;
/// `over`: no more runs are asked for; `said`: the end is in the row, or was sent.
#[derive(Drop)]
pub(crate) struct Pump {
    pub(crate) row: SendRow,
    pub(crate) cursor: Cursor,
    pub(crate) at: usize,
    pub(crate) upper: u64,
    pub(crate) over: bool,
    pub(crate) said: bool,
    // to which roots something was sent since that was asked
    pub(crate) touched: Cell<Peers>,
    ghost within: { cursor.given ≤ length row },
}

impl Pump {
    ghost use Rattle.stage_crew.specs.Fans.{Fans};
    ghost use Rattle.stage_crew.specs.Pumping.{IsFree, PumpsOn, is_sent};

    /// Nothing was put into the row yet. `at` is how many runs the feed gave before.
    pub(crate) fn new(at: usize) -> Pump
        ensures row { (result.row ≡ []) × (result.cursor.child ≡ 0) × (result.cursor.given ≡ 0) }
        ensures at { (result.at ≡ at) × (result.upper ≡ 0) }
        ensures going { (result.over ≡ false) × (result.said ≡ false) }
    {
        Pump {
            row: SendRow::new(),
            cursor: Cursor { child: 0, given: 0 },
            at,
            upper: 0,
            over: false,
            said: false,
            touched: Cell::new(Peers::none()),
        }
    }

    /// Whether all of the row was handed out.
    fn is_done(&self) -> bool
        ensures { result ≡ true → (self.now.row ≡ []) × (self.now.cursor.child ≡ 0) }
    {
        if self.row.len() > 0 {
            return false;
        }
        self.cursor.child == 0
    }

    /// Whether the end was sent to each root.
    pub(crate) fn is_over(&self) -> bool
        ensures { result ≡ is_sent self.now }
    {
        self.said && self.row.len() == 0 && self.cursor.child == 0
    }

    /// To which roots something was sent since this was asked last.
    pub(crate) fn touched(&self) -> Peers {
        self.touched.replace(Peers::none())
    }

    /// For whom it waits, where a turn did nothing: for a root, while the row isn't handed out, and
    /// else for leave to ask the feed, which the driver gives.
    pub(crate) fn waits_for(&self) -> Peer {
        if self.is_done() {
            return Peer::Driver;
        }
        Peer::Child(self.cursor.child)
    }

    /// Asks for no more runs, where it was stopped.
    pub(crate) fn stop(&mut self, stopped: bool)
        ensures row { (self.new.row ≡ self.old.row) × (self.new.cursor ≡ self.old.cursor) }
        ensures place { (self.new.at ≡ self.old.at) × (self.new.said ≡ self.old.said)
            × (self.new.upper ≡ self.old.upper) }
        ensures over { self.new.over ≡ (self.old.over || stopped) }
    {
        if stopped {
            self.over = true;
        }
    }

    // Hands out of the row. Answers whether it could.
    fn hand_on(&mut self, feeds: &mut Vec<Tx<HalfRun>>) -> bool
        ensures same { (self.new.at ≡ self.old.at) × (self.new.over ≡ self.old.over)
            × (self.new.said ≡ self.old.said) × (self.new.upper ≡ self.old.upper) }
        ensures links { map tx_link feeds.new.items ≡ map tx_link feeds.old.items }
        ensures fans { (all : List HalfRunIs)
            → Fans (map sent feeds.old.items) self.old.row self.old.cursor all
            → Fans (map sent feeds.new.items) self.new.row self.new.cursor all }
    {
        let was = self.cursor;
        let now = hand_out(feeds, self.row.list(), was);
        if now.child != was.child || now.given != was.given {
            self.touched
                .set(self.touched.get().with(Peer::Child(was.child)));
        }
        if now.child >= feeds.len() {
            self.row.clear();
            self.cursor = Cursor { child: 0, given: 0 };
            return true;
        }
        self.cursor = now;
        now.child != was.child || now.given != was.given
    }

    // Looks whether the feed has more runs at hand, and answers whether it gave them. Where it has none,
    // those that it gave before are done.
    fn look<F: RunFeed>(&mut self, feed: &mut F) -> bool
        requires free { IsFree self.old }
        requires all { length (F.held feed.old) ≤ self.old.at }
        requires going { self.old.over ≡ false }
        ensures pumps { (sents : List (List HalfRunIs))
            → PumpsOn F.RunFeed feed.old feed.new self.old self.new sents sents }
        ensures free { IsFree self.new }
        ensures all { result ≡ false → length (F.held feed.new) ≤ self.new.at }
        ensures going { self.new.over ≡ false }
    {
        if feed.held_runs() {
            self.at = 0;
            return true;
        }
        self.at = feed.runs().len();
        false
    }

    // Whether the feed may be asked for more. Where that has to wait, it takes leave; and where it may
    // have to, though something has come, the driver is told of it, and the roots of what was sent.
    fn may_ask<F: RunFeed>(&self, feed: &F, crew: &CrewStatus) -> bool {
        let waits = feed.may_wait();
        if waits && (feed.waits_now() || crew.reader.is_refused()) {
            return crew.permit.take();
        }
        crew.permit.withdraw();
        if waits {
            crew.notify(crew.reader.threads(self.touched()), READER);
            crew.begin_read();
        }
        true
    }

    // Asks the feed for more.
    fn ask<F: RunFeed>(&mut self, feed: &mut F)
        requires free { IsFree self.old }
        requires all { length (F.held feed.old) ≤ self.old.at }
        requires going { self.old.over ≡ false }
        ensures { (sents : List (List HalfRunIs))
            → PumpsOn F.RunFeed feed.old feed.new self.old self.new sents sents }
    {
        let more = feed.next_runs();
        self.at = 0;
        self.over = !more;
    }

    // Puts the next runs into the row, or what tells the upper half of their lines, or the end, or
    // asks the feed for more, where it may. Answers whether it did.
    fn refill<F: RunFeed>(&mut self, feed: &mut F, crew: &CrewStatus) -> bool
        requires free { IsFree self.old }
        ensures { (sents : List (List HalfRunIs))
            → PumpsOn F.RunFeed feed.old feed.new self.old self.new sents sents }
    {
        let runs = feed.runs();
        if self.at < runs.len() {
            let upper = high_half(runs[self.at].value);
            if upper != self.upper {
                self.upper = upper;
                self.row.push(HalfRun::telling(upper));
                return true;
            }
            let most = crew.room.max(1);
            let count = self.row.fill(upper, &runs[self.at..], most);
            self.at += count;
            return true;
        }
        if self.over {
            self.said = true;
            self.row.push(HalfRun::telling(self.upper));
            return true;
        }
        if self.look(feed) {
            return true;
        }
        if !self.may_ask(feed, crew) {
            return false;
        }
        self.ask(feed);
        crew.permit.withdraw();
        true
    }

    // Hands out of the row, or puts the next runs into it, or the end, or asks the feed for more.
    // Answers whether it did.
    fn step<F: RunFeed>(
        &mut self,
        feed: &mut F,
        feeds: &mut Vec<Tx<HalfRun>>,
        crew: &CrewStatus,
    ) -> bool
        ensures links { map tx_link feeds.new.items ≡ map tx_link feeds.old.items }
        ensures pumps { PumpsOn F.RunFeed feed.old feed.new self.old self.new
            (map sent feeds.old.items) (map sent feeds.new.items) }
    {
        if !self.is_done() {
            return self.hand_on(feeds);
        }
        if self.said {
            return false;
        }
        self.refill(feed, crew)
    }

    /// Hands out of the row, puts the next runs into it, or the end, and asks the feed for more, in
    /// so many steps. Answers whether it did any of that. Where the feed has to wait, it is asked
    /// only with leave.
    pub(crate) fn go_on<F: RunFeed>(
        &mut self,
        feed: &mut F,
        feeds: &mut Vec<Tx<HalfRun>>,
        crew: &CrewStatus,
        steps: u32,
    ) -> bool
        ensures links { map tx_link feeds.new.items ≡ map tx_link feeds.old.items }
        ensures pumps { PumpsOn F.RunFeed feed.old feed.new self.old self.new
            (map sent feeds.old.items) (map sent feeds.new.items) }
    {
        let mut moved = false;
        for _ in 0..steps {
            if !self.step(feed, feeds, crew) {
                return moved;
            }
            moved = true;
        }
        moved
    }
}
