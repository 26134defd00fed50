// The reader: it reads the feed and sends its runs to the roots.
ghost use Rattle.std.specs.Prelude.{◌≡◌, [], List, ℕ, Some, false, map, slice_get};
ghost use Rattle.stage_ring.specs.Link.{sent};
ghost use Rattle.stage_run.specs.declared.input.HalfRun.{HalfRun as HalfRunIs};

use crate::Turns;
use crate::pump::Pump;
use crate::status::CrewStatus;
use stage_ring::{Rx, Tx};
use stage_run::{HalfRun, Peer, Peers, Turn};
use tree_io::RunFeed;

/// Reads a feed, and sends its runs and then the end to each root, turn by turn: in a thread of its
/// own, or in the driver's where none can be started. Once it hears that no more is wanted, it sends
/// what the feed gave and reads no more.
#[derive(Drop)]
pub(crate) struct Reader<'a, 'b, F> {
    pub(crate) feed: &'a mut F,
    pub(crate) feeds: Vec<Tx<HalfRun>>,
    // on which the driver tells that no more is wanted
    pub(crate) stop: Rx<bool>,
    pub(crate) pump: Pump,
    // it has heard that
    pub(crate) stop_heard: bool,
    crew: &'b CrewStatus,
}

impl<'a, 'b, F: RunFeed> Reader<'a, 'b, F> {
    ghost use Rattle.stage_ring.specs.Link.{rx_misses};
    ghost use Rattle.stage_run.specs.Acts.{More};
    ghost use Rattle.stage_crew.specs.Reading.{Fed, Reads, ReadsOn};

    /// Nothing was read yet.
    pub(crate) fn new(
        feed: &'a mut F,
        feeds: Vec<Tx<HalfRun>>,
        stop: Rx<bool>,
        crew: &'b CrewStatus,
    ) -> Reader<'a, 'b, F>
        requires fresh { (k : ℕ) (s : List HalfRunIs)
            → slice_get (map sent feeds.items) k ≡ Some s → s ≡ [] }
        ensures feed { (result.feed.now ≡ feed.old)
            × (result.feed.ghost_name ≡ feed.entry.ghost_name) }
        ensures ends { (result.feeds ≡ feeds) × (result.stop ≡ stop) }
        ensures fed { Fed F.RunFeed feed.old result }
    {
        let pump = Pump::new(feed.runs().len());
        Reader {
            feed,
            feeds,
            stop,
            pump,
            stop_heard: false,
            crew,
        }
    }

    // Hears whether no more is wanted.
    fn listen(&mut self)
        ensures reads { ReadsOn F.RunFeed self.old self.new }
        ensures feed { self.new.feed.now ≡ self.old.feed.now }
        ensures looked { self.new.stop_heard ≡ false
            → More (rx_misses self.old.stop) (rx_misses self.new.stop) }
    {
        if self.stop.take().is_some() {
            self.stop_heard = true;
            self.pump.stop(true);
        }
    }

    // Reads and sends, in so many steps. Answers whether it did.
    fn read(&mut self, steps: u32) -> bool
        ensures { Reads F.RunFeed self.old self.new }
    {
        self.pump
            .go_on(self.feed, &mut self.feeds, self.crew, steps)
    }
}

impl<F: RunFeed> Turns for Reader<'_, '_, F> {
    ghost use Rattle.stage_crew.specs.Pumping.{is_sent};
    ghost use Rattle.stage_crew.specs.Reading.{ReadsOn, reads_further, reads_still};

    ghost goes_on = { ReadsOn F.RunFeed };

    ghost over = { λ reader. is_sent reader.pump };

    fn is_over(&self) -> bool {
        self.pump.is_over()
    }

    fn turn(&mut self, budget: u32) -> Turn {
        self.listen();
        let moved = self.read(budget);
        if self.pump.is_over() {
            return Turn::Ended;
        }
        if moved { Turn::Moved } else { Turn::Idle }
    }

    fn touched(&self) -> Peers {
        self.pump.touched()
    }

    fn waits_for(&self) -> Peer {
        self.pump.waits_for()
    }

    ghost still = { reads_still };

    ghost on = { reads_further };
}
