// What all threads of a run see.
use crate::MOST_STAGES;
use crate::pacer::PlainPacer;
use crate::permit::{ReadPermit, is_reading, is_waiting};
use crate::wait_slot::WaitSlot;
use stage_run::{Peer, Peers};
use std::sync::atomic::{AtomicBool, Ordering};

/// The reader in a set of threads; a stage is the bit of its place.
pub(crate) const READER: u32 = 1 << 24;

/// The driver in a set of threads.
pub(crate) const DRIVER: u32 = 1 << 25;

/// All threads.
pub(crate) const ANY: u32 = (1 << 26) - 1;

/// A worker as the others see it.
#[derive(Drop)]
pub(crate) struct WorkerStatus {
    pub(crate) slot: WaitSlot,
    // no thread could be started for it
    refused: AtomicBool,
    // itself, and who is at the other ends of its links, as sets of threads
    pub(crate) own: u32,
    upstream: u32,
    children: u32,
    // how often it spins before it sleeps
    pub(crate) spins: u32,
    // after so many turns in which something moved it notifies others
    pub(crate) turns: u32,
}

impl WorkerStatus {
    pub(crate) fn new(
        own: u32,
        upstream: u32,
        children: u32,
        spins: u32,
        turns: u32,
    ) -> WorkerStatus {
        WorkerStatus {
            slot: WaitSlot::new(),
            refused: AtomicBool::new(false),
            own,
            upstream,
            children,
            spins,
            turns,
        }
    }

    /// No thread could be started for it: the driver takes its turns.
    pub(crate) fn refuse(&self) {
        self.refused.store(true, Ordering::SeqCst);
    }

    pub(crate) fn is_refused(&self) -> bool {
        self.refused.load(Ordering::SeqCst)
    }

    // Tells its sleep from all others. Where it has no thread, it always sleeps; where it is awake, none
    // is told.
    fn sleep(&self) -> Option<u64> {
        if self.is_refused() {
            return Some(0);
        }
        self.slot.sleep()
    }

    /// These of its peers, as a set of threads.
    pub(crate) fn threads(&self, peers: Peers) -> u32 {
        let mut threads = pick(self.children, peers.children);
        if peers.upstream {
            threads |= self.upstream;
        }
        if peers.driver {
            threads |= DRIVER;
        }
        threads
    }

    /// One of its peers.
    pub(crate) fn thread(&self, peer: Peer) -> u32 {
        self.threads(Peers::none().with(peer))
    }
}

// Those at these places of a set of threads.
fn pick(threads: u32, places: u32) -> u32 {
    let mut rest = threads;
    let mut picked = 0;
    for place in 0..MOST_STAGES as u32 {
        if places.wrapping_shr(place) & 1 == 1 {
            picked |= rest & rest.wrapping_neg();
        }
        rest &= rest.wrapping_sub(1);
    }
    picked
}

/// What all threads of a run see: the status of each stage's worker, in their order, that of the
/// reader and that of the driver; and the reader's leave to wait.
#[derive(Drop)]
pub(crate) struct CrewStatus {
    pub(crate) workers: Vec<WorkerStatus>,
    pub(crate) reader: WorkerStatus,
    pub(crate) driver: WorkerStatus,
    pub(crate) permit: ReadPermit,
    // how much the reader does in a turn
    pub(crate) plain: PlainPacer,
    // the room of a link
    pub(crate) room: usize,
}

impl CrewStatus {
    // Ends a worker's wait for one of these threads; the driver's, where that takes its turns.
    fn notify_one(&self, status: &WorkerStatus, from: u32) {
        if status.is_refused() {
            self.driver.slot.notify(ANY);
        } else {
            status.slot.notify(from);
        }
    }

    /// Ends the wait of the stage at a place for the driver.
    pub(crate) fn notify_stage(&self, place: usize) {
        if let Some(status) = self.workers.get(place) {
            self.notify_one(status, DRIVER);
        }
    }

    /// Ends the waits of these threads for those.
    pub(crate) fn notify(&self, threads: u32, from: u32) {
        if threads == 0 {
            return;
        }
        for place in 0..MOST_STAGES {
            if threads.wrapping_shr(place as u32) & 1 == 1 {
                if let Some(status) = self.workers.get(place) {
                    self.notify_one(status, from);
                }
            }
        }
        if threads & READER != 0 {
            self.notify_one(&self.reader, from);
        }
        if threads & DRIVER != 0 {
            self.driver.slot.notify(from);
        }
    }

    /// A worker is about to sleep: the driver has to see that, where the reader waits for the feed.
    pub(crate) fn tell_asleep(&self) {
        if is_waiting(self.permit.word()) {
            self.driver.slot.notify(ANY);
        }
    }

    /// The reader begins a read without leave: the driver has to see that, where no stage is awake
    /// that tells it before it sleeps.
    pub(crate) fn begin_read(&self) {
        self.permit.begin();
        for place in 0..MOST_STAGES {
            if self.sleep(place).is_none() {
                return;
            }
        }
        self.driver.slot.notify(ANY);
    }

    /// The stages of which the driver takes the turns, from the last one to the first.
    pub(crate) fn refused(&self) -> [u32; MOST_STAGES] {
        let mut numbers = [0; MOST_STAGES];
        let mut count: usize = 0;
        for index in 0..MOST_STAGES {
            let place = MOST_STAGES - 1 - index;
            if let Some(status) = self.workers.get(place) {
                if status.is_refused() && count < MOST_STAGES {
                    numbers[count] = place as u32;
                    count += 1;
                }
            }
        }
        numbers
    }

    /// The status of the stage at a place, or after all of them that of the reader.
    pub(crate) fn status(&self, place: usize) -> &WorkerStatus {
        match self.workers.get(place) {
            Some(status) => status,
            None => &self.reader,
        }
    }

    // Tells the sleep of a stage from all others. Where it has no thread, or there is none, it always
    // sleeps; where it is awake, none is told.
    fn sleep(&self, place: usize) -> Option<u64> {
        match self.workers.get(place) {
            Some(status) => status.sleep(),
            None => Some(0),
        }
    }

    // The same of the reader: one that reads has nothing left to do before.
    fn sleep_of_reader(&self, word: u64) -> Option<u64> {
        if is_reading(word) {
            return Some(0);
        }
        self.reader.sleep()
    }

    /// Whether the reader waits for the feed, and nothing is on its way but marks: each worker sleeps
    /// or reads, and did while all of the others were looked at. Nobody sleeps or reads who has still to
    /// notify others, so whatever was given to one was taken by it, or it would have been woken. The
    /// answer is the permit as it was all that time, to be granted.
    pub(crate) fn quiet_permit(&self) -> Option<u64> {
        let word = self.permit.word();
        let reader = self.sleep_of_reader(word);
        if !is_waiting(word) || reader.is_none() {
            return None;
        }
        let mut seen = [0u64; MOST_STAGES];
        for place in 0..MOST_STAGES {
            match self.sleep(place) {
                Some(sleep) => seen[place] = sleep,
                None => return None,
            }
        }
        for place in 0..MOST_STAGES {
            if self.sleep(place) != Some(seen[place]) {
                return None;
            }
        }
        if self.permit.word() != word || self.sleep_of_reader(word) != reader {
            return None;
        }
        Some(word)
    }
}
