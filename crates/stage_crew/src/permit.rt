// How the reader tells the driver that it waits for its feed.
use std::sync::atomic::{AtomicU64, Ordering};

// The reader doesn't wait; it asks for leave to wait; it has leave; or it reads without leave.
const NONE: u64 = 0;

const REQUESTED: u64 = 1;

const GRANTED: u64 = 2;

const READING: u64 = 3;

// The bits of these. Above them is how many reads were begun without leave.
const STATES: u64 = 3;

const ONE_READ: u64 = 4;

/// Leave for one call of the feed that has to wait. The reader requests it once it has nothing left to
/// send, and takes it; the driver grants it once nothing is on its way any more, and what takes the
/// marks was told of the pause. The reader alone requests and takes it, and the driver alone turns a
/// request into a grant: so none is granted for a request that was taken back, and none is kept for a
/// later call.
///
/// A call for which something has come needs no leave. It may have to wait all the same, where that
/// isn't enough: so the reader says that it reads, and the driver grants that likewise.
#[derive(Drop)]
pub(crate) struct ReadPermit {
    word: AtomicU64,
}

/// Whether the reader asks for leave, or reads without.
pub(crate) fn is_waiting(word: u64) -> bool {
    word & STATES == REQUESTED || word & STATES == READING
}

/// Whether the reader reads without leave.
pub(crate) fn is_reading(word: u64) -> bool {
    word & STATES == READING
}

impl ReadPermit {
    pub(crate) fn new() -> ReadPermit {
        ReadPermit {
            word: AtomicU64::new(NONE),
        }
    }

    /// What the reader does, and how many reads it has begun without leave.
    #[inline(always)]
    pub(crate) fn word(&self) -> u64 {
        self.word.load(Ordering::SeqCst)
    }

    /// Takes it where it was granted, and else requests it. Answers whether it was taken.
    pub(crate) fn take(&self) -> bool {
        let word = self.word();
        if word & STATES == GRANTED {
            self.word.store(word ^ GRANTED, Ordering::SeqCst);
            return true;
        }
        if word & STATES == NONE {
            self.word.store(word | REQUESTED, Ordering::SeqCst);
        }
        false
    }

    /// A read without leave begins.
    pub(crate) fn begin(&self) {
        let word = self.word();
        self.word
            .store((word | READING).wrapping_add(ONE_READ), Ordering::SeqCst);
    }

    /// It isn't needed, or not any more.
    pub(crate) fn withdraw(&self) {
        let word = self.word();
        if word & STATES != NONE {
            self.word.store((word | STATES) ^ STATES, Ordering::SeqCst);
        }
    }

    /// Grants it, where it still is this one: the reader waits, and has waited since it was so. A read
    /// that began meanwhile has a pause of its own to come.
    pub(crate) fn grant(&self, word: u64) {
        let granted = (word | STATES) ^ REQUESTED;
        let _ = self
            .word
            .compare_exchange(word, granted, Ordering::SeqCst, Ordering::SeqCst);
    }
}
