// Where one thread sleeps, and is woken.
use std::sync::Wait;
use std::sync::atomic::{AtomicU64, Ordering};
use std::time::Duration;

// The thread neither sleeps nor is about to.
const AWAKE: u64 = 0;

// Among the threads that are waited for: the thread has looked again, and sleeps.
const ASLEEP: u32 = 1 << 31;

// No thread sleeps longer, in seconds: a net, since whoever can go on is woken.
const NET: u64 = 60;

/// An event count for one waiter, which tells for whom it waits. A thread that finds nothing to do
/// prepares its wait, looks once more, commits to the wait and parks. Whoever has given it something,
/// or has taken something from it, notifies it after that. The waiter writes its slot and then looks
/// at a link; the notifier writes the link and then looks at the slot; and all of these steps are in
/// one order (`SeqCst`). So one of the two sees what the other wrote, and no wake-up is lost.
#[derive(Drop)]
pub(crate) struct WaitSlot {
    // The threads that are waited for, with ASLEEP; in the upper half the number of the wait.
    word: AtomicU64,
}

fn word_of(threads: u32, number: u32) -> u64 {
    (number as u64).wrapping_shl(32) | threads as u64
}

impl WaitSlot {
    pub(crate) fn new() -> WaitSlot {
        WaitSlot {
            word: AtomicU64::new(AWAKE),
        }
    }

    /// From now on these threads end the wait, the one of this number.
    pub(crate) fn prepare(&self, threads: u32, number: u32) {
        self.word.store(word_of(threads, number), Ordering::SeqCst);
    }

    /// There is no wait any more.
    pub(crate) fn cancel(&self) {
        self.word.store(AWAKE, Ordering::SeqCst);
    }

    /// Says that it has looked again. Answers whether it is to park: it isn't where it was notified
    /// since it prepared the wait.
    pub(crate) fn commit(&self, threads: u32, number: u32) -> bool {
        let word = word_of(threads, number);
        let asleep = word_of(threads | ASLEEP, number);
        self.word
            .compare_exchange(word, asleep, Ordering::SeqCst, Ordering::SeqCst)
            .is_ok()
    }

    /// Sleeps until it is notified, where it wasn't yet. It may return early.
    pub(crate) fn park<R: Wait>(&self, rt: &R, threads: u32) {
        self.word
            .park_timeout(rt, threads | ASLEEP, Duration::from_secs(NET));
        self.cancel();
    }

    /// Ends a wait for one of these threads.
    #[inline(always)]
    pub(crate) fn notify(&self, threads: u32) {
        if self.word.load(Ordering::SeqCst) & threads as u64 != 0 {
            self.wake();
        }
    }

    #[inline(never)]
    fn wake(&self) {
        if self.word.swap(AWAKE, Ordering::SeqCst) != AWAKE {
            self.word.wake_one();
        }
    }

    /// Tells one sleep from all others, where it sleeps and wasn't notified.
    pub(crate) fn sleep(&self) -> Option<u64> {
        let word = self.word.load(Ordering::SeqCst);
        if word & ASLEEP as u64 == 0 {
            return None;
        }
        Some(word)
    }
}
