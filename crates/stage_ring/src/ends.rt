// The two ends of a link, over a ring.
ghost use Rattle.std.specs.Prelude.{◌≡◌, ◌≤◌, ◌<◌, ◌+◌, ◌&&◌, [], ◌∷◌, ◌++◌};
ghost use Rattle.std.specs.Prelude.{length, take, drop, nat_lt, nat_eq};
ghost use Rattle.std.specs.Prelude.{OnOk, IfOk, IfErr, IfSome, IfNone};
ghost use Rattle.std.specs.Prelude.{MatchBool, MatchResult, MatchOption};
ghost use mathlib.Core.List.{IsPrefix};
ghost use Rattle.stage_ring.specs.Link.{IsLink, Opens, tx_link, rx_link, slots, more, more_if};
ghost use Rattle.stage_ring.specs.Link.{sent, free, received, known, tx_misses, rx_misses};
ghost use Rattle.stage_ring.specs.Singles.{Sends, HandsBack, Offers, Receives, FindsNone, Takes};
ghost use Rattle.stage_ring.specs.Singles.{sender, receiver};

use la_base::NoMemory;
use rtrb::{Consumer, Producer, PushError, RingBuffer};
use std::alloc::Global;

/// The end that sends.
#[derive(Drop)]
pub struct Tx<T: Copy + Send> {
    ring: Producer<T>,
    missed: u64,
}

/// The end that receives.
#[derive(Drop)]
pub struct Rx<T: Copy + Send> {
    ring: Consumer<T>,
    missed: u64,
}

/// The two ends of a new link.
pub fn link<T: Copy + Send>(alloc: Global, slots: u32) -> Result<(Tx<T>, Rx<T>), NoMemory>
    requires { (1 ≤ slots) × (slots ≤ 16384) }
    ensures { IfOk result (λ ends. Opens slots ends.0 ends.1) }
{
    match RingBuffer::new(alloc, slots as usize) {
        Ok((sends, receives)) => Ok((
            Tx {
                ring: sends,
                missed: 0,
            },
            Rx {
                ring: receives,
                missed: 0,
            },
        )),
        Err(_) => Err(NoMemory),
    }
}

impl<T: Copy + Send> Tx<T> {
    /// Sends an item, or hands it back where no slot is free. That is a miss.
    pub fn offer(&mut self, item: T) -> Result<(), T>
        ensures link { (tx_link self.new ≡ tx_link self.old) × (slots self.new ≡ slots self.old) }
        ensures ok { OnOk result (
            (sent self.new ≡ sent self.old ++ item ∷ []) × (free self.old ≤ free self.new + 1)
            × (tx_misses self.new ≡ tx_misses self.old)) }
        ensures err { IfErr result (λ back. (back ≡ item) × (sent self.new ≡ sent self.old)
            × (free self.old ≡ 0) × (free self.new ≡ 0)
            × (tx_misses self.new ≡ more (tx_misses self.old))) }
        ensures single { MatchResult result (λ _. Sends (sender self.old) item (sender self.new))
            (λ _. HandsBack (sender self.old) (sender self.new)) }
    {
        match self.ring.push(item) {
            Ok(()) => Ok(()),
            Err(PushError::Full(back)) => {
                self.missed = self.missed.saturating_add(1);
                Err(back)
            }
        }
    }

    /// Sends as many items from the front as there is room for, all by one store, and answers how
    /// many. It is a miss where that isn't all of them.
    #[inline]
    #[tactic(auto, using(crate::proofs::SingleLemmas::single_offers))]
    pub fn offer_some(&mut self, items: &[T]) -> usize
        ensures link { (tx_link self.new ≡ tx_link self.old) × (slots self.new ≡ slots self.old) }
        ensures within { result ≤ length items.now }
        ensures sent { sent self.new ≡ sent self.old ++ take result items.now }
        ensures free { free self.old ≤ free self.new + result }
        ensures full { result < length items.now → free self.new ≡ 0 }
        ensures misses { tx_misses self.new
            ≡ more_if (nat_lt result (length items.now)) (tx_misses self.old) }
        ensures singles { Offers (sender self.old) items.now result (sender self.new) }
    {
        let (pushed, _) = self.ring.push_partial_slice(items);
        let count = pushed.len();
        if count < items.len() {
            self.missed = self.missed.saturating_add(1);
        }
        count
    }

    /// How many items the link has room for.
    pub fn room(&self) -> usize
        ensures { result ≡ slots self.now }
    {
        self.ring.capacity()
    }

    /// How often an offer found too few free slots.
    pub fn misses(&self) -> u64
        ensures { result ≡ tx_misses self.now }
    {
        self.missed
    }
}

impl<T: Copy + Send> Rx<T> {
    /// Receives the next item, where there is one. Where there is none, that is a miss.
    pub fn take(&mut self) -> Option<T>
        ensures link { rx_link self.new ≡ rx_link self.old }
        ensures some { IfSome result (λ item. (received self.new ≡ received self.old ++ item ∷ [])
            × IsPrefix (known self.old) (item ∷ known self.new)
            × (rx_misses self.new ≡ rx_misses self.old)) }
        ensures none { IfNone result ((received self.new ≡ received self.old)
            × (known self.old ≡ []) × (known self.new ≡ [])
            × (rx_misses self.new ≡ more (rx_misses self.old))) }
        ensures single { MatchOption result (FindsNone (receiver self.old) (receiver self.new))
            (λ item. Receives (receiver self.old) item (receiver self.new)) }
    {
        match self.ring.pop() {
            Ok(item) => Some(item),
            Err(_) => {
                self.missed = self.missed.saturating_add(1);
                None
            }
        }
    }

    /// Receives as many items as there are, up to the length of `into`, all by one store, at the
    /// front of `into`, and answers how many. It is a miss where there was none, but for an `into`
    /// of no items.
    #[inline]
    #[tactic(auto, using(crate::proofs::SingleLemmas::single_takes))]
    pub fn take_some(&mut self, into: &mut [T]) -> usize
        ensures link { rx_link self.new ≡ rx_link self.old }
        ensures within { (result ≤ length into.old) × (length into.new ≡ length into.old) }
        ensures rest { drop result into.new ≡ drop result into.old }
        ensures received { received self.new ≡ received self.old ++ take result into.new }
        ensures known { IsPrefix (known self.old) (take result into.new ++ known self.new) }
        ensures none { result < length into.old → known self.new ≡ [] }
        ensures misses { rx_misses self.new
            ≡ more_if (nat_eq result 0 && nat_lt 0 (length into.old)) (rx_misses self.old) }
        ensures singles { MatchBool (nat_eq result 0 && nat_lt 0 (length into.old))
            (FindsNone (receiver self.old) (receiver self.new))
            (Takes (receiver self.old) (take result into.new) (receiver self.new)) }
    {
        let count = self.ring.pop_partial_slice(into);
        if count == 0 && into.len() > 0 {
            self.missed = self.missed.saturating_add(1);
        }
        count
    }

    /// How often there was no item.
    pub fn misses(&self) -> u64
        ensures { result ≡ rx_misses self.now }
    {
        self.missed
    }
}

/// Ties both ends of a link, in a thread that has both: the end that receives then knows every
/// item that waits, and the end that sends every slot that is free.
pub fn settle<T: Copy + Send>(tx: &mut Tx<T>, rx: &mut Rx<T>)
    requires { IsLink tx.old rx.old }
    ensures tx { (tx_link tx.new ≡ tx_link tx.old) × (slots tx.new ≡ slots tx.old)
        × (sent tx.new ≡ sent tx.old) × (tx_misses tx.new ≡ tx_misses tx.old) }
    ensures rx { (rx_link rx.new ≡ rx_link rx.old) × (received rx.new ≡ received rx.old)
        × (rx_misses rx.new ≡ rx_misses rx.old) }
    ensures known { IsPrefix (known rx.old) (known rx.new) }
    ensures free { free tx.old ≤ free tx.new }
    ensures tied { received rx.new ++ known rx.new ≡ sent tx.new }
    ensures room { slots tx.new ≤ free tx.new + length (known rx.new) }
    ensures between { length (known rx.new) ≤ slots tx.new }
{
    tx.ring.slots_beside(&mut rx.ring);
    rx.ring.slots_beside(&mut tx.ring);
}
