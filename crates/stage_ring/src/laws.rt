// What may be done with the ends of a link, and what follows for who holds both.
ghost use Rattle.std.specs.Prelude.{◌≡◌, ◌≤◌, [], ◌∷◌, ◌++◌, length, Some};
ghost use Rattle.stage_ring.specs.Link.{IsLink, slots, sent, received};

use crate::{Rx, Tx, settle};

// Takes what may move to another thread.
fn is_send<T: Send>(_: &T) {}

/// The ends of a link may move to other threads. (A law; nothing is done.)
pub fn ends_are_send<T: Copy + Send>(tx: &Tx<T>, rx: &Rx<T>) {
    is_send(tx);
    is_send(rx);
}

/// An item goes through a link in which nothing waits: behind a settling no offer is handed back
/// where a slot is free, and no take finds none where an item waits.
pub fn passes_through<T: Copy + Send>(tx: &mut Tx<T>, rx: &mut Rx<T>, item: T) -> Option<T>
    requires link { IsLink tx.old rx.old }
    requires room { 1 ≤ slots tx.old }
    requires none_waits { received rx.old ≡ sent tx.old }
    ensures link { IsLink tx.new rx.new × (slots tx.new ≡ slots tx.old) }
    ensures sent { sent tx.new ≡ sent tx.old ++ item ∷ [] }
    ensures none_waits { received rx.new ≡ sent tx.new }
    ensures item { result ≡ Some item }
{
    settle(tx, rx);
    let _ = tx.offer(item);
    settle(tx, rx);
    rx.take()
}

/// As many items as a link has room for go through it at once, where nothing waits in it.
pub fn all_pass_through<T: Copy + Send>(tx: &mut Tx<T>, rx: &mut Rx<T>, items: &[T], into: &mut [T])
    requires link { IsLink tx.old rx.old }
    requires room { length items.now ≤ slots tx.old }
    requires none_waits { received rx.old ≡ sent tx.old }
    requires fits { length into.old ≡ length items.now }
    ensures link { IsLink tx.new rx.new × (slots tx.new ≡ slots tx.old) }
    ensures sent { sent tx.new ≡ sent tx.old ++ items.now }
    ensures none_waits { received rx.new ≡ sent tx.new }
    ensures items { into.new ≡ items.now }
{
    settle(tx, rx);
    tx.offer_some(items);
    settle(tx, rx);
    rx.take_some(into);
}
