// What may be done with a merge.
use crate::Merge;

// Takes what may move to another thread.
fn is_send<T: Send>(_: &T) {}

/// A merge may move to another thread. (A law; nothing is done.)
pub fn merge_is_send(merge: &Merge) {
    is_send(merge);
}
