// Laws of a lister. Nothing is done.
use crate::lister::Lister;
use crate::watch::Watch;
use la_io::Sink;

// Takes what may move to another thread.
fn is_send<T: Send>(_: &T) {}

/// A lister may move to another thread where its sink and what looks on may. (A law; nothing is
/// done.)
pub fn lister_is_send<'a, 'b, K: Sink + Send, W: Watch + Send>(lister: &Lister<'a, 'b, K, W>) {
    is_send(lister);
}
