// What moves between threads.

/// Takes what may move to another thread.
pub fn is_send<T: Send>(_: &T) {}
