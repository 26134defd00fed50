// Bytes that wait to be handed on.
ghost use Rattle.std.specs.Prelude.{◌≡◌, ◌+◌, ◌<◌, ◌≤◌, List, ℕ, [], ◌++◌, length, take, drop, min};
ghost use Rattle.std.specs.Prelude.{slice_range};

use crate::give::give;
use std::marker::Model;

/// The most bytes that wait.
pub const MOST_WAITING: usize = 16384;

/// Bytes in the order in which they came, at most `MOST_WAITING`. Contracts see the list of them.
#[derive(Drop)]
pub struct Outgoing {
    buffer: [u8; MOST_WAITING],
    start: usize,
    end: usize,
}

impl Model for Outgoing {
    ghost Value = { List ℕ };

    ghost view = { λ s. slice_range s.buffer s.start s.end };

    ghost invariant = { λ s. (s.start ≤ s.end) × (s.end ≤ 16384) };
}

impl Outgoing {
    /// No bytes.
    pub fn new() -> Outgoing
        ensures { result ≡ [] }
    {
        Outgoing {
            buffer: [0; MOST_WAITING],
            start: 0,
            end: 0,
        }
    }

    /// The bytes.
    pub fn bytes(&self) -> &[u8]
        ensures bytes { result.now ≡ self.now }
        ensures few { length self.now ≤ 16384 }
    {
        &self.buffer[self.start..self.end]
    }

    /// Lets the first `count` bytes go.
    pub fn advance(&mut self, count: usize)
        requires { count ≤ length self.old }
        ensures { self.new ≡ drop count self.old }
    {
        self.start += count;
    }

    /// Appends as much of `bytes` as fits, and answers how much that was. Where none waited before,
    /// `MOST_WAITING` bytes fit.
    pub fn append(&mut self, bytes: &[u8]) -> usize
        ensures within { result ≤ length bytes.now }
        ensures appended { self.new ≡ self.old ++ take result bytes.now }
        ensures room { self.old ≡ [] → result ≡ min (length bytes.now) 16384 }
    {
        if self.start == self.end {
            self.start = 0;
            self.end = 0;
        }
        let count = give(bytes, &mut self.buffer[self.end..]);
        self.end += count;
        count
    }
}
