// A line that is kept, so that parts of it can be made anew.
ghost use Rattle.std.specs.Prelude.{◌≡◌, ◌+◌, ◌≤◌, ◌<◌, List, ℕ, [], ◌∷◌, ◌++◌, length, take, drop};

use std::marker::Model;

/// The most bytes that it has: those of two short texts.
const ROOM: usize = 40;

/// A line of at most 40 bytes. Contracts see the list of them.
#[derive(Drop)]
pub struct KeptLine {
    // the line, and what doesn't count behind it
    room: [u8; ROOM],
    len: usize,
}

impl Model for KeptLine {
    ghost Value = { List ℕ };

    ghost view = { λ s. take s.len s.room };

    ghost invariant = { λ s. s.len ≤ 40 };
}

impl KeptLine {
    /// An empty line.
    pub fn new() -> KeptLine
        ensures { result ≡ [] }
    {
        KeptLine {
            room: [0; ROOM],
            len: 0,
        }
    }

    /// Makes it another line.
    pub fn set(&mut self, text: &[u8])
        requires { length text.now ≤ 40 }
        ensures { self.new ≡ text.now }
    {
        self.room[..text.len()].copy_from_slice(text);
        self.len = text.len();
    }

    /// Lets go what stands behind the first `count` bytes.
    pub fn cut(&mut self, count: usize)
        requires { count ≤ length self.old }
        ensures { self.new ≡ take count self.old }
    {
        self.len = count;
    }

    /// Appends one byte.
    pub fn push_byte(&mut self, byte: u8)
        requires { length self.old < 40 }
        ensures text { self.new ≡ self.old ++ byte ∷ [] }
        ensures grows { length self.new ≡ length self.old + 1 }
    {
        self.room[self.len] = byte;
        self.len += 1;
    }

    /// Makes two of its bytes anew.
    #[inline(always)]
    pub fn set_two(&mut self, place: usize, first: u8, second: u8)
        requires { place + 2 ≤ length self.old }
        ensures { self.new ≡ take place self.old ++ first ∷ second ∷ drop (place + 2) self.old }
    {
        self.room[place] = first;
        self.room[place + 1] = second;
    }

    /// The bytes of the line.
    pub fn bytes(&self) -> &[u8]
        ensures { result.now ≡ self.now }
    {
        &self.room[..self.len]
    }
}
