// A short text that lines take over at once.
ghost use Rattle.std.specs.Prelude.{◌≡◌, ◌+◌, ◌-◌, ◌<◌, ◌≤◌, List, ℕ, [], ◌∷◌, ◌++◌, length, take};

use std::marker::Model;

/// The most bytes of a short text: as many as a number of 64 bits has digits.
pub const MOST_SHORT: usize = 20;

/// A text of at most `MOST_SHORT` bytes, which a line takes over in one go (`LineBuf::push_short`).
/// Contracts see the list of its bytes.
#[derive(Drop)]
pub struct ShortText {
    // the text, and what doesn't count behind it
    room: [u8; MOST_SHORT],
    len: usize,
}

impl Model for ShortText {
    ghost Value = { List ℕ };

    ghost view = { λ s. take s.len s.room };

    ghost invariant = { λ s. s.len ≤ 20 };
}

impl ShortText {
    /// An empty text.
    pub fn new() -> ShortText
        ensures { result ≡ [] }
    {
        ShortText {
            room: [0; MOST_SHORT],
            len: 0,
        }
    }

    /// Empties it.
    pub fn clear(&mut self)
        ensures { self.new ≡ [] }
    {
        self.len = 0;
    }

    /// Appends one byte.
    pub fn push_byte(&mut self, byte: u8)
        requires { length self.old < 20 }
        ensures text { self.new ≡ self.old ++ byte ∷ [] }
        ensures grows { length self.new ≡ length self.old + 1 }
    {
        self.room[self.len] = byte;
        self.len += 1;
    }

    /// Makes it another text.
    pub fn set(&mut self, text: &[u8])
        requires { length text.now ≤ 20 }
        ensures { self.new ≡ text.now }
    {
        self.room[..text.len()].copy_from_slice(text);
        self.len = text.len();
    }

    /// Makes its last two bytes anew.
    pub(crate) fn set_last_two(&mut self, first: u8, second: u8)
        requires { 2 ≤ length self.old }
        ensures { self.new ≡ (take (length self.old - 2) self.old ++ first ∷ []) ++ second ∷ [] }
    {
        self.room[self.len - 2] = first;
        self.room[self.len - 1] = second;
    }

    /// Makes its last four bytes anew.
    pub(crate) fn set_last_four(&mut self, last: [u8; 4])
        requires { 4 ≤ length self.old }
        ensures { self.new ≡ take (length self.old - 4) self.old ++ last }
    {
        let start = self.len - 4;
        self.room[start..self.len].copy_from_slice(&last);
    }

    /// The text, and behind it bytes that don't count.
    #[inline(always)]
    pub(crate) fn room(&self) -> [u8; MOST_SHORT]
        ensures { take (length self.now) result ≡ self.now }
    {
        self.room
    }

    /// How many bytes it has.
    pub(crate) fn len(&self) -> usize
        ensures count { result ≡ length self.now }
        ensures few { result ≤ 20 }
    {
        self.len
    }
}
