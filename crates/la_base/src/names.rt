// The names of channels.
ghost use Rattle.std.specs.Prelude.{◌≡◌, ◌<◌, ◌≤◌, ◌^◌, ◌++◌, [], ◌∷◌, List, ℕ, length, map};
ghost use Rattle.std.specs.Prelude.{vec_len, OnOk, OnErr, IfSome};
ghost use Rattle.std.specs.List.{position};
ghost use Rattle.la_base.specs.Naming.{find_channel, number_of, below, same_name};

use std::alloc::{AllocError, AllocFailed, Global};
use std::marker::Model;

/// There is no memory.
#[derive(Clone, Copy, Debug, PartialEq, Eq)]
pub struct NoMemory;

impl From<AllocError> for NoMemory {
    fn from(_: AllocError) -> Self {
        NoMemory
    }
}

impl<T: Drop> From<AllocFailed<T>> for NoMemory {
    fn from(_: AllocFailed<T>) -> Self {
        NoMemory
    }
}

/// The most channels that a capture declares.
pub const MOST_NAMES: usize = 4096;

/// The names of a capture's channels, each a list of bytes, from channel 0 on: at most
/// `MOST_NAMES`. Contracts see them as the list of these lists.
#[derive(Drop)]
pub struct Names {
    alloc: Global,
    names: Vec<Vec<u8>>,
}

impl Model for Names {
    ghost Value = { List (List ℕ) };

    ghost view = { λ s. map (λ name. name.items) s.names.items };

    ghost invariant = { λ s. vec_len s.names ≤ 4096 };
}

impl Names {
    /// No names. Memory is taken by `push` alone.
    pub fn new(alloc: Global) -> Names
        ensures { result ≡ [] }
    {
        Names {
            alloc,
            names: Vec::new(alloc),
        }
    }

    /// Adds the name of the next channel. It fails where there is no memory, and then changes
    /// nothing.
    pub fn push(&mut self, name: &[u8]) -> Result<(), NoMemory>
        requires { length self.old < 4096 }
        ensures ok { OnOk result (self.new ≡ self.old ++ name.now ∷ []) }
        ensures err { OnErr result (self.new ≡ self.old) }
    {
        self.names.push(name.to_vec(self.alloc)?)?;
        Ok(())
    }

    /// How many names there are.
    pub fn count(&self) -> u32
        ensures count { result ≡ length self.now }
        ensures few { result ≤ 4096 }
    {
        self.names.len() as u32
    }

    /// The channel that a reference names: the least one whose name it is; else, where it is 1 to 4
    /// decimal digits, leading zeros among them, the channel of that number, if there is one.
    pub fn find(&self, reference: &[u8]) -> Option<u32>
        ensures { result ≡ find_channel self.now reference.now }
    {
        match place(&self.names, reference) {
            Some(channel) => Some(channel as u32),
            None => self.by_number(reference),
        }
    }

    // The channel of this number.
    fn by_number(&self, reference: &[u8]) -> Option<u32>
        ensures { result ≡ below (length self.now) (number_of reference.now) }
    {
        let number = decimal(reference)?;
        if number < self.count() {
            Some(number)
        } else {
            None
        }
    }
}

// Where the first of these names is this one.
fn place(names: &[Vec<u8>], reference: &[u8]) -> Option<usize>
    ensures place { result ≡ position (λ name. same_name name.items reference.now) names.now }
    ensures within { IfSome result (λ place. place < length names.now) }
{
    names.iter().position(|name| name.as_slice() == reference)
}

// The number that 1 to 4 decimal digits say.
fn decimal(text: &[u8]) -> Option<u32>
    ensures { result ≡ number_of text.now }
{
    if text.is_empty() || 4 < text.len() {
        return None;
    }
    let mut number: u32 = 0;
    for digit in text {
        if !digit.is_ascii_digit() {
            return None;
        }
        number = 10 * number + u32::from(*digit - b'0');
    }
    Some(number)
}
