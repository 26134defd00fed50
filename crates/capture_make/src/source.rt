// A made capture as a source.
ghost use Rattle.std.specs.Prelude.{◌≡◌, ◌≤◌, ◌<◌, ◌^◌, ◌++◌, [], Some, true, false, min, take};
ghost use Rattle.std.specs.Prelude.{length};
ghost use Rattle.std.specs.Io.{ReadsAtMost};
ghost use Rattle.std.specs.Io.KnownBytes.{ReadConsumes};
ghost use Rattle.la_io.specs.Causes.{HasCause};
ghost use Rattle.capture_make.specs.Made.{made};

use crate::drawing::sent_behind;
use crate::levels::{BLOCK, put_block};
use la_io::{Failed, Source};

/// The samples of made captures, a byte each. It never fails, and takes no memory.
#[derive(Drop)]
pub struct MadeSource {
    // a transaction's samples, and how many of them were given
    samples: [u8; BLOCK],
    at: usize,
    // the number of the seed behind that, and how many transactions follow it
    number: u64,
    count: u64,
    ghost whole: { length samples ≡ 120 },
    ghost within: { at ≤ 120 },
    ghost small: { number < 2 ^ 31 },
}

impl MadeSource {
    ghost use Rattle.capture_make.specs.Kept.{left_in};

    /// A source of so many transactions of a seed, of which nothing was read yet.
    pub fn new(seed: u64, count: u64) -> MadeSource
        requires { seed < 2 ^ 31 }
        ensures left { ⟦<MadeSource as Source>⟧.left result ≡ Some (made seed count) }
        ensures faults { ⟦<MadeSource as Source>⟧.faults result ≡ 0 }
    {
        MadeSource {
            samples: [0; BLOCK],
            at: BLOCK,
            number: seed,
            count,
        }
    }

    // Whether samples of a transaction are left: where all that were kept were given, those of the
    // next one are made.
    fn is_ready(&mut self) -> bool
        ensures left { left_in self.new ≡ left_in self.old }
        ensures some { result ≡ true → self.new.at < 120 }
        ensures none { result ≡ false → left_in self.old ≡ [] }
    {
        if self.at < BLOCK {
            return true;
        }
        if self.count == 0 {
            return false;
        }
        let (sent, behind) = sent_behind(self.number);
        put_block(sent, &mut self.samples);
        self.at = 0;
        self.number = behind;
        self.count -= 1;
        true
    }

    // Puts the samples that are left of a transaction at the front of a buffer, as many as it
    // takes.
    fn give(&mut self, into: &mut [u8]) -> usize
        requires some { self.old.at < 120 }
        requires room { 0 < length into.old }
        ensures count { result ≤ length into.old }
        ensures some { 0 < result }
        ensures given { left_in self.old ≡ take result into.new ++ left_in self.new }
    {
        let count = give(&self.samples[self.at..], into);
        self.at += count;
        count
    }
}

// Copies as much of `rest` as fits into `into`, and answers how much that was.
fn give(rest: &[u8], into: &mut [u8]) -> usize
    ensures count { result ≡ min (length rest.now) (length into.old) }
    ensures given { take result into.new ≡ take result rest.now }
{
    let count = rest.len().min(into.len());
    into[..count].copy_from_slice(&rest[..count]);
    count
}

impl Source for MadeSource {
    ghost use Rattle.capture_make.specs.Kept.{left_in};

    ghost left = { λ s. Some (left_in s) };

    ghost faults = { λ _. 0 };

    fn read(&mut self, buf: &mut [u8]) -> Result<usize, Failed>
        ensures bound { ReadsAtMost result buf.new }
        ensures bytes { ReadConsumes (Some (left_in self.old))
            (Some (left_in self.new)) result buf.new }
        ensures cause { HasCause 0 0 result }
    {
        let mut filled = 0;
        while filled < buf.len() {
            if !self.is_ready() {
                break;
            }
            filled += self.give(&mut buf[filled..]);
        }
        Ok(filled)
    }
}
