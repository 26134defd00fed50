// A source and a sink of bytes: what they have left or got, and how often they failed.
ghost use Rattle.std.specs.Prelude.{◌≡◌, ◌<◌, List, ℕ, Option, length, IfOk};
ghost use Rattle.std.specs.Io.{ReadsAtMost, WritesAtMost};
ghost use Rattle.std.specs.Io.KnownBytes.{Keeps, ReadConsumes, WriteAppends};
ghost use Rattle.la_io.specs.Causes.{HasCause};

/// The object that was asked has failed: its count of faults rose.
#[derive(Clone, Copy, Debug, PartialEq, Eq)]
pub struct Failed;

/// Bytes that are taken from the front.
pub trait Source {
    /// The bytes left, where it tells them.
    ghost left: { Self → Option (List ℕ) };

    /// How often it has failed. It never falls.
    ghost faults: { Self → ℕ };

    /// Puts the next bytes at the front of `buf` and answers how many. Where `buf` isn't empty, 0
    /// is the end. `Failed` takes no byte.
    fn read(&mut self, buf: &mut [u8]) -> Result<usize, Failed>
        ensures bound { ReadsAtMost result buf.new }
        ensures bytes { ReadConsumes (left self.old) (left self.new) result buf.new }
        ensures cause { HasCause (faults self.old) (faults self.new) result };

    /// Whether a read may have to wait for bytes that aren't there yet, as of a pipe and not of a
    /// file. Whoever reads hands on before such a read what it keeps back.
    fn may_wait(&self) -> bool {
        true
    }

    /// Whether a read would have to wait now, as far as it can tell: where no byte has come, nor the
    /// end. Asked only of one that may have to wait.
    fn waits_now(&self) -> bool {
        true
    }
}

/// Bytes that are appended.
pub trait Sink {
    /// The bytes written, where it tells them.
    ghost written: { Self → Option (List ℕ) };

    /// How often it has failed. It never falls.
    ghost faults: { Self → ℕ };

    /// What its calls keep from an earlier value of it to a later one, beside the above: for a sink
    /// that writes through a reference, which one that is, and that what was got stays.
    ghost goes_on: { Self → Self → Type 0 } = { λ _ _. Unit {0} };

    /// Appends a front of `bytes`, which isn't empty, and answers how many bytes that front has, at
    /// least 1. `Failed` appends nothing.
    fn write(&mut self, bytes: &[u8]) -> Result<usize, Failed>
        requires { 0 < length bytes.now }
        ensures bound { WritesAtMost result bytes.now }
        ensures some { IfOk result (λ count. 0 < count) }
        ensures bytes { WriteAppends (written self.old) (written self.new) result bytes.now }
        ensures cause { HasCause (faults self.old) (faults self.new) result }
        ensures goes_on { goes_on self.old self.new };

    /// Hands on what it keeps back, where it keeps anything back: what was written stays written.
    fn hand_on(&mut self) -> Result<(), Failed>
        ensures bytes { Keeps (written self.old) (written self.new) }
        ensures cause { HasCause (faults self.old) (faults self.new) result }
        ensures goes_on { goes_on self.old self.new }
    {
        Ok(())
    }

    ghost goes_on_still: { (sink : Self) → goes_on sink sink };

    ghost goes_on_further: { (first next last : Self) → goes_on first next → goes_on next last
        → goes_on first last };
}
