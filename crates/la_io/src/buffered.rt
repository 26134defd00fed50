// A sink that keeps bytes back, to hand them on in large pieces.
ghost use Rattle.std.specs.Prelude.{◌≡◌, ◌≤◌, ◌<◌, [], length, IfOk, OnOk};
ghost use Rattle.std.specs.Io.{WritesAtMost};
ghost use Rattle.std.specs.Io.KnownBytes.{Keeps, WriteAppends};
ghost use Rattle.la_io.specs.Causes.{HasCause};

use crate::outgoing::Outgoing;
use crate::{Failed, Sink};

/// A buffer before a sink that was lent, and a sink itself. What it got is what the sink behind it
/// got, and then the bytes that it holds. A write that finds no room hands on what is held first.
/// Call `flush` before letting it go: the bytes that it then holds are lost.
#[derive(Drop)]
pub struct Buffered<'a, K: Sink> {
    sink: &'a mut K,
    held: Outgoing,
}

impl<'a, K: Sink> Buffered<'a, K> {
    ghost use Rattle.la_io.specs.Buffer.{held_by, behind, got_by, BufferGoesOn, HandsOn};

    /// A buffer that holds nothing, before this sink.
    pub fn new(sink: &'a mut K) -> Buffered<'a, K>
        ensures same_reference { result.sink.ghost_name ≡ sink.entry.ghost_name }
        ensures sink { behind result ≡ sink.old }
        ensures empty { held_by result ≡ [] }
    {
        Buffered {
            sink,
            held: Outgoing::new(),
        }
    }

    /// How many bytes it holds: never more than 16,384.
    pub fn held(&self) -> usize
        ensures count { result ≡ length (held_by self.now) }
        ensures few { result ≤ 16384 }
    {
        self.held.bytes().len()
    }

    /// Hands on all that is held, by as many calls as needed. After `Failed` the sink has got a
    /// front of it, and the rest is still held.
    pub fn flush(&mut self) -> Result<(), Failed>
        ensures whole { OnOk result (held_by self.new ≡ []) }
        ensures handed { HandsOn K.written self.old self.new }
        ensures cause { HasCause (K.faults (behind self.old)) (K.faults (behind self.new)) result }
        ensures goes_on { BufferGoesOn K.written K.goes_on self.old self.new }
    {
        while !self.held.bytes().is_empty() {
            let count = self.sink.write(self.held.bytes())?;
            self.held.advance(count);
        }
        Ok(())
    }

    // Hands on all that is held, and then takes what there is room for. It is apart, since mostly
    // there is room.
    #[inline(never)]
    fn write_behind(&mut self, bytes: &[u8]) -> Result<usize, Failed>
        requires { 0 < length bytes.now }
        ensures bound { WritesAtMost result bytes.now }
        ensures some { IfOk result (λ count. 0 < count) }
        ensures bytes { WriteAppends (got_by K.written self.old) (got_by K.written self.new) result
            bytes.now }
        ensures cause { HasCause (K.faults (behind self.old)) (K.faults (behind self.new)) result }
        ensures goes_on { BufferGoesOn K.written K.goes_on self.old self.new }
    {
        match self.flush() {
            Ok(()) => Ok(self.held.append(bytes)),
            Err(Failed) => Err(Failed),
        }
    }
}

impl<K: Sink> Sink for Buffered<'_, K> {
    ghost use Rattle.la_io.specs.Buffer.{held_by, behind, got_by, BufferGoesOn};
    ghost use Rattle.la_io.specs.Onward.{onward_still, onward_further};
    ghost use Rattle.std.proofs.Common.{refl, ◌∙◌};

    ghost written = { λ s. got_by K.written s };

    ghost faults = { λ s. K.faults (behind s) };

    ghost goes_on = { λ a b. BufferGoesOn K.written K.goes_on a b };

    ghost goes_on_still = { λ s.
        (refl, onward_still K.written K.goes_on (behind s) (K.goes_on_still (behind s))) };

    ghost goes_on_further = { λ a b c first second. (
      second.0 ∙ first.0,
      onward_further K.written K.goes_on (behind a) (behind b) (behind c) first.1 second.1
          (K.goes_on_further (behind a) (behind b) (behind c) first.1.inner second.1.inner),
    ) };

    #[inline(always)]
    fn write(&mut self, bytes: &[u8]) -> Result<usize, Failed> {
        let count = self.held.append(bytes);
        if count > 0 {
            return Ok(count);
        }
        self.write_behind(bytes)
    }

    fn hand_on(&mut self) -> Result<(), Failed>
        ensures bytes { Keeps (got_by K.written self.old) (got_by K.written self.new) }
        ensures whole { OnOk result (held_by self.new ≡ []) }
        ensures cause { HasCause (K.faults (behind self.old)) (K.faults (behind self.new)) result }
        ensures goes_on { BufferGoesOn K.written K.goes_on self.old self.new }
    {
        self.flush()
    }
}
