// A source and a sink in memory whose calls fail where they are told to.
ghost use Rattle.std.specs.Prelude.{◌≡◌, ◌≤◌, ◌<◌, ◌+◌, ◌==◌, ◌||◌, min, [], length, vec_len};
ghost use Rattle.std.specs.Prelude.{vec_capacity, IfOk, Some};
ghost use Rattle.std.specs.Io.{ReadsAtMost, WritesAtMost};
ghost use Rattle.std.specs.Io.KnownBytes.{ReadConsumes, WriteAppends};
ghost use Rattle.std.specs.Bool.{MatchBool};
ghost use Rattle.la_io.specs.Causes.{Rose, HasCause};
ghost use Rattle.la_io.specs.Plans.{FailsExactly, is_listed, next_call, present};

use crate::give::give;
use crate::{Failed, Sink, Source};
use la_base::NoMemory;
use std::alloc::Global;

/// Pieces of bytes in memory. A read gives at most what is left of the present piece; empty pieces
/// are passed over. The calls of `read`, counted from 0, whose numbers are in `fails` answer
/// `Failed`. `read` says how many bytes each call moves: contracts name the pieces (`pieces_of`)
/// and the place in them (`place_of`) before and behind it.
#[derive(Drop)]
pub struct MemSource {
    pieces: Vec<Vec<u8>>,
    piece: usize,
    at: usize,
    fails: Vec<u64>,
    calls: u64,
    faults: u64,
}

impl MemSource {
    ghost use Rattle.la_io.specs.Kept.{Place, bytes_of};
    ghost use Rattle.la_io.specs.Memory.{pieces_of, place_of, source_fails, source_call};

    /// A source of these pieces, one after another, that hasn't failed yet.
    pub fn new(pieces: Vec<Vec<u8>>, fails: Vec<u64>) -> MemSource
        ensures left { ⟦<MemSource as Source>⟧.left result ≡ Some (bytes_of pieces.items) }
        ensures faults { ⟦<MemSource as Source>⟧.faults result ≡ 0 }
        ensures pieces { pieces_of result ≡ pieces.items }
        ensures place { place_of result ≡ record { piece = 0; byte = 0 } }
        ensures fails { source_fails result ≡ fails.items }
        ensures call { source_call result ≡ 0 }
    {
        MemSource {
            pieces,
            piece: 0,
            at: 0,
            fails,
            calls: 0,
            faults: 0,
        }
    }
}

// Whether this call fails, and one more call.
fn fails_now(fails: &[u64], calls: &mut u64, faults: &mut u64) -> bool
    ensures listed { result ≡ is_listed fails.now calls.old }
    ensures next { calls.new ≡ next_call calls.old }
    ensures later { faults.old ≤ faults.new }
    ensures cause { MatchBool result (Rose faults.old faults.new) (faults.new ≡ faults.old) }
{
    let fails_here = fails.contains(calls);
    *calls = calls.saturating_add(1);
    if fails_here {
        *faults = faults.saturating_add(1);
    }
    fails_here
}

impl Source for MemSource {
    ghost use Rattle.la_io.specs.Kept.{left_in};
    ghost use Rattle.la_io.specs.Memory.{pieces_of, place_of, source_fails, source_call};
    ghost use Rattle.la_io.specs.Memory.{StandsBehind, SourceCalled};

    ghost left = { λ s. Some (left_in (pieces_of s) (place_of s)) };

    ghost faults = { λ s. s.faults };

    fn read(&mut self, buf: &mut [u8]) -> Result<usize, Failed>
        ensures bound { ReadsAtMost result buf.new }
        ensures bytes { ReadConsumes (Some (left_in (pieces_of self.old) (place_of self.old)))
            (Some (left_in (pieces_of self.new) (place_of self.new))) result buf.new }
        ensures cause { HasCause self.old.faults self.new.faults result }
        // Failed comes exactly where the call's number is one of those that fail.
        ensures fails { FailsExactly
            (is_listed (source_fails self.old) (source_call self.old)) result }
        // Else as much is given as the present piece has and the buffer takes.
        ensures count { IfOk result
            (λ count. count
            ≡ min (present (pieces_of self.old) (place_of self.old)) (length buf.old)) }
        ensures place { StandsBehind self.old self.new result }
        ensures called { SourceCalled self.old self.new }
    {
        if fails_now(&self.fails, &mut self.calls, &mut self.faults) {
            return Err(Failed);
        }
        while self.piece < self.pieces.len() {
            let present = self.pieces[self.piece].as_slice();
            if self.at < present.len() {
                let count = give(&present[self.at..], buf);
                self.at += count;
                return Ok(count);
            }
            self.piece += 1;
            self.at = 0;
        }
        Ok(0)
    }
}

/// Bytes in memory. A write takes at most `most` bytes and no more than there is room for; it fails
/// where no room is left, and where its number, counted from 0, is in `fails`.
#[derive(Drop)]
pub struct MemSink {
    bytes: Vec<u8>,
    most: usize,
    fails: Vec<u64>,
    room: usize,
    calls: u64,
    faults: u64,
    ghost some: { 1 ≤ most },
    ghost has_room: { vec_len bytes + room ≤ vec_capacity bytes },
}

impl MemSink {
    ghost use Rattle.la_io.specs.Memory.{sink_most, sink_room, sink_fails, sink_call};

    /// A sink with room for `room` bytes, for which it takes memory at once, that got none and
    /// hasn't failed yet.
    pub fn new(
        alloc: Global,
        most: usize,
        fails: Vec<u64>,
        room: usize,
    ) -> Result<MemSink, NoMemory>
        requires { 1 ≤ most }
        ensures written { IfOk result (λ sink. ⟦<MemSink as Sink>⟧.written sink ≡ Some []) }
        ensures faults { IfOk result (λ sink. ⟦<MemSink as Sink>⟧.faults sink ≡ 0) }
        ensures most { IfOk result (λ sink. sink_most sink ≡ most) }
        ensures room { IfOk result (λ sink. sink_room sink ≡ room) }
        ensures fails { IfOk result (λ sink. sink_fails sink ≡ fails.items) }
        ensures call { IfOk result (λ sink. sink_call sink ≡ 0) }
    {
        Ok(MemSink {
            bytes: Vec::with_capacity(alloc, room)?,
            most,
            fails,
            room,
            calls: 0,
            faults: 0,
        })
    }

    /// The bytes that it got.
    pub fn written(&self) -> &[u8]
        ensures { ⟦<MemSink as Sink>⟧.written self.now ≡ Some result.now }
    {
        &self.bytes
    }
}

impl Sink for MemSink {
    ghost use Rattle.la_io.specs.Memory.{sink_most, sink_room, sink_fails, sink_call, SinkCalled};

    ghost written = { λ s. Some s.bytes.items };

    ghost faults = { λ s. s.faults };

    ghost goes_on = { λ _ _. Unit {0} };

    ghost goes_on_still = { λ _. tt };

    ghost goes_on_further = { λ _ _ _ _ _. tt };

    fn write(&mut self, bytes: &[u8]) -> Result<usize, Failed>
        requires { 0 < length bytes.now }
        ensures bound { WritesAtMost result bytes.now }
        ensures some { IfOk result (λ count. 0 < count) }
        ensures bytes { WriteAppends (Some self.old.bytes.items)
            (Some self.new.bytes.items) result bytes.now }
        ensures cause { HasCause self.old.faults self.new.faults result }
        ensures goes_on { Unit {0} }
        // Failed comes exactly where the call's number is one of those that fail, or no room is
        // left.
        ensures fails { FailsExactly
            (is_listed (sink_fails self.old) (sink_call self.old) || sink_room self.old == 0)
            result }
        // Else as much is taken as it takes at once and has room for.
        ensures count { IfOk result
            (λ count. (count ≡ min (length bytes.now)
            (min (sink_most self.old) (sink_room self.old)))
            × (count + sink_room self.new ≡ sink_room self.old)) }
        ensures called { SinkCalled self.old self.new }
    {
        if fails_now(&self.fails, &mut self.calls, &mut self.faults) {
            return Err(Failed);
        }
        let count = bytes.len().min(self.most).min(self.room);
        if count == 0 || self.bytes.extend_from_slice(&bytes[..count]).is_err() {
            self.faults = self.faults.saturating_add(1);
            return Err(Failed);
        }
        self.room -= count;
        Ok(count)
    }
}
