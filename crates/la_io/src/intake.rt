// A buffer between a source and its reader.
ghost use Rattle.std.specs.Prelude.{◌≡◌, ◌<◌, ◌≤◌, ◌+◌, ◌-◌, ◌^◌, ◌++◌, [], length, slice_range};
ghost use Rattle.std.specs.Prelude.{take, drop, false};
ghost use Rattle.la_io.specs.Causes.{HasCause};
ghost use Rattle.la_io.specs.Intake.{Front, Reads, ReadsWithout, without};

use crate::{Failed, Source};
use std::marker::Model;

/// The most bytes that are taken from a source.
pub const MOST_BYTES: u64 = 1 << 60;

/// A buffer between a source and its reader: the bytes that were taken and are still needed, at
/// most `ROOM`, and how many were taken so far, at most `MOST_BYTES`.
#[derive(Drop)]
pub struct Intake<const ROOM: usize> {
    buf: [u8; ROOM],
    start: usize,
    end: usize,
    taken: u64,
}

impl<const ROOM: usize> Model for Intake<ROOM> {
    ghost Value = { Front };

    ghost view = { λ s. record { bytes = slice_range s.buf s.start s.end; taken = s.taken } };

    ghost invariant = { λ s.
        record {
          in_order : s.start ≤ s.end;
          within : s.end ≤ ROOM;
          few : s.taken ≤ 2 ^ 60;
          held : s.end - s.start ≤ s.taken;
        } };
}

impl<const ROOM: usize> Intake<ROOM> {
    /// Nothing was taken.
    pub fn new() -> Self
        ensures { result ≡ record { bytes = []; taken = 0 } }
    {
        Intake {
            buf: [0; ROOM],
            start: 0,
            end: 0,
            taken: 0,
        }
    }

    /// The bytes that are held.
    pub fn bytes(&self) -> &[u8]
        ensures bytes { result.now ≡ self.now.bytes }
        ensures few { self.now.taken ≤ 2 ^ 60 }
        ensures held { length self.now.bytes ≤ self.now.taken }
        ensures room { length self.now.bytes ≤ ROOM }
    {
        let all = &self.buf[..];
        &all[self.start..self.end]
    }

    /// How many bytes were taken.
    pub fn taken(&self) -> u64
        ensures taken { result ≡ self.now.taken }
        ensures few { result ≤ 2 ^ 60 }
    {
        self.taken
    }

    /// Lets the first `count` bytes go.
    pub fn advance(&mut self, count: usize)
        requires { count ≤ length self.old.bytes }
        ensures bytes { self.new.bytes ≡ drop count self.old.bytes }
        ensures taken { self.new.taken ≡ self.old.taken }
    {
        self.start += count;
    }

    /// Reads once, behind what is held, as much as there is room for, and answers how many bytes
    /// came: 0 is the end. No more than `MOST_BYTES` are taken in all. `Failed` comes where the
    /// source failed, and takes nothing.
    pub fn more<S: Source>(&mut self, source: &mut S) -> Result<usize, Failed>
        requires room { length self.old.bytes < ROOM }
        requires few { self.old.taken < 2 ^ 60 }
        ensures reads { Reads self.old self.new (S.left source.old) (S.left source.new) result }
        ensures cause { HasCause (S.faults source.old) (S.faults source.new) result }
    {
        let held = self.end - self.start;
        self.start = settle(&mut self.buf, self.start, self.end);
        self.end = self.start + held;
        let room = room_behind(self.end, self.taken, ROOM);
        let all = &mut self.buf[..];
        match source.read(&mut all[self.end..self.end + room]) {
            Ok(count) => {
                self.end += count;
                self.taken += count as u64;
                Ok(count)
            }
            Err(_) => Err(Failed),
        }
    }

    /// Reads as `more` does, and keeps no byte of what came that is `dropped`. The answer counts
    /// those too: 0 is the end.
    pub fn more_without<S: Source>(&mut self, source: &mut S, dropped: u8) -> Result<usize, Failed>
        requires room { length self.old.bytes < ROOM }
        requires few { self.old.taken < 2 ^ 60 }
        ensures reads { ReadsWithout dropped self.old self.new (S.left source.old)
            (S.left source.new) result }
        ensures cause { HasCause (S.faults source.old) (S.faults source.new) result }
    {
        let held = self.end - self.start;
        match self.more(source) {
            Ok(count) => {
                let all = &mut self.buf[..];
                let kept = drop_behind(&mut all[self.start..self.end], held, dropped);
                self.end = self.start + kept;
                Ok(count)
            }
            Err(_) => Err(Failed),
        }
    }
}

// How many bytes are looked at at once.
const BLOCK: usize = 64;

// Whether a byte is among some. It stops nowhere, so that many are compared at once.
#[inline(always)]
fn has(bytes: &[u8], byte: u8) -> bool
    ensures { result ≡ false → without byte bytes.now ≡ bytes.now }
{
    let mut found = false;
    let mut place = 0;
    while place < bytes.len() {
        found |= bytes[place] == byte;
        place += 1;
    }
    found
}

// How far none of the bytes behind the first `from` is this one: they are looked at by whole
// blocks.
fn free_blocks(bytes: &[u8], from: usize, byte: u8) -> usize
    requires { from ≤ length bytes.now }
    ensures more { from ≤ result }
    ensures within { result ≤ length bytes.now }
    ensures none { without byte (drop from (take result bytes.now))
        ≡ drop from (take result bytes.now) }
{
    let mut at = from;
    while bytes.len() - at >= BLOCK {
        if has(&bytes[at..at + BLOCK], byte) {
            return at;
        }
        at += BLOCK;
    }
    at
}

// Takes a byte out of what stands behind the first `from` bytes, and answers how many bytes are
// left in all. Nothing is moved before the first such byte.
fn drop_behind(bytes: &mut [u8], from: usize, dropped: u8) -> usize
    requires { from ≤ length bytes.old }
    ensures within { result ≤ length bytes.old }
    ensures kept { take result bytes.new
        ≡ take from bytes.old ++ without dropped (drop from bytes.old) }
{
    let mut at = free_blocks(bytes, from, dropped);
    let mut to = at;
    while at < bytes.len() {
        let byte = bytes[at];
        if byte != dropped {
            bytes[to] = byte;
            to += 1;
        }
        at += 1;
    }
    to
}

// Makes room behind a part of the buffer, and answers where that part begins now. It is moved to
// the front where that is needed, or where the part is no longer than what was let go before it: so
// no more bytes are moved in all than were taken.
fn settle(buf: &mut [u8], start: usize, end: usize) -> usize
    requires order { start ≤ end }
    requires within { end ≤ length buf.old }
    requires room { end - start < length buf.old }
    ensures kept { slice_range buf.new result (result + (end - start))
        ≡ slice_range buf.old start end }
    ensures room { result + (end - start) < length buf.old }
{
    if end < buf.len() && start < end - start {
        return start;
    }
    buf.copy_within(start..end, 0);
    0
}

// How much is to be read behind what is held.
fn room_behind(end: usize, taken: u64, most: usize) -> usize
    requires room { end < most }
    requires few { taken < 2 ^ 60 }
    ensures some { 0 < result }
    ensures within { end + result ≤ most }
    ensures few { taken + result ≤ 2 ^ 60 }
{
    let free = (most - end) as u64;
    free.min(MOST_BYTES - taken) as usize
}
