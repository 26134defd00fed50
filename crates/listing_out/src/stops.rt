// The line of a stop.
ghost use Rattle.std.specs.Prelude.{◌≡◌, ◌+◌, ◌<◌, ◌≤◌, List, ℕ, [], ◌++◌, length, OnOk};
ghost use Rattle.std.specs.Fmt.{decimal};
ghost use Rattle.std.specs.Io.KnownBytes.{Appends};
ghost use Rattle.la_io.specs.Causes.{AppendsFront, HasCause};
ghost use Rattle.listing_out.specs.StopLines.{Mends, behind_sample, line_of};
ghost use Rattle.listing_out.specs.StopLines.{is_member, separator, joined, members_below};

use crate::kept::KeptLine;
use la_io::{Failed, Sink, write_whole};
use line_text::{Decimal, LineBuf};
use std::marker::Model;

/// How many alternatives a set can have.
const MOST_MEMBERS: u32 = 8;

// Whether an alternative is in a set.
fn is_member(set: u8, place: u32) -> bool
    requires { place < 8 }
    ensures { result ≡ is_member set place }
{
    (set >> place) & 1 == 1
}

// Appends the number of an alternative, which is one digit.
fn digit(line: &mut KeptLine, place: u32)
    requires few { place < 8 }
    requires room { length line.old < 40 }
    ensures line { line.new ≡ line.old ++ decimal place }
    ensures grows { length line.new ≡ length line.old + 1 }
{
    line.push_byte(b'0' + place as u8);
}

// Appends the number of an alternative, behind a comma where it isn't the first.
fn member(line: &mut KeptLine, first: bool, place: u32)
    requires few { place < 8 }
    requires room { length line.old ≤ 38 }
    ensures line { line.new ≡ line.old ++ separator first ++ decimal place }
    ensures grows { length line.new ≤ length line.old + 2 }
{
    if !first {
        line.push_byte(b',');
    }
    digit(line, place);
}

// Appends the numbers of the alternatives in a set.
fn members(line: &mut KeptLine, set: u8)
    requires { length line.old ≤ 22 }
    ensures line { line.new ≡ line.old ++ joined (members_below 8 set) }
    ensures grows { length line.new ≤ length line.old + 16 }
{
    let mut first = true;
    for place in 0..MOST_MEMBERS {
        if set < 1 << place {
            return;
        }
        if is_member(set, place) {
            member(line, first, place);
            first = false;
        }
    }
}

// Appends what stands behind the sample in the line of a stop, where these alternatives are met.
fn push_behind(line: &mut KeptLine, met: u8)
    requires { length line.old ≤ 20 }
    ensures { line.new ≡ line.old ++ behind_sample met }
{
    line.push_byte(b':');
    line.push_byte(b' ');
    members(line, met);
    line.push_byte(b'\n');
}

/// The line of a stop, `AT: I,J`: its sample, and the alternatives I and J that are met there.
/// Contracts see its bytes. One serves for all stops: to make it fills it with zeros, and it keeps
/// the line of the stop before. Where the sample of the next one differs from its sample in the
/// last two digits alone, as is mostly so, what stands before these isn't made anew.
#[derive(Drop)]
pub struct StopLine {
    kept: KeptLine,
    // its sample with the last two digits 0, or 0 where it is to be made anew
    hundreds: u64,
    // where these two digits stand
    low: usize,
    // the alternatives that it tells
    met: u8,
    at: Decimal,
    line: LineBuf,
}

impl Model for StopLine {
    ghost Value = { List ℕ };

    ghost view = { λ s. s.kept };

    ghost invariant = { λ s. 0 < s.hundreds → Mends s.kept s.low s.hundreds s.met };
}

impl StopLine {
    /// An empty line.
    pub fn new() -> StopLine
        ensures { result ≡ [] }
    {
        StopLine {
            kept: KeptLine::new(),
            hundreds: 0,
            low: 0,
            met: 0,
            at: Decimal::new(),
            line: LineBuf::new(),
        }
    }

    // Makes it the line of this stop.
    #[inline(always)]
    fn put(&mut self, at: u64, met: u8)
        ensures { self.new ≡ line_of (at, met) }
    {
        if met == self.met && self.hundreds > 0 && at >= self.hundreds && at - self.hundreds < 100 {
            let last = (at - self.hundreds) as u8;
            self.kept
                .set_two(self.low, b'0' + last / 10, b'0' + last % 10);
        } else {
            self.make(at, met);
        }
    }

    // Makes it the line of this stop, where other alternatives are met or other digits differ. It
    // isn't inlined, since few stops of many need it.
    #[inline(never)]
    fn make(&mut self, at: u64, met: u8)
        ensures { self.new ≡ line_of (at, met) }
    {
        if self.hundreds > 0 && at >= self.hundreds && at - self.hundreds < 100 {
            let last = (at - self.hundreds) as u8;
            self.met = met;
            self.kept.cut(self.low);
            self.kept.push_byte(b'0' + last / 10);
            self.kept.push_byte(b'0' + last % 10);
            push_behind(&mut self.kept, met);
        } else {
            self.make_whole(at, met);
        }
    }

    // Makes all of it anew.
    fn make_whole(&mut self, at: u64, met: u8)
        ensures { self.new ≡ line_of (at, met) }
    {
        self.met = met;
        self.at.set(at);
        self.line.clear();
        self.line.push_short(self.at.text());
        let digits = self.line.bytes();
        self.kept.set(digits);
        push_behind(&mut self.kept, met);
        if at < 100 {
            self.hundreds = 0;
            return;
        }
        self.hundreds = at / 100 * 100;
        self.low = digits.len() - 2;
    }

    /// Makes it the line of this stop, and writes it. After `Failed` a front of it is written.
    #[inline(always)]
    pub fn write<K: Sink>(&mut self, sink: &mut K, at: u64, met: u8) -> Result<(), Failed>
        ensures whole { OnOk result
            (Appends (K.written sink.old) (K.written sink.new) (line_of (at, met))) }
        ensures front { AppendsFront (K.written sink.old) (K.written sink.new) (line_of (at, met)) }
        ensures cause { HasCause (K.faults sink.old) (K.faults sink.new) result }
        ensures goes_on { K.goes_on sink.old sink.new }
    {
        self.put(at, met);
        write_whole(sink, self.kept.bytes())
    }
}
