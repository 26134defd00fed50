// The reader of lines.
ghost use Rattle.std.specs.Prelude.{◌≡◌, ◌+◌, ◌-◌, ◌^◌, ◌≤◌, length};
ghost use Rattle.byte_feed.specs.LineMoves.{LineAt};

use crate::FeedFault;
use crate::filling::LONG;
use crate::line_ends::{line_at, line_len, pass_mark};
use crate::repeats::common;
use la_base::NoMemory;
use la_io::{Intake, Source};
use std::alloc::Global;

/// Reads lines, which end at line feeds; the last one may lack its own, and is none where it is
/// empty. Carriage returns are dropped wherever they stand, and so is a byte order mark at the very
/// front. It holds the line that it gave last.
#[derive(Drop)]
pub struct Lines {
    intake: Box<Intake<LONG>>,
    // the bytes of the line, and those with its end
    len: usize,
    over: usize,
    // how many lines were given
    number: u64,
    ended: bool,
    spent: bool,
    ghost within: { len ≤ over },
    ghost held: { over ≤ length intake.value.bytes },
    ghost few: { number + (length intake.value.bytes - over) ≤ intake.value.taken },
    ghost small: { number ≤ 2 ^ 60 },
    ghost counted: { over ≡ len + 1 → 1 ≤ number },
    ghost whole: { over ≡ len + 1 → LineAt intake.value.bytes len },
}

impl Lines {
    ghost use Rattle.std.specs.Prelude.{◌≡◌, ◌≢◌, ◌<◌, ◌≤◌, ◌^◌, [], ◌+◌, length, take, IfOk};
    ghost use Rattle.std.specs.Prelude.{IfSome, Err, true, false};
    ghost use Rattle.la_io.specs.Capture.{Cut};
    ghost use Rattle.byte_feed.specs.Moving.{FeedCause};
    ghost use Rattle.byte_feed.specs.Feeding.{spent_by};
    ghost use Rattle.byte_feed.specs.LineReader.{Stands, Next, Numbers, Ahead, GaveLine, is_spent};
    ghost use Rattle.byte_feed.specs.LineReader.{GaveAgain};
    ghost use Rattle.byte_feed.specs.LineReader.{ended_of, number_of, text_of, left_of, rest_of};
    ghost use Rattle.byte_feed.specs.LineReader.{taken_of};
    ghost use Rattle.byte_feed.specs.LineMoves.{AllIn};
    ghost use Rattle.byte_feed.specs.declared.fault.FeedFault.TheVariants.{Spent};

    /// A reader that has taken nothing. This takes the memory for its buffer.
    pub fn new(alloc: Global) -> Result<Lines, NoMemory>
        ensures stands { IfOk result (λ lines. Stands lines [] Cut []) }
        ensures fresh { IfOk result (λ lines. is_spent lines ≡ false) }
    {
        Ok(Lines {
            intake: Box::new(alloc, Intake::new())?,
            len: 0,
            over: 0,
            number: 0,
            ended: false,
            spent: false,
        })
    }

    /// The number of the next line, counted from 1, or `None` at the end. After a fault there is
    /// none.
    // Inlined, since most lines are held.
    #[inline(always)]
    pub fn next<S: Source>(&mut self, source: &mut S) -> Result<Option<u64>, FeedFault>
        ensures next { Next self.old self.new (S.left source.old) (S.left source.new) result }
        ensures spent { is_spent self.old ≡ true → result ≡ Err Spent }
        ensures why { is_spent self.old ≡ false → result ≢ Err Spent }
        ensures spends { is_spent self.new ≡ spent_by result }
        ensures unread { ended_of self.old ≡ true → source.new ≡ source.old }
        ensures idle { is_spent self.old ≡ true → source.new ≡ source.old }
        ensures still { is_spent self.old ≡ true → self.new ≡ self.old }
        ensures progress { IfOk result
            (λ line. IfSome line (λ _. left_of self.new < left_of self.old)) }
        ensures few { IfOk result (λ line. IfSome line (λ _. taken_of self.new ≤ 2 ^ 60)) }
        ensures numbers { Numbers (number_of self.old) (number_of self.new) result }
        ensures cause { FeedCause (S.faults source.old) (S.faults source.new) result }
    {
        if self.spent {
            return Err(FeedFault::Spent);
        }
        self.intake.advance(self.over);
        self.over = 0;
        self.len = 0;
        match pass_mark(&mut self.intake, &mut self.ended, source, self.number) {
            Ok(()) => {}
            Err(fault) => {
                self.spent = true;
                return Err(fault);
            }
        }
        match line_len(&mut self.intake, &mut self.ended, source, self.number) {
            Ok(count) => {
                let held = self.intake.bytes().len();
                if held == 0 {
                    return Ok(None);
                }
                self.number += 1;
                self.len = count;
                self.over = held.min(count + 1);
                Ok(Some(self.number))
            }
            Err(fault) => {
                self.spent = true;
                Err(fault)
            }
        }
    }

    /// So many bytes behind the line that was given last, where they are held and a line feed
    /// stands behind them. Nothing is read.
    #[inline(always)]
    pub fn ahead(&self, len: usize) -> Option<&[u8]>
        ensures { IfSome result
            (λ text. Ahead self.now len × (text.now ≡ take len (rest_of self.now))) }
    {
        if self.number == 0 {
            return None;
        }
        let rest = &self.intake.bytes()[self.over..];
        if len >= rest.len() || rest[len] != b'\n' {
            return None;
        }
        Some(&rest[..len])
    }

    /// The next line, where all of it is held, with the line feed after it. Nothing is read.
    #[inline(always)]
    pub fn held(&self) -> Option<&[u8]>
        ensures { IfSome result (λ text. Ahead self.now (length text.now)
            × AllIn (rest_of self.now) (length text.now)
            × (text.now ≡ take (length text.now) (rest_of self.now))) }
    {
        if self.number == 0 {
            return None;
        }
        let rest = &self.intake.bytes()[self.over..];
        let len = line_at(rest, 0);
        if len >= rest.len() {
            return None;
        }
        Some(&rest[..len])
    }

    /// How many lines were given.
    pub fn number(&self) -> u64
        ensures { result ≡ number_of self.now }
    {
        self.number
    }

    /// Takes these bytes as the next line, and answers its number. Nothing is read.
    #[inline(always)]
    pub fn pass(&mut self, len: usize) -> u64
        requires ahead { Ahead self.old len }
        requires one { AllIn (rest_of self.old) len }
        ensures gave { GaveLine self.old self.new result }
        ensures text { text_of self.new ≡ take len (rest_of self.old) }
        ensures ended { ended_of self.new ≡ ended_of self.old }
        ensures spent { is_spent self.new ≡ is_spent self.old }
        ensures taken { taken_of self.new ≡ taken_of self.old }
        ensures number { result ≡ number_of self.old + 1 }
        ensures counted { number_of self.new ≡ result }
        ensures progress { left_of self.new < left_of self.old }
    {
        self.intake.advance(self.over);
        self.len = len;
        self.over = len + 1;
        self.number += 1;
        self.number
    }

    /// Takes the lines behind the one that was given last that are held and have its bytes, and
    /// answers how many it took. Nothing is read.
    // The end of that line is compared as well: the last line of all, which may lack it, isn't
    // taken.
    #[inline(always)]
    pub fn again(&mut self) -> u64
        ensures gave { GaveAgain self.old self.new result }
        ensures text { text_of self.new ≡ text_of self.old }
        ensures ended { ended_of self.new ≡ ended_of self.old }
        ensures spent { is_spent self.new ≡ is_spent self.old }
        ensures taken { taken_of self.new ≡ taken_of self.old }
        ensures counted { number_of self.new ≡ number_of self.old + result }
        ensures left { left_of self.new ≤ left_of self.old }
    {
        let over = self.over;
        if over - self.len != 1 {
            return 0;
        }
        let bytes = self.intake.bytes();
        let count = common(bytes, &bytes[over..]) / over;
        self.intake.advance(count * over);
        self.number += count as u64;
        count as u64
    }

    /// The bytes of the line that was given last, without its end.
    #[inline(always)]
    pub fn text(&self) -> &[u8]
        ensures text { result.now ≡ text_of self.now }
        ensures room { length result.now ≤ 65536 }
    {
        &self.intake.bytes()[..self.len]
    }
}
