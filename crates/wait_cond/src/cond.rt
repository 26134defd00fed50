// Conditions.
ghost use Rattle.std.specs.Prelude.{◌≡◌, ◌≢◌, ◌<◌, ◌≤◌, ◌∷◌, ◌++◌, [], length, Option, Some};
ghost use Rattle.std.specs.Prelude.{IfSome, bit_or, nat_lt, true, ℕ};
ghost use Rattle.wait_cond.specs.Conds.{OnlySkips};
ghost use Rattle.wait_cond.specs.Pairs.{Says, SaysAll};
ghost use Rattle.wait_cond.specs.Watching.{edge_lines, high_lines, Watches, AskHigh, NeverMet};
ghost use Rattle.wait_cond.specs.Watching.{SkipAtLeast, SkipMore};

use crate::Alt;
use crate::pair::{Pair, says_all};
use arrayvec::ArrayVec;
use la_base::Word;
use std::marker::Model;

/// 1 to 8 alternatives, at least one of which must be met. Contracts see their list, so that equal
/// alternatives make equal conditions.
#[derive(Drop)]
pub struct Cond {
    alts: ArrayVec<Alt, 8>,
    // the lines of which the alternatives ask an edge, where each of them does; else 0
    watched: Word,
    // the lines that each alternative asks to be high
    high: Word,
    // the least skip of the alternatives
    skip: u64,
    // one or two alternatives by their masks
    pair: Pair,
    // whether these say all of each alternative, and there are no more
    exact: bool,
    // whether there is one alternative, which asks nothing of the lines
    timer: bool,
}

impl Model for Cond {
    ghost use Rattle.std.specs.Prelude.{◌≡◌, List, true};
    ghost use Rattle.wait_cond.specs.Conds.{IsExact, IsKept, IsTimer};
    ghost use Rattle.wait_cond.specs.declared.alt.Alt.{Alt};

    ghost Value = { List Alt };

    ghost view = { λ c. c.alts.items };

    ghost invariant = { λ c. IsKept c.alts.items c.watched c.high c.skip c.pair
        × (c.exact ≡ true → IsExact c.alts.items)
        × (c.timer ≡ true → IsTimer c.alts.items c.skip) };
}

impl Cond {
    ghost use Rattle.wait_cond.specs.Conds.{cond_alts, IsExact, IsTimer};

    /// The condition of one alternative.
    pub fn one(alt: Alt) -> Cond
        ensures { cond_alts result ≡ alt ∷ [] }
    {
        let watched = edge_lines(&alt);
        let high = high_lines(&alt);
        let skip = alt.skip;
        let pair = Pair::one(&alt);
        let exact = says_all(&alt);
        let timer = only_skips(&alt);
        let mut alts = ArrayVec::new();
        alts.push(alt);
        Cond {
            alts,
            watched,
            high,
            skip,
            pair,
            exact,
            timer,
        }
    }

    /// This alternative alone, in place of those that there were.
    pub fn set_one(&mut self, alt: Alt)
        ensures { cond_alts self.new ≡ alt ∷ [] }
    {
        let timer = only_skips(&alt);
        // Of a wait for a time, which is that of a serial line, masks say nothing.
        if timer {
            self.timer = true;
            self.exact = false;
            self.watched = 0;
            self.high = 0;
            self.skip = alt.skip;
            keep_one(&mut self.alts, alt);
            return;
        }
        self.timer = false;
        self.watched = edge_lines(&alt);
        self.high = high_lines(&alt);
        self.skip = alt.skip;
        self.pair = Pair::one(&alt);
        self.exact = says_all(&alt);
        keep_one(&mut self.alts, alt);
    }

    /// Adds an alternative behind the others.
    pub fn add(&mut self, alt: Alt)
        requires { length (cond_alts self.old) < 8 }
        ensures { cond_alts self.new ≡ cond_alts self.old ++ alt ∷ [] }
    {
        let watched = watched_with(self.watched, edge_lines(&alt));
        let high = self.high & high_lines(&alt);
        let skip = self.skip.min(alt.skip);
        let exact = says_two(self.exact, self.alts.len(), &alt);
        let pair = self.pair.with(&alt);
        self.alts.push(alt);
        self.pair = pair;
        self.exact = exact;
        self.timer = false;
        self.watched = watched;
        self.high = high;
        self.skip = skip;
    }

    /// How many alternatives there are.
    pub fn count(&self) -> u32
        ensures count { result ≡ length (cond_alts self.now) }
        ensures some { 1 ≤ result }
        ensures few { result ≤ 8 }
    {
        self.alts.len() as u32
    }

    /// The alternatives, in the order in which they were added.
    pub fn alts(&self) -> &[Alt]
        ensures alts { result.now ≡ cond_alts self.now }
        ensures few { length result.now ≤ 8 }
    {
        &self.alts
    }

    /// Whether each alternative skips more than so many samples behind the last stop.
    #[inline]
    pub fn skips_more(&self, samples: u64) -> bool
        ensures skips { result ≡ true → SkipMore samples (cond_alts self.now) }
    {
        samples < self.skip
    }

    /// Whether there are one or two alternatives of which masks say all. Where one asks what masks
    /// can't say, or a line of the upper half, the answer is false: each alternative is then looked
    /// at.
    #[inline(always)]
    pub fn is_exact(&self) -> bool
        ensures { result ≡ true → IsExact self.now }
    {
        self.exact
    }

    /// One or two alternatives by their masks.
    #[inline(always)]
    pub fn pair(&self) -> Pair
        requires { IsExact self.now }
        ensures says { Says result self.now }
        ensures stands { (value : ℕ) → NeverMet self.now (Some value) value }
    {
        self.pair
    }

    /// The samples that the one alternative skips, where there is one that asks nothing of the
    /// lines.
    #[inline(always)]
    pub fn only_skip(&self) -> Option<u64>
        ensures { IfSome result (λ skip. IsTimer self.now skip) }
    {
        if self.timer { Some(self.skip) } else { None }
    }

    /// Whether each alternative asks an edge, so that none is met while a value stands.
    #[inline]
    pub fn asks_edges(&self) -> bool
        ensures stands { result ≡ true → (now : ℕ) → NeverMet (cond_alts self.now) (Some now) now }
    {
        if self.watched != 0 {
            return true;
        }
        false
    }

    /// Whether it is plain that no alternative is met: each asks one line to be high, and it is
    /// low; or each asks an edge, and none of those lines changes. Nor is any met while the value
    /// stands.
    #[inline]
    pub fn is_still(&self, before: Option<Word>, now: Word) -> bool
        ensures now { result ≡ true → NeverMet (cond_alts self.now) before now }
        ensures stands { result ≡ true → NeverMet (cond_alts self.now) (Some now) now }
    {
        if self.high & now != self.high {
            return true;
        }
        match before {
            Some(before) => self.watched != 0 && (before ^ now) & self.watched == 0,
            None => false,
        }
    }
}

// The lines of which an alternative asks an edge.
fn edge_lines(alt: &Alt) -> Word
    ensures { result ≡ edge_lines alt.now }
{
    alt.rise | alt.fall | alt.edge
}

// The lines that an alternative asks to be high.
fn high_lines(alt: &Alt) -> Word
    ensures { result ≡ high_lines alt.now }
{
    alt.high | alt.rise
}

// Whether an alternative asks samples to pass, and nothing of the lines.
fn only_skips(alt: &Alt) -> bool
    ensures { result ≡ true → OnlySkips alt.now }
{
    alt.skip != 0
        && alt.low == 0
        && alt.high == 0
        && alt.rise == 0
        && alt.fall == 0
        && alt.edge == 0
        && alt.steady == 0
}

// The lines that are watched with those of one more alternative.
fn watched_with(watched: Word, lines: Word) -> Word
    ensures { result ≢ 0 → (watched ≢ 0) × (lines ≢ 0) × (result ≡ bit_or watched lines) }
{
    if watched == 0 || lines == 0 {
        return 0;
    }
    watched | lines
}

// This alternative alone, in place of those that there were.
#[inline(always)]
fn keep_one(alts: &mut ArrayVec<Alt, 8>, alt: Alt)
    requires { 1 ≤ length alts.old.items }
    ensures { alts.new.items ≡ alt ∷ [] }
{
    alts.truncate(1);
    alts[0] = alt;
}

// Whether masks say all of two alternatives, where they may of the first, and there are so many
// before the second.
fn says_two(exact: bool, count: usize, alt: &Alt) -> bool
    ensures { result ≡ true → (exact ≡ true) × (count ≡ 1) × SaysAll alt.now }
{
    exact && count == 1 && says_all(alt)
}
