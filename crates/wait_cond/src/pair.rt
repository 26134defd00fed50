// What alternatives ask, in masks.
ghost use Rattle.std.specs.Prelude.{◌≡◌, ◌∷◌, [], List, ℕ, Some, true};
ghost use Rattle.wait_cond.specs.Pairs.{Excludes, OfAlt, Says, SaysAll, missing};
ghost use Rattle.wait_cond.specs.Stops.{MetSet};
ghost use Rattle.wait_cond.specs.declared.alt.Alt.{Alt};

use crate::Alt;
use la_base::{Word, high_half, low_half};

/// What an alternative asks of the lines that the lower half of a sample has: of those of `care`
/// the levels of `want`, and that of those of `asked` exactly those of `edge` change. Half a word,
/// since 128 bits take twice the work.
#[derive(Clone, Copy, PartialEq, Eq)]
struct Masks {
    want: u64,
    care: u64,
    edge: u64,
    asked: u64,
}

impl Masks {
    // Those of an alternative.
    fn of(alt: &Alt) -> Masks
        ensures { OfAlt result alt.now }
    {
        let edge = alt.rise | alt.fall | alt.edge;
        let want = alt.high | alt.rise;
        Masks {
            want: low_half(want),
            care: low_half(want | (alt.low | alt.fall)),
            edge: low_half(edge),
            asked: low_half(edge | alt.steady),
        }
    }

    // What keeps a sample from meeting the alternative; 0 where nothing does.
    #[inline(always)]
    fn misses(&self, changed: u64, now: u64) -> u64
        ensures { result ≡ missing self.now changed now }
    {
        ((now ^ self.want) & self.care) | ((changed ^ self.edge) & self.asked)
    }

    // Whether no sample meets both: one asks that a line changes, and the other that it doesn't.
    fn excludes(&self, other: &Masks) -> bool
        ensures { result ≡ true → Excludes self.now other.now }
    {
        (self.asked & other.asked) & (self.edge ^ other.edge) != 0
    }
}

/// Whether the masks of an alternative say all: it has no skip, asks an edge, of no line two things
/// that don't go together, and nothing of a line of the upper half.
pub fn says_all(alt: &Alt) -> bool
    ensures { result ≡ true → SaysAll alt.now }
{
    let edge = alt.rise | alt.fall | alt.edge;
    let high = alt.high | alt.rise;
    let low = alt.low | alt.fall;
    alt.skip == 0
        && edge != 0
        && high & low == 0
        && edge & alt.steady == 0
        && high_half(high | low | (edge | alt.steady)) == 0
}

/// One or two alternatives, by masks that say all of them. None is met while a value stands, since
/// each asks an edge.
#[derive(Clone, Copy, PartialEq, Eq)]
pub struct Pair {
    // the lines that each of them asks to be high
    high: u64,
    one: Masks,
    // the first one again, where there is one
    two: Masks,
    // no other is met where the first is: there is none, or they exclude each other
    alone: bool,
}

impl Pair {
    /// One alternative.
    pub(crate) fn one(alt: &Alt) -> Pair
        ensures { SaysAll alt.now → Says result (alt.now ∷ []) }
    {
        let one = Masks::of(alt);
        Pair {
            high: low_half(alt.high | alt.rise),
            one,
            two: one,
            alone: true,
        }
    }

    /// Another one beside the first.
    pub(crate) fn with(&self, alt: &Alt) -> Pair
        ensures { (first : Alt) → Says self.now (first ∷ []) → SaysAll alt.now
            → Says result (first ∷ alt.now ∷ []) }
    {
        let two = Masks::of(alt);
        Pair {
            high: self.high & low_half(alt.high | alt.rise),
            one: self.one,
            two,
            alone: self.one.excludes(&two),
        }
    }

    /// The set of the alternatives that a sample meets which stands behind another one: bit i is
    /// alternative i.
    #[inline(always)]
    pub fn met(&self, before: Word, now: Word) -> u8
        ensures { (alts : List Alt) (from q : ℕ) → Says self.now alts
            → MetSet alts (Some before) now from q result }
    {
        let level = low_half(now);
        if level & self.high != self.high {
            return 0;
        }
        let changed = low_half(before) ^ level;
        if self.one.misses(changed, level) == 0 {
            if self.alone {
                return 1;
            }
            if self.two.misses(changed, level) == 0 {
                return 3;
            }
            return 1;
        }
        if self.two.misses(changed, level) == 0 {
            return 2;
        }
        0
    }
}
