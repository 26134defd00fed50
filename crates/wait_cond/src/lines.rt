// Whether an alternative is met, by its masks.
ghost use Rattle.std.specs.Prelude.{◌≤◌, ◌<◌, ◌^◌};
ghost use Rattle.std.specs.Bool.{MatchBool};
ghost use Rattle.wait_cond.specs.Meets.{Rises, Falls, LinesHold, MeetsAt, AllIn, NoneIn, Which};

use crate::Alt;
use la_base::Word;

// Whether each line of a mask is one of these.
fn all_in(mask: Word, lines: Word) -> bool
    ensures { MatchBool result (AllIn mask lines) (¬ AllIn mask lines) }
{
    mask & !lines == 0
}

// Whether no line of a mask is one of these.
fn none_in(mask: Word, lines: Word) -> bool
    ensures { MatchBool result (NoneIn mask lines) (¬ NoneIn mask lines) }
{
    mask & lines == 0
}

// The lines that rise.
fn rises(before: Option<Word>, now: Word) -> Word
    ensures { Which result (Rises before now) }
{
    match before {
        Some(before) => (before ^ now) & now,
        None => 0,
    }
}

// The lines that fall.
fn falls(before: Option<Word>, now: Word) -> Word
    ensures { Which result (Falls before now) }
{
    match before {
        Some(before) => (before ^ now) & before,
        None => 0,
    }
}

/// Whether each term on lines holds.
pub fn lines_hold(alt: &Alt, before: Option<Word>, now: Word) -> bool
    ensures { MatchBool result (LinesHold alt.now before now) (¬ LinesHold alt.now before now) }
{
    let rises = rises(before, now);
    let falls = falls(before, now);
    // Edges are the rarest, so they are looked at first.
    if !all_in(alt.rise, rises) || !all_in(alt.fall, falls) {
        return false;
    }
    let edges = rises | falls;
    if !all_in(alt.edge, edges) {
        return false;
    }
    if !none_in(alt.low, now) || !all_in(alt.high, now) {
        return false;
    }
    none_in(alt.steady, edges)
}

/// Whether an alternative is met at sample `at`, where the wait began at `from`.
pub fn meets(alt: &Alt, before: Option<Word>, now: Word, from: u64, at: u64) -> bool
    requires early { from ≤ 2 ^ 60 }
    requires within { at < 2 ^ 60 }
    ensures { MatchBool result (MeetsAt alt.now before now from at)
        (¬ MeetsAt alt.now before now from at) }
{
    if alt.skip != 0 && (alt.skip > at + 1 || from > at + 1 - alt.skip) {
        return false;
    }
    lines_hold(alt, before, now)
}
