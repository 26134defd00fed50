// The set of alternatives that are met.
ghost use Rattle.std.specs.Prelude.{◌≤◌, ◌<◌, ◌^◌, ◌∷◌, [], length};
ghost use Rattle.wait_cond.specs.Stops.{MetSet};

use crate::Alt;
use crate::lines::meets;
use la_base::Word;

/// The set of the alternatives that are met at sample `at`.
#[inline(always)]
pub fn met_set(alts: &[Alt], before: Option<Word>, now: Word, from: u64, at: u64) -> u8
    requires few { length alts.now ≤ 8 }
    requires early { from ≤ 2 ^ 60 }
    requires within { at < 2 ^ 60 }
    ensures { MetSet alts.now before now from at result }
{
    // Many decoders wait for one alternative.
    if alts.len() == 1 {
        return met_one(&alts[0], before, now, from, at);
    }
    met_each(alts, before, now, from, at)
}

// The set where there is one alternative.
#[inline(always)]
fn met_one(alt: &Alt, before: Option<Word>, now: Word, from: u64, at: u64) -> u8
    requires early { from ≤ 2 ^ 60 }
    requires within { at < 2 ^ 60 }
    ensures { MetSet (alt.now ∷ []) before now from at result }
{
    if meets(alt, before, now, from, at) {
        1
    } else {
        0
    }
}

// The set of any.
#[inline(always)]
fn met_each(alts: &[Alt], before: Option<Word>, now: Word, from: u64, at: u64) -> u8
    requires few { length alts.now ≤ 8 }
    requires early { from ≤ 2 ^ 60 }
    requires within { at < 2 ^ 60 }
    ensures { MetSet alts.now before now from at result }
{
    let mut met: u8 = 0;
    for (place, alt) in alts.iter().enumerate() {
        if meets(alt, before, now, from, at) {
            met |= 1 << place;
        }
    }
    met
}
