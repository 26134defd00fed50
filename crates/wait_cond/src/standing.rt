// Where a condition is met while a value stands.
ghost use Rattle.std.specs.Prelude.{◌≡◌, ◌+◌, ◌-◌, ◌≤◌, ◌^◌, min, max};
ghost use Rattle.wait_cond.specs.Standing.{FirstStanding};

use crate::Alt;
use crate::lines::lines_hold;
use la_base::Word;

// The first sample from `begin` on that is far enough behind the last stop for an alternative; but
// `end` where there is none before it.
fn far_enough(alt: &Alt, from: u64, begin: u64, end: u64) -> u64
    requires { end ≤ 2 ^ 60 }
    ensures { result ≡ min end (max begin (from + alt.now.skip - 1)) }
{
    from.saturating_add(alt.skip)
        .saturating_sub(1)
        .max(begin)
        .min(end)
}

/// The first sample from `begin` on and before `end` at which an alternative is met, where all of
/// them and the one before have this value; but `end` where there is none.
pub fn first_standing(alts: &[Alt], value: Word, from: u64, begin: u64, end: u64) -> u64
    requires from { from ≤ begin }
    requires order { begin ≤ end }
    requires few { end ≤ 2 ^ 60 }
    ensures { FirstStanding alts.now value from begin end result }
{
    let mut first = end;
    for alt in alts {
        if lines_hold(alt, Some(value), value) {
            first = far_enough(alt, from, begin, first);
        }
    }
    first
}
