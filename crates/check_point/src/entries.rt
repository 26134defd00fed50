// The machines of a check, one after another.
ghost use Rattle.std.specs.Prelude.{◌≡◌, ◌≢◌, ◌≤◌, ◌++◌, ℕ, List, length, MatchBool, MatchOption};
ghost use Rattle.check_point.specs.Checks.{AreEntries, entry_bytes};

use plain_bytes::MOST_SAVED;

// The bytes of the first machine, which is of this kind, and what is behind it; None where there is
// no such machine.
pub fn entry_of(place: u8, bytes: &[u8]) -> Option<(&[u8], &[u8])>
    ensures { MatchOption result ((saved rest : List ℕ) → length saved ≤ 240
        → bytes.now ≢ entry_bytes place saved ++ rest)
        (λ found. (length found.0.now ≤ 240)
        × (bytes.now ≡ entry_bytes place found.0.now ++ found.1.now)) }
{
    if bytes.len() < 2 {
        return None;
    }
    let (head, tail) = bytes.split_at(2);
    let len = head[1] as usize;
    if head[0] != place || len > MOST_SAVED || len > tail.len() {
        return None;
    }
    Some(tail.split_at(len))
}

// Whether bytes are those of machines of these kinds.
pub fn are_entries(kinds: &[u8], bytes: &[u8]) -> bool
    ensures { MatchBool result ((saves : List (List ℕ)) × AreEntries kinds.now saves bytes.now)
        ((saves : List (List ℕ)) → ¬ AreEntries kinds.now saves bytes.now) }
{
    match kinds.split_first() {
        None => bytes.is_empty(),
        Some((place, others)) => match entry_of(*place, bytes) {
            None => false,
            Some((_, rest)) => are_entries(others, rest),
        },
    }
}
