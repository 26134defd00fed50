// Machines are loaded one after another, up to the first that refuses its bytes.
ghost use Rattle.std.specs.Prelude.{◌≡◌, ◌≢◌, ◌<◌, ◌≤◌, ℕ, List, [], length, MatchOption, get_or};
ghost use Rattle.std.specs.Prelude.{true, false};
ghost use Rattle.check_point.specs.Checks.{AreEntries};
ghost use Rattle.check_point.specs.Loading.{IsLoaded, LoadedTo, NoneSaves};

use crate::entries::entry_of;
use decoder_core::{Keep, Saved};

// Bytes as those that a machine saves. There is room for them, so that no error comes.
fn saved_of(bytes: &[u8]) -> Saved
    requires { length bytes.now ≤ 240 }
    ensures { result.items ≡ bytes.now }
{
    let mut saved = Saved::new();
    let _ = saved.try_extend_from_slice(bytes);
    saved
}

// One machine takes bytes.
fn load_at<M: Keep>(machines: &mut [M], at: usize, bytes: &[u8]) -> bool
    requires within { at < length machines.old }
    requires few { length bytes.now ≤ 240 }
    ensures count { length machines.new ≡ length machines.old }
    ensures others { (j : ℕ) (d : M) → j ≢ at → get_or machines.new j d ≡ get_or machines.old j d }
    ensures loaded { result ≡ true → (d : M)
        → IsLoaded M.setup M.consumed M.saves (get_or machines.old at d) (get_or machines.new at d)
        bytes.now }
    ensures same { result ≡ false → machines.new ≡ machines.old }
    ensures none { result ≡ false → (d : M)
        → NoneSaves M.setup M.consumed M.saves (get_or machines.old at d) bytes.now }
{
    machines[at].load(&saved_of(bytes))
}

/// Loads machines from the bytes of a check of their kinds. Answers the first machine of whose
/// setup none saves its bytes; those before it are loaded then, and the others are as before. None
/// where all are loaded.
pub fn load_all<M: Keep>(kinds: &[u8], bytes: &[u8], machines: &mut [M]) -> Option<usize>
    requires count { length kinds.now ≡ length machines.old }
    requires form { (saves : List (List ℕ)) × AreEntries kinds.now saves bytes.now }
    ensures { (saves : List (List ℕ)) → AreEntries kinds.now saves bytes.now → MatchOption result
        (LoadedTo M.setup M.consumed M.saves machines.old machines.new saves (length kinds.now))
        (λ at. (at < length kinds.now) × LoadedTo M.setup M.consumed M.saves machines.old
        machines.new saves at
        × ((d : M) → NoneSaves M.setup M.consumed M.saves (get_or machines.old at d)
        (get_or saves at []))) }
{
    let mut rest = bytes;
    for at in 0..kinds.len() {
        match entry_of(kinds[at], rest) {
            Some((saved, behind)) => {
                if !load_at(machines, at, saved) {
                    return Some(at);
                }
                rest = behind;
            }
            None => return Some(at),
        }
    }
    None
}
