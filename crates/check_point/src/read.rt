// A check is read.
ghost use Rattle.std.specs.Prelude.{◌≡◌, ◌≢◌, ◌≤◌, ◌+◌, ◌^◌, ◌∷◌, ◌++◌, ℕ, List, length};
ghost use Rattle.std.specs.Prelude.{MatchOption};
ghost use Rattle.std.specs.Int.{w64, to_be_bytes};
ghost use Rattle.hex.specs.Hex.{decode_of};
ghost use Rattle.check_point.specs.Checks.{IsCheck};
ghost use Rattle.check_point.specs.Loading.{Reads};

use crate::entries::are_entries;
use crate::load::load_all;
use crate::write::Check;
use crate::{CheckFault, CheckWhy};
use decoder_core::Keep;
use plain_bytes::front_of;

// The bytes of a word; None where it is no hexadecimal form of any.
fn bytes_of(word: &str) -> Option<Check>
    requires { length word.now ≤ 4096 }
    ensures { MatchOption result ((bytes : List ℕ) → decode_of word.now ≢ Ok bytes)
        (λ check. decode_of word.now ≡ Ok check.items) }
{
    let mut room = [0u8; 2048];
    let len = word.len() / 2;
    if hex::decode_to_slice(word, &mut room[..len]).is_err() {
        return None;
    }
    let mut check = Check::new();
    let _ = check.try_extend_from_slice(&room[..len]);
    Some(check)
}

// The number of samples of a check of so many machines, and what is behind its head.
fn head_of(bytes: &[u8], count: usize) -> Option<(u64, &[u8])>
    requires { count ≤ 8 }
    ensures { MatchOption result ((samples : ℕ) (tail : List ℕ) → samples ≤ 2 ^ 59
        → bytes.now ≢ 1 ∷ to_be_bytes w64 samples ++ count ∷ tail)
        (λ head. (head.0 ≤ 2 ^ 59)
        × (bytes.now ≡ 1 ∷ to_be_bytes w64 head.0 ++ count ∷ head.1.now)) }
{
    match front_of::<(u8, (u64, u8))>(bytes) {
        Some(((form, (samples, machines)), tail)) => {
            if form == 1 && machines as usize == count && samples <= MOST_SAMPLES {
                Some((samples, tail))
            } else {
                None
            }
        }
        None => None,
    }
}

// How many samples may come before a check.
const MOST_SAMPLES: u64 = 1 << 59;

const NO_FORM: CheckFault = CheckFault {
    instance: 0,
    why: CheckWhy::Form,
};

/// Reads the word of a check of machines of these kinds, loads the machines from it, and answers
/// how many samples it was made behind. Form exactly where it isn't the word of one; no machine has
/// changed then. Fit with the first machine of whose setup none saves its bytes; those before it
/// are loaded then, and the others are as before.
pub fn read_check<M: Keep>(word: &str, machines: &mut [M], kinds: &[u8]) -> Result<u64, CheckFault>
    requires short { length word.now ≤ 4096 }
    requires count { length kinds.now ≡ length machines.old }
    requires most { length kinds.now ≤ 8 }
    ensures { Reads M.setup M.consumed M.saves word.now kinds.now machines.old machines.new result }
{
    match bytes_of(word) {
        Some(check) => match head_of(check.as_slice(), kinds.len()) {
            Some((samples, tail)) => {
                if !are_entries(kinds, tail) {
                    return Err(NO_FORM);
                }
                match load_all(kinds, tail, machines) {
                    Some(at) => Err(CheckFault {
                        instance: at as u32,
                        why: CheckWhy::Fit,
                    }),
                    None => Ok(samples),
                }
            }
            None => Err(NO_FORM),
        },
        None => Err(NO_FORM),
    }
}
