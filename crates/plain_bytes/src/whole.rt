// Whole bytes, and their front.
ghost use Rattle.std.specs.Prelude.{◌≡◌, ◌≤◌, ◌↔◌, IsTrue, MatchOption, List, ℕ};
ghost use Rattle.plain_bytes.specs.Forms.{BeginsWith, IsFront};

use crate::{Plain, Saved};

/// What bytes are read as; what is behind it doesn't count.
pub fn read_as<T: Plain>(bytes: &[u8]) -> T
    ensures { result ≡ (T.read bytes.now).0 }
{
    T::get(bytes).0
}

/// Whether bytes are just those that a value is put as.
pub fn is_put<T: Plain>(value: T, bytes: &[u8]) -> bool
    requires { T.most ≤ 240 }
    ensures put { IsTrue result ↔ (T.bytes_of value ≡ bytes.now) }
    ensures fits { T.fits value }
{
    let mut own = Saved::new();
    value.put(&mut own);
    own.as_slice() == bytes
}

/// The value that bytes begin with, and what is behind it; None where no value's bytes stand at the
/// front.
pub fn front_of<T: Plain>(bytes: &[u8]) -> Option<(T, &[u8])>
    requires { T.most ≤ 240 }
    ensures { MatchOption result ((x : T) (rest : List ℕ)
        → ¬ BeginsWith T.fits T.bytes_of bytes.now x rest)
        (λ found. IsFront T.fits T.bytes_of bytes.now found.0 found.1.now) }
{
    let (value, rest) = T::get(bytes);
    let front = bytes.len().saturating_sub(rest.len());
    let (own, behind) = bytes.split_at(front);
    if is_put(value, own) {
        Some((value, behind))
    } else {
        None
    }
}
