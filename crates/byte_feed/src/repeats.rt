// How many bytes two texts have in common.
ghost use Rattle.std.specs.Prelude.{◌≡◌, ◌<◌, ◌≤◌, ◌+◌, ℕ, drop, take, length, slice_index};
ghost use Rattle.std.specs.Int.{w64, from_le_bytes};

// How many bytes a word has.
const WORD: usize = 8;

// The number of the word behind the first `at` bytes, its lowest byte first.
#[inline(always)]
fn word_at(bytes: &[u8], at: usize) -> u64
    requires { at + 8 ≤ length bytes.now }
    ensures { result ≡ from_le_bytes w64 (take 8 (drop at bytes.now)) }
{
    let (words, _) = bytes[at..at + WORD].as_chunks::<WORD>();
    u64::from_le_bytes(words[0])
}

/// How many bytes at the front two texts have in common, the second of which is no longer. They are
/// compared by words: the last bytes, where they are no whole word, aren't looked at.
#[inline(always)]
pub fn common(one: &[u8], other: &[u8]) -> usize
    requires { length other.now ≤ length one.now }
    ensures within { result ≤ length other.now }
    ensures same { (k : ℕ) → k < result → slice_index one.now k ≡ slice_index other.now k }
{
    let mut same = 0;
    while other.len() - same >= WORD {
        let differing = word_at(one, same) ^ word_at(other, same);
        if differing != 0 {
            return same + (differing.trailing_zeros() / 8) as usize;
        }
        same += WORD;
    }
    same
}
