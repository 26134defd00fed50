// What plain values owe.
ghost use Rattle.std.specs.Prelude.{◌≡◌, ◌≤◌, ◌+◌, ◌++◌, ℕ, List, length};
ghost use Rattle.plain_bytes.specs.Forms.{ReadsBack, IsAtMost};

use arrayvec::ArrayVec;

/// How many bytes a machine saves at most.
pub const MOST_SAVED: usize = 240;

/// The bytes that are saved.
pub type Saved = ArrayVec<u8, 240>;

/// A value that is put as bytes. Reading is total: bytes that no value is put as are read as some
/// value, and one sees by putting this again that they are not its own.
pub trait Plain: Copy {
    /// It is a value of its type: its numbers are in their ranges.
    ghost fits: { Self → Type 0 };

    /// The bytes that it is put as.
    ghost bytes_of: { Self → List ℕ };

    /// What bytes begin with, and what is left of them.
    ghost read: { List ℕ → Self × List ℕ };

    /// How many bytes it has at most.
    ghost most: { ℕ };

    /// Appends its bytes.
    fn put(self, into: &mut Saved)
        requires { length into.old.items + most ≤ 240 }
        ensures put { into.new.items ≡ into.old.items ++ bytes_of self }
        ensures fits { fits self };

    /// Reads a value at the front, and answers what is behind it.
    fn get(bytes: &[u8]) -> (Self, &[u8])
        ensures value { result.0 ≡ (read bytes.now).0 }
        ensures rest { result.1.now ≡ (read bytes.now).1 };

    /// What was put is read back, whatever follows it.
    ghost reads_back: { ReadsBack fits bytes_of read };

    /// It has at most so many bytes.
    ghost at_most: { IsAtMost bytes_of most };
}
