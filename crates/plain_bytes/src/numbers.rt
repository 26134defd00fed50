// Numbers of a fixed width, their highest byte first, and whether something holds.
ghost use Rattle.std.specs.Prelude.{◌≡◌, ◌<◌, ◌≤◌, ◌+◌, ◌^◌, ◌∷◌, ◌++◌, [], length};
ghost use Rattle.std.proofs.Math.Nat.{le_refl};
ghost use Rattle.std.specs.Int.{w16, w32, w64, to_be_bytes};
ghost use Rattle.plain_bytes.specs.Forms.{byte_at, halves_at, halves_bytes, number_at};
ghost use Rattle.plain_bytes.specs.laws.FormLaws.{byte_back, back_16, back_32, back_64, back_128};

use crate::{Plain, Saved};

impl Plain for u8 {
    ghost fits = { λ n. n < 2 ^ 8 };

    ghost bytes_of = { λ n. n ∷ [] };

    ghost read = { λ bytes. byte_at bytes };

    ghost most = { 1 };

    fn put(self, into: &mut Saved) {
        into.push(self);
    }

    fn get(bytes: &[u8]) -> (u8, &[u8]) {
        match bytes.split_first() {
            Some((byte, rest)) => (*byte, rest),
            None => (0, bytes),
        }
    }

    ghost reads_back = { byte_back };

    ghost at_most = { λ n. le_refl 1 };
}

// Appends bytes. There is room for them, so that no error comes.
fn append(into: &mut Saved, bytes: &[u8])
    requires { length into.old.items + length bytes.now ≤ 240 }
    ensures { into.new.items ≡ into.old.items ++ bytes.now }
{
    let _ = into.try_extend_from_slice(bytes);
}

impl Plain for u16 {
    ghost fits = { λ n. n < 2 ^ 16 };

    ghost bytes_of = { λ n. to_be_bytes w16 n };

    ghost read = { λ bytes. number_at w16 bytes };

    ghost most = { 2 };

    fn put(self, into: &mut Saved) {
        append(into, &self.to_be_bytes());
    }

    #[tactic(auto, unfolding(crate::specs::Forms::number_at))]
    fn get(bytes: &[u8]) -> (u16, &[u8]) {
        match bytes.split_first_chunk::<2>() {
            Some((number, rest)) => (u16::from_be_bytes(*number), rest),
            None => (0, &bytes[..0]),
        }
    }

    ghost reads_back = { back_16 };

    ghost at_most = { λ n. le_refl 2 };
}

impl Plain for u32 {
    ghost fits = { λ n. n < 2 ^ 32 };

    ghost bytes_of = { λ n. to_be_bytes w32 n };

    ghost read = { λ bytes. number_at w32 bytes };

    ghost most = { 4 };

    fn put(self, into: &mut Saved) {
        append(into, &self.to_be_bytes());
    }

    #[tactic(auto, unfolding(crate::specs::Forms::number_at))]
    fn get(bytes: &[u8]) -> (u32, &[u8]) {
        match bytes.split_first_chunk::<4>() {
            Some((number, rest)) => (u32::from_be_bytes(*number), rest),
            None => (0, &bytes[..0]),
        }
    }

    ghost reads_back = { back_32 };

    ghost at_most = { λ n. le_refl 4 };
}

impl Plain for u64 {
    ghost fits = { λ n. n < 2 ^ 64 };

    ghost bytes_of = { λ n. to_be_bytes w64 n };

    ghost read = { λ bytes. number_at w64 bytes };

    ghost most = { 8 };

    fn put(self, into: &mut Saved) {
        append(into, &self.to_be_bytes());
    }

    #[tactic(auto, unfolding(crate::specs::Forms::number_at))]
    fn get(bytes: &[u8]) -> (u64, &[u8]) {
        match bytes.split_first_chunk::<8>() {
            Some((number, rest)) => (u64::from_be_bytes(*number), rest),
            None => (0, &bytes[..0]),
        }
    }

    ghost reads_back = { back_64 };

    ghost at_most = { λ n. le_refl 8 };
}

// How many numbers a half of a number of 128 bits can be.
const HALF: u128 = 1 << 64;

impl Plain for u128 {
    ghost fits = { λ n. n < 2 ^ 128 };

    ghost bytes_of = { λ n. halves_bytes n };

    ghost read = { λ bytes. halves_at bytes };

    ghost most = { 16 };

    fn put(self, into: &mut Saved) {
        ((self / HALF) as u64).put(into);
        ((self % HALF) as u64).put(into);
    }

    fn get(bytes: &[u8]) -> (u128, &[u8]) {
        let (high, rest) = u64::get(bytes);
        let (low, rest) = u64::get(rest);
        (high as u128 * HALF + low as u128, rest)
    }

    ghost reads_back = { back_128 };

    ghost at_most = { λ n. le_refl 16 };
}
