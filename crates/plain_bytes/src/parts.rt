// Values that are told by plain parts.
ghost use Rattle.std.specs.Prelude.{◌≡◌, ◌≤◌, ◌+◌, ◌++◌, MatchOption, ℕ, List, length};
ghost use Rattle.plain_bytes.specs.Forms.{ComesBack, IsPutAs, option_map};
ghost use Rattle.plain_bytes.specs.laws.FormLaws.{option_comes_back, pair_comes_back};

use crate::{Plain, Saved, is_put, read_as};

/// A value that plain parts tell. Not all parts need be those of a value: those that aren't are
/// taken for some value, and one sees by its own parts that they are not.
pub trait Parted: Drop {
    /// Its parts: numbers, options and pairs.
    type Parts: Plain;

    /// The parts of a value.
    ghost parts_of: { Self → Self.Parts };

    /// The value of parts.
    ghost value_of: { Self.Parts → Self };

    fn parts(&self) -> Self::Parts
        ensures { result ≡ parts_of self.now };

    fn of_parts(parts: Self::Parts) -> Self
        ensures { result ≡ value_of parts };

    /// The parts tell the value, where they are values of their types.
    ghost comes_back: { ComesBack Self.Parts.fits parts_of value_of };
}

/// Appends the bytes of a value's parts.
pub fn put_parts<T: Parted>(value: &T, into: &mut Saved)
    requires { length into.old.items + T.Parts.most ≤ 240 }
    ensures put { into.new.items ≡ into.old.items ++ T.Parts.bytes_of (T.parts_of value.now) }
    ensures fits { T.Parts.fits (T.parts_of value.now) }
{
    value.parts().put(into);
}

/// The one value whose parts are put as just these bytes; None exactly where there is none.
pub fn get_parts<T: Parted>(bytes: &[u8]) -> Option<T>
    requires { T.Parts.most ≤ 240 }
    ensures { MatchOption result
        ((value : T) → ¬ IsPutAs T.Parts.fits T.Parts.bytes_of (T.parts_of value) bytes.now)
        (λ value. IsPutAs T.Parts.fits T.Parts.bytes_of (T.parts_of value) bytes.now
        × ((other : T) → IsPutAs T.Parts.fits T.Parts.bytes_of (T.parts_of other) bytes.now
        → other ≡ value)) }
{
    let value = T::of_parts(read_as(bytes));
    if is_put(value.parts(), bytes) {
        Some(value)
    } else {
        None
    }
}

impl<T: Parted> Parted for Option<T> {
    type Parts = Option<T::Parts>;

    ghost parts_of = { λ value. option_map T.parts_of value };

    ghost value_of = { λ parts. option_map T.value_of parts };

    fn parts(&self) -> Option<T::Parts> {
        match self {
            Some(value) => Some(value.parts()),
            None => None,
        }
    }

    fn of_parts(parts: Option<T::Parts>) -> Option<T> {
        match parts {
            Some(parts) => Some(T::of_parts(parts)),
            None => None,
        }
    }

    ghost comes_back = { λ value fits. option_comes_back T.Parts.fits T.parts_of T.value_of
        T.comes_back value fits };
}

impl<A: Parted, B: Parted> Parted for (A, B) {
    type Parts = (A::Parts, B::Parts);

    ghost parts_of = { λ pair. (A.parts_of pair.0, B.parts_of pair.1) };

    ghost value_of = { λ parts. (A.value_of parts.0, B.value_of parts.1) };

    fn parts(&self) -> (A::Parts, B::Parts) {
        (self.0.parts(), self.1.parts())
    }

    fn of_parts(parts: (A::Parts, B::Parts)) -> (A, B) {
        (A::of_parts(parts.0), B::of_parts(parts.1))
    }

    ghost comes_back = { λ pair fits. pair_comes_back A.Parts.fits A.parts_of A.value_of
        A.comes_back B.Parts.fits B.parts_of B.value_of B.comes_back pair fits };
}
