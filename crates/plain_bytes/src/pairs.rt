// Pairs of plain values.
ghost use Rattle.std.specs.Prelude.{◌≡◌, ◌+◌, ◌++◌};
ghost use Rattle.plain_bytes.specs.Forms.{pair_at};
ghost use Rattle.plain_bytes.specs.laws.FormLaws.{pair_at_most, pair_back};

use crate::{Plain, Saved};

impl<A: Plain, B: Plain> Plain for (A, B) {
    ghost fits = { λ pair. A.fits pair.0 × B.fits pair.1 };

    ghost bytes_of = { λ pair. A.bytes_of pair.0 ++ B.bytes_of pair.1 };

    ghost read = { λ bytes. pair_at A.read B.read bytes };

    ghost most = { A.most + B.most };

    fn put(self, into: &mut Saved) {
        self.0.put(into);
        self.1.put(into);
    }

    fn get(bytes: &[u8]) -> ((A, B), &[u8]) {
        let (one, rest) = A::get(bytes);
        let (other, rest) = B::get(rest);
        ((one, other), rest)
    }

    ghost reads_back = { λ pair rest fits. pair_back A.fits A.bytes_of A.read A.reads_back B.fits
        B.bytes_of B.read B.reads_back pair rest fits };

    ghost at_most = { λ pair. pair_at_most A.fits A.bytes_of A.read A.reads_back B.fits B.bytes_of
        B.read B.reads_back A.most B.most A.at_most B.at_most pair };
}
