// What is kept between two packets as bytes.
ghost use Rattle.std.specs.Prelude.{◌≤◌};
ghost use Rattle.std.proofs.Common.{sym, ◌∙◌};
ghost use Rattle.plain_bytes.specs.Forms.{IsPutAs, option_map};

use crate::{OpenTransaction, Transacting, WalkState, Walking};
use decoder_core::{Hold, Saved};
use plain_bytes::{Parted, Plain, get_parts, put_parts};

/// A transaction that is open whose state between two packets is kept as bytes.
pub trait HeldTransaction: OpenTransaction + Parted {
    /// It has at most 160 bytes.
    ghost small: { Self.Parts.most ≤ 160 };
}

// The parts of a transaction, if one is open.
type Parts<O> = Option<<O as Parted>::Parts>;

impl<O: HeldTransaction> Hold for Transacting<O> {
    ghost puts = { λ m bytes. IsPutAs ⟦<Parts<O> as Plain>⟧.fits ⟦<Parts<O> as Plain>⟧.bytes_of
        (option_map O.parts_of m.held) bytes };

    fn put(&self, into: &mut Saved) {
        put_parts(&self.held, into);
    }

    fn get(&mut self, bytes: &[u8]) -> bool {
        match get_parts(bytes) {
            Some(held) => {
                self.held = held;
                true
            }
            None => false,
        }
    }

    ghost one_form = { λ machine one other mine theirs. mine.1 ∙ sym theirs.1 };
}

/// The state of a walk that is kept as bytes.
pub trait HeldWalk: WalkState + Parted {
    /// It has at most 160 bytes.
    ghost small: { Self.Parts.most ≤ 160 };
}

impl<W: HeldWalk> Hold for Walking<W> {
    ghost puts = { λ m bytes. IsPutAs ⟦<<W as Parted>::Parts as Plain>⟧.fits
        ⟦<<W as Parted>::Parts as Plain>⟧.bytes_of (W.parts_of m.held) bytes };

    fn put(&self, into: &mut Saved) {
        put_parts(&self.held, into);
    }

    fn get(&mut self, bytes: &[u8]) -> bool {
        match get_parts(bytes) {
            Some(held) => {
                self.held = held;
                true
            }
            None => false,
        }
    }

    ghost one_form = { λ machine one other mine theirs. mine.1 ∙ sym theirs.1 };
}
