// A decoder of the link between two edges as bytes.
ghost use Rattle.std.proofs.Common.{sym, ◌∙◌};
ghost use Rattle.plain_bytes.specs.Forms.{IsPutAs};
ghost use Rattle.dec_onewire.specs.Kept.{link_back, link_of, link_parts};

use super::{Held, OwLink};
use decoder_core::{Hold, Saved};
use plain_bytes::{Parted, Plain, get_parts, put_parts};

// Where the pulse began, and where the last one ended if it was a reset.
type Parts = (Option<u64>, Option<u64>);

impl Parted for Held {
    type Parts = Parts;

    ghost parts_of = { λ held. link_parts held };

    ghost value_of = { λ parts. link_of parts };

    fn parts(&self) -> Parts {
        (self.fall, self.reset_end)
    }

    fn of_parts(parts: Parts) -> Held {
        Held {
            fall: parts.0,
            reset_end: parts.1,
        }
    }

    ghost comes_back = { λ held fits. link_back held };
}

impl Hold for OwLink {
    ghost puts = { λ machine bytes. IsPutAs ⟦<Parts as Plain>⟧.fits ⟦<Parts as Plain>⟧.bytes_of
        (link_parts machine.held) bytes };

    fn put(&self, into: &mut Saved) {
        put_parts(&self.held, into);
    }

    fn get(&mut self, bytes: &[u8]) -> bool {
        match get_parts(bytes) {
            Some(held) => {
                self.held = held;
                true
            }
            None => false,
        }
    }

    ghost one_form = { λ machine one other mine theirs. mine.1 ∙ sym theirs.1 };
}
