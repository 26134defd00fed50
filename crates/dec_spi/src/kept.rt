// A decoder between two events as bytes.
ghost use Rattle.std.proofs.Common.{sym, ◌∙◌};
ghost use Rattle.plain_bytes.specs.Forms.{IsPutAs};
ghost use Rattle.dec_spi.specs.Kept.{held_back, held_of, held_parts};

use crate::{Bits, Held, Spi};
use decoder_core::{Hold, Saved};
use plain_bytes::{Parted, Plain, get_parts, put_parts};

// The place of a variant, and the bits of the present word: how many, their numbers on both lines,
// and where the first stands.
type Parts = (u8, (u8, (u32, (u32, u64))));

impl Parted for Held {
    type Parts = Parts;

    ghost parts_of = { λ held. held_parts held };

    ghost value_of = { λ parts. held_of parts };

    fn parts(&self) -> Parts {
        match *self {
            Held::Fresh => (0, (0, (0, (0, 0)))),
            Held::Outside => (1, (0, (0, (0, 0)))),
            Held::Inside(word) => (2, (word.count, (word.mosi, (word.miso, word.first)))),
        }
    }

    fn of_parts(parts: Parts) -> Held {
        let (place, (count, (mosi, (miso, first)))) = parts;
        match place {
            0 => Held::Fresh,
            1 => Held::Outside,
            _ => Held::Inside(Bits {
                count,
                mosi,
                miso,
                first,
            }),
        }
    }

    ghost comes_back = { λ held fits. held_back held };
}

impl Hold for Spi {
    ghost puts = { λ machine bytes. IsPutAs ⟦<Parts as Plain>⟧.fits ⟦<Parts as Plain>⟧.bytes_of
        (held_parts machine.held) bytes };

    fn put(&self, into: &mut Saved) {
        put_parts(&self.held, into);
    }

    fn get(&mut self, bytes: &[u8]) -> bool {
        match get_parts(bytes) {
            Some(held) => {
                self.held = held;
                true
            }
            None => false,
        }
    }

    ghost one_form = { λ machine one other mine theirs. mine.1 ∙ sym theirs.1 };
}
