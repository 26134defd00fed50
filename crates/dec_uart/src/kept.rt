// A decoder between two stops as bytes.
ghost use Rattle.std.proofs.Common.{sym, ◌∙◌};
ghost use Rattle.plain_bytes.specs.Forms.{IsPutAs};
ghost use Rattle.dec_uart.specs.Kept.{held_back, held_of, held_parts};

use crate::{Held, Uart};
use decoder_core::{Hold, Saved};
use plain_bytes::{Parted, Plain, get_parts, put_parts};

// The place of a variant, where its frame starts, and its points: how many, their levels, and how
// far they reach.
type Parts = (u8, (u64, (u8, (u16, u64))));

impl Parted for Held {
    type Parts = Parts;

    ghost parts_of = { λ held. held_parts held };

    ghost value_of = { λ parts. held_of parts };

    fn parts(&self) -> Parts {
        match *self {
            Held::Idle => (0, (0, (0, (0, 0)))),
            Held::Inside {
                start,
                points,
                word,
                reached,
            } => (1, (start, (points, (word, reached)))),
            Held::Low { start } => (2, (start, (0, (0, 0)))),
        }
    }

    fn of_parts(parts: Parts) -> Held {
        let (place, (start, (points, (word, reached)))) = parts;
        match place {
            0 => Held::Idle,
            1 => Held::Inside {
                start,
                points,
                word,
                reached,
            },
            _ => Held::Low { start },
        }
    }

    ghost comes_back = { λ held fits. held_back held };
}

impl Hold for Uart {
    ghost puts = { λ machine bytes. IsPutAs ⟦<Parts as Plain>⟧.fits ⟦<Parts as Plain>⟧.bytes_of
        (held_parts machine.held) bytes };

    fn put(&self, into: &mut Saved) {
        put_parts(&self.held, into);
    }

    fn get(&mut self, bytes: &[u8]) -> bool {
        match get_parts(bytes) {
            Some(held) => {
                self.held = held;
                true
            }
            None => false,
        }
    }

    ghost one_form = { λ machine one other mine theirs. mine.1 ∙ sym theirs.1 };
}
