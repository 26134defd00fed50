// An EEPROM between two packets as plain parts.
ghost use Rattle.std.specs.Prelude.{◌≡◌};
ghost use Rattle.std.proofs.Common.{lit≤};
ghost use Rattle.dev_eeprom24.specs.Kept.{held_back, held_of, held_parts, one_of_held, word_of};
ghost use Rattle.dev_eeprom24.specs.Kept.{word_parts};

use crate::{Eeprom, Held, Word};
use i2c_phases::HeldDevice;
use plain_bytes::Parted;

// The place of a variant; the first byte and its start; the front of the page, and the place in it.
type WordParts = (u8, ((u8, u64), (u32, u32)));

fn word_parts(word: Word) -> WordParts
    ensures { result ≡ word_parts word }
{
    match word {
        Word::Empty => (0, ((0, 0), (0, 0))),
        Word::Half(high, start) => (1, ((high, start), (0, 0))),
        Word::Whole(front, place) => (2, ((0, 0), (front, place))),
    }
}

fn word_of(parts: WordParts) -> Word
    ensures { result ≡ word_of parts }
{
    let (variant, ((high, start), (front, place))) = parts;
    match variant {
        0 => Word::Empty,
        1 => Word::Half(high, start),
        _ => Word::Whole(front, place),
    }
}

impl Parted for Held {
    type Parts = (u32, WordParts);

    ghost parts_of = { λ held. held_parts held };

    ghost value_of = { λ parts. held_of parts };

    fn parts(&self) -> (u32, WordParts) {
        (self.pointer, word_parts(self.word))
    }

    fn of_parts(parts: (u32, WordParts)) -> Held {
        Held {
            pointer: parts.0,
            word: word_of(parts.1),
        }
    }

    ghost comes_back = { λ held fits. held_back held };
}

impl HeldDevice for Eeprom {
    type Held = Held;

    ghost held = { λ device. device.held };

    fn held(&self) -> Held {
        self.held
    }

    fn hold(&mut self, what: Held) {
        self.held = what;
    }

    ghost one_of_held = { one_of_held };

    ghost small = { lit≤ tt };
}
