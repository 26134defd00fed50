// Options of plain values.
ghost use Rattle.std.specs.Prelude.{◌≡◌, ◌+◌};
ghost use Rattle.plain_bytes.specs.Forms.{option_at, option_bytes, option_fits};
ghost use Rattle.plain_bytes.specs.laws.FormLaws.{option_at_most, option_back};

use crate::{Plain, Saved};

impl<T: Plain> Plain for Option<T> {
    ghost fits = { λ value. option_fits T.fits value };

    ghost bytes_of = { λ value. option_bytes T.bytes_of value };

    ghost read = { λ bytes. option_at T.read bytes };

    ghost most = { 1 + T.most };

    fn put(self, into: &mut Saved) {
        match self {
            Some(value) => {
                into.push(1);
                value.put(into);
            }
            None => into.push(0),
        }
    }

    fn get(bytes: &[u8]) -> (Option<T>, &[u8]) {
        match bytes.split_first() {
            Some((byte, rest)) => {
                if *byte == 0 {
                    (None, rest)
                } else {
                    let (value, rest) = T::get(rest);
                    (Some(value), rest)
                }
            }
            None => (None, bytes),
        }
    }

    ghost reads_back = { λ value rest fits. option_back T.fits T.bytes_of T.read T.reads_back value
        rest fits };

    ghost at_most = { λ value. option_at_most T.fits T.bytes_of T.read T.reads_back T.most T.at_most
        value };
}
