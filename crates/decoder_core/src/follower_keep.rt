// A follower is kept as the start of the last packet that counted and, behind it, the bytes of its
// machine.
ghost use Rattle.std.specs.Prelude.{◌≡◌, ℕ, List, true};
ghost use Rattle.decoder_core.specs.Keeping.{FollowerSaves};
ghost use Rattle.decoder_core.specs.laws.KeepLaws.{follower_one_saved};

use crate::follower::Follower;
use crate::{Hold, Keep, PacketMachine, Saved};
use plain_bytes::{Plain, front_of};

impl<D: PacketMachine + Hold> Keep for Follower<D> {
    ghost saves = { λ f bytes. FollowerSaves ⟦<u64 as Plain>⟧.fits ⟦<u64 as Plain>⟧.bytes_of D.puts
        f.machine f.from bytes };

    fn save(&self) -> Saved {
        let mut saved = Saved::new();
        self.from.put(&mut saved);
        self.machine.put(&mut saved);
        saved
    }

    fn load(&mut self, saved: &Saved) -> bool {
        match front_of::<u64>(saved.as_slice()) {
            Some((from, rest)) => {
                if !self.machine.get(rest) {
                    return false;
                }
                self.from = from;
                true
            }
            None => false,
        }
    }

    ghost one_saved = { λ one other input bytes more same d e s t. follower_one_saved D.setup
        D.stands D.wire D.one_machine D.one_form one.machine other.machine one.from other.from input
        bytes more same d e s t };
}
