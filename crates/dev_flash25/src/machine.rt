// A serial flash by its transactions.
ghost use Rattle.std.specs.Prelude.{◌≡◌, []};
ghost use Rattle.la_base.specs.declared.wires.Wire.TheVariants.{Spi as SpiWire};
ghost use Rattle.dev_flash25.specs.Flash.{flash, is_word};
ghost use Rattle.dev_flash25.specs.laws.Held.{flash_steps, open_kept};
ghost use Rattle.dev_flash25.specs.laws.SoundLaws.{flash_fits, flash_sound};
ghost use Rattle.dev_flash25.specs.laws.WordLaws.{flash_pushed};

use crate::closing::give_summary;
use crate::words::{give_word, words_next};
use crate::{Flash, FlashOpts, Open, Words};
use decoder_core::{Follower, Outs, is_send};
use la_base::{Packet, PacketKind, Wire};
use packet_walks::OpenTransaction;

fn is_word(kind: PacketKind) -> bool
    ensures { result ≡ is_word kind }
{
    matches!(kind, PacketKind::SpiWord)
}

impl OpenTransaction for Open {
    type Opts = FlashOpts;

    ghost opts = { record {} };

    ghost wire = { SpiWire };

    ghost device = { flash };

    ghost steps = { flash_steps };

    ghost kept = { open_kept };

    ghost fits = { flash_fits };

    fn wants() -> Wire {
        Wire::Spi
    }

    fn begins(packet: Packet) -> bool {
        matches!(packet.kind, PacketKind::SpiSelect)
    }

    fn ends(packet: Packet) -> bool {
        matches!(packet.kind, PacketKind::SpiDeselect)
    }

    fn begin(packet: Packet) -> Open {
        Open {
            start: packet.start,
            words: Words::Empty,
        }
    }

    fn take(&mut self, packet: Packet, into: &mut Outs) {
        if is_word(packet.kind) {
            give_word(self.words, packet, into);
            self.words = words_next(self.words, packet);
        }
    }

    fn close(&self, into: &mut Outs) {
        give_summary(self.words, into);
    }

    fn near(&self, _from: u64) -> u64 {
        self.start
    }

    ghost pushed = { flash_pushed };

    ghost sound = { flash_sound };
}

// It may move to another thread, and so may what feeds it.
fn machine_is_send() {
    is_send::<Follower<Flash>>();
}
