// A decoder of any kind is kept as its machine is.
ghost use Rattle.decoder_set.specs.Saving.{SavedBy};
ghost use Rattle.decoder_set.specs.laws.SavedLaws.{any_one_saved};

use crate::AnyDecoder;
use crate::savers::{EachKind, SavedByKind};
use crate::stepping::{load_any, save_any};
use decoder_core::{Keep, Saved};

impl Keep for AnyDecoder {
    ghost saves = { λ d bytes. SavedBy ⟦<EachKind as SavedByKind>⟧.saves d.machine bytes };

    fn save(&self) -> Saved {
        save_any(&self.machine)
    }

    fn load(&mut self, saved: &Saved) -> bool {
        load_any(&mut self.machine, saved)
    }

    ghost one_saved = { λ one other input a b same d e s t. any_one_saved
        ⟦<EachKind as SavedByKind>⟧.saves ⟦<EachKind as SavedByKind>⟧.one_saved one other input a b
        same d e s t };
}
