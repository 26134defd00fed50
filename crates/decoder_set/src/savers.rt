// Which bytes a machine of each kind saves.
ghost use Rattle.std.proofs.Common.{sym, ◌∙◌};
ghost use Rattle.decoder_set.specs.Saving.{Savers};
ghost use Rattle.kind_table.specs.declared.kinds.Kind.TheVariants as kind;
ghost use Rattle.decoder_set.specs.laws.SavedLaws.{OneSavers, drivers_alike, followers_alike};

use dec_i2c::I2c;
use dec_midi::Midi;
use dec_modbus::Modbus;
use dec_onewire::{OwLink, OwNet};
use dec_spi::Spi;
use dec_uart::Uart;
use decoder_core::{Driver, Follower, Keep};
use dev_ds18b20::Probe;
use dev_ds1307::Clock;
use dev_eeprom24::Eeprom;
use dev_flash25::Flash;
use dev_lm75::Lm75;
use i2c_phases::Phased;

/// What machines of each kind save. Nothing is done with a value of it.
pub struct EachKind {}

/// A table of what is saved, by kinds.
pub trait SavedByKind {
    /// The bytes that a machine of a kind saves.
    ghost saves: { Savers };

    /// Two machines of a kind that hold the same save the same.
    ghost one_saved: { OneSavers saves };
}

impl SavedByKind for EachKind {
    ghost saves = { elim [
      | kind.I2c ↦ ⟦<Driver<I2c> as Keep>⟧.saves
      | kind.Spi ↦ ⟦<Driver<Spi> as Keep>⟧.saves
      | kind.Uart ↦ ⟦<Driver<Uart> as Keep>⟧.saves
      | kind.OwLink ↦ ⟦<Driver<OwLink> as Keep>⟧.saves
      | kind.OwNet ↦ ⟦<Follower<OwNet> as Keep>⟧.saves
      | kind.Eeprom24 ↦ ⟦<Follower<Phased<Eeprom>> as Keep>⟧.saves
      | kind.Ds1307 ↦ ⟦<Follower<Phased<Clock>> as Keep>⟧.saves
      | kind.Lm75 ↦ ⟦<Follower<Phased<Lm75>> as Keep>⟧.saves
      | kind.Ds18b20 ↦ ⟦<Follower<Probe> as Keep>⟧.saves
      | kind.Flash25 ↦ ⟦<Follower<Flash> as Keep>⟧.saves
      | kind.Modbus ↦ ⟦<Follower<Modbus> as Keep>⟧.saves
      | kind.Midi ↦ ⟦<Follower<Midi> as Keep>⟧.saves
    ] };

    ghost one_saved = { elim [
      | kind.I2c ↦ drivers_alike (λ machine one other mine theirs. mine.1 ∙ sym theirs.1)
      | kind.Spi ↦ drivers_alike (λ machine one other mine theirs. mine.1 ∙ sym theirs.1)
      | kind.Uart ↦ drivers_alike (λ machine one other mine theirs. mine.1 ∙ sym theirs.1)
      | kind.OwLink ↦ drivers_alike (λ machine one other mine theirs. mine.1 ∙ sym theirs.1)
      | kind.OwNet ↦ followers_alike (λ machine one other mine theirs. mine.1 ∙ sym theirs.1)
      | kind.Eeprom24 ↦ followers_alike (λ machine one other mine theirs. mine.1 ∙ sym theirs.1)
      | kind.Ds1307 ↦ followers_alike (λ machine one other mine theirs. mine.1 ∙ sym theirs.1)
      | kind.Lm75 ↦ followers_alike (λ machine one other mine theirs. mine.1 ∙ sym theirs.1)
      | kind.Ds18b20 ↦ followers_alike (λ machine one other mine theirs. mine.1 ∙ sym theirs.1)
      | kind.Flash25 ↦ followers_alike (λ machine one other mine theirs. mine.1 ∙ sym theirs.1)
      | kind.Modbus ↦ followers_alike (λ machine one other mine theirs. mine.1 ∙ sym theirs.1)
      | kind.Midi ↦ followers_alike (λ machine one other mine theirs. mine.1 ∙ sym theirs.1)
    ] };
}
