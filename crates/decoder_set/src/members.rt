// A machine of each kind is a member of the kinds that a decoder can hold.
ghost use Rattle.std.proofs.Common.{refl, sym, ◌∙◌};
ghost use Rattle.la_base.specs.declared.wires.Wire.TheVariants as wire;
ghost use Rattle.decoder_core.specs.Inputs.{counted_samples};
ghost use Rattle.decoder_core.specs.Packets.{counted_packets};
ghost use Rattle.dec_i2c.specs.Bus.{i2c_near, i2c_outs};
ghost use Rattle.dec_modbus.specs.Modbus.{gap_of, modbus_near, modbus_outs};
ghost use Rattle.dec_modbus.specs.laws.ModbusLaws.{same_line as same_modbus};
ghost use Rattle.dec_onewire.specs.Link.{link_near, link_outs};
ghost use Rattle.dec_spi.specs.Bus.{spi_near, spi_outs};
ghost use Rattle.dec_uart.specs.Frames.{uart_near, uart_outs};
ghost use Rattle.dev_ds1307.specs.Clock.{clock_outs};
ghost use Rattle.dev_ds1307.specs.laws.GivenLaws as clock_laws;
ghost use Rattle.dev_eeprom24.specs.Eeprom.{eeprom_outs};
ghost use Rattle.dev_eeprom24.specs.laws.EepromLaws as eeprom_laws;
ghost use Rattle.dev_lm75.specs.Thermometer.{lm75_outs};
ghost use Rattle.dev_lm75.specs.laws.GivenLaws as lm75_laws;
ghost use Rattle.decoder_set.specs.declared.any_machine.AnyMachine.TheVariants as machine;
ghost use Rattle.kind_table.specs.declared.kinds.Kind.TheVariants as kind;
ghost use Rattle.decoder_set.specs.Options.{clock_options, eeprom_options, i2c_options};
ghost use Rattle.decoder_set.specs.Options.{link_options, lm75_options, modbus_options};
ghost use Rattle.decoder_set.specs.Options.{spi_options, uart_options};
ghost use Rattle.decoder_set.specs.Setups.{near_behind};
ghost use Rattle.decoder_set.specs.Views.{IsAny, IsClock, IsEeprom, IsI2c, IsLink, IsLm75};
ghost use Rattle.decoder_set.specs.Views.{IsModbus, IsSpi, IsUart};
ghost use Rattle.decoder_set.specs.laws.MemberLaws.{same_bus, same_dq, same_line, shown};
ghost use Rattle.decoder_set.specs.laws.OneDecoder.{of_kind};
ghost use Rattle.decoder_set.specs.laws.SavedLaws.{saved_as};

use crate::member::Member;
use dec_i2c::I2c;
use dec_midi::Midi;
use dec_modbus::Modbus;
use dec_onewire::{OwLink, OwNet};
use dec_spi::Spi;
use dec_uart::Uart;
use decoder_core::{Driver, Follower};
use dev_ds18b20::Probe;
use dev_ds1307::Clock;
use dev_eeprom24::Eeprom;
use dev_flash25::Flash;
use dev_lm75::Lm75;
use i2c_phases::Phased;

impl Member for Driver<I2c> {
    ghost kind = { kind.I2c };

    ghost held = { λ held. machine.I2c held };

    ghost own = { λ values rate bus. IsI2c (i2c_options values) bus };

    ghost member = { record {
      found = of_kind kind.I2c;
      shows = λ held. shown (machine.I2c held);
      outs_are = λ values rate bus own input.
          (λ i. i2c_outs (sym own.0 i) (sym own.1 i) (counted_samples input));
      near_is = λ values rate bus own input above.
          (λ i. i2c_near (sym own.0 i) (sym own.1 i) (counted_samples input));
      one_setup = λ values rate a b one other.
          same_bus a b (one.0 ∙ sym other.0) (one.1 ∙ sym other.1);
    } };

    ghost saved = { λ held bytes. saved_as (machine.I2c held) bytes };
}

impl Member for Driver<Spi> {
    ghost kind = { kind.Spi };

    ghost held = { λ held. machine.Spi held };

    ghost own = { λ values rate opts. IsSpi (spi_options values) opts };

    ghost member = { record {
      found = of_kind kind.Spi;
      shows = λ held. shown (machine.Spi held);
      outs_are = λ values rate opts own input. (λ i. spi_outs (sym own i) (counted_samples input));
      near_is = λ values rate opts own input above. (λ i. spi_near (sym own i) (counted_samples input));
      one_setup = λ values rate a b one other. one ∙ sym other;
    } };

    ghost saved = { λ held bytes. saved_as (machine.Spi held) bytes };
}

impl Member for Driver<Uart> {
    ghost kind = { kind.Uart };

    ghost held = { λ held. machine.Uart held };

    ghost own = { λ values rate line. IsUart (uart_options values) rate line };

    ghost member = { record {
      found = of_kind kind.Uart;
      shows = λ held. shown (machine.Uart held);
      outs_are = λ values rate line own input.
          (λ i. uart_outs (sym own.0 i) (sym own.1 i) (counted_samples input));
      near_is = λ values rate line own input above.
          (λ i. uart_near (sym own.0 i) (sym own.1 i) (counted_samples input));
      one_setup = λ values rate a b one other.
          same_line a b (one.0 ∙ sym other.0) (one.1 ∙ sym other.1);
    } };

    ghost saved = { λ held bytes. saved_as (machine.Uart held) bytes };
}

impl Member for Driver<OwLink> {
    ghost kind = { kind.OwLink };

    ghost held = { λ held. machine.OwLink held };

    ghost own = { λ values rate line. IsLink (link_options values) rate line };

    ghost member = { record {
      found = of_kind kind.OwLink;
      shows = λ held. shown (machine.OwLink held);
      outs_are = λ values rate line own input.
          (λ i. link_outs (sym own.0 i) (sym own.1 i) (counted_samples input));
      near_is = λ values rate line own input above.
          (λ i. link_near (sym own.0 i) (counted_samples input));
      one_setup = λ values rate a b one other.
          same_dq a b (one.0 ∙ sym other.0) (one.1 ∙ sym other.1);
    } };

    ghost saved = { λ held bytes. saved_as (machine.OwLink held) bytes };
}

impl Member for Follower<OwNet> {
    ghost kind = { kind.OwNet };

    ghost held = { λ held. machine.OwNet held };

    ghost own = { λ values rate setup. IsAny setup };

    ghost member = { record {
      found = of_kind kind.OwNet;
      shows = λ held. shown (machine.OwNet held);
      outs_are = λ values rate setup own input. refl;
      near_is = λ values rate setup own input above. refl;
      one_setup = λ values rate a b one other. refl;
    } };

    ghost saved = { λ held bytes. saved_as (machine.OwNet held) bytes };
}

impl Member for Follower<Phased<Eeprom>> {
    ghost kind = { kind.Eeprom24 };

    ghost held = { λ held. machine.Eeprom24 held };

    ghost own = { λ values rate chip. IsEeprom (eeprom_options values) chip };

    ghost member = { record {
      found = of_kind kind.Eeprom24;
      shows = λ held. shown (machine.Eeprom24 held);
      outs_are = λ values rate chip own input.
          (λ i. eeprom_outs (sym own i) (counted_packets wire.I2c input))
          ∙ sym (eeprom_laws.outs_are chip (counted_packets wire.I2c input));
      near_is = λ values rate chip own input above. refl;
      one_setup = λ values rate a b one other. one ∙ sym other;
    } };

    ghost saved = { λ held bytes. saved_as (machine.Eeprom24 held) bytes };
}

impl Member for Follower<Phased<Clock>> {
    ghost kind = { kind.Ds1307 };

    ghost held = { λ held. machine.Ds1307 held };

    ghost own = { λ values rate chip. IsClock (clock_options values) chip };

    ghost member = { record {
      found = of_kind kind.Ds1307;
      shows = λ held. shown (machine.Ds1307 held);
      outs_are = λ values rate chip own input.
          (λ i. clock_outs (sym own i) (counted_packets wire.I2c input))
          ∙ sym (clock_laws.outs_are chip (counted_packets wire.I2c input));
      near_is = λ values rate chip own input above. refl;
      one_setup = λ values rate a b one other. one ∙ sym other;
    } };

    ghost saved = { λ held bytes. saved_as (machine.Ds1307 held) bytes };
}

impl Member for Follower<Phased<Lm75>> {
    ghost kind = { kind.Lm75 };

    ghost held = { λ held. machine.Lm75 held };

    ghost own = { λ values rate chip. IsLm75 (lm75_options values) chip };

    ghost member = { record {
      found = of_kind kind.Lm75;
      shows = λ held. shown (machine.Lm75 held);
      outs_are = λ values rate chip own input.
          (λ i. lm75_outs (sym own i) (counted_packets wire.I2c input))
          ∙ sym (lm75_laws.outs_are chip (counted_packets wire.I2c input));
      near_is = λ values rate chip own input above. refl;
      one_setup = λ values rate a b one other. one ∙ sym other;
    } };

    ghost saved = { λ held bytes. saved_as (machine.Lm75 held) bytes };
}

impl Member for Follower<Probe> {
    ghost kind = { kind.Ds18b20 };

    ghost held = { λ held. machine.Ds18b20 held };

    ghost own = { λ values rate setup. IsAny setup };

    ghost member = { record {
      found = of_kind kind.Ds18b20;
      shows = λ held. shown (machine.Ds18b20 held);
      outs_are = λ values rate setup own input. refl;
      near_is = λ values rate setup own input above. refl;
      one_setup = λ values rate a b one other. refl;
    } };

    ghost saved = { λ held bytes. saved_as (machine.Ds18b20 held) bytes };
}

impl Member for Follower<Flash> {
    ghost kind = { kind.Flash25 };

    ghost held = { λ held. machine.Flash25 held };

    ghost own = { λ values rate setup. IsAny setup };

    ghost member = { record {
      found = of_kind kind.Flash25;
      shows = λ held. shown (machine.Flash25 held);
      outs_are = λ values rate setup own input. refl;
      near_is = λ values rate setup own input above. refl;
      one_setup = λ values rate a b one other. refl;
    } };

    ghost saved = { λ held bytes. saved_as (machine.Flash25 held) bytes };
}

impl Member for Follower<Modbus> {
    ghost kind = { kind.Modbus };

    ghost held = { λ held. machine.Modbus held };

    ghost own = { λ values rate line. IsModbus (modbus_options values) rate line };

    ghost member = { record {
      found = of_kind kind.Modbus;
      shows = λ held. shown (machine.Modbus held);
      outs_are = λ values rate line own input.
          (λ i. modbus_outs (gap_of (sym own.0 i) (sym own.1 i)) (counted_packets wire.Uart input));
      near_is = λ values rate line own input above.
          (λ i. near_behind (modbus_near (gap_of (sym own.0 i) (sym own.1 i))) wire.Uart input above);
      one_setup = λ values rate a b one other.
          same_modbus a b (one.0 ∙ sym other.0) (one.1 ∙ sym other.1);
    } };

    ghost saved = { λ held bytes. saved_as (machine.Modbus held) bytes };
}

impl Member for Follower<Midi> {
    ghost kind = { kind.Midi };

    ghost held = { λ held. machine.Midi held };

    ghost own = { λ values rate setup. IsAny setup };

    ghost member = { record {
      found = of_kind kind.Midi;
      shows = λ held. shown (machine.Midi held);
      outs_are = λ values rate setup own input. refl;
      near_is = λ values rate setup own input above. refl;
      one_setup = λ values rate a b one other. refl;
    } };

    ghost saved = { λ held bytes. saved_as (machine.Midi held) bytes };
}
