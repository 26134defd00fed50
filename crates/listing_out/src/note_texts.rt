// The texts of notes.
ghost use Rattle.std.specs.Prelude.{◌≡◌, ◌+◌, ◌≤◌, ◌++◌, length};
ghost use Rattle.listing_out.specs.NoteTexts.{note_text};

use kind_table::Kind;
use la_base::Note;
use line_text::LineBuf;

/// Appends the text of a note, and nothing for a class that the kind doesn't have.
pub fn note_text(kind: Kind, note: Note, buf: &mut LineBuf)
    requires { length buf.old + 64 ≤ 256 }
    ensures text { buf.new ≡ buf.old ++ note_text kind note }
    ensures short { length buf.new ≤ length buf.old + 64 }
{
    match kind {
        Kind::I2c => dec_i2c::text(note, buf),
        Kind::Spi => dec_spi::text(note, buf),
        Kind::Uart => dec_uart::text(note, buf),
        Kind::OwLink => dec_onewire::link::text(note, buf),
        Kind::OwNet => dec_onewire::net::text(note, buf),
        Kind::Eeprom24 => dev_eeprom24::text(note, buf),
        Kind::Ds1307 => dev_ds1307::text(note, buf),
        Kind::Lm75 => dev_lm75::text(note, buf),
        Kind::Ds18b20 => dev_ds18b20::text(note, buf),
        Kind::Flash25 => dev_flash25::text(note, buf),
        Kind::Modbus => dec_modbus::text(note, buf),
        Kind::Midi => dec_midi::text(note, buf),
    }
}
