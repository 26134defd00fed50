// What each decoder is, and what its options mean, in words: what the table of kinds doesn't say.
ghost use Rattle.std.specs.Prelude.{◌≡◌, length, map};
ghost use Rattle.kind_table.specs.Kinds.{kind_row};
ghost use Rattle.help_text.specs.Meanings.{meanings_of, what_of};

use kind_table::Kind;

// The low bits of a device's address.
const LOW_ADDRESS: &str = "the lowest three bits of its address";

// What a general call does to a device.
const GENERAL_CALL: &str = "1 if a general call's reset clears its pointer";

// The options of each decoder that has some, in the order of the table of kinds. No text of an
// option that isn't a channel speaks of channels: by that word the two are told apart.
const I2C: &[&str] = &["the clock line", "the data line"];

const SPI: &[&str] = &[
    "the clock line",
    "the data to the device",
    "the data from the device",
    "the line that selects the device",
    "the level of the clock at rest",
    "the edge that reads a bit, 0 for the first",
    "bits of a word",
    "the bit that comes first, and the level of cs that selects",
];

const UART: &[&str] = &[
    "the line",
    "bits a second",
    "data bits of a frame",
    "the parity bit of a frame",
    "stop bits of a frame",
    "where in a bit it is read, in percent",
];

const OW_LINK: &[&str] = &[
    "the line",
    "the shortest reset, in ns",
    "the wait for an answer, in ns",
    "a shorter pulse is a 1, in ns",
];

const EEPROM24: &[&str] = &[
    LOW_ADDRESS,
    "bytes of the device",
    "bytes of a page",
    GENERAL_CALL,
];

const DS1307: &[&str] = &[GENERAL_CALL];

const LM75: &[&str] = &[LOW_ADDRESS, GENERAL_CALL];

const MODBUS: &[&str] = &["the silence between messages, in ns"];

/// What a decoder decodes.
pub fn what_of(kind: Kind) -> &'static str
    ensures { result.now ≡ what_of kind }
{
    match kind {
        Kind::I2c => "an I2C bus",
        Kind::Spi => "an SPI bus",
        Kind::Uart => "a serial line",
        Kind::OwLink => "the pulses of a 1-Wire line",
        Kind::OwNet => "the bytes of a 1-Wire network",
        Kind::Eeprom24 => "24xx EEPROMs",
        Kind::Ds1307 => "the clock DS1307",
        Kind::Lm75 => "the thermometer LM75",
        Kind::Ds18b20 => "the thermometer DS18B20",
        Kind::Flash25 => "serial flash of the 25 series",
        Kind::Modbus => "messages of Modbus RTU",
        Kind::Midi => "messages of MIDI 1.0",
    }
}

/// What the options of a decoder mean, in the order of the table of kinds.
pub fn meanings_of(kind: Kind) -> &'static [&'static str]
    ensures meanings { map (λ meaning. meaning.now) result.now ≡ meanings_of kind }
    ensures each_option { length result.now ≡ length (kind_row kind).options }
{
    match kind {
        Kind::I2c => I2C,
        Kind::Spi => SPI,
        Kind::Uart => UART,
        Kind::OwLink => OW_LINK,
        Kind::Eeprom24 => EEPROM24,
        Kind::Ds1307 => DS1307,
        Kind::Lm75 => LM75,
        Kind::Modbus => MODBUS,
        Kind::OwNet | Kind::Ds18b20 | Kind::Flash25 | Kind::Midi => &[],
    }
}
