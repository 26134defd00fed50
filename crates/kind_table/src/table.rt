// The table of kinds.
ghost use Rattle.std.specs.Prelude.{◌≡◌, ◌≤◌, ◌<◌, length, map, IfSome};
ghost use Rattle.std.specs.List.{position};
ghost use Rattle.std.specs.Str.{bytes_eq};
ghost use Rattle.kind_table.specs.Kinds.{kind_row, row_of, opt_row, kind_of, class_of};
ghost use Rattle.kind_table.specs.Kinds.{place_of};

use crate::kinds::{Asked, Kind, KindRow, OptForm, OptRow};
use la_base::Wire;

/// The kinds, in the order in which they are told.
pub const KINDS: [Kind; 12] = [
    Kind::I2c,
    Kind::Spi,
    Kind::Uart,
    Kind::OwLink,
    Kind::OwNet,
    Kind::Eeprom24,
    Kind::Ds1307,
    Kind::Lm75,
    Kind::Ds18b20,
    Kind::Flash25,
    Kind::Modbus,
    Kind::Midi,
];

// I2C, by UM10204.
const I2C: KindRow = KindRow {
    name: "i2c",
    input: Wire::Logic,
    output: Wire::I2c,
    options: &[
        OptRow {
            name: "scl",
            form: OptForm::Pin { required: true },
        },
        OptRow {
            name: "sda",
            form: OptForm::Pin { required: true },
        },
    ],
    groups: &[],
    parent: &[],
    classes: &["write", "read"],
};

// SPI, by the formats of its clock.
const SPI: KindRow = KindRow {
    name: "spi",
    input: Wire::Logic,
    output: Wire::Spi,
    options: &[
        OptRow {
            name: "sck",
            form: OptForm::Pin { required: true },
        },
        OptRow {
            name: "mosi",
            form: OptForm::Pin { required: false },
        },
        OptRow {
            name: "miso",
            form: OptForm::Pin { required: false },
        },
        OptRow {
            name: "cs",
            form: OptForm::Pin { required: false },
        },
        OptRow {
            name: "cpol",
            form: OptForm::Number {
                least: 0,
                most: 1,
                usual: 0,
            },
        },
        OptRow {
            name: "cpha",
            form: OptForm::Number {
                least: 0,
                most: 1,
                usual: 0,
            },
        },
        OptRow {
            name: "bits",
            form: OptForm::Number {
                least: 1,
                most: 32,
                usual: 8,
            },
        },
        OptRow {
            name: "mode",
            form: OptForm::Choice {
                words: &["msb_low", "msb_high", "lsb_low", "lsb_high"],
            },
        },
    ],
    groups: &[&[1, 2]],
    parent: &[],
    classes: &["mosi", "miso"],
};

// Asynchronous serial lines.
const UART: KindRow = KindRow {
    name: "uart",
    input: Wire::Logic,
    output: Wire::Uart,
    options: &[
        OptRow {
            name: "rx",
            form: OptForm::Pin { required: true },
        },
        OptRow {
            name: "baud",
            form: OptForm::Number {
                least: 1,
                most: 10_000_000,
                usual: 9600,
            },
        },
        OptRow {
            name: "bits",
            form: OptForm::Number {
                least: 5,
                most: 9,
                usual: 8,
            },
        },
        OptRow {
            name: "parity",
            form: OptForm::Choice {
                words: &["none", "odd", "even", "zero", "one"],
            },
        },
        OptRow {
            name: "stop",
            form: OptForm::Number {
                least: 1,
                most: 2,
                usual: 1,
            },
        },
        OptRow {
            name: "sp",
            form: OptForm::Number {
                least: 1,
                most: 99,
                usual: 50,
            },
        },
    ],
    groups: &[],
    parent: &[],
    classes: &["data"],
};

// The link of 1-Wire, by Maxim's application note 126.
const OW_LINK: KindRow = KindRow {
    name: "onewire_link",
    input: Wire::Logic,
    output: Wire::OwLink,
    options: &[
        OptRow {
            name: "dq",
            form: OptForm::Pin { required: true },
        },
        OptRow {
            name: "reset",
            form: OptForm::Number {
                least: 1,
                most: 1_000_000_000,
                usual: 480_000,
            },
        },
        OptRow {
            name: "window",
            form: OptForm::Number {
                least: 1,
                most: 1_000_000_000,
                usual: 100_000,
            },
        },
        OptRow {
            name: "bit",
            form: OptForm::Number {
                least: 1,
                most: 1_000_000_000,
                usual: 20_000,
            },
        },
    ],
    groups: &[],
    parent: &[],
    classes: &[],
};

// The network of 1-Wire, by application notes 126, 187 and 27.
const OW_NET: KindRow = KindRow {
    name: "onewire_net",
    input: Wire::OwLink,
    output: Wire::OwNet,
    options: &[],
    groups: &[],
    parent: &[],
    classes: &["data"],
};

// EEPROMs of the 24xx family, on I2C.
const EEPROM24: KindRow = KindRow {
    name: "eeprom24",
    input: Wire::I2c,
    output: Wire::Nothing,
    options: &[
        OptRow {
            name: "addr",
            form: OptForm::Number {
                least: 0,
                most: 7,
                usual: 0,
            },
        },
        OptRow {
            name: "size",
            form: OptForm::Choice {
                words: &["256", "128", "4096", "8192", "16384", "32768", "65536"],
            },
        },
        OptRow {
            name: "page",
            form: OptForm::Choice {
                words: &["8", "16", "32", "64", "128"],
            },
        },
        OptRow {
            name: "gcall",
            form: OptForm::Number {
                least: 0,
                most: 1,
                usual: 0,
            },
        },
    ],
    groups: &[],
    parent: &[],
    classes: &["write", "read"],
};

// The clock DS1307, on I2C.
const DS1307: KindRow = KindRow {
    name: "ds1307",
    input: Wire::I2c,
    output: Wire::Nothing,
    options: &[OptRow {
        name: "gcall",
        form: OptForm::Number {
            least: 0,
            most: 1,
            usual: 0,
        },
    }],
    groups: &[],
    parent: &[],
    classes: &["write", "read"],
};

// The thermometer LM75, on I2C.
const LM75: KindRow = KindRow {
    name: "lm75",
    input: Wire::I2c,
    output: Wire::Nothing,
    options: &[
        OptRow {
            name: "addr",
            form: OptForm::Number {
                least: 0,
                most: 7,
                usual: 0,
            },
        },
        OptRow {
            name: "gcall",
            form: OptForm::Number {
                least: 0,
                most: 1,
                usual: 0,
            },
        },
    ],
    groups: &[],
    parent: &[],
    classes: &[],
};

// The thermometer DS18B20, on 1-Wire.
const DS18B20: KindRow = KindRow {
    name: "ds18b20",
    input: Wire::OwNet,
    output: Wire::Nothing,
    options: &[],
    groups: &[],
    parent: &[],
    classes: &["scratchpad"],
};

// Serial flash of the 25 series, on SPI, of which it asks words of eight bits.
const FLASH25: KindRow = KindRow {
    name: "flash25",
    input: Wire::Spi,
    output: Wire::Nothing,
    options: &[],
    groups: &[],
    parent: &[Asked { row: 6, number: 8 }],
    classes: &["read", "program"],
};

// Modbus RTU, on a serial line, of which it asks data of eight bits.
const MODBUS: KindRow = KindRow {
    name: "modbus",
    input: Wire::Uart,
    output: Wire::Nothing,
    options: &[OptRow {
        name: "gap",
        form: OptForm::Number {
            least: 1,
            most: 1_000_000_000,
            usual: 4_000_000,
        },
    }],
    groups: &[],
    parent: &[Asked { row: 2, number: 8 }],
    classes: &[],
};

// MIDI 1.0, on a serial line, of which it asks data of eight bits.
const MIDI: KindRow = KindRow {
    name: "midi",
    input: Wire::Uart,
    output: Wire::Nothing,
    options: &[],
    groups: &[],
    parent: &[Asked { row: 2, number: 8 }],
    classes: &[],
};

/// The row of a kind.
pub fn row(kind: Kind) -> KindRow
    ensures row { row_of result ≡ kind_row kind }
    ensures short { length result.name.now ≤ 16 }
    ensures few { length result.options.now ≤ 8 }
    ensures few_classes { length result.classes.now ≤ 16 }
{
    match kind {
        Kind::I2c => I2C,
        Kind::Spi => SPI,
        Kind::Uart => UART,
        Kind::OwLink => OW_LINK,
        Kind::OwNet => OW_NET,
        Kind::Eeprom24 => EEPROM24,
        Kind::Ds1307 => DS1307,
        Kind::Lm75 => LM75,
        Kind::Ds18b20 => DS18B20,
        Kind::Flash25 => FLASH25,
        Kind::Modbus => MODBUS,
        Kind::Midi => MIDI,
    }
}

/// The number of a kind in a checkpoint. What was written is read again, so that numbers are only
/// added: a further kind takes the next one, and none is ever given anew.
pub fn place_of(kind: Kind) -> u8
    ensures { result ≡ place_of kind }
{
    match kind {
        Kind::I2c => 0,
        Kind::Spi => 1,
        Kind::Uart => 2,
        Kind::OwLink => 3,
        Kind::OwNet => 4,
        Kind::Eeprom24 => 5,
        Kind::Ds1307 => 6,
        Kind::Lm75 => 7,
        Kind::Ds18b20 => 8,
        Kind::Flash25 => 9,
        Kind::Modbus => 10,
        Kind::Midi => 11,
    }
}

/// The kind of this name.
pub fn kind_of(name: &[u8]) -> Option<Kind>
    ensures { result ≡ kind_of name.now }
{
    KINDS
        .iter()
        .copied()
        .find(|kind| kind_name(*kind).as_bytes() == name)
}

/// The name of a kind.
pub fn kind_name(kind: Kind) -> &'static str
    ensures name { result.now ≡ (kind_row kind).name }
    ensures short { length result.now ≤ 16 }
{
    row(kind).name
}

/// The wire that a kind reads.
pub fn input_of(kind: Kind) -> Wire
    ensures { result ≡ (kind_row kind).input }
{
    row(kind).input
}

/// The wire that a kind gives.
pub fn output_of(kind: Kind) -> Wire
    ensures { result ≡ (kind_row kind).output }
{
    row(kind).output
}

/// The options of a kind, those of channels first.
pub fn options_of(kind: Kind) -> &'static [OptRow]
    ensures options { map opt_row result.now ≡ (kind_row kind).options }
    ensures few { length result.now ≤ 8 }
{
    row(kind).options
}

/// Groups of options of a kind, by their rows, of each of which at least one has to be given.
pub fn groups_of(kind: Kind) -> &'static [&'static [usize]]
    ensures { map (λ group. group.now) result.now ≡ (kind_row kind).groups }
{
    row(kind).groups
}

/// The numbers that a kind asks options of its parent to have.
pub fn asked_of(kind: Kind) -> &'static [Asked]
    ensures { result.now ≡ (kind_row kind).parent }
{
    row(kind).parent
}

/// The names of a kind's classes of binary data.
pub fn classes_of(kind: Kind) -> &'static [&'static str]
    ensures classes { map (λ name. name.now) result.now ≡ (kind_row kind).classes }
    ensures few { length result.now ≤ 16 }
{
    row(kind).classes
}

/// The place of the first of these words that is a text.
pub fn word_place(words: &[&str], text: &[u8]) -> Option<usize>
    ensures place { result ≡ position (λ word. bytes_eq word.now text.now) words.now }
    ensures within { IfSome result (λ place. place < length words.now) }
{
    words.iter().position(|word| word.as_bytes() == text)
}

/// The class of binary data of this name.
pub fn class_of(kind: Kind, name: &[u8]) -> Option<u16>
    ensures { result ≡ class_of kind name.now }
{
    match word_place(row(kind).classes, name) {
        Some(place) => Some(place as u16),
        None => None,
    }
}
