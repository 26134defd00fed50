// Kinds of decoders, and what a row of their table holds.
use la_base::Wire;

/// A protocol that is decoded.
#[derive(Clone, Copy, PartialEq, Eq)]
pub enum Kind {
    I2c,
    Spi,
    Uart,
    OwLink,
    OwNet,
    Eeprom24,
    Ds1307,
    Lm75,
    Ds18b20,
    Flash25,
    Modbus,
    Midi,
}

/// What an option takes.
#[derive(Clone, Copy, PartialEq, Eq)]
pub enum OptForm {
    /// A channel; the value is its bit in a sample.
    Pin { required: bool },
    /// A number, from `least` to `most`.
    Number { least: u64, most: u64, usual: u64 },
    /// One of these words; the value is its place. The first one is the usual one.
    Choice { words: &'static [&'static str] },
}

/// An option of a kind.
#[derive(Clone, Copy, PartialEq, Eq)]
pub struct OptRow {
    pub name: &'static str,
    pub form: OptForm,
}

/// A number that an option must have, by its row.
#[derive(Clone, Copy, PartialEq, Eq)]
pub struct Asked {
    pub row: usize,
    pub number: u64,
}

/// All that is said of a kind.
#[derive(Clone, Copy)]
pub struct KindRow {
    pub name: &'static str,
    /// The wire that it reads.
    pub input: Wire,
    /// The wire that it gives.
    pub output: Wire,
    /// Its options, those of channels first.
    pub options: &'static [OptRow],
    /// Groups of options, by their rows. Of each group at least one is given.
    pub groups: &'static [&'static [usize]],
    /// What options of its parent it asks for.
    pub parent: &'static [Asked],
    /// The names of its classes of binary data.
    pub classes: &'static [&'static str],
}
