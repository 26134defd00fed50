// The reader of each form.
ghost use Rattle.std.specs.Prelude.{◌≡◌};
ghost use Rattle.capture_raw.specs.Raw.{raw_names};
ghost use Rattle.capture_raw.specs.Reader.{raw_channels};

use capture_csv::CsvReader;
use capture_raw::RawReader;
use capture_vcd::VcdReader;
use la_base::Names;

/// A raw reader, and the names that its channels get.
#[derive(Drop)]
pub struct NamedRaw {
    pub names: Names,
    pub reader: RawReader,
    ghost named: { names ≡ raw_names (raw_channels reader) },
}

/// The reader of a capture, by its form.
#[derive(Drop)]
pub enum Reader {
    Raw(NamedRaw),
    Vcd(VcdReader),
    Csv(CsvReader),
}
