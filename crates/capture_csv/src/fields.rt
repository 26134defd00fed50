// The fields of a line.
ghost use Rattle.std.specs.Prelude.{◌≡◌, IfOk};
ghost use Rattle.csv.specs.Reading.{strip_bom};
ghost use Rattle.csv.specs.Records.{fields_of};
ghost use Rattle.capture_csv.specs.Fields.{fields_in};

use csv::{ByteRecord, ReaderBuilder};
use la_base::NoMemory;
use std::alloc::Global;

/// The fields of a line that has no byte order mark before it. Each error is want of memory: the
/// line is in memory, and it is the first that the reader of `csv` sees.
pub fn fields_of_line(alloc: Global, line: &[u8]) -> Result<ByteRecord, NoMemory>
    requires { strip_bom line.now ≡ line.now }
    ensures { IfOk result (λ row. fields_of row ≡ fields_in line.now) }
{
    let mut reader = ReaderBuilder::new()
        .has_headers(false)
        .from_reader(alloc, line);
    let mut row = ByteRecord::new(alloc);
    match reader.read_byte_record(&mut row) {
        Ok(true) => Ok(row),
        Ok(false) => Ok(ByteRecord::new(alloc)),
        Err(_) => Err(NoMemory),
    }
}
