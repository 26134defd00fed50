// What readers have read already. Each form has a loop of its own, so that it has its registers.
ghost use Rattle.std.specs.Prelude.{◌≡◌, ◌+◌, ◌≤◌, ◌^◌, ◌++◌, List, ℕ, length};
ghost use Rattle.la_base.specs.Runs.{samples_of};
ghost use Rattle.la_base.specs.declared.samples.Run.{Run};
ghost use Rattle.capture_vcd.specs.Reader.{GaveHeld, SameReader, vcd_given, vcd_open};
ghost use Rattle.la_io.specs.Reading.{run_samples};
ghost use Rattle.capture_vcd.specs.Running.{RunCounts};
ghost use Rattle.capture_csv.specs.Reader.{GaveHeld as CsvGaveHeld, SameReader as SameCsv};
ghost use Rattle.capture_csv.specs.Reader.{csv_given, csv_open};
ghost use Rattle.capture_csv.specs.Running.{run_len as csv_len};

use crate::runs::Runs;
use capture_csv::CsvReader;
use capture_vcd::VcdReader;
use la_base::Run;

/// Appends the runs that a VCD reader has read already, as far as there is room.
#[inline(never)]
pub fn take_vcd(reader: &mut VcdReader, into: &mut Runs)
    ensures gave { (new : List Run) × (into.new ≡ into.old ++ new)
        × GaveHeld reader.old reader.new (samples_of new)
        × (vcd_given reader.old + length (samples_of new) ≤ vcd_given reader.new) }
    ensures form { SameReader reader.old reader.new }
    ensures is_open { vcd_open reader.new ≡ vcd_open reader.old }
    ensures few { vcd_given reader.old ≤ 2 ^ 60 → vcd_given reader.new ≤ 2 ^ 60 }
{
    while !into.is_full() {
        match reader.held_run() {
            Some(run) => into.push(run),
            None => return,
        }
    }
}

/// The next run that a VCD reader has read already.
#[inline(never)]
pub fn held_of(reader: &mut VcdReader) -> Option<Run>
    ensures given { GaveHeld reader.old reader.new (run_samples result) }
    ensures is_open { vcd_open reader.new ≡ vcd_open reader.old }
    ensures form { SameReader reader.old reader.new }
    ensures counts { RunCounts (vcd_given reader.old) (vcd_given reader.new) result }
    ensures few { vcd_given reader.new ≤ 2 ^ 60 }
{
    reader.held_run()
}

/// Appends the runs that a CSV reader has read already, as far as there is room.
#[inline(never)]
pub fn take_csv(reader: &mut CsvReader, into: &mut Runs)
    ensures gave { (new : List Run) × (into.new ≡ into.old ++ new)
        × CsvGaveHeld reader.old reader.new (samples_of new)
        × (csv_given reader.old + length (samples_of new) ≤ csv_given reader.new) }
    ensures form { SameCsv reader.old reader.new }
    ensures is_open { csv_open reader.new ≡ csv_open reader.old }
    ensures few { csv_given reader.old ≤ 2 ^ 60 → csv_given reader.new ≤ 2 ^ 60 }
{
    while !into.is_full() {
        match reader.held_run() {
            Some(run) => into.push(run),
            None => return,
        }
    }
}

/// The next run that a CSV reader has read already.
#[inline(never)]
pub fn held_csv(reader: &mut CsvReader) -> Option<Run>
    ensures given { CsvGaveHeld reader.old reader.new (run_samples result) }
    ensures is_open { csv_open reader.new ≡ csv_open reader.old }
    ensures form { SameCsv reader.old reader.new }
    ensures counts { csv_given reader.old + csv_len result ≤ csv_given reader.new }
    ensures few { csv_given reader.new ≤ 2 ^ 60 }
{
    reader.held_run()
}
