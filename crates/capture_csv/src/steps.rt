// Parts of the reading of a record.
ghost use Rattle.std.specs.Prelude.{◌≡◌, ◌*◌, ◌^◌, ◌≤◌, ◌<◌, IfSome};
ghost use Rattle.csv.specs.Records.{fields_of};
ghost use Rattle.capture_csv.specs.Modes.{skips};
ghost use Rattle.capture_csv.specs.Running.{RunIs, SpanFrom, first_time_in};
ghost use Rattle.capture_csv.specs.Times.{from_zero};

use crate::spaces::trimmed;
use crate::span::Span;
use crate::times::{ZERO_TIME, time_of};
use csv::ByteRecord;
use la_base::{CsvMode, Run, Word};
use la_io::CaptureFault;

/// How many fields stand before those of the channels.
pub fn skipped(mode: CsvMode) -> usize
    ensures skips { result ≡ skips mode }
    ensures few { result ≤ 1 }
{
    match mode {
        CsvMode::Rows => 0,
        CsvMode::Times => 1,
    }
}

/// A run of so many samples, or none.
pub fn run_of(value: Word, len: u64) -> Option<Run>
    ensures { RunIs value len result }
{
    if len == 0 {
        return None;
    }
    Some(Run { value, len })
}

/// The times from the first one on: those so far, or none before this one.
pub fn span_from(span: Option<Span>, time: u128) -> Span
    requires { time < 2 * 10 ^ 22 }
    ensures { SpanFrom span time result }
{
    match span {
        Some(span) => span,
        None => Span {
            start: time,
            last: time,
            at: 0,
        },
    }
}

/// A time, as it counts from 0.
pub fn from_zero(time: u128) -> i128
    requires { time < 2 * 10 ^ 22 }
    ensures { result ≡ from_zero time }
{
    time as i128 - ZERO_TIME as i128
}

/// A record of `have` fields where the first has `want`.
pub fn columns(line: u64, want: usize, have: usize) -> CaptureFault
    requires want { want ≤ 65537 }
    requires have { have ≤ 65537 }
    ensures { result ≡ CaptureFault.Columns line want have }
{
    CaptureFault::Columns {
        line,
        want: want as u32,
        have: have as u32,
    }
}

/// The time that the first field of a record tells that `csv` read.
pub fn csv_time(row: &ByteRecord) -> Option<u128>
    ensures time { result ≡ first_time_in (fields_of row.now) }
    ensures early { IfSome result (λ time. time < 2 * 10 ^ 22) }
{
    if row.is_empty() {
        return None;
    }
    match row.get(0) {
        Some(field) => time_of(trimmed(field)),
        None => None,
    }
}
