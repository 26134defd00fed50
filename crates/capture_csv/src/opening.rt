// How a capture is opened: its first record.
ghost use Rattle.std.specs.Prelude.{◌≡◌, ◌+◌, ◌-◌, ◌<◌, ◌≤◌, ◌^◌, ◌++◌, ◌∷◌, [], length, map, drop};
ghost use Rattle.std.specs.Prelude.{get_or, codes, false, IfOk, IfSome, OnOk};
ghost use Rattle.std.specs.Fmt.{decimal};
ghost use Rattle.csv.specs.Reading.{strip_bom};
ghost use Rattle.csv.specs.Records.{fields_of};
ghost use Rattle.byte_feed.specs.LineReader.{is_spent, number_of, taken_of, text_of};
ghost use Rattle.capture_csv.specs.Csv.{names_by, plain_names};
ghost use Rattle.capture_csv.specs.Modes.{skips};
ghost use Rattle.capture_csv.specs.Opening.{BeginSays, FirstReads};
ghost use Rattle.la_io.specs.Reading.{CaptureCause};
ghost use Rattle.capture_csv.specs.Records.{is_passed, trimmed, without_marks};
ghost use Rattle.capture_csv.specs.Running.{SameBody, held_in};

use crate::body::Body;
use crate::phase::Phase;
use crate::spaces::{is_passed, trimmed, without_marks};
use crate::steps::skipped;
use byte_feed::{Lines, error_of};
use csv::ByteRecord;
use la_base::{CsvMode, Names, NoMemory};
use la_io::{CaptureError, Source};
use line_text::LineBuf;
use std::alloc::Global;

/// Reads to the line of the first record and answers its number, or `None` where there is no
/// record.
pub fn first_line<S: Source>(lines: &mut Lines, source: &mut S) -> Result<Option<u64>, CaptureError>
    requires { is_spent lines.old ≡ false }
    ensures reads { FirstReads lines.old lines.new (S.left source.old) (S.left source.new) result }
    ensures fresh { IfOk result (λ _. is_spent lines.new ≡ false) }
    ensures counted { IfOk result (λ line. IfSome line (λ _. 1 ≤ number_of lines.new)) }
    ensures some { IfOk result
        (λ line. IfSome line (λ _. is_passed (without_marks (text_of lines.new)) ≡ false)) }
    ensures cause { CaptureCause (S.faults source.old) (S.faults source.new) result }
{
    'head: loop {
        match lines.next(source) {
            Ok(Some(number)) => {
                if !is_passed(without_marks(lines.text())) {
                    return Ok(Some(number));
                }
            }
            Ok(None) => return Ok(None),
            Err(fault) => return Err(error_of(fault)),
        }
    }
}

// The name of a channel that has none: D0, D1 and so on.
fn plain_name(channel: u32) -> LineBuf
    ensures { result ≡ codes "D" ++ decimal channel }
{
    let mut name = LineBuf::new();
    name.push_bytes(b"D");
    name.push_dec(u64::from(channel));
    name
}

// The names of so many channels that have none.
fn plain_names(alloc: Global, channels: usize) -> Result<Names, NoMemory>
    requires { channels ≤ 4096 }
    ensures { IfOk result (λ names. names ≡ plain_names channels) }
{
    let mut names = Names::new(alloc);
    for channel in 0..channels {
        names.push(plain_name(channel as u32).bytes())?;
    }
    Ok(names)
}

// The name that a field gives.
fn push_name(names: &mut Names, row: &ByteRecord, place: usize) -> Result<(), NoMemory>
    requires room { length names.old < 4096 }
    requires within { place < length (fields_of row.now) }
    ensures { OnOk result
        (names.new ≡ names.old ++ trimmed (get_or (fields_of row.now) place []) ∷ []) }
{
    match row.get(place) {
        Some(field) => names.push(trimmed(field)),
        None => unreachable!(),
    }
}

// The names that the fields of a record give from one of them on.
fn given_names(alloc: Global, row: &ByteRecord, first: usize) -> Result<Names, NoMemory>
    requires place { first ≤ 1 }
    requires few { length (fields_of row.now) - first ≤ 4096 }
    ensures { IfOk result (λ names. names ≡ map trimmed (drop first (fields_of row.now))) }
{
    let mut names = Names::new(alloc);
    for k in 0..row.len().saturating_sub(first) {
        push_name(&mut names, row, first + k)?;
    }
    Ok(names)
}

/// The names of the channels, by the fields of the first record.
pub fn names_of(
    alloc: Global,
    row: &ByteRecord,
    mode: CsvMode,
    header: bool,
) -> Result<Names, NoMemory>
    requires { length (fields_of row.now) - skips mode ≤ 4096 }
    ensures { IfOk result
        (λ names. names ≡ names_by mode header (map trimmed (fields_of row.now))) }
{
    let first = skipped(mode);
    if header {
        return given_names(alloc, row, first);
    }
    plain_names(alloc, row.len().saturating_sub(first))
}

/// Reads the first record, where it is one of the body.
pub fn begin(body: &mut Body, header: bool, line: u64, text: &[u8]) -> Result<Phase, NoMemory>
    requires some { 0 < length text.now }
    requires few { length text.now ≤ 65536 }
    requires bare { strip_bom text.now ≡ text.now }
    requires held { held_in body.old ≡ false }
    ensures says { BeginSays header body.old body.new line text.now result }
    ensures form { SameBody body.old body.new }
{
    if header {
        return Ok(Phase::Running);
    }
    match body.record(line, text) {
        Ok(Ok(_)) => Ok(Phase::Running),
        Ok(Err(fault)) => Ok(Phase::Refused(fault)),
        Err(NoMemory) => Err(NoMemory),
    }
}
