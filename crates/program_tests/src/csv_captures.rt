// CSV captures through their reader, and through that of any form: runs, and faults with what no notice tells.
ghost use Rattle.std.specs.Prelude.{◌≤◌, ◌<◌, ℕ, length, slice_index};

use crate::rows::{add_text, is_send, numbers_of, parts_of, source_of};
use capture_any::{Capture, Form, Runs};
use capture_csv::CsvReader;
use la_base::{CsvMode, Pins, Rate, Run, Word};
use std::alloc::Global;
use std::test::Fail;

// More than the runs of any test.
const MANY: u32 = 10_000;

const RATE: Rate = Rate { num: 1000, den: 1 };

// A row has the calls of the source that fail; between brackets what a record is, and whether the first one names the
// columns; the file, in which a slash stands for a line feed and a roof for carriage return and line feed; and the value and
// length of each run, those of equal values joined, with the error behind them, if there is one.
const ROWS: &str = "\
[rows yes] \u{feff}; exported^^A,B^0, 1^\"1\",0^ > [(2, 1), (1, 1)] > None
[rows yes] A,B/0,1/0 > [(2, 1)] > Some(Fault(Columns { line: 3, want: 2, have: 1 }))
[rows yes] A,B/\"0,1\"/ > [] > Some(Fault(Columns { line: 2, want: 2, have: 1 }))
[rows no] # none/0,x/0,1/ > [] > Some(Fault(Field { line: 2, column: 2 }))
[rows no] 0,1/0,1/1,1 > [(2, 2), (3, 1)] > None
[rows no] 0,1/0,1/1,1/1,x/ > [(2, 2), (3, 1)] > Some(Fault(Field { line: 4, column: 2 }))
[rows yes] / \t/ # A/ > [] > None
[times yes] time,A/-0.002,0/0,1/0.0015,0/ > [(0, 2), (1, 1), (0, 1)] > None
# two records a day apart
[times yes] t,A/0,0/86400,1/ > [(0, 86400000), (1, 1)] > None
[times yes] t,A/0,0/0.002,1/0.001,0/ > [(0, 2)] > Some(Fault(TimeBack { at: 4, was: 2000000000, now: 1000000000 }))
[times yes] t,A/1,0/1.0000000000009,1/ > [(1, 1)] > None
[times no] 0,0//0.001,2/ > [] > Some(Fault(Field { line: 3, column: 2 }))
[times yes] t,A/0,0/x,2/ > [] > Some(Fault(Time { line: 3 }))
# where the source fails, the last record isn't the end
1[times yes] t,A/0,0/0.002,1/ > [(0, 2)] > Some(Read)
1[rows yes] A,B/0,1/1,1 > [(2, 1)] > Some(Read)
1[rows yes] A,B > [] > Some(Read)";

// The first so many channels.
fn first_pins(channels: u32) -> Pins
    ensures { (k : ℕ) → k < length result.items → slice_index result.items k < channels }
{
    let mut pins = Pins::new();
    for channel in 0..channels {
        if !pins.is_full() {
            pins.push(channel);
        }
    }
    pins
}

// Adds a run behind others: with the last one it is one where both have one value.
fn add_run(runs: &mut Vec<(Word, u64)>, run: Run) -> Result<(), Fail> {
    match runs.last_mut() {
        Some(last) if last.0 == run.value => last.1 = last.1.saturating_add(run.len),
        _ => runs.push((run.value, run.len))?,
    }
    Ok(())
}

// The value and length of each run that a capture gives, joined, and the error behind them, if there is one.
fn read(
    alloc: Global,
    form: (CsvMode, bool),
    bytes: &[u8],
    size: usize,
    fails: &[u64],
) -> Result<String, Fail>
    requires { 1 ≤ size }
{
    let (mode, header) = form;
    let mut source = source_of(alloc, bytes, size, fails)?;
    let mut reader = match CsvReader::open(alloc, mode, header, RATE, &mut source) {
        Ok(reader) => reader,
        Err(error) => return Ok(format!(in alloc; "[] > {:?}", Some(error))?),
    };
    is_send(&reader);
    let pins = first_pins(reader.names().count());
    reader.select(pins);
    let mut runs = Vec::new(alloc);
    let mut last = None;
    for _ in 0..MANY {
        if !reader.is_open() {
            break;
        }
        let step = match reader.held_run() {
            Some(run) => Ok(Some(run)),
            None => reader.next(&mut source),
        };
        match step {
            Ok(Some(run)) => add_run(&mut runs, run)?,
            Ok(None) => {}
            Err(error) => last = Some(error),
        }
    }
    Ok(format!(in alloc; "{:?} > {last:?}", runs.as_slice())?)
}

// Whether a row holds, with its bytes in pieces of each size.
fn row_holds(alloc: Global, row: &str) -> Result<bool, Fail> {
    let (fails, form, behind) = parts_of(row);
    let fails = numbers_of(alloc, fails)?;
    let (text, want) = behind.split_once(" > ").unwrap_or(("", ""));
    let mut bytes = Vec::new(alloc);
    add_text(&mut bytes, text)?;
    let mode = if form.starts_with("times") {
        CsvMode::Times
    } else {
        CsvMode::Rows
    };
    // of a file of one piece, the second read finds the end or fails
    for size in [1, 2, 3, 4, 5, 6, 7, 90] {
        if size == 90 || fails.is_empty() {
            let told = read(alloc, (mode, form.ends_with("yes")), &bytes, size, &fails)?;
            if told.as_str() != want {
                return Ok(false);
            }
        }
    }
    Ok(true)
}

#[test]
fn rows_of_csv_captures(rt: HostRuntime) -> Result<(), Fail> {
    let alloc = rt.alloc();
    for row in ROWS.split('\n') {
        assert!(rt; row.starts_with('#') || row_holds(alloc, row)?, "{row}");
    }
    capture_csv::given_is_front();
    capture_csv::longer_goes_on();
    capture_csv::pins_leave_the_ending();
    capture_csv::pins_leave_the_head();
    capture_csv::plain_is_split();
    capture_csv::simple_is_read();
    capture_csv::worked_lines_hold();
    capture_csv::worked_rows_hold();
    capture_csv::worked_times_hold();
    Ok(())
}

#[test]
fn a_csv_capture_as_one_of_any_form(rt: HostRuntime) -> Result<(), Fail> {
    let alloc = rt.alloc();
    let mut source = source_of(alloc, b"A,B\n1,0\n1,0\n\"0\",1\n1,1\n", 90, &[])?;
    let form = Form::Csv {
        mode: CsvMode::Rows,
        header: true,
        rate: RATE,
    };
    let mut capture = Capture::open(alloc, form, &mut source)?;
    assert!(rt; capture.names().count() == 2 && capture.rate() == RATE);
    let mut pins = Pins::new();
    pins.push(1);
    capture.select(pins);
    let mut runs = Runs::new();
    let mut count: u64 = 0;
    let mut high: u64 = 0;
    let mut clean = false;
    for _ in 0..MANY {
        if !capture.is_open() {
            break;
        }
        match capture.next_runs(&mut source, &mut runs) {
            Ok(more) => clean = !more,
            Err(_) => clean = false,
        }
        for run in runs.list() {
            count = count.saturating_add(run.len);
            if run.value == 1 {
                high = high.saturating_add(run.len);
            }
        }
    }
    assert!(rt; clean && count == 4 && high == 2 && capture.held_run().is_none());
    Ok(())
}
