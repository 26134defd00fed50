// The body of a CSV capture, record by record.
ghost use Rattle.std.specs.Prelude.{◌≡◌, ◌-◌, ◌*◌, ◌^◌, ◌≤◌, ◌<◌, length, true};
ghost use Rattle.capture_csv.specs.Modes.{at_of, sample_of, skips};

use crate::digits::{are_digits, are_quoted, put_digits, put_quoted};
use crate::fields::fields_of_line;
use crate::simple::{field_count, first_len, text_in};
use crate::spaces::trimmed;
use crate::span::{Found, Span};
use crate::steps::{columns, csv_time, from_zero, run_of, skipped, span_from};
use crate::times::{sample_at, time_of};
use crate::values::{csv_levels, simple_levels, word_of};
use csv::ByteRecord;
use la_base::{CsvMode, NoMemory, Pins, Rate, Run, Word};
use la_io::CaptureFault;
use std::alloc::Global;
use std::mem::swap;

/// The most samples.
const LARGE: u128 = 1 << 60;

/// What was read of the body of a CSV capture.
#[derive(Drop)]
pub struct Body {
    alloc: Global,
    mode: CsvMode,
    rate: Rate,
    // how many fields a record has
    want: usize,
    // the levels of the last record, and their word; and room for those of the next one
    levels: Vec<bool>,
    spare: Vec<bool>,
    pins: Pins,
    word: Word,
    // the times
    span: Option<Span>,
    // whether a record is a sample that wasn't given yet
    held: bool,
    ghost few: { rate.num ≤ 10 ^ 15 },
    ghost fits: { length levels.items ≡ want - skips mode },
    ghost spares: { length spare.items ≡ want - skips mode },
    ghost narrow: { want ≤ 65537 },
    ghost timed: { at_of span ≡ sample_of rate span },
    ghost rows: { held ≡ true → skips mode ≡ 0 },
}

impl Body {
    ghost use Rattle.std.specs.Bool.{MatchBool};
    ghost use Rattle.std.specs.Prelude.{ℕ, Bool, List, [], Ok, false, None, Some, IfOk, IfErr};
    ghost use Rattle.std.specs.Prelude.{IfSome, true, map};
    ghost use Rattle.csv.specs.Reading.{strip_bom};
    ghost use Rattle.csv.specs.Records.{fields_of};
    ghost use Rattle.capture_csv.specs.Records.{Record, trimmed};
    ghost use Rattle.capture_csv.specs.Digits.{AreDigits, digits_of};
    ghost use Rattle.capture_csv.specs.Simple.{HasFields, IsSimpleLine};
    ghost use Rattle.capture_csv.specs.Csv.{word_of};
    ghost use Rattle.capture_csv.specs.Running.{BodyStands, EndSays, Flushes, FoundIs, IsRow, LineSays};
    ghost use Rattle.capture_csv.specs.Running.{NewBody, RecordSays, RowLen, SameBody};
    ghost use Rattle.capture_csv.specs.Running.{SameButLevels, SameStands, TakenCounts, TakenSays, at_in};
    ghost use Rattle.capture_csv.specs.Running.{held_in, mode_in, pins_in, rate_in, want_in};
    ghost use Rattle.la_base.specs.declared.modes.CsvMode.TheVariants.{Rows, Times};
    ghost use Rattle.capture_csv.specs.declared.span.Found.{Found};

    /// Nothing was read, and no channel is selected. A record has `want` fields.
    pub fn new(alloc: Global, mode: CsvMode, rate: Rate, want: usize) -> Result<Body, NoMemory>
        requires few { rate.num ≤ 10 ^ 15 }
        requires narrow { want ≤ 65537 }
        ensures { IfOk result (λ body. NewBody mode rate want body) }
    {
        let mut levels = Vec::new(alloc);
        levels.resize(want.saturating_sub(skipped(mode)), false)?;
        let mut spare = Vec::new(alloc);
        spare.resize(want.saturating_sub(skipped(mode)), false)?;
        Ok(Body {
            alloc,
            mode,
            rate,
            want,
            levels,
            spare,
            pins: Pins::new(),
            word: 0,
            span: None,
            held: false,
        })
    }

    // What the fields of a line say, each of which is plain or one quoted text.
    #[inline(always)]
    fn find_simple(&mut self, text: &[u8]) -> Found
        requires some { 0 < length text.now }
        requires fields { HasFields text.now (want_in self.old) }
        ensures found { (fields : List (List ℕ)) → IsSimpleLine text.now fields
            → length fields ≡ want_in self.old
            → FoundIs (mode_in self.old) (map trimmed fields) self.new.levels.items result }
        ensures early { IfSome result.time (λ time. time < 2 * 10 ^ 22) }
        ensures form { SameButLevels self.old self.new }
        ensures spare { self.new.spare ≡ self.old.spare }
    {
        match self.mode {
            CsvMode::Rows => Found {
                time: None,
                bad: simple_levels(text, 1, &mut self.levels),
            },
            CsvMode::Times => {
                let len = first_len(text);
                let time = time_of(trimmed(text_in(&text[..len])));
                if len == text.len() {
                    return Found { time, bad: None };
                }
                Found {
                    time,
                    bad: simple_levels(&text[len + 1..], 2, &mut self.levels),
                }
            }
        }
    }

    // What the fields of a record say that `csv` read.
    fn find_csv(&mut self, row: &ByteRecord) -> Found
        requires { length (fields_of row.now) ≡ want_in self.old }
        ensures found { FoundIs (mode_in self.old)
            (map trimmed (fields_of row.now)) self.new.levels.items result }
        ensures early { IfSome result.time (λ time. time < 2 * 10 ^ 22) }
        ensures form { SameButLevels self.old self.new }
    {
        match self.mode {
            CsvMode::Rows => Found {
                time: None,
                bad: csv_levels(row, 0, 1, &mut self.levels),
            },
            CsvMode::Times => Found {
                time: csv_time(row),
                bad: csv_levels(row, 1, 2, &mut self.levels),
            },
        }
    }

    // A record with a time.
    fn take_timed(&mut self, line: u64, found: Found) -> Result<Option<Run>, CaptureFault>
        requires mode { mode_in self.old ≡ Times }
        requires early { IfSome found.time (λ time. time < 2 * 10 ^ 22) }
        ensures says { TakenSays self.old self.new line found result }
        ensures form { SameBody self.old self.new }
        ensures held { held_in self.new ≡ held_in self.old }
        ensures counts { TakenCounts self.old self.new result }
        ensures kept { IfErr result (λ _. self.new ≡ self.old) }
    {
        let time = match found.time {
            Some(time) => time,
            None => return Err(CaptureFault::Time { line }),
        };
        let span = span_from(self.span, time);
        if time < span.last {
            return Err(CaptureFault::TimeBack {
                at: line,
                was: from_zero(span.last),
                now: from_zero(time),
            });
        }
        let at = sample_at(self.rate, span.start, time);
        if at >= LARGE {
            return Err(CaptureFault::TimeLarge { at: line });
        }
        match found.bad {
            Some(column) => return Err(CaptureFault::Field { line, column }),
            None => {}
        }
        let run = run_of(self.word, at as u64 - span.at);
        self.word = word_of(&self.pins, &self.levels);
        self.span = Some(Span {
            start: span.start,
            last: time,
            at: at as u64,
        });
        Ok(run)
    }

    // The levels that were read are those of a record that is a sample: it is held.
    #[inline(always)]
    fn put_row(&mut self)
        requires { mode_in self.old ≡ Rows }
        ensures says { (line : ℕ) (found : Found) → found.bad ≡ None
            → TakenSays self.old self.new line found (Ok None) }
        ensures held { held_in self.new ≡ true }
        ensures word { self.new.word ≡ word_of (pins_in self.new) self.new.levels.items }
        ensures levels { self.new.levels ≡ self.old.levels }
        ensures at { at_in self.new ≡ at_in self.old }
        ensures form { SameBody self.old self.new }
    {
        self.word = word_of(&self.pins, &self.levels);
        self.held = true;
    }

    // A record that is a sample.
    #[inline(always)]
    fn take_row(&mut self, line: u64, found: Found) -> Result<Option<Run>, CaptureFault>
        requires { mode_in self.old ≡ Rows }
        ensures says { TakenSays self.old self.new line found result }
        ensures form { SameBody self.old self.new }
        ensures counts { TakenCounts self.old self.new result }
        ensures kept { IfErr result (λ _. self.new ≡ self.old) }
        ensures rows { IfOk result (λ run. run ≡ None) }
    {
        match found.bad {
            Some(column) => Err(CaptureFault::Field { line, column }),
            None => {
                self.put_row();
                Ok(None)
            }
        }
    }

    // What was found in the fields of a record.
    #[inline(always)]
    fn take(&mut self, line: u64, found: Found) -> Result<Option<Run>, CaptureFault>
        requires early { IfSome found.time (λ time. time < 2 * 10 ^ 22) }
        ensures says { TakenSays self.old self.new line found result }
        ensures form { SameBody self.old self.new }
        ensures counts { TakenCounts self.old self.new result }
        ensures kept { IfErr result (λ _. self.new ≡ self.old) }
        ensures rows { IfOk result (λ run. IfSome run (λ _. mode_in self.old ≡ Times)) }
    {
        match self.mode {
            CsvMode::Rows => self.take_row(line, found),
            CsvMode::Times => self.take_timed(line, found),
        }
    }

    // A record of a line of `have` fields, each of which is plain or one quoted text.
    #[inline(always)]
    fn simple_record(
        &mut self,
        line: u64,
        text: &[u8],
        have: usize,
    ) -> Result<Option<Run>, CaptureFault>
        requires some { 0 < length text.now }
        requires few { length text.now ≤ 65536 }
        requires fields { HasFields text.now have }
        ensures says { LineSays self.old self.new line text.now result }
        ensures form { SameBody self.old self.new }
        ensures counts { TakenCounts self.old self.new result }
        ensures rows { IfOk result (λ run. IfSome run (λ _. mode_in self.old ≡ Times)) }
    {
        if have != self.want {
            return Err(columns(line, self.want, have));
        }
        let found = self.find_simple(text);
        self.take(line, found)
    }

    // A record of any line, by `csv`.
    #[inline(never)]
    fn csv_record(
        &mut self,
        line: u64,
        text: &[u8],
    ) -> Result<Result<Option<Run>, CaptureFault>, NoMemory>
        requires few { length text.now ≤ 65536 }
        requires bare { strip_bom text.now ≡ text.now }
        ensures says { IfOk result (λ said. LineSays self.old self.new line text.now said) }
        ensures same { IfErr result (λ _. self.new ≡ self.old) }
        ensures form { SameBody self.old self.new }
        ensures counts { IfOk result (λ said. TakenCounts self.old self.new said) }
        ensures rows { IfOk result
            (λ said. IfOk said (λ run. IfSome run (λ _. mode_in self.old ≡ Times))) }
    {
        let row = match fields_of_line(self.alloc, text) {
            Ok(row) => row,
            Err(NoMemory) => return Err(NoMemory),
        };
        if row.len() != self.want {
            return Ok(Err(columns(line, self.want, row.len())));
        }
        let found = self.find_csv(&row);
        Ok(self.take(line, found))
    }

    /// Reads the record of a line: `text` is what stands in it behind byte order marks. A record
    /// with a time gives the samples before it; one that is a sample is held. A fault gives none. A
    /// line takes memory only where one of its fields is neither plain nor one quoted text.
    #[inline(always)]
    pub fn record(
        &mut self,
        line: u64,
        text: &[u8],
    ) -> Result<Result<Option<Run>, CaptureFault>, NoMemory>
        requires some { 0 < length text.now }
        requires few { length text.now ≤ 65536 }
        requires bare { strip_bom text.now ≡ text.now }
        ensures says { RecordSays self.old self.new line text.now result }
        ensures form { SameBody self.old self.new }
        ensures counts { IfOk result (λ said. TakenCounts self.old self.new said) }
        ensures rows { IfOk result
            (λ said. IfOk said (λ run. IfSome run (λ _. mode_in self.old ≡ Times))) }
    {
        match field_count(text) {
            Some(have) => Ok(self.simple_record(line, text, have)),
            None => self.csv_record(line, text),
        }
    }

    // Puts the levels aside, where those of the next record were read to, and the other way round.
    #[inline(always)]
    fn exchange(&mut self)
        ensures levels { (self.new.levels ≡ self.old.spare) × (self.new.spare ≡ self.old.levels) }
        ensures form { SameButLevels self.old self.new }
    {
        swap(&mut self.levels, &mut self.spare);
    }

    /// Reads the record of a line as `record` does, where that is no fault and takes no memory; else
    /// it stands for the same as before, and `None` comes.
    #[inline(always)]
    pub fn sound_record(&mut self, line: u64, text: &[u8]) -> Option<Option<Run>>
        requires some { 0 < length text.now }
        requires few { length text.now ≤ 65536 }
        ensures says { IfSome result (λ run. LineSays self.old self.new line text.now (Ok run)) }
        ensures same { result ≡ None → SameStands self.old self.new }
        ensures form { SameBody self.old self.new }
        ensures counts { IfSome result (λ run. TakenCounts self.old self.new (Ok run)) }
        ensures rows { IfSome result (λ run. IfSome run (λ _. mode_in self.old ≡ Times)) }
    {
        let have = match field_count(text) {
            Some(have) => have,
            None => return None,
        };
        if have != self.want {
            return None;
        }
        self.exchange();
        let found = self.find_simple(text);
        match self.take(line, found) {
            Ok(run) => Some(run),
            Err(_) => {
                self.exchange();
                None
            }
        }
    }

    /// How many bytes a line has that is a digit for each channel, with a comma between two, and
    /// with each digit between quotes or none.
    #[inline(always)]
    pub fn row_len(&self, quoted: bool) -> usize
        ensures { RowLen self.now quoted result }
    {
        let each = if quoted { 4 } else { 2 };
        (each * self.levels.len()).saturating_sub(1)
    }

    // Reads such a line: the levels are those of its digits. `false` comes for any other line.
    #[inline(always)]
    fn put_line(&mut self, text: &[u8], quoted: bool) -> bool
        ensures put { result ≡ true → (0 < length self.new.levels.items)
            × (text.now ≡ digits_of quoted self.new.levels.items) }
        ensures kept { result ≡ false → self.new ≡ self.old }
        ensures other { result ≡ false → AreDigits quoted text.now (length self.old.levels.items)
            → ⊥ }
        ensures form { SameButLevels self.old self.new }
    {
        if quoted {
            if !are_quoted(text, self.levels.len()) {
                return false;
            }
            put_quoted(text, &mut self.levels);
            return true;
        }
        if !are_digits(text, self.levels.len()) {
            return false;
        }
        put_digits(text, &mut self.levels);
        true
    }

    /// Reads the record of such a line where a record is a sample: it is held. `false` comes for
    /// any other line, and nothing changes then.
    #[inline(always)]
    pub fn row(&mut self, text: &[u8], quoted: bool) -> bool
        requires { mode_in self.old ≡ Rows }
        ensures says { result ≡ true → (line : ℕ)
            → LineSays self.old self.new line text.now (Ok None) }
        ensures digits { result ≡ true
            → (levels : List Bool) × (0 < length levels) × (text.now ≡ digits_of quoted levels) }
        ensures row { result ≡ true → IsRow self.new text.now }
        ensures held { result ≡ true → held_in self.new ≡ true }
        ensures kept { result ≡ false → self.new ≡ self.old }
        ensures other { result ≡ false → AreDigits quoted text.now (want_in self.old) → ⊥ }
        ensures at { at_in self.new ≡ at_in self.old }
        ensures form { SameBody self.old self.new }
    {
        if !self.put_line(text, quoted) {
            return false;
        }
        self.put_row();
        true
    }

    /// Whether a record is one sample.
    #[inline(always)]
    pub fn is_rows(&self) -> bool
        ensures { MatchBool result (mode_in self.now ≡ Rows) (mode_in self.now ≡ Times) }
    {
        match self.mode {
            CsvMode::Rows => true,
            CsvMode::Times => false,
        }
    }

    /// Whether a record is a sample that wasn't given yet.
    #[inline(always)]
    pub fn is_held(&self) -> bool
        ensures { result ≡ held_in self.now }
    {
        self.held
    }

    /// The value of the last record.
    #[inline(always)]
    pub fn word(&self) -> Word
        ensures { result ≡ self.now.word }
    {
        self.word
    }

    /// Gives the sample that is held.
    #[inline(always)]
    pub fn flush(&mut self) -> Run
        requires { held_in self.old ≡ true }
        ensures flushes { Flushes self.old self.new (Some result) }
        ensures row { (text : List ℕ) → IsRow self.old text → IsRow self.new text }
        ensures held { held_in self.new ≡ false }
        ensures len { result.len ≡ 1 }
        ensures value { result.value ≡ self.old.word }
        ensures word { self.new.word ≡ self.old.word }
        ensures at { at_in self.new ≡ at_in self.old }
        ensures form { SameBody self.old self.new }
    {
        self.held = false;
        Run {
            value: self.word,
            len: 1,
        }
    }

    /// The last sample, at a clean end.
    pub fn end(&self) -> Option<Run>
        ensures says { EndSays self.now result }
        ensures some { IfSome result (λ run. (mode_in self.now ≡ Times) × (run.len ≡ 1)) }
    {
        match self.span {
            Some(_) => match self.mode {
                CsvMode::Rows => None,
                CsvMode::Times => Some(Run {
                    value: self.word,
                    len: 1,
                }),
            },
            None => None,
        }
    }

    /// Bit j of each sample is channel `pins[j]` from now on. No sample was given yet.
    pub fn select(&mut self, pins: Pins)
        ensures stands { (records : List Record) → BodyStands self.old records []
            → BodyStands self.new records [] }
        ensures pins { pins_in self.new ≡ pins.items }
        ensures mode { mode_in self.new ≡ mode_in self.old }
        ensures rate { rate_in self.new ≡ rate_in self.old }
        ensures want { want_in self.new ≡ want_in self.old }
        ensures held { held_in self.new ≡ held_in self.old }
        ensures at { at_in self.new ≡ at_in self.old }
    {
        let word = word_of(&pins, &self.levels);
        self.pins = pins;
        self.word = word;
    }

    /// The rate of its samples.
    pub fn rate(&self) -> Rate
        ensures { result ≡ rate_in self.now }
    {
        self.rate
    }
}
