// The reader of CSV captures.
ghost use Rattle.std.specs.Prelude.{◌≡◌, ◌≤◌, true, false};
ghost use Rattle.byte_feed.specs.LineReader.{is_spent, number_of, text_of};
ghost use Rattle.capture_csv.specs.Records.{without_marks};
ghost use Rattle.capture_csv.specs.Running.{IsRow};

use crate::body::Body;
use crate::fields::fields_of_line;
use crate::opening::{begin, first_line, names_of};
use crate::phase::Phase;
use crate::spaces::{is_passed, without_marks};
use crate::steps::skipped;
use byte_feed::{Lines, error_of};
use la_base::{CsvMode, Names, NoMemory, Pins, Rate, Run};
use la_io::{CaptureError, CaptureFault, Source, Step};
use std::alloc::Global;

/// The most channels.
const MOST_CHANNELS: usize = 4096;

/// Reads a CSV capture: its first record as it is opened, then runs of its samples.
#[derive(Drop)]
pub struct CsvReader {
    lines: Lines,
    body: Body,
    names: Names,
    header: bool,
    phase: Phase,
    is_open: bool,
    // whether the line that was given last is known to be a row, whose levels the body has
    is_row: bool,
    ghost fresh: { is_open ≡ true → is_spent lines ≡ false },
    ghost counted: { body.held ≡ true → 1 ≤ number_of lines },
    ghost row: { is_row ≡ true → IsRow body (without_marks (text_of lines)) },
}

impl CsvReader {
    ghost use Rattle.std.specs.Prelude.{◌≢◌, ◌<◌, ◌+◌, ◌^◌, ℕ, List, [], length, slice_index, Err};
    ghost use Rattle.std.specs.Prelude.{IfOk, IfSome, None, replicate};
    ghost use Rattle.la_io.specs.Capture.{Told};
    ghost use Rattle.byte_feed.specs.LineReader.{left_of};
    ghost use Rattle.capture_csv.specs.Opening.{IsNew, Makes, MakesEmpty, Opens};
    ghost use Rattle.capture_csv.specs.Records.{is_passed};
    ghost use Rattle.capture_csv.specs.Running.{held_in, run_len};
    ghost use Rattle.la_io.specs.Reading.{run_samples, CaptureCause, stays_open};
    ghost use Rattle.capture_csv.specs.Reader.{CsvStands, FlushedRun, GaveHeld, Gives, GoesHeld};
    ghost use Rattle.capture_csv.specs.Reader.{HeldLine, LineAnswers, LineGoes, MoreGiven, Nexts, SameReader};
    ghost use Rattle.capture_csv.specs.Reader.{Steps, WantsLater, WentOn, csv_given, csv_header};
    ghost use Rattle.capture_csv.specs.Reader.{csv_lines, csv_mode, csv_names, csv_open, csv_pins};
    ghost use Rattle.capture_csv.specs.Reader.{csv_rate};
    ghost use Rattle.la_base.specs.declared.modes.CsvMode.TheVariants.{Rows};
    ghost use Rattle.capture_csv.specs.declared.phase.Phase.TheVariants.{Running};

    /// Reads the first record of a capture: where `header` holds it names the channels, else it is
    /// one of the body. Samples are at this rate. `Fault` comes exactly where a line up to it is
    /// too long, where it has too many channels, or where the bytes are too many, and `Read` where
    /// the source failed before it.
    pub fn open<S: Source>(
        alloc: Global,
        mode: CsvMode,
        header: bool,
        rate: Rate,
        source: &mut S,
    ) -> Result<CsvReader, CaptureError>
        requires { rate.num ≤ 10 ^ 15 }
        ensures opens { Opens mode header rate (S.left source.old) (S.left source.new) result }
        ensures new { IfOk result (λ reader. IsNew mode header rate reader) }
        ensures cause { CaptureCause (S.faults source.old) (S.faults source.new) result }
    {
        let mut lines = match Lines::new(alloc) {
            Ok(lines) => lines,
            Err(NoMemory) => return Err(CaptureError::NoMemory),
        };
        match first_line(&mut lines, source) {
            Ok(Some(number)) => CsvReader::behind(alloc, lines, number, mode, header, rate),
            Ok(None) => CsvReader::empty(alloc, lines, mode, header, rate),
            Err(error) => Err(error),
        }
    }

    // A reader where there is no record.
    fn empty(
        alloc: Global,
        lines: Lines,
        mode: CsvMode,
        header: bool,
        rate: Rate,
    ) -> Result<CsvReader, CaptureError>
        requires few { rate.num ≤ 10 ^ 15 }
        requires fresh { is_spent lines ≡ false }
        ensures { MakesEmpty mode header rate result }
    {
        match Body::new(alloc, mode, rate, 0) {
            Ok(body) => Ok(CsvReader {
                lines,
                body,
                names: Names::new(alloc),
                header,
                phase: Phase::Empty,
                is_open: true,
                is_row: false,
            }),
            Err(NoMemory) => Err(CaptureError::NoMemory),
        }
    }

    // A reader behind the line of its first record.
    fn behind(
        alloc: Global,
        lines: Lines,
        number: u64,
        mode: CsvMode,
        header: bool,
        rate: Rate,
    ) -> Result<CsvReader, CaptureError>
        requires few { rate.num ≤ 10 ^ 15 }
        requires fresh { is_spent lines ≡ false }
        requires counted { 1 ≤ number_of lines }
        requires some { is_passed (without_marks (text_of lines)) ≡ false }
        ensures { Makes lines number mode header rate result }
    {
        let text = without_marks(lines.text());
        let row = match fields_of_line(alloc, text) {
            Ok(row) => row,
            Err(NoMemory) => return Err(CaptureError::NoMemory),
        };
        if row.len().saturating_sub(skipped(mode)) > MOST_CHANNELS {
            return Err(CaptureError::Fault(CaptureFault::TooMany { at: number }));
        }
        let names = match names_of(alloc, &row, mode, header) {
            Ok(names) => names,
            Err(NoMemory) => return Err(CaptureError::NoMemory),
        };
        let mut body = match Body::new(alloc, mode, rate, row.len()) {
            Ok(body) => body,
            Err(NoMemory) => return Err(CaptureError::NoMemory),
        };
        match begin(&mut body, header, number, text) {
            Ok(phase) => Ok(CsvReader {
                lines,
                body,
                names,
                header,
                phase,
                is_open: true,
                is_row: false,
            }),
            Err(NoMemory) => Err(CaptureError::NoMemory),
        }
    }

    /// Bit j of each sample is channel `pins[j]` from now on. No sample was given yet.
    pub fn select(&mut self, pins: Pins)
        requires within { (k : ℕ) → k < length pins.items
            → slice_index pins.items k < length (csv_names self.old) }
        requires fresh { (bytes : List ℕ) × (told : Told) × CsvStands self.old bytes told [] }
        ensures stands { (bytes : List ℕ) (told : Told) → CsvStands self.old bytes told []
            → CsvStands self.new bytes told [] }
        ensures pins { csv_pins self.new ≡ pins.items }
        ensures mode { csv_mode self.new ≡ csv_mode self.old }
        ensures header { csv_header self.new ≡ csv_header self.old }
        ensures names { csv_names self.new ≡ csv_names self.old }
        ensures rate { csv_rate self.new ≡ csv_rate self.old }
        ensures is_open { csv_open self.new ≡ csv_open self.old }
    {
        self.is_row = false;
        self.body.select(pins);
    }

    /// The names of its channels.
    pub fn names(&self) -> &Names
        ensures { result.now ≡ csv_names self.now }
    {
        &self.names
    }

    /// The rate of its samples.
    pub fn rate(&self) -> Rate
        ensures { result ≡ csv_rate self.now }
    {
        self.body.rate()
    }

    /// Whether there may be more to come.
    pub fn is_open(&self) -> bool
        ensures { result ≡ csv_open self.now }
    {
        self.is_open
    }

    // Gives the sample that is held.
    #[inline(always)]
    fn flush(&mut self) -> Option<Run>
        ensures flushed { FlushedRun self.old self.new result }
        ensures value { IfSome result (λ run. run.value ≡ self.new.body.word) }
        ensures held { held_in self.new.body ≡ false }
        ensures form { SameReader self.old self.new }
        ensures phase { self.new.phase ≡ self.old.phase }
        ensures is_open { csv_open self.new ≡ csv_open self.old }
        ensures counts { IfSome result (λ run. csv_given self.old + run.len ≤ csv_given self.new) }
    {
        if !self.body.is_held() {
            return None;
        }
        Some(self.body.flush())
    }

    // The line that was read.
    #[inline(always)]
    fn line(&mut self, number: u64) -> Result<Step, CaptureError>
        requires open { csv_open self.old ≡ true }
        requires going { self.old.phase ≡ Running }
        requires held { held_in self.old.body ≡ false }
        requires counted { 1 ≤ number_of self.old.lines }
        requires unknown { self.old.is_row ≡ false }
        requires last { number ≡ csv_lines self.old }
        ensures says { LineAnswers self.old self.new number result }
        ensures goes { LineGoes self.old self.new result }
        ensures lines { csv_lines self.new ≡ csv_lines self.old }
        ensures phase { self.new.phase ≡ self.old.phase }
        ensures read { result ≢ Err CaptureError.Read }
        ensures form { SameReader self.old self.new }
    {
        let text = without_marks(self.lines.text());
        if is_passed(text) {
            return Ok(Step::Went);
        }
        match self.body.record(number, text) {
            Ok(Ok(None)) => Ok(Step::Went),
            Ok(Ok(Some(run))) => Ok(Step::Gave(run)),
            Ok(Err(fault)) => {
                self.is_open = false;
                Err(CaptureError::Fault(fault))
            }
            Err(NoMemory) => {
                self.is_open = false;
                Err(CaptureError::NoMemory)
            }
        }
    }

    // Reads one line.
    #[inline(always)]
    fn step<S: Source>(&mut self, source: &mut S) -> Result<Step, CaptureError>
        requires open { csv_open self.old ≡ true }
        requires going { self.old.phase ≡ Running }
        requires held { held_in self.old.body ≡ false }
        ensures steps { Steps self.old self.new (S.left source.old) (S.left source.new) result }
        ensures went { WentOn self.old self.new result }
        ensures lines { csv_lines self.old ≤ csv_lines self.new }
        ensures later { WantsLater self.old self.new result }
        ensures form { SameReader self.old self.new }
        ensures cause { CaptureCause (S.faults source.old) (S.faults source.new) result }
    {
        self.is_row = false;
        match self.lines.next(source) {
            Ok(Some(number)) => self.line(number),
            Ok(None) => match self.body.end() {
                Some(run) => {
                    self.phase = Phase::Ended;
                    Ok(Step::Gave(run))
                }
                None => {
                    self.is_open = false;
                    Ok(Step::Over)
                }
            },
            Err(fault) => {
                self.is_open = false;
                Err(error_of(fault))
            }
        }
    }

    // The next run of the body, or its end.
    fn run_on<S: Source>(&mut self, source: &mut S) -> Result<Option<Run>, CaptureError>
        requires open { csv_open self.old ≡ true }
        requires going { self.old.phase ≡ Running }
        ensures next { Nexts self.old self.new (S.left source.old) (S.left source.new) result }
        ensures later { WantsLater self.old self.new result }
        ensures is_open { csv_open self.new ≡ stays_open result }
        ensures form { SameReader self.old self.new }
        ensures more { MoreGiven self.old self.new result }
        ensures cause { CaptureCause (S.faults source.old) (S.faults source.new) result }
    {
        'body: loop {
            match self.flush() {
                Some(run) => return Ok(Some(run)),
                None => {}
            }
            match self.step(source) {
                Ok(Step::Went) => {}
                Ok(Step::Gave(run)) => return Ok(Some(run)),
                Ok(Step::Over) => return Ok(None),
                Err(error) => return Err(error),
            }
        }
    }

    // Whether it is open and reads a body of which each record is a sample.
    #[inline(always)]
    fn reads_rows(&self) -> bool
        ensures going { result ≡ true → self.now.phase ≡ Running }
        ensures rows { result ≡ true → csv_mode self.now ≡ Rows }
    {
        match self.phase {
            Phase::Running => self.is_open && self.body.is_rows(),
            Phase::Ended => false,
            Phase::Empty => false,
            Phase::Refused(_) => false,
        }
    }

    // Takes one line that is held, where it is a record of digits alone, with quotes round each or
    // none.
    #[inline(always)]
    fn row_of(&mut self, quoted: bool) -> bool
        requires held { held_in self.old.body ≡ false }
        requires rows { csv_mode self.old ≡ Rows }
        ensures goes { result ≡ true → GoesHeld self.old self.new [] }
        ensures kept { result ≡ false → self.new ≡ self.old }
        ensures held { result ≡ true → held_in self.new.body ≡ true }
        ensures progress { result ≡ true → left_of self.new.lines < left_of self.old.lines }
        ensures counts { result ≡ true → csv_given self.new ≡ csv_given self.old }
        ensures phase { self.new.phase ≡ self.old.phase }
        ensures form { SameReader self.old self.new }
        ensures is_open { csv_open self.new ≡ csv_open self.old }
    {
        let len = self.body.row_len(quoted);
        let text = match self.lines.ahead(len) {
            Some(text) => text,
            None => return false,
        };
        if !self.body.row(text, quoted) {
            return false;
        }
        self.lines.pass(len);
        self.is_row = true;
        true
    }

    // The same of either kind.
    #[inline(always)]
    fn row(&mut self) -> bool
        requires held { held_in self.old.body ≡ false }
        requires rows { csv_mode self.old ≡ Rows }
        ensures goes { result ≡ true → GoesHeld self.old self.new [] }
        ensures kept { result ≡ false → self.new ≡ self.old }
        ensures held { result ≡ true → held_in self.new.body ≡ true }
        ensures progress { result ≡ true → left_of self.new.lines < left_of self.old.lines }
        ensures counts { result ≡ true → csv_given self.new ≡ csv_given self.old }
        ensures phase { self.new.phase ≡ self.old.phase }
        ensures form { SameReader self.old self.new }
        ensures is_open { csv_open self.new ≡ csv_open self.old }
    {
        if self.row_of(false) {
            return true;
        }
        self.row_of(true)
    }

    // The next sample of those that are held.
    #[inline(always)]
    fn sample(&mut self) -> Option<Run>
        requires going { self.old.phase ≡ Running }
        requires rows { csv_mode self.old ≡ Rows }
        ensures given { GoesHeld self.old self.new (run_samples result) }
        ensures value { IfSome result (λ run. run.value ≡ self.new.body.word) }
        ensures held { held_in self.new.body ≡ false }
        ensures counts { csv_given self.old + run_len result ≤ csv_given self.new }
        ensures phase { self.new.phase ≡ self.old.phase }
        ensures form { SameReader self.old self.new }
        ensures is_open { csv_open self.new ≡ csv_open self.old }
    {
        match self.flush() {
            Some(run) => return Some(run),
            None => {}
        }
        if !self.row() {
            return None;
        }
        self.flush()
    }

    // Whether it is open and reads a body.
    fn reads_body(&self) -> bool
        ensures going { result ≡ true → self.now.phase ≡ Running }
    {
        match self.phase {
            Phase::Running => self.is_open,
            Phase::Ended => false,
            Phase::Empty => false,
            Phase::Refused(_) => false,
        }
    }

    // Takes one line that is held, where it has no fault and takes no memory.
    #[inline(always)]
    fn held_line(&mut self) -> Option<Step>
        requires going { self.old.phase ≡ Running }
        requires held { held_in self.old.body ≡ false }
        ensures goes { HeldLine self.old self.new result }
        ensures phase { self.new.phase ≡ self.old.phase }
        ensures form { SameReader self.old self.new }
        ensures is_open { csv_open self.new ≡ csv_open self.old }
    {
        self.is_row = false;
        let number = self.lines.number();
        let line = match self.lines.held() {
            Some(line) => line,
            None => return None,
        };
        let len = line.len();
        let text = without_marks(line);
        if is_passed(text) {
            self.lines.pass(len);
            return Some(Step::Went);
        }
        match self.body.sound_record(number + 1, text) {
            None => None,
            Some(None) => {
                self.lines.pass(len);
                Some(Step::Went)
            }
            Some(Some(run)) => {
                self.lines.pass(len);
                Some(Step::Gave(run))
            }
        }
    }

    // The next run of records that are held.
    #[inline(never)]
    fn held_record(&mut self) -> Option<Run>
        requires going { self.old.phase ≡ Running }
        requires held { held_in self.old.body ≡ false }
        ensures given { GoesHeld self.old self.new (run_samples result) }
        ensures counts { csv_given self.old + run_len result ≤ csv_given self.new }
        ensures phase { self.new.phase ≡ self.old.phase }
        ensures form { SameReader self.old self.new }
        ensures is_open { csv_open self.new ≡ csv_open self.old }
    {
        'held: loop {
            match self.held_line() {
                None => return None,
                Some(Step::Gave(run)) => return Some(run),
                Some(Step::Over) => return None,
                Some(Step::Went) => {}
            }
            match self.flush() {
                Some(run) => return Some(run),
                None => {}
            }
        }
    }

    // The same, where it reads a body of records with times.
    fn held_timed(&mut self) -> Option<Run>
        ensures given { GaveHeld self.old self.new (run_samples result) }
        ensures counts { csv_given self.old + run_len result ≤ csv_given self.new }
        ensures form { SameReader self.old self.new }
        ensures is_open { csv_open self.new ≡ csv_open self.old }
    {
        if !self.reads_body() || self.body.is_held() {
            return None;
        }
        self.held_record()
    }

    // Takes the rows that are held and repeat the one that was given last, and answers how many.
    #[inline(always)]
    fn again(&mut self) -> u64
        requires held { held_in self.old.body ≡ false }
        ensures given { GoesHeld self.old self.new (replicate result self.old.body.word) }
        ensures body { self.new.body ≡ self.old.body }
        ensures left { left_of self.new.lines ≤ left_of self.old.lines }
        ensures counts { csv_given self.old + result ≤ csv_given self.new }
        ensures phase { self.new.phase ≡ self.old.phase }
        ensures form { SameReader self.old self.new }
        ensures is_open { csv_open self.new ≡ csv_open self.old }
    {
        if !self.is_row {
            return 0;
        }
        self.lines.again()
    }

    /// The next run of what is held: equal samples of lines of digits alone, or what one record of
    /// another line gives; `None` where no record is held, or the next one has a fault or takes memory.
    /// Nothing is read.
    #[inline(always)]
    pub fn held_run(&mut self) -> Option<Run>
        ensures given { GaveHeld self.old self.new (run_samples result) }
        ensures counts { csv_given self.old + run_len result ≤ csv_given self.new }
        ensures few { csv_given self.new ≤ 2 ^ 60 }
        ensures form { SameReader self.old self.new }
        ensures is_open { csv_open self.new ≡ csv_open self.old }
    {
        if !self.reads_rows() {
            return self.held_timed();
        }
        let first = match self.sample() {
            Some(run) => run,
            None => return self.held_record(),
        };
        let value = first.value;
        let mut len = first.len + self.again();
        'held: loop {
            if !self.row() || self.body.word() != value {
                return Some(Run { value, len });
            }
            self.body.flush();
            len += 1 + self.again();
        }
    }

    /// The next run, or `None` at a clean end. After every answer but a run it is closed. `Fault`
    /// comes exactly where the capture has one, and `Read` where the source failed, both after all
    /// samples that came before. `NoMemory` comes only at a line that needs `csv`: one of its
    /// fields is neither plain nor one quoted text. It is the line that was taken last, in this
    /// call; what was given are the samples of the lines before it.
    pub fn next<S: Source>(&mut self, source: &mut S) -> Result<Option<Run>, CaptureError>
        requires { csv_open self.old ≡ true }
        ensures next { Gives self.old self.new (S.left source.old) (S.left source.new) result }
        ensures later { WantsLater self.old self.new result }
        ensures is_open { csv_open self.new ≡ stays_open result }
        ensures form { SameReader self.old self.new }
        ensures more { MoreGiven self.old self.new result }
        ensures few { csv_given self.new ≤ 2 ^ 60 }
        ensures cause { CaptureCause (S.faults source.old) (S.faults source.new) result }
    {
        match self.phase {
            Phase::Running => self.run_on(source),
            Phase::Ended => {
                self.is_open = false;
                Ok(None)
            }
            Phase::Empty => {
                self.is_open = false;
                Ok(None)
            }
            Phase::Refused(fault) => {
                self.is_open = false;
                Err(CaptureError::Fault(fault))
            }
        }
    }
}
