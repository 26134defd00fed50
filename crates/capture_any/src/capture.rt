// A capture that is read.
use crate::Form;
use crate::answer::answer_of;
use crate::held::{held_csv, held_of, take_csv, take_vcd};
use crate::names::channel_names;
use crate::reader::{NamedRaw, Reader};
use crate::runs::Runs;
use capture_csv::CsvReader;
use capture_raw::RawReader;
use capture_vcd::VcdReader;
use la_base::{Names, NoMemory, Pins, Rate, Run};
use la_io::{CaptureError, Source};
use std::alloc::Global;

/// A capture that is read from a source: its head was read as it was opened, and `next` gives its
/// samples. The samples have no bits before `select`.
#[derive(Drop)]
pub struct Capture {
    reader: Reader,
}

impl Capture {
    ghost use Rattle.std.specs.Prelude.{◌≡◌, ◌≢◌, ◌+◌, ◌^◌, ◌<◌, ◌≤◌, ℕ, List, [], ◌++◌, length};
    ghost use Rattle.std.specs.Prelude.{slice_index, true, false, Bool, None, Ok, IfOk, IfSome, IsSome};
    ghost use Rattle.la_base.specs.Samples.{samples};
    ghost use Rattle.la_base.specs.declared.samples.Run.{Run};
    ghost use Rattle.la_base.specs.Runs.{samples_of};
    ghost use Rattle.capture_any.specs.Taking.{GaveHeld, Gives, open_behind};
    ghost use Rattle.la_io.specs.Capture.{Told};
    ghost use Rattle.capture_any.specs.Captures.{IsForm, HasNoHead, TakesNoMemory};
    ghost use Rattle.capture_any.specs.Reading.{Stands, Next, Opens, SameSetup, form_of, pins_of};
    ghost use Rattle.capture_any.specs.Reading.{names_of, rate_of, is_open_of, given_by};
    ghost use Rattle.la_io.specs.Reading.{CaptureCause, run_samples, stays_open};

    /// Opens a capture of this form: reads its head; nothing is read where the form's head takes no
    /// bytes. `Fault` comes exactly where the head has one, and `Read` where the source failed
    /// before the head was whole. Its rate is at most 10^15.
    pub fn open<S: Source>(
        alloc: Global,
        form: Form,
        source: &mut S,
    ) -> Result<Capture, CaptureError>
        requires { IsForm form }
        ensures opens { Opens form (S.left source.old) (S.left source.new) result }
        ensures form { IfOk result (λ capture. form_of capture ≡ form) }
        ensures pins { IfOk result (λ capture. pins_of capture ≡ []) }
        ensures is_open { IfOk result (λ capture. is_open_of capture ≡ true) }
        ensures rate { IfOk result (λ capture. (rate_of capture).num ≤ 10 ^ 15) }
        ensures unread { HasNoHead form → source.new ≡ source.old }
        ensures cause { CaptureCause (S.faults source.old) (S.faults source.new) result }
    {
        let mut form = form;
        match &mut form {
            Form::Raw { channels, rate } => match channel_names(alloc, *channels) {
                Ok(names) => Ok(Capture {
                    reader: Reader::Raw(NamedRaw {
                        names,
                        reader: RawReader::open(*channels, *rate),
                    }),
                }),
                Err(NoMemory) => Err(CaptureError::NoMemory),
            },
            Form::Vcd { down } => match VcdReader::open(alloc, *down, source) {
                Ok(reader) => Ok(Capture {
                    reader: Reader::Vcd(reader),
                }),
                Err(error) => Err(error),
            },
            Form::Csv { mode, header, rate } => {
                match CsvReader::open(alloc, *mode, *header, *rate, source) {
                    Ok(reader) => Ok(Capture {
                        reader: Reader::Csv(reader),
                    }),
                    Err(error) => Err(error),
                }
            }
        }
    }

    /// The names of its channels.
    pub fn names(&self) -> &Names
        ensures { result.now ≡ names_of self.now }
    {
        match &self.reader {
            Reader::Raw(raw) => &raw.names,
            Reader::Vcd(reader) => reader.names(),
            Reader::Csv(reader) => reader.names(),
        }
    }

    /// The rate of its samples.
    pub fn rate(&self) -> Rate
        ensures { result ≡ rate_of self.now }
    {
        match &self.reader {
            Reader::Raw(raw) => raw.reader.rate(),
            Reader::Vcd(reader) => reader.rate(),
            Reader::Csv(reader) => reader.rate(),
        }
    }

    /// Bit j of each sample is channel `pins[j]` from now on. No sample was given yet.
    pub fn select(&mut self, pins: Pins)
        requires within { (k : ℕ) → k < length pins.items
            → slice_index pins.items k < length (names_of self.old) }
        requires fresh { (bytes : List ℕ) × (told : Told) × Stands self.old bytes told [] }
        ensures stands { (bytes : List ℕ) (told : Told) → Stands self.old bytes told []
            → Stands self.new bytes told [] }
        ensures pins { pins_of self.new ≡ pins.items }
        ensures form { form_of self.new ≡ form_of self.old }
        ensures names { names_of self.new ≡ names_of self.old }
        ensures rate { rate_of self.new ≡ rate_of self.old }
        ensures is_open { is_open_of self.new ≡ is_open_of self.old }
    {
        match &mut self.reader {
            Reader::Raw(raw) => raw.reader.select(pins),
            Reader::Vcd(reader) => reader.select(pins),
            Reader::Csv(reader) => reader.select(pins),
        }
    }

    /// Whether there may be more to come.
    pub fn is_open(&self) -> bool
        ensures { result ≡ is_open_of self.now }
    {
        match &self.reader {
            Reader::Raw(raw) => raw.reader.is_open(),
            Reader::Vcd(reader) => reader.is_open(),
            Reader::Csv(reader) => reader.is_open(),
        }
    }

    /// The next run, or `None` at a clean end. After every answer but a run it is closed. `Fault`
    /// comes where the capture has one, and `Read` where the source failed, both after all samples
    /// that came before.
    // Inlined, since its answer is as wide as the largest fault, and is looked at in one place
    // alone.
    #[inline(always)]
    pub fn next<S: Source>(&mut self, source: &mut S) -> Result<Option<Run>, CaptureError>
        requires { is_open_of self.old ≡ true }
        ensures next { Next self.old self.new (S.left source.old) (S.left source.new) result }
        ensures is_open { is_open_of self.new ≡ stays_open result }
        ensures setup { SameSetup self.old self.new }
        ensures progress { IfOk result
            (λ step. IfSome step (λ run. given_by self.old + run.len ≤ given_by self.new)) }
        ensures few { given_by self.new ≤ 2 ^ 60 }
        ensures memory { TakesNoMemory (form_of self.old) → result ≢ Err CaptureError.NoMemory }
        ensures cause { CaptureCause (S.faults source.old) (S.faults source.new) result }
    {
        match &mut self.reader {
            Reader::Raw(raw) => answer_of(raw.reader.next(source)),
            Reader::Vcd(reader) => reader.next(source),
            Reader::Csv(reader) => reader.next(source),
        }
    }

    /// The next run of what was read already, if there is one. Nothing is read.
    #[inline(always)]
    pub fn held_run(&mut self) -> Option<Run>
        ensures gave { GaveHeld self.old self.new (run_samples result) }
        ensures is_open { is_open_of self.new ≡ is_open_of self.old }
        ensures setup { SameSetup self.old self.new }
        ensures progress { given_by self.old + length (run_samples result) ≤ given_by self.new }
        ensures few { given_by self.old ≤ 2 ^ 60 → given_by self.new ≤ 2 ^ 60 }
        ensures some { IsSome result → given_by self.new ≤ 2 ^ 60 }
    {
        // A test of one form alone, since a choice of several is made anew for each run.
        if let Reader::Raw(raw) = &mut self.reader {
            return match raw.reader.held_run() {
                Some(run) => Some(run),
                None => None,
            };
        }
        self.held_other()
    }

    // The same of any form. It isn't inlined.
    #[inline(never)]
    fn held_other(&mut self) -> Option<Run>
        ensures gave { GaveHeld self.old self.new (run_samples result) }
        ensures is_open { is_open_of self.new ≡ is_open_of self.old }
        ensures setup { SameSetup self.old self.new }
        ensures progress { given_by self.old + length (run_samples result) ≤ given_by self.new }
        ensures few { given_by self.old ≤ 2 ^ 60 → given_by self.new ≤ 2 ^ 60 }
        ensures some { IsSome result → given_by self.new ≤ 2 ^ 60 }
    {
        match &mut self.reader {
            Reader::Raw(_) => None,
            Reader::Vcd(reader) => held_of(reader),
            Reader::Csv(reader) => held_csv(reader),
        }
    }

    // Appends the runs of what was read already, as far as there is room.
    fn take_held(&mut self, into: &mut Runs)
        ensures gave { (new : List Run) × (into.new ≡ into.old ++ new)
            × GaveHeld self.old self.new (samples_of new)
            × (given_by self.old + length (samples_of new) ≤ given_by self.new) }
        ensures is_open { is_open_of self.new ≡ is_open_of self.old }
        ensures setup { SameSetup self.old self.new }
        ensures few { given_by self.old ≤ 2 ^ 60 → given_by self.new ≤ 2 ^ 60 }
    {
        match &mut self.reader {
            Reader::Raw(raw) => into.take_raw(&mut raw.reader),
            Reader::Vcd(reader) => take_vcd(reader, into),
            Reader::Csv(reader) => take_csv(reader, into),
        }
    }

    /// Gives as many runs as are read already and there is room for, and answers whether there are
    /// any. Nothing is read. What `into` held before is let go.
    pub fn held_runs(&mut self, into: &mut Runs) -> bool
        ensures gave { GaveHeld self.old self.new (samples_of into.new) }
        ensures none { result ≡ false → into.new ≡ [] }
        ensures is_open { is_open_of self.new ≡ is_open_of self.old }
        ensures setup { SameSetup self.old self.new }
        ensures progress { result ≡ true → given_by self.old < given_by self.new }
        ensures counts { given_by self.old + length (samples_of into.new) ≤ given_by self.new }
        ensures few { result ≡ true → given_by self.new ≤ 2 ^ 60 }
    {
        into.clear();
        match self.held_run() {
            Some(run) => {
                into.push(run);
                self.take_held(into);
                true
            }
            None => false,
        }
    }

    /// As `next`, but gives as many runs as are read already and there is room for, one at least:
    /// `true`. `false` is the clean end. What `into` held before is let go.
    pub fn next_runs<S: Source>(
        &mut self,
        source: &mut S,
        into: &mut Runs,
    ) -> Result<bool, CaptureError>
        requires { is_open_of self.old ≡ true }
        ensures gives { Gives self.old self.new (S.left source.old)
            (S.left source.new) into.new result }
        ensures is_open { is_open_of self.new ≡ open_behind result }
        ensures setup { SameSetup self.old self.new }
        ensures progress { result ≡ Ok true → given_by self.old < given_by self.new }
        ensures counts { result ≡ Ok true
            → given_by self.old + length (samples_of into.new) ≤ given_by self.new }
        ensures few { given_by self.new ≤ 2 ^ 60 }
        ensures memory { TakesNoMemory (form_of self.old) → result ≢ Err CaptureError.NoMemory }
        ensures cause { CaptureCause (S.faults source.old) (S.faults source.new) result }
    {
        into.clear();
        match self.next(source) {
            Ok(Some(run)) => {
                into.push(run);
                self.take_held(into);
                Ok(true)
            }
            Ok(None) => Ok(false),
            Err(error) => Err(error),
        }
    }
}
