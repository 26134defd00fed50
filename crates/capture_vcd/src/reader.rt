// The reader of VCD captures.
ghost use Rattle.std.specs.Prelude.{◌≡◌, true, false};
ghost use Rattle.byte_feed.specs.Reader.{is_spent, left_of};

use crate::body::Body;
use crate::header::Header;
use crate::opening::read_header;
use crate::place::Place;
use crate::selecting::slots_of;
use byte_feed::{Tokens, error_of};
use la_base::{Names, NoMemory, Pins, Rate, Run};
use la_io::{CaptureError, CaptureFault, Source, Step};
use rate_math::timescale;
use std::alloc::Global;

/// How far the samples of a capture were given.
#[derive(Clone, Copy, PartialEq, Eq)]
pub enum Phase {
    /// None was given, and nothing of the body was read.
    Fresh,
    /// Some were.
    Running,
    /// All were.
    Ended,
    /// All were that come before a fault.
    Refused(CaptureFault),
}

/// Reads a VCD capture: its header as it is opened, then runs of its samples.
#[derive(Drop)]
pub struct VcdReader {
    tokens: Tokens,
    body: Body,
    names: Names,
    // where each channel of the file stands
    places: Vec<Place>,
    rate: Rate,
    // the channels that are selected
    pins: Pins,
    phase: Phase,
    is_open: bool,
    ghost fresh: { is_open ≡ true → is_spent tokens ≡ false },
}

impl VcdReader {
    ghost use Rattle.std.specs.Prelude.{◌≢◌, ◌≤◌, ◌<◌, ◌+◌, ◌^◌, ℕ, List, [], length, slice_index};
    ghost use Rattle.std.specs.Prelude.{Err, IfOk, None};
    ghost use Rattle.la_io.specs.Capture.{Told};
    ghost use Rattle.capture_vcd.specs.Running.{RunCounts, held_in};
    ghost use Rattle.la_io.specs.Reading.{run_samples, CaptureCause, stays_open};
    ghost use Rattle.capture_vcd.specs.declared.reader.Phase.TheVariants.{Running};
    ghost use Rattle.capture_vcd.specs.Reader.{GaveHeld, HoldsNothing, IsNew, Opens, VcdStands};
    ghost use Rattle.capture_vcd.specs.Reader.{pins_in, vcd_down, Gives, MoreGiven, SameReader};
    ghost use Rattle.capture_vcd.specs.Reader.{vcd_given, vcd_names, vcd_open, vcd_rate};
    ghost use Rattle.capture_vcd.specs.Stepping.{Flushed, HeldSteps, HeldWent, run_of, Makes};
    ghost use Rattle.capture_vcd.specs.Stepping.{is_going, Nexts, Steps, WentOn};

    /// Reads the header of a capture of which each sample stands for `down` units of time. `Fault`
    /// comes exactly where the header has one, `Read` where the source failed before the header was
    /// whole.
    pub fn open<S: Source>(
        alloc: Global,
        down: u64,
        source: &mut S,
    ) -> Result<VcdReader, CaptureError>
        requires some { 1 ≤ down }
        requires few { down ≤ 1000000000 }
        ensures opens { Opens down (S.left source.old) (S.left source.new) result }
        ensures new { IfOk result (λ reader. IsNew down reader) }
        ensures cause { CaptureCause (S.faults source.old) (S.faults source.new) result }
    {
        let mut tokens = match Tokens::new(alloc) {
            Ok(tokens) => tokens,
            Err(NoMemory) => return Err(CaptureError::NoMemory),
        };
        let mut header = Header::new(alloc);
        match read_header(&mut tokens, &mut header, source) {
            Ok(_) => VcdReader::behind(tokens, header, down),
            Err(error) => Err(error),
        }
    }

    /// Bit j of each sample is channel `pins[j]` from now on. No sample was given yet.
    pub fn select(&mut self, pins: Pins)
        requires within { (k : ℕ) → k < length pins.items
            → slice_index pins.items k < length (vcd_names self.old) }
        requires fresh { (bytes : List ℕ) × (told : Told) × VcdStands self.old bytes told [] }
        ensures stands { (bytes : List ℕ) (told : Told) → VcdStands self.old bytes told []
            → VcdStands self.new bytes told [] }
        ensures pins { pins_in self.new ≡ pins.items }
        ensures names { vcd_names self.new ≡ vcd_names self.old }
        ensures rate { vcd_rate self.new ≡ vcd_rate self.old }
        ensures down { vcd_down self.new ≡ vcd_down self.old }
        ensures is_open { vcd_open self.new ≡ vcd_open self.old }
    {
        let slots = slots_of(&self.places, self.body.variables(), &pins);
        self.body.select(slots);
        self.pins = pins;
    }

    /// The names of its channels.
    pub fn names(&self) -> &Names
        ensures { result.now ≡ vcd_names self.now }
    {
        &self.names
    }

    /// The rate of its samples.
    pub fn rate(&self) -> Rate
        ensures { result ≡ vcd_rate self.now }
    {
        self.rate
    }

    /// Whether there may be more to come.
    pub fn is_open(&self) -> bool
        ensures { result ≡ vcd_open self.now }
    {
        self.is_open
    }

    // A reader behind a whole header.
    fn behind(tokens: Tokens, header: Header, down: u64) -> Result<VcdReader, CaptureError>
        requires some { 1 ≤ down }
        requires few { down ≤ 1000000000 }
        requires fresh { is_spent tokens ≡ false }
        ensures { Makes tokens header down result }
    {
        match header.scale {
            None => Err(CaptureError::Fault(CaptureFault::NoTimescale)),
            Some(scale) => match timescale(scale.count, scale.unit, down) {
                Some(rate) => Ok(VcdReader {
                    tokens,
                    body: Body::new(header.codes, down),
                    names: header.names,
                    places: header.places,
                    rate,
                    pins: Pins::new(),
                    phase: Phase::Fresh,
                    is_open: true,
                }),
                // A count is at most 100, and `down` at most 10^9.
                None => unreachable!(),
            },
        }
    }

    // Whether it is open and gave samples of the body.
    #[inline(always)]
    fn is_running(&self) -> bool
        ensures phase { result ≡ true → self.now.phase ≡ Running }
        ensures open { result ≡ true → vcd_open self.now ≡ true }
        ensures none { result ≡ false → HoldsNothing self.now }
    {
        match self.phase {
            Phase::Running => self.is_open,
            Phase::Fresh => false,
            Phase::Ended => false,
            Phase::Refused(_) => false,
        }
    }

    // One token of those that are held. `Over` comes where none is left, or a fault, and no samples
    // are held back.
    #[inline(always)]
    fn held_step(&mut self) -> Step
        requires running { self.old.phase ≡ Running }
        requires open { vcd_open self.old ≡ true }
        ensures steps { HeldSteps self.old self.new result }
        ensures went { HeldWent self.old self.new result }
        ensures form { SameReader self.old self.new }
        ensures is_open { vcd_open self.new ≡ true }
        ensures counts { RunCounts (vcd_given self.old) (vcd_given self.new) (run_of result) }
    {
        match self.tokens.held() {
            Some(at) => match self.body.token(at, self.tokens.text()) {
                Ok(None) => Step::Went,
                Ok(Some(run)) => Step::Gave(run),
                Err(fault) => {
                    self.phase = Phase::Refused(fault);
                    match self.body.flush() {
                        Some(run) => Step::Gave(run),
                        None => Step::Over,
                    }
                }
            },
            None => match self.body.flush() {
                Some(run) => Step::Gave(run),
                None => Step::Over,
            },
        }
    }

    /// The next run of what is held, as `next` gives it, where a run was given before. `None` comes
    /// where no token with a blank behind it is held, and no samples are held back. Nothing is
    /// read.
    #[inline(always)]
    pub fn held_run(&mut self) -> Option<Run>
        ensures given { GaveHeld self.old self.new (run_samples result) }
        ensures none { result ≡ None → HoldsNothing self.new }
        ensures is_open { vcd_open self.new ≡ vcd_open self.old }
        ensures form { SameReader self.old self.new }
        ensures counts { RunCounts (vcd_given self.old) (vcd_given self.new) result }
        ensures few { vcd_given self.new ≤ 2 ^ 60 }
    {
        if !self.is_running() {
            return None;
        }
        'held: loop {
            match self.held_step() {
                Step::Went => {}
                Step::Gave(run) => return Some(run),
                Step::Over => return None,
            }
        }
    }

    // Gives the samples that are held back.
    fn flush(&mut self) -> Option<Run>
        requires going { is_going self.old.phase ≡ true }
        ensures flushed { Flushed self.old self.new result }
        ensures none { result ≡ None → held_in self.new.body ≡ 0 }
        ensures left { left_of self.new.tokens ≡ left_of self.old.tokens }
        ensures going { is_going self.new.phase ≡ true }
        ensures form { SameReader self.old self.new }
        ensures is_open { vcd_open self.new ≡ vcd_open self.old }
        ensures counts { RunCounts (vcd_given self.old) (vcd_given self.new) result }
    {
        match self.body.flush() {
            Some(run) => {
                self.phase = Phase::Running;
                Some(run)
            }
            None => None,
        }
    }

    // Reads one token.
    fn step<S: Source>(&mut self, source: &mut S) -> Result<Step, CaptureError>
        requires open { vcd_open self.old ≡ true }
        requires going { is_going self.old.phase ≡ true }
        requires settled { held_in self.old.body ≡ 0 }
        ensures steps { Steps self.old self.new (S.left source.old) (S.left source.new) result }
        ensures went { WentOn self.old self.new result }
        ensures form { SameReader self.old self.new }
        ensures memory { result ≢ Err CaptureError.NoMemory }
        ensures cause { CaptureCause (S.faults source.old) (S.faults source.new) result }
    {
        match self.tokens.next(source) {
            Ok(Some(at)) => match self.body.token(at, self.tokens.text()) {
                Ok(None) => Ok(Step::Went),
                Ok(Some(run)) => {
                    self.phase = Phase::Running;
                    Ok(Step::Gave(run))
                }
                Err(fault) => {
                    self.phase = Phase::Refused(fault);
                    match self.body.flush() {
                        Some(run) => Ok(Step::Gave(run)),
                        None => {
                            self.is_open = false;
                            Err(CaptureError::Fault(fault))
                        }
                    }
                }
            },
            Ok(None) => match self.body.end() {
                Ok(None) => {
                    self.is_open = false;
                    Ok(Step::Over)
                }
                Ok(Some(run)) => {
                    self.phase = Phase::Ended;
                    Ok(Step::Gave(run))
                }
                Err(fault) => {
                    self.is_open = false;
                    Err(CaptureError::Fault(fault))
                }
            },
            Err(fault) => {
                self.is_open = false;
                Err(error_of(fault))
            }
        }
    }

    // The next run of the body, or its end.
    fn run_on<S: Source>(&mut self, source: &mut S) -> Result<Option<Run>, CaptureError>
        requires open { vcd_open self.old ≡ true }
        requires going { is_going self.old.phase ≡ true }
        ensures next { Nexts self.old self.new (S.left source.old) (S.left source.new) result }
        ensures is_open { vcd_open self.new ≡ stays_open result }
        ensures form { SameReader self.old self.new }
        ensures more { MoreGiven self.old self.new result }
        ensures memory { result ≢ Err CaptureError.NoMemory }
        ensures cause { CaptureCause (S.faults source.old) (S.faults source.new) result }
    {
        'body: loop {
            match self.flush() {
                Some(run) => return Ok(Some(run)),
                None => {}
            }
            match self.step(source) {
                Ok(Step::Went) => {}
                Ok(Step::Gave(run)) => return Ok(Some(run)),
                Ok(Step::Over) => return Ok(None),
                Err(error) => return Err(error),
            }
        }
    }

    // The next run where none is held, or the end.
    #[inline(never)]
    fn read_on<S: Source>(&mut self, source: &mut S) -> Result<Option<Run>, CaptureError>
        requires { vcd_open self.old ≡ true }
        ensures next { Gives self.old self.new (S.left source.old) (S.left source.new) result }
        ensures is_open { vcd_open self.new ≡ stays_open result }
        ensures form { SameReader self.old self.new }
        ensures more { MoreGiven self.old self.new result }
        ensures few { vcd_given self.new ≤ 2 ^ 60 }
        ensures memory { result ≢ Err CaptureError.NoMemory }
        ensures cause { CaptureCause (S.faults source.old) (S.faults source.new) result }
    {
        match self.phase {
            Phase::Fresh => self.run_on(source),
            Phase::Running => self.run_on(source),
            Phase::Ended => {
                self.is_open = false;
                Ok(None)
            }
            Phase::Refused(fault) => {
                self.is_open = false;
                Err(CaptureError::Fault(fault))
            }
        }
    }

    /// The next run, or `None` at a clean end. It reads only where no token with a blank behind it
    /// is held. After every answer but a run it is closed. `Fault` comes exactly where the capture
    /// has one, and `Read` where the source failed, both after all samples that came before.
    pub fn next<S: Source>(&mut self, source: &mut S) -> Result<Option<Run>, CaptureError>
        requires { vcd_open self.old ≡ true }
        ensures next { Gives self.old self.new (S.left source.old) (S.left source.new) result }
        ensures is_open { vcd_open self.new ≡ stays_open result }
        ensures form { SameReader self.old self.new }
        ensures more { MoreGiven self.old self.new result }
        ensures few { vcd_given self.new ≤ 2 ^ 60 }
        ensures memory { result ≢ Err CaptureError.NoMemory }
        ensures cause { CaptureCause (S.faults source.old) (S.faults source.new) result }
    {
        match self.held_run() {
            Some(run) => Ok(Some(run)),
            None => self.read_on(source),
        }
    }
}
