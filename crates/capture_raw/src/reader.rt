// The reader of raw captures.
ghost use Rattle.std.specs.Prelude.{◌≡◌, ◌<◌, ◌≤◌, ℕ, length, slice_index};
ghost use Rattle.la_base.specs.declared.samples.TheConstants.{MOST_PINS};
ghost use Rattle.capture_raw.specs.Masks.{Covers, OfBytes};
ghost use Rattle.capture_raw.specs.Raw.{unit_len};
ghost use Rattle.capture_raw.specs.Neighbours.{Picks};

use crate::RawStep;
use crate::alike::alike_units;
use crate::fill::{ROOM, fill};
use crate::filled::Filled;
use crate::neighbours::{Neighbours, neighbours_of};
use crate::units::{BYTES, MOST_UNIT, mask_of, picked_of, samples_of_bytes};
use la_base::{MOST_PINS, Pins, Rate, Run, Word};
use la_io::{Failed, Intake, Source};

/// Reads units of bytes, `channels` bits rounded up to whole bytes each, and gives runs of their
/// samples. It takes at most 2^60 bytes.
#[derive(Drop)]
pub struct RawReader {
    channels: u32,
    // how many bytes a unit has
    unit: usize,
    rate: Rate,
    pins: Pins,
    // the bits of the unit that the pins pick
    mask: Word,
    // the samples of units of one byte, and what a second byte adds to them
    of_bytes: [Word; BYTES],
    of_seconds: [Word; BYTES],
    // how a shift picks the samples of longer units, if it does
    neighbours: Neighbours,
    held: Intake<ROOM>,
    open: bool,
    ghost channels_fit: { (1 ≤ channels) × (channels ≤ MOST_PINS) },
    ghost unit_fits: { unit ≡ unit_len channels },
    ghost few_pins: { length pins.items ≤ MOST_PINS },
    ghost pins_fit: { (k : ℕ) → k < length pins.items → slice_index pins.items k < channels },
    ghost mask_covers: { Covers mask pins.items },
    ghost table_fits: { OfBytes 1 of_bytes pins.items },
    ghost seconds_fit: { OfBytes 256 of_seconds pins.items },
    ghost neighbours_fit: { Picks neighbours.holds neighbours.first neighbours.ones pins.items },
}

impl RawReader {
    ghost use Rattle.std.specs.Prelude.{◌≡◌, ◌+◌, ◌++◌, ◌-◌, ◌==◌, ◌^◌, if◌then◌else◌, List, []};
    ghost use Rattle.std.specs.Prelude.{None, IfSome, take, true};
    ghost use Rattle.la_base.specs.Samples.{samples};
    ghost use Rattle.la_base.specs.Runs.{samples_of};
    ghost use Rattle.capture_raw.specs.Raw.{word_of};
    ghost use Rattle.la_io.specs.Causes.{HasCause};
    ghost use Rattle.capture_raw.specs.Reader.{Stands, Next, LetsGo, SameForm, IfRun, stays_open};
    ghost use Rattle.capture_raw.specs.Reader.{raw_channels, raw_rate, raw_pins, raw_open};
    ghost use Rattle.capture_raw.specs.Reader.{raw_unit, raw_held, raw_given};

    /// A reader of captures of so many channels, that has read nothing. Until `select` is called
    /// there are no pins, and each word is 0.
    pub fn open(channels: u32, rate: Rate) -> RawReader
        requires some { 1 ≤ channels }
        requires few { channels ≤ MOST_PINS }
        ensures new { Stands result [] [] }
        ensures is_open { raw_open result ≡ true }
        ensures channels { raw_channels result ≡ channels }
        ensures rate { raw_rate result ≡ rate }
        ensures pins { raw_pins result ≡ [] }
    {
        let pins = Pins::new();
        let of_bytes = samples_of_bytes(&pins, 1);
        let of_seconds = samples_of_bytes(&pins, 256);
        let neighbours = neighbours_of(&pins);
        RawReader {
            channels,
            unit: channels.div_ceil(8) as usize,
            rate,
            pins,
            mask: 0,
            of_bytes,
            of_seconds,
            neighbours,
            held: Intake::new(),
            open: true,
        }
    }

    /// Bit j of each sample is channel `pins[j]` from now on. No sample was given yet.
    pub fn select(&mut self, pins: Pins)
        requires within { (k : ℕ) → k < length pins.items
            → slice_index pins.items k < raw_channels self.old }
        requires fresh { (bytes : List ℕ) × Stands self.old bytes [] }
        ensures stands { (bytes : List ℕ) → Stands self.old bytes [] → Stands self.new bytes [] }
        ensures pins { raw_pins self.new ≡ pins.items }
        ensures channels { raw_channels self.new ≡ raw_channels self.old }
        ensures rate { raw_rate self.new ≡ raw_rate self.old }
        ensures is_open { raw_open self.new ≡ raw_open self.old }
    {
        let mask = mask_of(&pins);
        let of_bytes = samples_of_bytes(&pins, 1);
        let of_seconds = samples_of_bytes(&pins, 256);
        let neighbours = neighbours_of(&pins);
        self.pins = pins;
        self.mask = mask;
        self.of_bytes = of_bytes;
        self.of_seconds = of_seconds;
        self.neighbours = neighbours;
    }

    /// The rate of its samples.
    pub fn rate(&self) -> Rate
        ensures { result ≡ raw_rate self.now }
    {
        self.rate
    }

    /// Whether there may be more to come.
    pub fn is_open(&self) -> bool
        ensures { result ≡ raw_open self.now }
    {
        self.open
    }

    // How many bytes a unit has.
    fn unit(&self) -> usize
        ensures unit { result ≡ raw_unit self.now }
        ensures some { 1 ≤ result }
        ensures few { result ≤ MOST_UNIT }
    {
        self.unit
    }

    // The sample of the first unit of these bytes.
    #[inline(always)]
    fn sample(&self, bytes: &[u8], unit: usize) -> Word
        requires unit { unit ≡ raw_unit self.now }
        requires whole { unit ≤ length bytes.now }
        ensures { result ≡ word_of (raw_pins self.now) (take unit bytes.now) }
    {
        if unit == 1 {
            return self.of_bytes[bytes[0] as usize];
        }
        if unit == 2 {
            return self.of_bytes[bytes[0] as usize] + self.of_seconds[bytes[1] as usize];
        }
        picked_of(&self.pins, self.neighbours, bytes, unit)
    }

    // The next run of what is held. Units of one byte are the usual ones.
    #[inline(always)]
    fn run(&mut self, unit: usize) -> Run
        requires unit { unit ≡ raw_unit self.old }
        requires whole { unit ≤ length (raw_held self.old) }
        ensures { LetsGo self.old self.new (samples result) }
    {
        if unit == 1 {
            return self.run_by(1);
        }
        self.long_run(unit)
    }

    // The same for units of several bytes.
    #[inline(never)]
    fn long_run(&mut self, unit: usize) -> Run
        requires unit { unit ≡ raw_unit self.old }
        requires whole { unit ≤ length (raw_held self.old) }
        ensures { LetsGo self.old self.new (samples result) }
    {
        if unit == 2 {
            return self.run_by(2);
        }
        self.run_by(unit)
    }

    // The same, for a unit that the caller may know as a number.
    #[inline(always)]
    fn run_by(&mut self, unit: usize) -> Run
        requires unit { unit ≡ raw_unit self.old }
        requires whole { unit ≤ length (raw_held self.old) }
        ensures { LetsGo self.old self.new (samples result) }
    {
        let bytes = self.held.bytes();
        let count = alike_units(bytes, unit, self.mask);
        let value = self.sample(bytes, unit);
        self.held.advance(count * unit);
        Run {
            value,
            len: count as u64,
        }
    }

    // As many runs of what is held as there is room for, for a unit that the caller may know as a
    // number.
    #[inline(always)]
    fn runs_by(&mut self, unit: usize, into: &mut [Run]) -> usize
        requires unit { unit ≡ raw_unit self.old }
        ensures within { result ≤ length into.new }
        ensures lets_go { LetsGo self.old self.new (samples_of (take result into.new)) }
        ensures all { result < length into.new → length (raw_held self.new) < raw_unit self.old }
    {
        let bytes = self.held.bytes();
        let mask = self.mask;
        let mut left = bytes;
        let mut count = 0;
        while count < into.len() && left.len() >= unit {
            let len = alike_units(left, unit, mask);
            into[count] = Run {
                value: self.sample(left, unit),
                len: len as u64,
            };
            left = &left[len * unit..];
            count += 1;
        }
        let done = bytes.len() - left.len();
        self.held.advance(done);
        count
    }

    // The same for units of one byte. Each length has a loop of its own, so that it has its
    // registers.
    #[inline(never)]
    fn byte_runs(&mut self, into: &mut [Run]) -> usize
        requires unit { 1 ≡ raw_unit self.old }
        ensures within { result ≤ length into.new }
        ensures lets_go { LetsGo self.old self.new (samples_of (take result into.new)) }
        ensures all { result < length into.new → length (raw_held self.new) < raw_unit self.old }
    {
        self.runs_by(1, into)
    }

    // The same for units of two bytes.
    #[inline(never)]
    fn pair_runs(&mut self, into: &mut [Run]) -> usize
        requires unit { 2 ≡ raw_unit self.old }
        ensures within { result ≤ length into.new }
        ensures lets_go { LetsGo self.old self.new (samples_of (take result into.new)) }
        ensures all { result < length into.new → length (raw_held self.new) < raw_unit self.old }
    {
        self.runs_by(2, into)
    }

    // The same for longer units.
    #[inline(never)]
    fn wide_runs(&mut self, unit: usize, into: &mut [Run]) -> usize
        requires unit { unit ≡ raw_unit self.old }
        ensures within { result ≤ length into.new }
        ensures lets_go { LetsGo self.old self.new (samples_of (take result into.new)) }
        ensures all { result < length into.new → length (raw_held self.new) < raw_unit self.old }
    {
        self.runs_by(unit, into)
    }

    /// The next run of what is held, as `next` gives it. `None` comes exactly where less than a
    /// unit is held; then nothing changes. Nothing is read.
    #[inline(always)]
    pub fn held_run(&mut self) -> Option<Run>
        ensures given { IfSome result
            (λ run. (bytes given : List ℕ) → Stands self.old bytes given
            → Stands self.new bytes (given ++ samples run)) }
        ensures none { result ≡ None → length (raw_held self.old) < raw_unit self.old }
        ensures kept { result ≡ None → self.new ≡ self.old }
        ensures is_open { raw_open self.new ≡ raw_open self.old }
        ensures form { SameForm self.old self.new }
        ensures progress { IfSome result
            (λ run. raw_given self.old + run.len ≤ raw_given self.new) }
        ensures few { raw_given self.new ≤ 2 ^ 60 }
    {
        let unit = self.unit();
        if self.held.bytes().len() < unit {
            return None;
        }
        Some(self.run(unit))
    }

    /// As many runs of what is held as there is room for, as `held_run` gives them, and how many.
    /// Nothing is read.
    pub fn held_runs(&mut self, into: &mut [Run]) -> usize
        ensures within { result ≤ length into.new }
        ensures given { (bytes given : List ℕ) → Stands self.old bytes given
            → Stands self.new bytes (given ++ samples_of (take result into.new)) }
        ensures all { result < length into.new → length (raw_held self.new) < raw_unit self.old }
        ensures is_open { raw_open self.new ≡ raw_open self.old }
        ensures form { SameForm self.old self.new }
        ensures progress { raw_given self.old + length
            (samples_of (take result into.new)) ≤ raw_given self.new }
        ensures few { raw_given self.new ≤ 2 ^ 60 }
    {
        let unit = self.unit();
        if self.held.bytes().len() < unit {
            return 0;
        }
        self.runs(unit, into)
    }

    // The same where a unit is held.
    fn runs(&mut self, unit: usize, into: &mut [Run]) -> usize
        requires unit { unit ≡ raw_unit self.old }
        ensures within { result ≤ length into.new }
        ensures lets_go { LetsGo self.old self.new (samples_of (take result into.new)) }
        ensures all { result < length into.new → length (raw_held self.new) < raw_unit self.old }
    {
        if unit == 1 {
            return self.byte_runs(into);
        }
        if unit == 2 {
            return self.pair_runs(into);
        }
        self.wide_runs(unit, into)
    }

    /// The next run, or the end and how it came. It reads only where less than a unit is held, and
    /// joins neighbouring units that give the same sample, as far as they are held: where units
    /// differ in channels alone that no pin selects, they are one run. After every answer but a run
    /// it is closed. `Failed` comes where the source failed, after all samples that came before.
    #[inline(always)]
    pub fn next<S: Source>(&mut self, source: &mut S) -> Result<RawStep, Failed>
        requires { raw_open self.old ≡ true }
        ensures next { Next self.old self.new (S.left source.old) (S.left source.new) result }
        ensures is_open { raw_open self.new ≡ stays_open result }
        ensures form { SameForm self.old self.new }
        ensures progress { IfRun result (λ run. raw_given self.old + run.len ≤ raw_given self.new) }
        ensures few { raw_given self.new ≤ 2 ^ 60 }
        ensures prompt { raw_unit self.old ≤ length (raw_held self.old) → source.new ≡ source.old }
        ensures cause { HasCause (S.faults source.old) (S.faults source.new) result }
    {
        let unit = self.unit();
        match fill(&mut self.held, unit, source) {
            Filled::Unit => Ok(RawStep::Run(self.run(unit))),
            Filled::End => {
                self.open = false;
                Ok(self.at_end())
            }
            Filled::Full => {
                self.open = false;
                Ok(RawStep::Bytes)
            }
            Filled::Failed => {
                self.open = false;
                Err(Failed)
            }
        }
    }

    // How the bytes end, where less than a unit is held.
    fn at_end(&self) -> RawStep
        ensures { result
            ≡ (if length (raw_held self.now) == 0 then RawStep.End
            else RawStep.ShortUnit (raw_given self.now)) }
    {
        let rest = self.held.bytes().len() as u64;
        if rest == 0 {
            return RawStep::End;
        }
        RawStep::ShortUnit {
            at: self.held.taken() - rest,
        }
    }
}
