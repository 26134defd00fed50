// The header of a VCD file, token by token.
ghost use Rattle.std.specs.Prelude.{◌≡◌, ◌≢◌, ◌+◌, ◌≤◌, [], length, map, Err, OnOk};
ghost use Rattle.capture_vcd.specs.declared.section.Kind.TheVariants.{Outside as OfOutside};
ghost use Rattle.capture_vcd.specs.declared.section.Kind.TheVariants.{Passed as OfPassed};
ghost use Rattle.capture_vcd.specs.declared.section.Kind.TheVariants.{Definitions as OfDefinitions};
ghost use Rattle.capture_vcd.specs.declared.section.Kind.TheVariants.{Scale as OfScale};
ghost use Rattle.capture_vcd.specs.declared.section.Kind.TheVariants.{Variable as OfVariable};
ghost use Rattle.capture_vcd.specs.Gathered.{placed};
ghost use Rattle.capture_vcd.specs.Keeping.{IsNamed, IsShort, KeepsFew};

use crate::bits::{push_names, push_places};
use crate::keeping::{keep_scale, keep_variable};
use crate::place::Place;
use crate::scale::Scale;
use crate::section::{Kind, Word, first_at, joined, opened_by, scale_of, width_of};
use la_base::{Names, NoMemory};
use la_io::CaptureError;
use std::alloc::Global;

/// What was read of the header of a VCD file.
#[derive(Drop)]
pub struct Header {
    alloc: Global,
    // the section that is open, the place of its keyword, and what is kept of its words
    kind: Kind,
    at: u64,
    words: Vec<Word>,
    // what was declared: the names of the channels and where they stand, the codes of the
    // variables, the last time scale
    pub names: Names,
    pub places: Vec<Place>,
    pub codes: Vec<Vec<u8>>,
    pub scale: Option<Scale>,
    ghost short: { kind ≡ OfScale → IsShort words.items },
    ghost named: { kind ≡ OfVariable → IsNamed (map placed words.items) },
    ghost passed: { kind ≡ OfPassed → words.items ≡ [] },
    ghost ending: { kind ≡ OfDefinitions → words.items ≡ [] },
}

impl Header {
    ghost use Rattle.capture_vcd.specs.Gathering.{Adds, Closes, HeaderAt, HeaderGives, Keeps};

    /// Nothing was read.
    pub fn new(alloc: Global) -> Header
        ensures { HeaderAt result [] }
    {
        Header {
            alloc,
            kind: Kind::Outside,
            at: 0,
            words: Vec::new(alloc),
            names: Names::new(alloc),
            places: Vec::new(alloc),
            codes: Vec::new(alloc),
            scale: None,
        }
    }

    // Ends a section that tells the time scale.
    fn close_scale(&mut self, end_at: u64) -> Result<bool, CaptureError>
        requires { self.old.kind ≡ OfScale }
        ensures closes { Closes self.old self.new end_at result }
        ensures no_read { result ≢ Err CaptureError.Read }
    {
        let text = match joined(self.alloc, &self.words) {
            Ok(text) => text,
            Err(NoMemory) => return Err(CaptureError::NoMemory),
        };
        match scale_of(first_at(end_at, &self.words), &text) {
            Ok(scale) => {
                self.scale = Some(scale);
                self.kind = Kind::Outside;
                Ok(false)
            }
            Err(fault) => Err(CaptureError::Fault(fault)),
        }
    }

    // Adds a variable of so many channels.
    fn declare(&mut self, width: u64) -> Result<(), NoMemory>
        requires words { 4 ≤ length self.old.words.items }
        requires some { 1 ≤ width }
        requires few { length self.old.names + width ≤ 4096 }
        ensures { OnOk result (Adds self.old self.new width) }
    {
        let variable = self.codes.len();
        push_names(self.alloc, &mut self.names, &self.words, width)?;
        push_places(&mut self.places, variable, width)?;
        self.codes.push(self.words[2].text.to_vec(self.alloc)?)?;
        Ok(())
    }

    // Ends a section that declares a variable.
    fn close_variable(&mut self, end_at: u64) -> Result<bool, CaptureError>
        requires { self.old.kind ≡ OfVariable }
        ensures closes { Closes self.old self.new end_at result }
        ensures no_read { result ≢ Err CaptureError.Read }
    {
        let before = u64::from(self.names.count());
        match width_of(self.at, before, &self.words) {
            Ok(None) => {
                self.kind = Kind::Outside;
                Ok(false)
            }
            Ok(Some(width)) => match self.declare(width) {
                Ok(()) => {
                    self.kind = Kind::Outside;
                    Ok(false)
                }
                Err(NoMemory) => Err(CaptureError::NoMemory),
            },
            Err(fault) => Err(CaptureError::Fault(fault)),
        }
    }

    // An end: that of the section that is open, if one is. `true` is the end of the header.
    fn close(&mut self, end_at: u64) -> Result<bool, CaptureError>
        ensures closes { Closes self.old self.new end_at result }
        ensures no_read { result ≢ Err CaptureError.Read }
    {
        match self.kind {
            Kind::Outside => Ok(false),
            Kind::Passed => {
                self.kind = Kind::Outside;
                Ok(false)
            }
            Kind::Definitions => Ok(true),
            Kind::Scale => self.close_scale(end_at),
            Kind::Variable => self.close_variable(end_at),
        }
    }

    // Keeps of a word of the section that is open what is needed.
    fn keep(&mut self, at: u64, text: &[u8]) -> Result<(), NoMemory>
        ensures { OnOk result (Keeps self.old self.new at text.now) }
    {
        match self.kind {
            Kind::Scale => keep_scale(self.alloc, &mut self.words, at, text),
            Kind::Variable => keep_variable(self.alloc, &mut self.words, at, text),
            Kind::Outside | Kind::Passed | Kind::Definitions => Ok(()),
        }
    }

    // A token in the section that is open.
    fn inside(&mut self, at: u64, text: &[u8]) -> Result<bool, CaptureError>
        requires { self.old.kind ≢ OfOutside }
        ensures gives { HeaderGives self.old self.new (at, text.now) result }
        ensures no_read { result ≢ Err CaptureError.Read }
    {
        if b"$end".as_slice() == text {
            return self.close(at);
        }
        match self.keep(at, text) {
            Ok(()) => Ok(false),
            Err(NoMemory) => Err(CaptureError::NoMemory),
        }
    }

    /// Reads one more token. `true` is the end of the header. Little is kept of an open section.
    pub fn token(&mut self, at: u64, text: &[u8]) -> Result<bool, CaptureError>
        ensures gives { HeaderGives self.old self.new (at, text.now) result }
        ensures small { KeepsFew self.new.kind self.new.words.items }
        ensures no_read { result ≢ Err CaptureError.Read }
    {
        match self.kind {
            Kind::Outside => {
                self.kind = opened_by(text);
                self.at = at;
                self.words.clear();
                Ok(false)
            }
            Kind::Passed => self.inside(at, text),
            Kind::Definitions => self.inside(at, text),
            Kind::Scale => self.inside(at, text),
            Kind::Variable => self.inside(at, text),
        }
    }
}
