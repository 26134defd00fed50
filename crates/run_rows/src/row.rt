// A row: a whole run, and what it has to give.
use crate::drawing::Drawing;
use crate::text::{add_line, add_text, add_words};
use crate::waves::{draw, number_of};
use anyhow::{Context, Result, bail, ensure};
use std::alloc::Global;

/// What stands behind the capture's last byte.
#[derive(Clone, Copy, PartialEq, Eq)]
pub enum Behind {
    /// Its end.
    End,
    /// A failed read.
    Failure,
    /// It doesn't matter: the first read fails, so that a run which reads is told apart.
    Unread,
}

/// A whole run, and what it has to give.
#[derive(Drop)]
pub struct Row {
    pub line: u32,
    pub name: String,
    pub words: Vec<String>,
    /// Whether no option may be added to the words.
    pub alone: bool,
    pub capture: Vec<u8>,
    /// The bytes of a sample of its capture.
    pub unit: usize,
    pub behind: Behind,
    pub status: u8,
    pub notices: Vec<u8>,
    /// None where nothing is said of it but that each run has the same.
    pub listing: Option<Vec<u8>>,
    /// Whether the capture is decoded in parts too, cut in every place.
    pub cuts: bool,
}

/// A row of which some statements are read.
#[derive(Drop)]
pub struct Draft {
    alloc: Global,
    line: u32,
    name: String,
    words: Option<Vec<String>>,
    alone: bool,
    drawing: Drawing,
    behind: Behind,
    status: Option<u8>,
    notices: Vec<u8>,
    listing: Vec<u8>,
    cuts: bool,
    // the listing isn't written, but is what decoding gives
    whole: bool,
}

// The listing of a row, where it is written.
fn written(whole: bool, listing: Vec<u8>) -> Option<Vec<u8>> {
    if whole { None } else { Some(listing) }
}

// A statement without a text.
fn ensure_bare(text: &str) -> Result<()> {
    ensure!(text.is_empty(), "{text:?} says nothing here");
    Ok(())
}

impl Draft {
    /// The row of this name that begins at a line.
    pub fn new(alloc: Global, line: u32, name: &str) -> Result<Draft> {
        Ok(Draft {
            alloc,
            line,
            name: String::from_str(alloc, name)?,
            words: None,
            alone: false,
            drawing: Drawing::new(alloc),
            behind: Behind::End,
            status: None,
            notices: Vec::new(alloc),
            listing: Vec::new(alloc),
            cuts: false,
            whole: false,
        })
    }

    /// The row of a run whose words are refused, from its notice between brackets and its words.
    /// Nothing is read or written.
    pub fn refused(alloc: Global, line: u32, text: &str) -> Result<Draft> {
        let text = text.strip_prefix('[').context("no notice")?;
        let (notice, words) = text.split_once(']').context("the notice isn't closed")?;
        let mut draft = Draft::new(alloc, line, words.trim())?;
        draft.add_words(words)?;
        // where words are too few, those that are added would count
        draft.alone = notice.starts_with("word");
        draft.behind = Behind::Unread;
        draft.status = Some(1);
        let notice = format!(in alloc; "ldecode: {notice}")?;
        add_line(alloc, &mut draft.notices, notice.as_str())?;
        Ok(draft)
    }

    /// The line at which it begins.
    pub fn line(&self) -> u32 {
        self.line
    }

    fn add_words(&mut self, text: &str) -> Result<()> {
        let mut words = match self.words.take() {
            Some(words) => words,
            None => Vec::new(self.alloc),
        };
        add_words(self.alloc, &mut words, text)?;
        self.words = Some(words);
        Ok(())
    }

    fn add_capture(&mut self, text: &str) -> Result<()> {
        let mut bytes = Vec::new(self.alloc);
        add_line(self.alloc, &mut bytes, text)?;
        self.drawing.add(&bytes)
    }

    // The capture ends in a way that isn't the usual one, which nothing more is said of.
    fn end_by(&mut self, behind: Behind, text: &str) -> Result<()> {
        ensure_bare(text)?;
        ensure!(self.behind == Behind::End, "a second end");
        self.behind = behind;
        Ok(())
    }

    fn add_drawn(&mut self, name: &str, text: &str) -> Result<()> {
        let mut bytes = Vec::new(self.alloc);
        add_text(self.alloc, &mut bytes, text)?;
        let text = str::from_utf8(&bytes).context("no text")?;
        draw(&mut self.drawing, self.alloc, name, text)
    }

    // Whether its run may be cut: a decode of raw samples into lines, up to the end of the capture.
    fn may_be_cut(&self) -> bool {
        let mut may = self.behind == Behind::End && self.status == Some(0);
        if let Some(words) = &self.words {
            for word in words {
                for other in ["--job", "--from", "--format", "--binary"] {
                    may &= !word.as_str().starts_with(other);
                }
            }
        }
        may && self.notices.is_empty()
    }

    /// One more statement.
    pub fn add(&mut self, name: &str, text: &str) -> Result<()> {
        match name {
            "words" => self.add_words(text)?,
            "|" => self.add_capture(text)?,
            "fails" => self.end_by(Behind::Failure, text)?,
            "unread" => self.end_by(Behind::Unread, text)?,
            "cuts" => {
                ensure_bare(text)?;
                self.cuts = true;
            }
            "whole" => {
                ensure_bare(text)?;
                self.whole = true;
            }
            "status" => {
                ensure!(self.status.is_none(), "a second status");
                let status = number_of(text)?;
                ensure!(status < 256, "no exit status");
                self.status = Some(status as u8);
            }
            "!" => add_line(self.alloc, &mut self.notices, text)?,
            ">" => add_line(self.alloc, &mut self.listing, text)?,
            _ => self.add_drawn(name, text)?,
        }
        Ok(())
    }

    /// The row, where all is there that has to be.
    pub fn finish(self) -> Result<Row> {
        let capture = self.drawing.bytes().to_vec(self.alloc)?;
        // a source in memory counts its calls, and a longer piece may take several
        if self.behind == Behind::Failure && capture.len() > 1000 {
            bail!("a capture that fails has at most 1000 bytes");
        }
        ensure!(!self.cuts || self.may_be_cut(), "no run that can be cut");
        ensure!(
            !self.whole || self.listing.is_empty(),
            "a listing beside whole"
        );
        ensure!(!self.whole || self.cuts, "whole without cuts");
        let unit = self.drawing.unit();
        Ok(Row {
            line: self.line,
            name: self.name,
            words: self.words.context("the row has no words")?,
            alone: self.alone,
            capture,
            unit,
            behind: self.behind,
            status: self.status.context("the row has no status")?,
            notices: self.notices,
            listing: written(self.whole, self.listing),
            cuts: self.cuts,
        })
    }
}
