// A row's run, beside what it has to give.
use crate::cuts::check_cuts;
use crate::row::{Behind, Row};
use crate::ways::{ALONE, WAYS, WHOLE, Way};
use anyhow::{Result, bail};
use la_io::{Failed, MemSink, MemSource, Source};
use ldecode_program::program;
use std::alloc::Global;
use std::sync::Wait;
use std::thread::Threads;

/// What a run gives.
#[derive(PartialEq, Eq, Drop)]
pub struct Given {
    pub status: u8,
    pub notices: Vec<u8>,
    pub listing: Vec<u8>,
}

/// The words of a row, with the option of a way behind them, where they may have it and haven't.
pub fn words_of(alloc: Global, row: &Row, way: &Way) -> Result<Vec<String>> {
    let (name, value) = way.option;
    let mut words = Vec::new(alloc);
    let mut adds = !row.alone;
    for word in &row.words {
        adds &= !word.as_str().starts_with(name);
        words.push(word.clone()?)?;
    }
    if adds {
        words.push(String::from_str(alloc, name)?)?;
        words.push(String::from_str(alloc, value)?)?;
    }
    Ok(words)
}

/// A capture in pieces of so many bytes, and what stands behind it.
pub fn source_of(alloc: Global, capture: &[u8], most: usize, behind: Behind) -> Result<MemSource> {
    let mut pieces = Vec::new(alloc);
    for piece in capture.chunks(most.max(1)) {
        pieces.push(piece.to_vec(alloc)?)?;
    }
    let mut fails = Vec::new(alloc);
    match behind {
        Behind::End => {}
        Behind::Failure => fails.push(pieces.len() as u64)?,
        Behind::Unread => fails.push(0)?,
    }
    Ok(MemSource::new(pieces, fails))
}

fn sink_of(alloc: Global, way: &Way) -> Result<MemSink> {
    match MemSink::new(alloc, way.most.max(1), Vec::new(alloc), way.room) {
        Ok(sink) => Ok(sink),
        Err(_) => bail!("no memory for a sink"),
    }
}

// A source in memory of which a read may have to wait, or never does.
#[derive(Drop)]
struct Paced {
    source: MemSource,
    waits: bool,
}

impl Source for Paced {
    ghost left = { λ s. ⟦<MemSource as Source>⟧.left s.source };

    ghost faults = { λ s. ⟦<MemSource as Source>⟧.faults s.source };

    fn read(&mut self, buf: &mut [u8]) -> Result<usize, Failed> {
        self.source.read(buf)
    }

    fn may_wait(&self) -> bool {
        self.waits
    }
}

/// Runs words over a source.
pub fn run_words<R: Threads + Wait + Sync>(
    rt: &R,
    alloc: Global,
    words: &[String],
    source: MemSource,
    way: &Way,
) -> Result<Given> {
    let mut source = Paced {
        source,
        waits: way.waits,
    };
    let mut sink = sink_of(alloc, way)?;
    let mut notices = sink_of(alloc, way)?;
    let status = program(
        rt,
        alloc,
        words,
        &mut source,
        &mut sink,
        &mut notices,
        &way.turns,
    );
    Ok(Given {
        status,
        notices: notices.written().to_vec(alloc)?,
        listing: sink.written().to_vec(alloc)?,
    })
}

fn run_by<R: Threads + Wait + Sync>(rt: &R, alloc: Global, row: &Row, way: &Way) -> Result<Given> {
    let words = words_of(alloc, row, way)?;
    let most = way.piece(row.capture.len(), row.words.len());
    let source = source_of(alloc, &row.capture, most, row.behind)?;
    run_words(rt, alloc, &words, source, way)
}

// What a row wants. Of the listing of a row that says nothing of it, what it is in one way.
fn wanted_of<R: Threads + Wait + Sync>(rt: &R, alloc: Global, row: &Row) -> Result<Given> {
    let listing = match &row.listing {
        Some(listing) => listing.clone()?,
        None => run_by(rt, alloc, row, &ALONE)?.listing,
    };
    Ok(Given {
        status: row.status,
        notices: row.notices.clone()?,
        listing,
    })
}

/// What a run gives, in one line.
pub fn told(alloc: Global, given: &Given) -> Result<String> {
    let status = given.status;
    let notices = String::from_utf8_lossy(alloc, &given.notices)?;
    let listing = String::from_utf8_lossy(alloc, &given.listing)?;
    Ok(format!(in alloc; "status {status}, notices {notices:?}, listing {listing:?}")?)
}

/// The first way in which a row doesn't hold, if there is one: its line and its name, what was
/// wanted, and what came. A capture of no bytes has one cut.
pub fn fault_of<R: Threads + Wait + Sync>(
    rt: &R,
    alloc: Global,
    row: &Row,
) -> Result<Option<String>> {
    let wanted = wanted_of(rt, alloc, row)?;
    let (line, name) = (row.line, row.name.as_str());
    for way in &WAYS {
        if row.capture.is_empty() && way.most != WHOLE {
            continue;
        }
        let came = run_by(rt, alloc, row, way)?;
        if came != wanted {
            let (way, wanted) = (way.name, told(alloc, &wanted)?);
            let came = told(alloc, &came)?;
            return Ok(Some(format!(in alloc;
                "{line}: {name} {way}: wanted {wanted}; came {came}"
            )?));
        }
    }
    if !row.cuts {
        return Ok(None);
    }
    match check_cuts(rt, alloc, row, &wanted.listing) {
        Ok(()) => Ok(None),
        Err(error) => Ok(Some(format!(in alloc; "{line}: {name} in parts: {error:#}")?)),
    }
}
