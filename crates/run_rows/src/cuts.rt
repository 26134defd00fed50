// A row's capture in parts, each of which goes on behind the checkpoint of the one before it.
use crate::row::{Behind, Row};
use crate::running::{Given, run_words, source_of, told, words_of};
use crate::ways::{ALONE, WHOLE};
use anyhow::{Context, Result, bail, ensure};
use std::alloc::Global;
use std::sync::Wait;
use std::thread::Threads;

/// What a part gives: its listing, and the word of its checkpoint.
#[derive(PartialEq, Eq, Drop)]
pub struct Part {
    pub listing: String,
    pub word: String,
}

impl Part {
    /// The part that a run gives, where it ends with a checkpoint.
    pub fn of(alloc: Global, given: &Given) -> Result<Part> {
        let said = given.status != 0 || !given.notices.is_empty();
        ensure!(!said, "{}", told(alloc, given)?);
        let text = str::from_utf8(&given.listing).context("no text")?;
        let text = text.strip_suffix('\n').context("no line")?;
        let (listing, last) = match text.rsplit_once('\n') {
            Some((lines, last)) => (lines, last),
            None => ("", text),
        };
        let word = last.strip_prefix("checkpoint: ").context("no checkpoint")?;
        Ok(Part {
            listing: String::from_str(alloc, listing)?,
            word: String::from_str(alloc, word)?,
        })
    }
}

/// The words of a part of a row's capture, behind the checkpoint of this word if there is one.
pub fn words_of_part(alloc: Global, row: &Row, from: Option<&str>) -> Result<Vec<String>> {
    let mut words = words_of(alloc, row, &ALONE)?;
    words.push(String::from_str(alloc, "--job=part")?)?;
    if let Some(word) = from {
        words.push(String::from_str(alloc, "--from")?)?;
        words.push(String::from_str(alloc, word)?)?;
    }
    Ok(words)
}

/// The samples of a row's capture from one place to another.
pub fn samples_of(row: &Row, from: usize, to: usize) -> &[u8] {
    let end = to.saturating_mul(row.unit);
    let front = row.capture.get(..end).unwrap_or(&[]);
    let start = from.saturating_mul(row.unit);
    front.get(start..).unwrap_or(&[])
}

/// How many samples a row's capture has.
pub fn count_of(row: &Row) -> usize {
    row.capture.len() / row.unit.max(1)
}

/// Decodes samples as a part, behind the checkpoint of this word if there is one.
pub fn run_part<R: Threads + Wait + Sync>(
    rt: &R,
    alloc: Global,
    row: &Row,
    from: Option<&str>,
    samples: &[u8],
) -> Result<Part> {
    let words = words_of_part(alloc, row, from)?;
    let source = source_of(alloc, samples, WHOLE, Behind::End)?;
    Part::of(alloc, &run_words(rt, alloc, &words, source, &ALONE)?)
}

// The place behind a line, where it stands in a text at this place.
fn behind_line(text: &str, place: usize, line: &str) -> Option<usize> {
    let rest = text.get(place..)?.strip_prefix(line)?;
    if rest.is_empty() {
        return Some(text.len());
    }
    let rest = rest.strip_prefix('\n')?;
    Some(text.len().saturating_sub(rest.len()))
}

// Whether the lines of a listing are those of two others, each of which has its own in the same
// order. A later part may give a note that starts before the last one of an earlier part.
fn are_together(whole: &str, first: &str, second: &str) -> bool {
    let (mut in_first, mut in_second) = (0, 0);
    for line in whole.split('\n') {
        if line.is_empty() {
            continue;
        }
        if let Some(place) = behind_line(first, in_first, line) {
            in_first = place;
        } else if let Some(place) = behind_line(second, in_second, line) {
            in_second = place;
        } else {
            return false;
        }
    }
    in_first >= first.len() && in_second >= second.len()
}

// For each number of samples, from 0 on, the part that so many first samples give.
fn fronts_of<R: Threads + Wait + Sync>(rt: &R, alloc: Global, row: &Row) -> Result<Vec<Part>> {
    let mut fronts = Vec::new(alloc);
    for count in 0..=count_of(row) {
        let samples = samples_of(row, 0, count);
        let front = run_part(rt, alloc, row, None, samples).context(format_args!(
            "the first {count} samples"
        ))?;
        fronts.push(front)?;
    }
    Ok(fronts)
}

// A first part gives what decoding its samples gives.
fn check_front<R: Threads + Wait + Sync>(
    rt: &R,
    alloc: Global,
    row: &Row,
    count: usize,
    front: &Part,
) -> Result<()> {
    let words = words_of(alloc, row, &ALONE)?;
    let source = source_of(alloc, samples_of(row, 0, count), WHOLE, Behind::End)?;
    let came = run_words(rt, alloc, &words, source, &ALONE)?;
    let lines = str::from_utf8(&came.listing).context("no text")?;
    let same = lines.strip_suffix('\n').unwrap_or(lines) == front.listing.as_str();
    ensure!(
        same && came.status == 0,
        "the first {count} samples: {} is listed, and as a part {:?}",
        told(alloc, &came)?,
        front.listing
    );
    Ok(())
}

// The samples from one place to another, behind the checkpoint at the first, give the lines that
// are missing at the second, and the checkpoint that all samples up to there give as one part.
fn check_cut<R: Threads + Wait + Sync>(
    rt: &R,
    alloc: Global,
    row: &Row,
    fronts: &[Part],
    from: usize,
    to: usize,
) -> Result<()> {
    let (Some(front), Some(wanted)) = (fronts.get(from), fronts.get(to)) else {
        bail!("no place from {from} to {to}");
    };
    let samples = samples_of(row, from, to);
    let came = run_part(rt, alloc, row, Some(front.word.as_str()), samples).context(format_args!(
        "from {from} to {to}"
    ))?;
    ensure!(
        came.word == wanted.word,
        "from {from} to {to}: the checkpoint is {}, and as one part {}",
        came.word,
        wanted.word
    );
    let together = are_together(
        wanted.listing.as_str(),
        front.listing.as_str(),
        came.listing.as_str(),
    );
    ensure!(
        together,
        "from {from} to {to}: behind {:?} comes {:?}, and as one part {:?}",
        front.listing,
        came.listing,
        wanted.listing
    );
    Ok(())
}

/// Decodes a row's capture in two parts, cut at each place, and in three, cut there and in the
/// middle of what is behind it. Of three the last is also the last of two: it goes on behind the
/// same word. What all samples give has to be this listing.
pub fn check_cuts<R: Threads + Wait + Sync>(
    rt: &R,
    alloc: Global,
    row: &Row,
    listing: &[u8],
) -> Result<()> {
    let count = count_of(row);
    let fronts = fronts_of(rt, alloc, row)?;
    for (place, front) in fronts.iter().enumerate() {
        check_front(rt, alloc, row, place, front)?;
        check_cut(rt, alloc, row, &fronts, place, count)?;
        let middle = place.saturating_add(count.saturating_sub(place) / 2);
        check_cut(rt, alloc, row, &fronts, place, middle)?;
    }
    let lines = str::from_utf8(listing).context("no text")?;
    let same = match fronts.last() {
        Some(all) => lines.strip_suffix('\n').unwrap_or(lines) == all.listing.as_str(),
        None => false,
    };
    ensure!(same, "all samples as one part give other lines");
    Ok(())
}
