// Words in the place of a checkpoint's that no run wrote: each is refused before anything is read,
// or taken, and the run then ends as any other.
use crate::cuts::{Part, count_of, run_part, samples_of, words_of_part};
use crate::row::{Behind, Row};
use crate::running::{Given, run_words, source_of, told};
use crate::ways::{ALONE, WHOLE};
use anyhow::{Context, Result, bail, ensure};
use std::alloc::Global;
use std::sync::Wait;
use std::thread::Threads;

// How many samples all parts of a capture may have together.
const MOST_SAMPLES: u64 = 1 << 59;

// The digits of the number of samples: those from the third to the eighteenth.
const BEFORE_COUNT: usize = 2;

const BEHIND_COUNT: usize = 18;

// A row of whose capture the first samples gave a checkpoint, and the others are to come.
#[derive(Drop)]
struct Target<'a> {
    row: &'a Row,
    good: &'a str,
    others: &'a [u8],
}

// What a word comes to.
#[derive(PartialEq, Eq, Drop)]
enum Outcome {
    /// It is refused as no word of a checkpoint of these instances.
    Form,
    /// It is refused at an instance that saves no such bytes.
    Fit,
    /// It is taken, and all samples are decoded.
    Taken(Part),
    /// It is taken, and there are more samples than parts may have.
    Past,
}

// How many words came to what.
#[derive(Clone, Copy)]
struct Tally {
    words: u32,
    form: u32,
    fit: u32,
    taken: u32,
    past: u32,
    wrong: u32,
}

impl Tally {
    fn new() -> Tally {
        Tally {
            words: 0,
            form: 0,
            fit: 0,
            taken: 0,
            past: 0,
            wrong: 0,
        }
    }

    fn add(&mut self, outcome: &Result<Outcome>) {
        self.words = self.words.saturating_add(1);
        match outcome {
            Ok(Outcome::Form) => self.form = self.form.saturating_add(1),
            Ok(Outcome::Fit) => self.fit = self.fit.saturating_add(1),
            Ok(Outcome::Taken(_)) => self.taken = self.taken.saturating_add(1),
            Ok(Outcome::Past) => self.past = self.past.saturating_add(1),
            Err(_) => self.wrong = self.wrong.saturating_add(1),
        }
    }
}

fn run_behind<R: Threads + Wait + Sync>(
    rt: &R,
    alloc: Global,
    target: &Target<'_>,
    word: &str,
    behind: Behind,
) -> Result<Given> {
    let words = words_of_part(alloc, target.row, Some(word))?;
    let source = source_of(alloc, target.others, WHOLE, behind)?;
    run_words(rt, alloc, &words, source, &ALONE)
}

// Which refusal a notice tells.
fn refusal_of(alloc: Global, given: &Given) -> Result<Outcome> {
    let notice = str::from_utf8(&given.notices).context("no text")?;
    if notice == "ldecode: checkpoint at 0: Form\n" {
        return Ok(Outcome::Form);
    }
    for instance in 0..8_u32 {
        let fit = format!(in alloc; "ldecode: checkpoint at {instance}: Fit\n")?;
        if notice == fit.as_str() {
            return Ok(Outcome::Fit);
        }
    }
    bail!("refused by {}", told(alloc, given)?);
}

// What a word comes to. The first run is over a source whose first read fails, so that one which
// reads is told apart.
fn outcome_of<R: Threads + Wait + Sync>(
    rt: &R,
    alloc: Global,
    target: &Target<'_>,
    word: &str,
) -> Result<Outcome> {
    let unread = run_behind(rt, alloc, target, word, Behind::Unread)?;
    let written = told(alloc, &unread)?;
    ensure!(unread.listing.is_empty(), "nothing to write: {written}");
    if unread.status == 1 {
        return refusal_of(alloc, &unread);
    }
    ensure!(unread.status == 2, "neither refused nor read: {written}");
    let came = run_behind(rt, alloc, target, word, Behind::End)?;
    if came.status != 3 {
        return Ok(Outcome::Taken(Part::of(alloc, &came)?));
    }
    let past = came.notices.as_slice() == b"ldecode: capture at 0: Past\n".as_slice();
    ensure!(past, "{}", told(alloc, &came)?);
    Ok(Outcome::Past)
}

// The word with another letter in one place.
fn with_letter(alloc: Global, word: &str, place: usize, letter: char) -> Result<String> {
    let mut changed = String::new(alloc);
    for (number, old) in word.char_indices() {
        changed.push(if number == place { letter } else { old })?;
    }
    Ok(changed)
}

// Each bit is turned.
fn turned(alloc: Global, word: &str) -> Result<Vec<String>> {
    let mut words = Vec::new(alloc);
    for (place, digit) in word.char_indices() {
        let value = digit.to_digit(16).context("no digit")?;
        for bit in [8, 4, 2, 1] {
            let other = char::from_digit(value ^ bit, 16).context("no digit")?;
            words.push(with_letter(alloc, word, place, other)?)?;
        }
    }
    Ok(words)
}

// Each digit that is a letter is in upper case; and all are.
fn raised(alloc: Global, word: &str) -> Result<Vec<String>> {
    let mut words = Vec::new(alloc);
    let mut all = String::new(alloc);
    for (place, digit) in word.char_indices() {
        let upper = digit.to_ascii_uppercase();
        all.push(upper)?;
        if upper != digit {
            words.push(with_letter(alloc, word, place, upper)?)?;
        }
    }
    words.push(all)?;
    Ok(words)
}

// Each digit is none.
fn spoiled(alloc: Global, word: &str) -> Result<Vec<String>> {
    let mut words = Vec::new(alloc);
    for (place, _) in word.char_indices() {
        for letter in ['g', 'é'] {
            words.push(with_letter(alloc, word, place, letter)?)?;
        }
    }
    Ok(words)
}

// It ends behind each digit but the last one.
fn cut_short(alloc: Global, word: &str) -> Result<Vec<String>> {
    let mut words = Vec::new(alloc);
    for end in 1..word.len() {
        let front = word.get(..end).context("no digit")?;
        words.push(String::from_str(alloc, front)?)?;
    }
    Ok(words)
}

// One digit more stands behind it, or one byte.
fn lengthened(alloc: Global, word: &str) -> Result<Vec<String>> {
    let mut words = Vec::new(alloc);
    for digit in 0..16_u32 {
        words.push(format!(in alloc; "{word}{digit:x}")?)?;
    }
    for byte in 0..=255_u32 {
        words.push(format!(in alloc; "{word}{byte:02x}")?)?;
    }
    Ok(words)
}

// Other numbers of samples, of which so many are still to come: two that leave room for these, two
// that don't, and three that no checkpoint has.
fn counted(alloc: Global, word: &str, others: u64) -> Result<Vec<String>> {
    let most = MOST_SAMPLES.saturating_sub(others);
    let counts = [
        0,
        most,
        most.saturating_add(1),
        MOST_SAMPLES,
        MOST_SAMPLES.saturating_add(1),
        MOST_SAMPLES.saturating_mul(2),
        u64::MAX,
    ];
    let front = word.get(..BEFORE_COUNT).context("no form")?;
    let behind = word.get(BEHIND_COUNT..).context("no instances")?;
    let mut words = Vec::new(alloc);
    for count in counts {
        words.push(format!(in alloc; "{front}{count:016x}{behind}")?)?;
    }
    Ok(words)
}

// How words are made of a good one.
#[derive(Clone, Copy)]
enum Sort {
    Turned,
    Spoiled,
    Short,
    Long,
    Counted,
}

const SORTS: [Sort; 5] = [
    Sort::Turned,
    Sort::Spoiled,
    Sort::Short,
    Sort::Long,
    Sort::Counted,
];

impl Sort {
    fn name(self) -> &'static str {
        match self {
            Sort::Turned => "a bit turned",
            Sort::Spoiled => "a digit that is none",
            Sort::Short => "cut short",
            Sort::Long => "a digit or a byte more",
            Sort::Counted => "another number of samples",
        }
    }
}

// The words of a sort, of which so many samples are still to come.
fn words_of(alloc: Global, sort: Sort, good: &str, others: u64) -> Result<Vec<String>> {
    match sort {
        Sort::Turned => turned(alloc, good),
        Sort::Spoiled => spoiled(alloc, good),
        Sort::Short => cut_short(alloc, good),
        Sort::Long => lengthened(alloc, good),
        Sort::Counted => counted(alloc, good, others),
    }
}

// Takes down what a word comes to, and tells of one that comes to nothing that may be.
fn take_down<R: Threads + Wait + Sync + Print>(
    rt: &R,
    alloc: Global,
    target: &Target<'_>,
    what: &str,
    word: &str,
    tally: &mut Tally,
) -> Result<()> {
    let outcome = outcome_of(rt, alloc, target, word);
    tally.add(&outcome);
    if let Err(error) = outcome {
        println!(rt; "{what}: {word}: {error:#}")?;
    }
    Ok(())
}

// Tells what words come to, and answers how many of them came to nothing that may be.
fn tell_words<R: Threads + Wait + Sync + Print>(
    rt: &R,
    alloc: Global,
    target: &Target<'_>,
    what: &str,
    words: &[String],
) -> Result<u32> {
    let mut tally = Tally::new();
    for word in words {
        take_down(rt, alloc, target, what, word.as_str(), &mut tally)?;
    }
    println!(rt;
        "{what}: {} words, {} refused by Form, {} by Fit, {} taken, {} taken up to Past",
        tally.words, tally.form, tally.fit, tally.taken, tally.past
    )?;
    Ok(tally.wrong)
}

// Tells how many words give what the good one gives, and answers how many don't.
fn tell_same<R: Threads + Wait + Sync + Print>(
    rt: &R,
    alloc: Global,
    target: &Target<'_>,
    what: &str,
    words: &[String],
) -> Result<u32> {
    let good = outcome_of(rt, alloc, target, target.good)?;
    let mut same: u32 = 0;
    let mut other: u32 = 0;
    for word in words {
        if outcome_of(rt, alloc, target, word.as_str())? == good {
            same = same.saturating_add(1);
        } else {
            other = other.saturating_add(1);
        }
    }
    println!(rt; "{what}: {same} words as the good one, {other} not")?;
    Ok(other)
}

/// Decodes half of a row's capture, tells what words come to that are made of the one that it
/// gives, and answers how many come to nothing that may be.
pub fn tell_hostile<R: Threads + Wait + Sync + Print>(
    rt: &R,
    alloc: Global,
    row: &Row,
) -> Result<u32> {
    let all = count_of(row);
    let half = all / 2;
    let first = run_part(rt, alloc, row, None, samples_of(row, 0, half))?;
    let target = Target {
        row,
        good: first.word.as_str(),
        others: samples_of(row, half, all),
    };
    let left = all.saturating_sub(half) as u64;
    println!(rt; "words of {} bytes", target.good.len() / 2)?;
    let mut wrong: u32 = 0;
    for sort in SORTS {
        let words = words_of(alloc, sort, target.good, left)?;
        wrong = wrong.saturating_add(tell_words(rt, alloc, &target, sort.name(), &words)?);
    }
    let words = raised(alloc, target.good)?;
    let others = tell_same(rt, alloc, &target, "digits in upper case", &words)?;
    Ok(wrong.saturating_add(others))
}
