// Worked by hand from what each letter means.
ghost use Rattle.std.specs.Prelude.{◌≤◌, ◌<◌};
ghost use Rattle.cond_words.specs.Binding.{Distinct};

use cond_words::{
    AltWords, BindWhy, CondError, CondFault, CondWhy, ItemFault, Letter, Term, bind_alt, read_alt,
};
use la_base::{MOST_PINS, Names, Pins, Run, Word};
use std::alloc::{AllocError, Global};
use std::process::Abort;
use std::test::Fail;
use wait_cond::{Alt, Cond, Scan, Waiter, all_stops};

// More samples than come before a run, or in one.
const FAR: u64 = 1 << 59;

// The line with the highest number.
const TOP: Word = 1 << (MOST_PINS - 1);

// It asks nothing.
const NONE: Alt = Alt {
    low: 0,
    high: 0,
    rise: 0,
    fall: 0,
    edge: 0,
    steady: 0,
    skip: 0,
};

const LETTERS: [Letter; 6] = [
    Letter::Low,
    Letter::High,
    Letter::Rise,
    Letter::Fall,
    Letter::Edge,
    Letter::Steady,
];

// The alternative that asks a letter of these lines besides.
fn asks(alt: Alt, letter: Letter, lines: Word) -> Alt {
    let mut more = alt;
    match letter {
        Letter::Low => more.low = lines,
        Letter::High => more.high = lines,
        Letter::Rise => more.rise = lines,
        Letter::Fall => more.fall = lines,
        Letter::Edge => more.edge = lines,
        Letter::Steady => more.steady = lines,
    }
    more
}

// The stop in a run, if there is one, by the masks of what is waited for. The run isn't the first one.
fn walked(rt: &impl Abort, waiter: &mut Waiter, run: Run) -> Option<(u64, u8)> {
    assert!(rt; waiter.is_exact());
    let pair = waiter.pair();
    let mut walk = waiter.walk();
    assert!(rt; walk.has_room(run));
    let at = walk.consumed();
    let met = pair.met(walk.last(), run.value);
    if met == 0 {
        walk.pass(run);
    } else {
        walk.stop(run);
    }
    assert!(rt; walk.consumed() == at + run.len);
    waiter.put(walk);
    if met == 0 { None } else { Some((at, met)) }
}

// The stops in a list of runs, from each run the first ones, at most `most`; by masks where that is asked for and they
// say all of what is waited for.
fn scanned(
    rt: &impl Abort,
    alloc: Global,
    alts: &[Alt],
    runs: &[(Word, u64)],
    most: u32,
    by_masks: bool,
) -> Result<Vec<(u64, u8)>, Fail> {
    let (first, others) = alts.split_first().ok_or("no alternative")?;
    let mut cond = Cond::one(*first);
    for alt in others {
        assert!(rt; cond.count() < 8);
        cond.add(*alt);
    }
    let mut waiter = Waiter::new(cond);
    let mut stops = Vec::new(alloc);
    for (value, len) in runs {
        assert!(rt; 0 < *len);
        let whole = Run {
            value: *value,
            len: *len,
        };
        if by_masks && waiter.is_exact() {
            if let Some(stop) = walked(rt, &mut waiter, whole) {
                stops.push(stop)?;
            }
            continue;
        }
        let mut next = Some(whole);
        for _ in 0..most {
            let Some(run) = next else {
                break;
            };
            assert!(rt; waiter.consumed() <= FAR && run.len <= FAR);
            match waiter.scan(run) {
                Scan::Met { at, met, rest, .. } => {
                    stops.push((at, met))?;
                    next = rest;
                }
                Scan::Through => next = None,
            }
        }
    }
    Ok(stops)
}

// Compares the stops that a waiter finds in runs with the definition.
fn compare(
    rt: &impl Abort,
    alloc: Global,
    alts: &[Alt],
    runs: &[(Word, u64)],
    samples: &[Word],
) -> Result<(), Fail> {
    assert!(rt; alts.len() <= 8 && samples.len() as u64 <= FAR);
    let stops = all_stops(alloc, alts, samples)?;
    for by_masks in [false, true] {
        assert!(rt;
            scanned(rt, alloc, alts, runs, 4, by_masks)? == stops,
            "{alts:?} at {runs:?}"
        );
    }
    Ok(())
}

// The alternative that asks a letter of these lines, with a skip; its number tells both.
fn one_of(number: usize, lines: Word) -> Alt {
    let skips = Alt {
        skip: (number / 6) as u64,
        ..NONE
    };
    asks(skips, LETTERS[number % 6], lines)
}

// The list of so many runs that has a number: each has 1 to 3 samples, of one of so many values. Neighbours may have the same
// value, so that a longer run comes cut.
fn runs_of(
    alloc: Global,
    number: u64,
    values: u64,
    count: u32,
) -> Result<Vec<(Word, u64)>, AllocError>
    requires { 0 < values }
{
    let mut rest = number;
    let mut runs = Vec::new(alloc);
    for _ in 0..count {
        runs.push((Word::from(rest % values), 1 + rest / values % 3))?;
        rest = rest / values / 3;
    }
    Ok(runs)
}

// The samples of runs.
fn samples_of(alloc: Global, runs: &[(Word, u64)]) -> Result<Vec<Word>, AllocError> {
    let mut samples = Vec::new(alloc);
    for (value, len) in runs {
        for _ in 0..*len {
            samples.push(*value)?;
        }
    }
    Ok(samples)
}

// All conditions of one or two alternatives, each a letter of its lines with a skip up to 4.
fn compare_pairs(
    rt: &impl Abort,
    alloc: Global,
    second: Word,
    runs: &[(Word, u64)],
) -> Result<(), Fail> {
    let samples = samples_of(alloc, runs)?;
    for first in 0..30 {
        let one = one_of(first, 0b01);
        compare(rt, alloc, &[one], runs, &samples)?;
        for other in 0..30 {
            compare(rt, alloc, &[one, one_of(other, second)], runs, &samples)?;
        }
    }
    Ok(())
}

// Over all lists of three runs of one line and of two runs of two lines.
#[test]
fn stops_of_two_alternatives(rt: HostRuntime) -> Result<(), Fail> {
    let alloc = rt.alloc();
    for number in 0..216 {
        compare_pairs(&rt, alloc, 0b01, &runs_of(alloc, number, 2, 3)?)?;
    }
    for number in 0..144 {
        compare_pairs(&rt, alloc, 0b10, &runs_of(alloc, number, 4, 2)?)?;
    }
    Ok(())
}

// All conditions of one alternative that asks a letter of each of two lines; the same letter is asked of both together.
fn compare_letters(rt: &impl Abort, alloc: Global, runs: &[(Word, u64)]) -> Result<(), Fail> {
    let samples = samples_of(alloc, runs)?;
    for first in 0..30 {
        for letter in 0..6 {
            let lines = if letter == first % 6 { 0b11 } else { 0b10 };
            let both = asks(one_of(first, 0b01), LETTERS[letter], lines);
            compare(rt, alloc, &[both], runs, &samples)?;
        }
    }
    Ok(())
}

// Over all lists of three runs of two lines.
#[test]
fn stops_of_two_lines(rt: HostRuntime) -> Result<(), Fail> {
    let alloc = rt.alloc();
    for number in 0..1728 {
        compare_letters(&rt, alloc, &runs_of(alloc, number, 4, 3)?)?;
    }
    Ok(())
}

// No word writes so long a skip.
#[test]
fn the_longest_skip_is_not_met(rt: HostRuntime) {
    let alt = Alt {
        low: 1,
        skip: u64::MAX,
        ..NONE
    };
    let mut waiter = Waiter::new(Cond::one(alt));
    let long = Run { value: 0, len: FAR };
    assert!(rt; waiter.scan(long) == Scan::Through);
}

#[test]
fn conditions_are_renewed(rt: HostRuntime) {
    // a new condition keeps what was consumed
    let mut waiter = Waiter::new(Cond::one(Alt { high: 1, ..NONE }));
    waiter.renew(Cond::one(Alt { low: 1, ..NONE }));
    let first = Scan::Met {
        at: 0,
        value: 0,
        met: 1,
        rest: None,
    };
    assert!(rt; waiter.scan(Run { value: 0, len: 1 }) == first);
    // behind the stop the line rises
    waiter.renew(Cond::one(Alt { rise: 1, ..NONE }));
    let met = Scan::Met {
        at: 1,
        value: 1,
        met: 1,
        rest: Some(Run { value: 1, len: 1 }),
    };
    assert!(rt; waiter.scan(Run { value: 1, len: 2 }) == met);
}

#[test]
fn runs_are_passed(rt: HostRuntime) {
    // line 0 is high, low, low and then high again; what comes before the first run isn't known
    let runs = [
        Run { value: 1, len: 2 },
        Run { value: 0, len: 3 },
        Run { value: 2, len: 1 },
        Run { value: 1, len: 1 },
    ];
    let mut waiter = Waiter::new(Cond::one(Alt { rise: 1, ..NONE }));
    assert!(rt; waiter.pass_runs(&runs) == 0);
    assert!(rt; waiter.scan(runs[0]) == Scan::Through);
    assert!(rt; waiter.pass_runs(&runs[1..]) == 2);
    assert!(rt; waiter.consumed() == 6);
    assert!(rt; waiter.pass_runs(&[]) == 0);
    // what goes on with the last value has no edge
    assert!(rt; waiter.rests(Run { value: 2, len: 9 }));
    assert!(rt; !waiter.rests(Run { value: 0, len: 9 }));
    // no more than may be counted
    let far = Run {
        value: 0,
        len: 1 << 60,
    };
    assert!(rt; waiter.pass_runs(&[far]) == 0);
}

#[test]
fn waits_without_masks_go_on(rt: HostRuntime) {
    // no masks say that a line of the upper half rises, but it is waited for
    let above = Alt { rise: TOP, ..NONE };
    let mut waiter = Waiter::new(Cond::one(above));
    assert!(rt; waiter.scan(Run { value: 1, len: 2 }) == Scan::Through);
    assert!(rt; !waiter.is_exact());
    let high = Run { value: TOP, len: 1 };
    let met = Scan::Met {
        at: 2,
        value: TOP,
        met: 1,
        rest: None,
    };
    assert!(rt; waiter.scan(high) == met);
    // a waiter made from what was kept goes on as the one that it was kept of
    let (consumed, stop, last) = waiter.kept();
    assert!(rt; (consumed, stop, last) == (3, Some(2), TOP));
    let mut other = Waiter::made(Cond::one(above), consumed, stop, last);
    for run in [high, Run { value: 0, len: 2 }, high] {
        assert!(rt; waiter.consumed() <= FAR && other.consumed() <= FAR && run.len <= FAR);
        assert!(rt; other.scan(run) == waiter.scan(run));
    }
}

// The place of the first fault of a word, and why. Behind a star stand 62 further terms: the term behind 64 is one too many.
const FAULTS: &str = "\
0 Empty 
0 Empty ,
0 Empty ,D0=r
5 Empty D0=r,
5 Empty D0=r,,D1=h
0 Term any,
0 Term any,any
5 Term D0=r,any
0 Term D0
0 Term skip
0 Term =h
5 Term D0=r,=
3 Level D0=
3 Level D0=q
3 Level D0=R
3 Level D0=rh
3 Level D0=r=r
3 Level é=q
3 Level D0=q,skip=0
10 Level skip=1,D0=q
5 Skip skip=
5 Skip skip=0
5 Skip skip=r
5 Skip skip=+1
5 Skip skip=1x
5 Skip skip=1152921504606846976
5 Skip skip=00000000000000000001
12 Skip skip=1,skip=1
22 Skip D0=r,skip=2,D1=h,skip=x
309 Many *,0=h,0=h
309 Many *,0=h,
309 Many *,0=h,skip=0
305 Term *,0
305 Empty *,";

// The word that a row writes: where it begins with a star, that stands for 63 terms, of 304 bytes.
fn word_of(alloc: Global, text: &str) -> Result<String, Fail> {
    let Some(behind) = text.strip_prefix('*') else {
        return Ok(String::from_str(alloc, text)?);
    };
    let mut word = String::from_str(alloc, "0=h")?;
    for channel in 1..63 {
        write!(word, ",{channel}=h")?;
    }
    word.push_str(behind)?;
    Ok(word)
}

// What reading a word answers.
fn answer(alloc: Global, word: &str) -> Result<Result<AltWords, CondError>, Fail> {
    if word.len() > 4096 {
        return Err("a long word".into());
    }
    Ok(read_alt(alloc, word))
}

// The first fault of a word.
fn fault_of(alloc: Global, text: &str) -> Result<CondFault, Fail> {
    match answer(alloc, word_of(alloc, text)?.as_str())? {
        Err(CondError::Fault(fault)) => Ok(fault),
        _ => Err("no fault".into()),
    }
}

// Where these faults are is in the rows of `run_rows`, too.
#[test]
fn words_have_their_first_fault(rt: HostRuntime) -> Result<(), Fail> {
    for row in FAULTS.split('\n') {
        let (at, rest) = row.split_once(' ').unwrap_or(("", ""));
        let (why, text) = rest.split_once(' ').unwrap_or(("", ""));
        let fault = fault_of(rt.alloc(), text)?;
        let told = format!(in rt.alloc(); "{} {:?}", fault.at, fault.why)?;
        assert!(rt;
            told.as_str() == format!(in rt.alloc(); "{at} {why}")?.as_str(),
            "{row}"
        );
    }
    Ok(())
}

// Words, names and pins. A term is a channel and a letter, or a skip.
#[test]
fn terms_and_what_faults_say(rt: HostRuntime) -> Result<(), Fail> {
    let alloc = rt.alloc();
    let Ok(words) = answer(alloc, "D0=r,skip=2")? else {
        return Err("a fault".into());
    };
    assert!(rt; words.terms.len() == 2 && matches!(words.terms[1], Term::Skip(2)));
    let Some(Term::Line { reference, letter }) = words.terms.first() else {
        return Err("no line".into());
    };
    assert!(rt; reference.as_str() == "D0" && *letter == Letter::Rise);
    let text = format!(in alloc; "{}", CondError::Fault(fault_of(alloc, "D0=q")?))?;
    assert!(rt; text.as_str() == "byte 3: no such letter");
    Ok(())
}

// What is bound of a word.
fn bound(
    alloc: Global,
    word: &str,
    names: &Names,
    pins: &mut Pins,
) -> Result<Result<Alt, ItemFault>, Fail>
    requires { Distinct pins.old.items }
    ensures { Distinct pins.new.items }
{
    match answer(alloc, word)? {
        Ok(words) => Ok(bind_alt(&words, names, pins)),
        Err(_) => Err("a fault".into()),
    }
}

// Pins stand in the order in which words use them, and a refusal leaves them as they were.
#[test]
fn words_are_bound(rt: HostRuntime) -> Result<(), Fail> {
    let alloc = rt.alloc();
    let mut names = Names::new(alloc);
    names.push(b"clk")?;
    names.push(b"data")?;
    let mut pins = Pins::new();
    let one = Alt { rise: 0b1, ..NONE };
    assert!(rt; bound(alloc, "data=r", &names, &mut pins)? == Ok(one));
    let two = Alt {
        high: 0b1,
        steady: 0b10,
        skip: 4,
        ..NONE
    };
    assert!(rt; bound(alloc, "1=h,skip=4,clk=s", &names, &mut pins)? == Ok(two));
    let fault = ItemFault {
        item: 2,
        why: BindWhy::Unknown,
    };
    assert!(rt; bound(alloc, "skip=1,data=h,none=h", &names, &mut pins)? == Err(fault));
    assert!(rt; pins.as_slice() == [1, 0].as_slice());
    assert!(rt; format!(in alloc; "{fault}")?.as_str() == "item 2: no such channel");
    Ok(())
}
