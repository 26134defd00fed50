// Searches through the public calls, worked out by hand.
ghost use Rattle.la_base.specs.declared.samples.TheConstants.{MOST_PINS};
ghost use Rattle.std.specs.Prelude.{◌≤◌, length};
ghost use Rattle.cond_words.specs.Binding.{AllBelow, Distinct};

use crate::rows::{barred, is_front, source_of};
use capture_any::{Capture, Form};
use cond_words::{bind_alt, read_alt};
use find_job::{find, find_buffered};
use la_base::{Names, Pins, Rate};
use la_io::MemSink;
use std::alloc::Global;
use std::test::Fail;
use wait_cond::Cond;

// More than any test writes.
const AMPLE: usize = 4096;

// D0 rises at 1; D1 is high from 2 on.
static SAMPLES: [u8; 5] = [0x00, 0x01, 0x03, 0x03, 0x02];

const WORDS: &str = "D0=r D1=h skip=2";

const LINES: &str = "1: 0,2|2: 1|3: 1|4: 1|";

// From so many samples on so many bytes of the lines are given.
const SETTLED: [(usize, usize); 4] = [(2, 7), (3, 12), (4, 17), (5, 22)];

// A condition of these alternatives, between blanks, bound to channels.
fn condition(alloc: Global, words: &str, names: &Names, pins: &mut Pins) -> Result<Cond, Fail>
    requires distinct { Distinct pins.old.items }
    requires below { AllBelow (length names.now) pins.old.items }
    ensures { AllBelow (length names.now) pins.new.items }
{
    let mut cond: Option<Cond> = None;
    for word in words.split(' ') {
        if word.len() > 4096 {
            return Err("a long word".into());
        }
        let Ok(words) = read_alt(alloc, word) else {
            return Err("a fault".into());
        };
        let Ok(alt) = bind_alt(&words, names, pins) else {
            return Err("no channel".into());
        };
        cond = match cond {
            None => Some(Cond::one(alt)),
            Some(mut more) => {
                if more.count() < 8 {
                    more.add(alt);
                }
                Some(more)
            }
        };
    }
    Ok(cond.ok_or("no alternative")?)
}

// How a search of a capture of so many channels ends, and what it writes: in reads and writes of so many bytes, of which
// these calls fail.
fn search(
    alloc: Global,
    words: &str,
    channels: u32,
    reads: (usize, &[u64]),
    writes: (usize, &[u64]),
    buffered: bool,
) -> Result<String, Fail>
    requires channels { (1 ≤ channels) × (channels ≤ MOST_PINS) }
    requires parts { (1 ≤ reads.0) × (1 ≤ writes.0) }
{
    let mut source = source_of(alloc, &SAMPLES, reads.0, reads.1)?;
    let mut sink = MemSink::new(alloc, writes.0, writes.1.to_vec(alloc)?, AMPLE)?;
    let rate = Rate {
        num: 1_000_000,
        den: 1,
    };
    let mut capture = Capture::open(alloc, Form::Raw { channels, rate }, &mut source)?;
    let mut pins = Pins::new();
    let cond = condition(alloc, words, capture.names(), &mut pins)?;
    capture.select(pins);
    let end = if buffered {
        find_buffered(&mut capture, cond, &mut source, &mut sink)
    } else {
        find(&mut capture, cond, &mut source, &mut sink)
    };
    let written = barred(alloc, sink.written())?;
    Ok(format!(in alloc; "{end:?} {written}")?)
}

#[test]
fn any_cut_gives_the_lines_and_a_failure_a_front(rt: HostRuntime) -> Result<(), Fail> {
    let alloc = rt.alloc();
    for buffered in [true, false] {
        for length in 1..7 {
            for most in 1..4 {
                let told = search(alloc, WORDS, 8, (length, &[]), (most, &[]), buffered)?;
                assert!(rt; is_front(told.as_str(), "Done ", LINES, 22));
            }
        }
        for number in 0..6 {
            let mut settled = 0;
            for (least, bytes) in SETTLED {
                if number >= least {
                    settled = bytes;
                }
            }
            let told = search(alloc, WORDS, 8, (1, &[number as u64]), (2, &[]), buffered)?;
            assert!(rt;
                is_front(told.as_str(), "Read ", LINES, settled),
                "{number}"
            );
        }
        for number in 0..22 {
            let told = search(alloc, WORDS, 8, (2, &[]), (1, &[number as u64]), buffered)?;
            assert!(rt;
                is_front(told.as_str(), "Write ", LINES, number),
                "{number}"
            );
        }
        // Two whole units, and one byte of a third.
        let told = search(alloc, "D8=h", 16, (1, &[]), (2, &[]), buffered)?;
        assert!(rt; told.as_str() == "Fault(ShortUnit { at: 4 }) 0: 0|1: 0|");
    }
    Ok(())
}
