// Value change dumps through their reader.
use crate::rows::{add_text, source_of};
use capture_vcd::*;
use la_base::{MOST_PINS, Pins, Run};
use std::alloc::Global;
use std::process::Abort;
use std::test::Fail;

// A header of one channel: 63 bytes.
const ONE: &str = "$timescale 1 us $end $var wire 1 ! A $end $enddefinitions $end ";

// So many units a sample, what stands behind that header, in which a roof stands for a carriage return and a line feed; the runs
// of the channel, and how it ends. A row behind a semicolon is a comment.
const BODIES: &str = "\
2|#10 0! #13 1! #14 0! #17|0x2 0x2 end
1|#0 0! #1099511627776 1!|0x1099511627776 1x1 end
1000000000|#7 1! #8|1x1 end
; a change before the first time; times that are equal, that fall, that are large
1|1! #3 #5|1x2 1x1 end
1|#5 1! #5 0! #6|0x1 0x1 end
1|#0 0! #5 0! #3 0!|0x5 Fault(TimeBack { at: 75, was: 5, now: 3 })
1|#1152921504606846975 1!|1x1 end
1|#1152921504606846976 1!|Fault(TimeLarge { at: 63 })
1|#00000000000000000000000000001 1!|1x1 end
1|#0 1! #99999999999999999999|Fault(TimeLarge { at: 69 })
; values: x and z are 0, the last digit is the lowest bit
1|#0 b10x1 ! #2 bx ! #3 Bz0 ! #4|1x2 0x1 0x1 0x1 end
1|#0 1! #1 x! #2 1! #3 Z! #4|1x1 0x1 1x1 0x1 0x1 end
; what is skipped: reals, texts, comments, keywords, codes that no variable has
1|#0 1! r1.5 ! s#1 #9 #2|1x2 1x1 end
1|#0 $comment 1! #9 $end $dumpvars 1! $end #2|1x2 1x1 end
1|#0 1! $comment never ended #9|1x1 end
1|#0 0? 1! b0 ?? #1|1x1 1x1 end
1|#0 b1 $comment 1! #1|1x1 1x1 end
; tokens that don't belong there
1|#0 b1|Fault(Token { at: 66 })
1|#0 1! #2 r1|1x2 Fault(Token { at: 72 })
1|#0 1! #3 1|1x3 Fault(Token { at: 72 })
1|#|Fault(Token { at: 63 })
1|#0x|Fault(Token { at: 63 })
1|b !|Fault(Token { at: 63 })
1|b2 !|Fault(Token { at: 63 })
1|#0 \0|Fault(Token { at: 66 })
; no samples; line ends; nothing behind the last token
1|1!|end
1||end
1|#0 0!^#1 1!^#2|0x1 1x1 1x1 end";

// The same where samples are held back. Neighbouring runs of one value are joined here, since what is
// held back is given before each read.
const HELD: &str = "\
; a fault, and the end, right behind samples that are held back
1|#0 0! #2 1! #5 #9 #|0x2 1x7 Fault(Token { at: 81 })
1|#0 0! #2 1! #5 #9 #4|0x2 1x7 Fault(TimeBack { at: 81, was: 9, now: 4 })
1|#0 0! #2 1! #4 #6 b1|0x2 1x4 Fault(Token { at: 81 })
1|#0 0! #2 1! #5 #9|0x2 1x8 end
; times that give no sample, equal times, changes to the same value, other variables
3|#0 0! #1 1! #2 #3 0! #4 #7|0x3 end
3|#1 1! #2 0! #3 #4 1! #5 #8 0!|1x3 end
1|#0 0! #3 #3 1! #3 0! #3 #5|0x6 end
1|#5 1! #5 #7 0! #7|1x2 0x1 end
1|#0 1! #2 1! #4 1! #6|1x7 end
1|#0 b0 ! #2 b1 ! #4 #6 b0 ? #8|0x2 1x7 end
1|#0 0! #2 1! #4 0? #6 0! #8|0x2 1x4 0x3 end
1|#0 0! #2 1! #4 r1 ! #6 $comment #7 $end #8|0x2 1x7 end";

// Headers at fault, of one unit a sample.
const HEADERS: &str = "\
1||Fault(NoDefinitions)
1|$timescale 1 ns $end|Fault(NoDefinitions)
1|$timescale 1 n s $end $enddefinitions|Fault(NoDefinitions)
1|$enddefinitions $end|Fault(NoTimescale)
1|$version $enddefinitions $end $timescale|Fault(NoDefinitions)
1|$timescale $end|Fault(Token { at: 11 })
1|$timescale 2 ns $end|Fault(Token { at: 11 })
1|$timescale 1 1 ns $end|Fault(Token { at: 11 })
1|$timescale 1000 s $end|Fault(Token { at: 11 })
1|$timescale 100 ks $end|Fault(Token { at: 11 })
1|$end x $var wire 1 ! $end|Fault(Token { at: 7 })
1|$var wire 0 ! A $end|Fault(Token { at: 0 })
1|$var wire 65536 ! A $end|Fault(Token { at: 0 })
1|$var wire +1 ! A $end|Fault(Token { at: 0 })
1|$var real x \u{7f} A $end|Fault(Token { at: 0 })
1|$var real x ! A $end|Fault(NoDefinitions)
1|$var wire 65535 ! A $end|Fault(TooMany { at: 0 })
1|$var wire 4096 ! A $end $var wire 1 ! B $end|Fault(TooMany { at: 24 })";

// What is the last run behind this one, or behind the end: where they are joined and of one value, both as one, and else
// the one before it is told.
fn tell(
    told: &mut String,
    last: Option<Run>,
    run: Option<Run>,
    end: &str,
    joined: bool,
) -> Result<Option<Run>, Fail> {
    match (last, run) {
        (Some(before), Some(run)) if joined && before.value == run.value => {
            let value = run.value;
            let len = before.len.saturating_add(run.len);
            return Ok(Some(Run { value, len }));
        }
        (Some(before), _) => write!(told, "{}x{} {end}", before.value, before.len)?,
        (None, _) => told.push_str(end)?,
    }
    Ok(run)
}

// The runs of so many channels from the first on, each a value and a length, and how the capture ends. Where they are
// joined, it has one channel: neighbouring runs of one value are one, and what is held is taken before each call of
// `next`. The calls of the source of these numbers, from 0 on, fail.
fn read(
    rt: &impl Abort,
    alloc: Global,
    (down, wide, joined): (u64, u32, bool),
    bytes: &[u8],
    size: usize,
    fails: &[u64],
) -> Result<String, Fail> {
    assert!(rt; 1 <= down && down <= 1_000_000_000 && wide <= MOST_PINS && 1 <= size);
    let mut source = source_of(alloc, bytes, size, fails)?;
    let mut reader = match VcdReader::open(alloc, down, &mut source) {
        Ok(reader) => reader,
        Err(error) => return Ok(format!(in alloc; "{error:?}")?),
    };
    let count = reader.names().count();
    assert!(rt; wide <= count && (!joined || count == 1));
    let mut pins = Pins::new();
    for pin in 0..wide {
        pins.push(pin);
    }
    reader.select(pins);
    let mut told = String::new(alloc);
    let mut last: Option<Run> = None;
    for _ in 0..100 {
        if !reader.is_open() {
            break;
        }
        let held = if joined { reader.held_run() } else { None };
        let answer = match held {
            Some(run) => Ok(Some(run)),
            None => reader.next(&mut source),
        };
        let (run, end) = match answer {
            Ok(Some(run)) => (Some(run), String::new(alloc)),
            Ok(None) => (None, String::from_str(alloc, "end")?),
            Err(error) => (None, format!(in alloc; "{error:?}")?),
        };
        last = tell(&mut told, last, run, end.as_str(), joined)?;
    }
    Ok(told)
}

// a vector, a real, and two variables of one code
const WIDE: &str = "$timescale 10ns $end\n$var wire 4 ! q $end\n$var real 64 \" v $end\n\
    $var wire 1 ! other [ 3 ] $end\n$enddefinitions $end\n\
    $dumpvars b1 ! r0 \" $end\n#4\n#5 b1010 !\n#6 bx1 !\n#7\n";

// Whether a capture gives what its row says, read in pieces of each of these sizes.
fn row_holds(
    rt: &impl Abort,
    alloc: Global,
    row: &str,
    header: &str,
    joined: bool,
) -> Result<bool, Fail> {
    let mut parts = row.split('|');
    let down = parts.next().unwrap_or("").parse().unwrap_or(0);
    let mut file = header.as_bytes().to_vec(alloc)?;
    add_text(&mut file, parts.next().unwrap_or(""))?;
    let want = parts.next().unwrap_or("?");
    for size in [1, 7, 1000] {
        if read(rt, alloc, (down, 1, joined), &file, size, &[])?.as_str() != want {
            return Ok(false);
        }
    }
    Ok(true)
}

#[test]
fn captures_of_changes(rt: HostRuntime) -> Result<(), Fail> {
    for (table, header, joined) in [
        (BODIES, ONE, false),
        (HELD, ONE, true),
        (HEADERS, "", false),
    ] {
        for row in table.split('\n') {
            assert!(rt;
                row.starts_with(';') || row_holds(&rt, rt.alloc(), row, header, joined)?,
                "{row}"
            );
        }
    }
    worked_files_hold();
    faults_hold();
    sparse_holds();
    longer_goes_on();
    stretch_is_run();
    pins_leave_the_head();
    pins_leave_the_ending();
    given_is_front();
    Ok(())
}

// One run is made of all that are held, and none is lost where a read fails.
#[test]
fn runs_that_are_held(rt: HostRuntime) -> Result<(), Fail> {
    let alloc = rt.alloc();
    let text = format!(in alloc; "{ONE}#0 0! #2 1! #5 #9 #12 0! ")?;
    let told = read(&rt, alloc, (1, 1, false), text.as_bytes(), 1000, &[])?;
    assert!(rt; told.as_str() == "0x2 1x10 0x1 end");
    let told = read(&rt, alloc, (1, 1, true), text.as_bytes(), 1000, &[1])?;
    assert!(rt; told.as_str() == "0x2 1x10 Read");
    Ok(())
}

#[test]
fn vectors_and_reals(rt: HostRuntime) -> Result<(), Fail> {
    let alloc = rt.alloc();
    let told = read(&rt, alloc, (1, 5, false), WIDE.as_bytes(), 9, &[])?;
    assert!(rt; told.as_str() == "17x1 10x1 17x1 17x1 end");
    let mut source = source_of(alloc, WIDE.as_bytes(), 9, &[])?;
    if let Ok(reader) = VcdReader::open(alloc, 20, &mut source) {
        assert!(rt; reader.names().count() == 5);
        assert!(rt; reader.names().find(b"q.3") == Some(3));
        assert!(rt; reader.names().find(b"other[3]") == Some(4));
        assert!(rt; (reader.rate().num, reader.rate().den) == (1_000_000_000, 200));
    }
    Ok(())
}
