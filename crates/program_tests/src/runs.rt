// Whole runs through the public call.
ghost use Rattle.std.specs.Prelude.{◌≤◌};

use crate::rows::{barred, bytes_of, is_front, numbers_of, source_of, words_of};
use la_io::{CaptureFault, MemSink, MemSource};
use ldecode::{Host, PlainPacer, Status, exit_code, run, run_here};
use std::alloc::Global;
use std::process::Abort;
use std::sync::Wait;
use std::test::Fail;
use std::thread::Threads;

// More than any test writes.
const AMPLE: usize = 1 << 12;

// 40 samples; D0 rises at 2, 5, 9, 14, 16, 21, 24, 27, 29, 34 and 37.
const CAPTURE: &str =
    "00000101000100000001010301000102010004000001010203030201000101000006070000010000";

const RISES: &str = "2: 0|5: 0|9: 0|14: 0|16: 0|21: 0|24: 0|27: 0|29: 0|34: 0|37: 0|";

const SEARCH: &str = "--job find D0=r";

/// An I2C bus with SCL on D0 and SDA on D1: an address is written, and acknowledged.
pub const WRITE_OF_50: &str = "0301020300010203000100010001000100010001000103";

/// The listing of that.
pub const LISTING: &str =
    "1-1 i2c-1: Start|3-17 i2c-1: Address write: 50|19-19 i2c-1: ACK|22-22 i2c-1: Stop|";

const BUS: &str = "i2c:scl=D0:sda=D1";

// From so many samples on so many bytes of those lines are given.
const RISEN: [(usize, usize); 11] = [
    (3, 5),
    (6, 10),
    (10, 15),
    (15, 21),
    (17, 27),
    (22, 33),
    (25, 39),
    (28, 45),
    (30, 51),
    (35, 57),
    (38, 63),
];

const NOTED: [(usize, usize); 4] = [(2, 17), (18, 47), (20, 64), (23, 82)];

// The words of a run, a capture, how many samples it has, the lines, and how these grow.
const CASES: [(&str, &str, usize, &str, &[(usize, usize)]); 2] = [
    (SEARCH, CAPTURE, 40, RISES, &RISEN),
    (BUS, WRITE_OF_50, 23, LISTING, &NOTED),
];

// What a run of these words over these bytes gives, with threads where the words ask for them and
// they are to be had, or without any.
fn told_by<R: Threads + Wait + Sync>(
    rt: &R,
    alloc: Global,
    words: &[String],
    source: MemSource,
    sink: MemSink,
    threads: bool,
) -> Result<String, Fail> {
    let mut source = source;
    let mut sink = sink;
    let mut notices = MemSink::new(alloc, AMPLE, Vec::new(alloc), AMPLE)?;
    let status = if threads {
        let host = Host {
            runtime: rt,
            alloc,
            pacer: &PlainPacer,
        };
        run(&host, words, &mut source, &mut sink, &mut notices)
    } else {
        run_here(alloc, words, &mut source, &mut sink, &mut notices)
    };
    let code = exit_code(&status);
    let notices = barred(alloc, notices.written())?;
    let written = barred(alloc, sink.written())?;
    Ok(format!(in alloc; "{code} > {notices} > {written}")?)
}

// What a run of these words over these bytes gives: the exit status, the notices and what is written. Reads take
// `length` bytes and writes `most`; those of these numbers fail; there is room for so many bytes. It is run without
// threads and with them, and where they give two things both are told.
fn run_over<R: Threads + Wait + Sync>(
    rt: &R,
    alloc: Global,
    words: &str,
    bytes: &[u8],
    length: usize,
    read_fails: &[u64],
    most: usize,
    write_fails: &[u64],
    room: usize,
) -> Result<String, Fail>
    requires { (1 ≤ length) × (1 ≤ most) }
{
    let texts = words_of(alloc, words)?;
    let source = source_of(alloc, bytes, length, read_fails)?;
    let sink = MemSink::new(alloc, most, write_fails.to_vec(alloc)?, room)?;
    let here = told_by(rt, alloc, &texts, source, sink, false)?;
    let source = source_of(alloc, bytes, length, read_fails)?;
    let sink = MemSink::new(alloc, most, write_fails.to_vec(alloc)?, room)?;
    let apart = told_by(rt, alloc, &texts, source, sink, true)?;
    if here.as_str() == apart.as_str() {
        return Ok(here);
    }
    Ok(format!(in alloc; "{here} but with threads {apart}")?)
}

// The words of a run; its bytes; the bytes of a read, the read that fails, the bytes of a write, the write that fails, a hyphen
// where none does, and the room; and what it gives. Of the last two both streams fail, and there is no room for the last byte.
const FAILURES: &str = "\
--job find D0=h;01;9 0 9 - 99;2 > ldecode: read fault| > 
--job find D0=h;01;1 - 9 0 99;4 > ldecode: write fault| > 
--threads no i2c:scl=D0:sda=D1;0301020300010203000100010001000100010001000103;1 10 99 - 99;2 > ldecode: read fault| > 1-1 i2c-1: Start|
i2c:scl=D0:sda=D1;0301020300010203000100010001000100010001000103;99 - 1 5 99;4 > ldecode: write fault| > 1-1 i
i2c:scl=D0:sda=D1;0301020300010203000100010001000100010001000103;1 23 1 0 99;4 > ldecode: write fault| > 
i2c:scl=D0:sda=D1;0301020300010203000100010001000100010001000103;7 - 99 - 81;4 > ldecode: write fault| > 1-1 i2c-1: Start|3-17 i2c-1: Address write: 50|19-19 i2c-1: ACK|22-22 i2c-1: Stop";

// What the run of a row gives.
fn row_gives<R: Threads + Wait + Sync>(rt: &R, alloc: Global, row: &str) -> Result<String, Fail> {
    let mut parts = row.split(';');
    let words = parts.next().unwrap_or("");
    let bytes = bytes_of(alloc, parts.next().unwrap_or(""))?;
    let mut numbers = parts.next().unwrap_or("").split(' ');
    let length = numbers
        .next()
        .unwrap_or("")
        .parse()
        .unwrap_or(1_usize)
        .max(1);
    let read_fails = numbers_of(alloc, numbers.next().unwrap_or(""))?;
    let most = numbers
        .next()
        .unwrap_or("")
        .parse()
        .unwrap_or(1_usize)
        .max(1);
    let write_fails = numbers_of(alloc, numbers.next().unwrap_or(""))?;
    let room = numbers.next().unwrap_or("").parse().unwrap_or(0);
    run_over(
        rt,
        alloc,
        words,
        &bytes,
        length,
        &read_fails,
        most,
        &write_fails,
        room,
    )
}

// However a capture is cut into reads and a listing into writes, the same is written.
fn cut_anyhow<R: Threads + Wait + Sync + Abort>(
    rt: &R,
    alloc: Global,
    words: &str,
    bytes: &[u8],
    lines: &str,
) -> Result<(), Fail> {
    for length in 1..10 {
        for most in 1..4 {
            let gave = run_over(rt, alloc, words, bytes, length, &[], most, &[], AMPLE)?;
            assert!(rt; is_front(gave.as_str(), "0 >  > ", lines, lines.len()));
        }
    }
    Ok(())
}

// How much of a listing is written at least, where so many bytes were read.
fn settled_by(steps: &[(usize, usize)], before: usize) -> usize {
    let mut settled = 0;
    for (least, bytes) in steps {
        if before >= *least {
            settled = *bytes;
        }
    }
    settled
}

// Where each read fails in turn, a front is written that has all that was settled.
fn read_fails<R: Threads + Wait + Sync + Abort>(
    rt: &R,
    alloc: Global,
    words: &str,
    bytes: &[u8],
    count: usize,
    lines: &str,
    steps: &[(usize, usize)],
) -> Result<(), Fail> {
    assert!(rt; count < 100);
    for length in 1..10 {
        for number in 0..41 {
            let before = number * length;
            if before >= count + length {
                break;
            }
            let settled = settled_by(steps, before);
            let fails = [number as u64];
            let gave = run_over(rt, alloc, words, bytes, length, &fails, 1, &[], AMPLE)?;
            let head = "2 > ldecode: read fault| > ";
            assert!(rt; is_front(gave.as_str(), head, lines, settled), "{before}");
        }
    }
    Ok(())
}

// Where each write fails in turn, a front is written.
fn write_fails<R: Threads + Wait + Sync + Abort>(
    rt: &R,
    alloc: Global,
    words: &str,
    bytes: &[u8],
    lines: &str,
) -> Result<(), Fail> {
    for number in 0..lines.len() {
        let fails = [number as u64];
        let gave = run_over(rt, alloc, words, bytes, 7, &[], 1, &fails, AMPLE)?;
        let head = "4 > ldecode: write fault| > ";
        assert!(rt; is_front(gave.as_str(), head, lines, number), "{number}");
    }
    Ok(())
}

// In reads of 1 to 9 bytes: without a failure, and where each of them fails, from the first to the one behind all. Then
// where each write fails.
#[test]
fn any_cut_gives_the_same_and_a_failure_a_front(rt: HostRuntime) -> Result<(), Fail> {
    let alloc = rt.alloc();
    for &(words, capture, count, lines, steps) in &CASES {
        let bytes = bytes_of(alloc, capture)?;
        cut_anyhow(&rt, alloc, words, &bytes, lines)?;
        read_fails(&rt, alloc, words, &bytes, count, lines, steps)?;
        write_fails(&rt, alloc, words, &bytes, lines)?;
    }
    Ok(())
}

#[test]
fn failures_have_their_notice_and_status(rt: HostRuntime) -> Result<(), Fail> {
    for row in FAILURES.split('\n') {
        let (_, want) = row.rsplit_once(';').unwrap_or(("", "?"));
        assert!(rt; row_gives(&rt, rt.alloc(), row)?.as_str() == want, "{row}");
    }
    let fault = Status::Capture(CaptureFault::Bytes);
    assert!(rt; exit_code(&fault) == 3 && exit_code(&Status::NoMemory) == 5);
    Ok(())
}

// Notices of which every write fails change neither the status nor the listing.
#[test]
fn failed_notices_change_nothing(rt: HostRuntime) -> Result<(), Fail> {
    let alloc = rt.alloc();
    let bytes = bytes_of(alloc, WRITE_OF_50)?;
    let mut words = Vec::new(alloc);
    words.push(String::from_str(alloc, BUS)?)?;
    for threads in [false, true] {
        let mut source = source_of(alloc, &bytes, 1, &[20])?;
        let mut sink = MemSink::new(alloc, AMPLE, Vec::new(alloc), AMPLE)?;
        let mut notices = MemSink::new(alloc, AMPLE, [0_u64].to_vec(alloc)?, AMPLE)?;
        let status = if threads {
            let host = Host {
                runtime: &rt,
                alloc,
                pacer: &PlainPacer,
            };
            run(&host, &words, &mut source, &mut sink, &mut notices)
        } else {
            run_here(alloc, &words, &mut source, &mut sink, &mut notices)
        };
        assert!(rt; status == Status::ReadFault);
        assert!(rt; notices.written().is_empty());
        let written = barred(alloc, sink.written())?;
        assert!(rt; is_front(written.as_str(), "", LISTING, 64), "{written}");
    }
    Ok(())
}
