// Whole runs with a thread for each decoder.
ghost use Rattle.std.specs.Prelude.{◌≤◌};

use crate::rows::{barred, bytes_of, source_of, words_of};
use crate::runs::{LISTING, WRITE_OF_50};
use la_io::MemSink;
use ldecode::{Host, Pacer, exit_code, run};
use std::alloc::Global;
use std::sync::Wait;
use std::test::Fail;
use std::thread::{Threads, yield_now};

const AMPLE: usize = 1 << 12;

// An exit status, notices and what is written.
fn told(alloc: Global, code: u8, notices: &MemSink, sink: &MemSink) -> Result<String, Fail> {
    let notices = barred(alloc, notices.written())?;
    let written = barred(alloc, sink.written())?;
    Ok(format!(in alloc; "{code} > {notices} > {written}")?)
}

/// What a run gives whose decoders go on as a pacer lets them: the exit status, the notices and what
/// is written.
pub fn run_threaded<R: Threads + Wait + Sync, P: Pacer + Sync>(
    rt: &R,
    alloc: Global,
    words: &str,
    bytes: &[u8],
    length: usize,
    pacer: &P,
) -> Result<String, Fail>
    requires { 1 ≤ length }
{
    let texts = words_of(alloc, words)?;
    let mut source = source_of(alloc, bytes, length, &[])?;
    let mut sink = MemSink::new(alloc, AMPLE, Vec::new(alloc), AMPLE)?;
    let mut notices = MemSink::new(alloc, AMPLE, Vec::new(alloc), AMPLE)?;
    let host = Host {
        runtime: rt,
        alloc,
        pacer,
    };
    let status = run(&host, &texts, &mut source, &mut sink, &mut notices);
    told(alloc, exit_code(&status), &notices, &sink)
}

// A flash memory on an SPI bus that is read: two bytes behind an address.
const FLASH: &str = "--ring 1 spi:sck=D0:mosi=D1:miso=D2:cs=D3,flash25";

const READ_OF_TWO: &str = "0800 00010001000100010001000102030203 00010001000100010001000100010001 \
    00010001000100010001000100010203 00010001000100010001000100010001 \
    04050001040500010405000104050001 00010405000104050001040500010405 08";

const READ: &str = "0 >  > 1-1 spi-1: Select|3-17 spi-1: MOSI 03 MISO 00|\
    3-17 flash25-1: Command: Read data|3-97 flash25-1: Read 2 bytes at 000100|\
    19-33 spi-1: MOSI 00 MISO 00|19-65 flash25-1: Address: 000100|\
    35-49 spi-1: MOSI 01 MISO 00|51-65 spi-1: MOSI 00 MISO 00|67-81 spi-1: MOSI 00 MISO AA|\
    67-81 flash25-1: Read 000100: AA|83-97 spi-1: MOSI 00 MISO 55|\
    83-97 flash25-1: Read 000101: 55|98-98 spi-1: Deselect|";

// One decoder does one act a turn, or lets others go first a thousand times before each turn.
#[derive(Drop)]
struct Uneven {
    slow: u32,
    yields: u32,
}

impl Pacer for Uneven {
    fn turn(&self, stage: u32, _turn: u64) -> u32 {
        if stage != self.slow {
            return 64;
        }
        for _ in 0..self.yields {
            yield_now();
        }
        if self.yields == 0 { 1 } else { 64 }
    }
}

#[test]
fn one_act_a_turn_and_one_slot_give_the_same(rt: HostRuntime) -> Result<(), Fail> {
    let alloc = rt.alloc();
    let bytes = bytes_of(alloc, WRITE_OF_50)?;
    let want = format!(in alloc; "0 >  > {LISTING}")?;
    for threads in ["yes", "no"] {
        let words = format!(in alloc; "--ring 1 --threads {threads} i2c:scl=D0:sda=D1")?;
        let one = Uneven { slow: 0, yields: 0 };
        let told = run_threaded(&rt, alloc, words.as_str(), &bytes, 1, &one)?;
        assert!(rt; told.as_str() == want.as_str(), "{threads}: {told}");
    }
    Ok(())
}

#[test]
fn a_slow_decoder_changes_nothing(rt: HostRuntime) -> Result<(), Fail> {
    let alloc = rt.alloc();
    let bytes = bytes_of(alloc, READ_OF_TWO)?;
    assert!(rt; bytes.len() == 99);
    for slow in 0..2 {
        let told = run_threaded(&rt, alloc, FLASH, &bytes, 3, &Uneven { slow, yields: 0 })?;
        assert!(rt; told.as_str() == READ, "{slow}, an act a turn: {told}");
        // in one piece, since each further read would wait for some more of these turns
        let told = run_threaded(
            &rt,
            alloc,
            FLASH,
            &bytes,
            99,
            &Uneven { slow, yields: 1000 },
        )?;
        assert!(rt; told.as_str() == READ, "{slow}, a thousand yields: {told}");
    }
    Ok(())
}
