// The program through its public calls. Its runs are rows of `run_rows`, and its help is compared with the one that is kept.
use crate::rows::words_of;
use la_io::{MemSink, MemSource};
use ldecode::PlainPacer;
use ldecode_program::{VERSION, help_text, program, request_of};
use std::alloc::Global;
use std::sync::Wait;
use std::test::Fail;
use std::thread::Threads;

// Words, and what the first of them asks for.
const REQUESTS: &str = "\
--help > Help
--help --job find D0=r > Help
--version > Version
 > Run
--job find --help > Run
i2c:scl=D0:sda=D1 --version > Run
--helps > Run
--help= > Run
-help > Run";

#[test]
fn the_first_word_alone_asks_for_help(rt: HostRuntime) -> Result<(), Fail> {
    let alloc = rt.alloc();
    for row in REQUESTS.split('\n') {
        let (words, want) = row.split_once(" > ").unwrap_or(("", ""));
        let asked = format!(in alloc; "{:?}", request_of(&words_of(alloc, words)?))?;
        assert!(rt; asked.as_str() == want, "{row}");
    }
    Ok(())
}

// What comes of words over a capture of two samples, where these writes fail: the exit status, the notices, and what is written.
fn run<R: Threads + Wait + Sync>(
    rt: &R,
    alloc: Global,
    words: &str,
    fails: &[u64],
) -> Result<String, Fail> {
    let words = words_of(alloc, words)?;
    let mut pieces = Vec::new(alloc);
    pieces.push([0, 1].to_vec(alloc)?)?;
    let mut source = MemSource::new(pieces, Vec::new(alloc));
    let mut sink = MemSink::new(alloc, 8_192, fails.to_vec(alloc)?, 8_192)?;
    let mut notices = MemSink::new(alloc, 256, Vec::new(alloc), 256)?;
    let code = program(
        rt,
        alloc,
        &words,
        &mut source,
        &mut sink,
        &mut notices,
        &PlainPacer,
    );
    let noticed = String::from_utf8_lossy(alloc, notices.written())?;
    let wrote = String::from_utf8_lossy(alloc, sink.written())?;
    Ok(format!(in alloc; "{code} > {noticed} > {wrote}")?)
}

// Where the first write fails, it is the program that tells.
#[test]
fn the_program_tells_its_status(rt: HostRuntime) -> Result<(), Fail> {
    let alloc = rt.alloc();
    let help = format!(in alloc; "0 >  > {}", help_text(alloc)?)?;
    assert!(rt; run(&rt, alloc, "--help", &[])?.as_str() == help.as_str());
    assert!(rt; VERSION == "ldecode 0.1.0\n");
    for (words, want) in [
        ("--help", "4 >  > "),
        ("--version x", "4 >  > "),
        ("--job find D0=r", "4 > ldecode: write fault\n > "),
    ] {
        assert!(rt; run(&rt, alloc, words, &[0])?.as_str() == want, "{words}");
    }
    Ok(())
}
