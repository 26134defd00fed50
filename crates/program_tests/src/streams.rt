// Sinks and sources, buffers and intakes.
ghost use Rattle.std.specs.Prelude.{◌≡◌, ◌≤◌};

use crate::rows::is_send;
use la_io::{
    Buffered, Failed, Intake, MOST_BYTES, MemSink, MemSource, Sink, Source, StdSink, StdSource,
    SureSink, SureSource, write_whole,
};
use std::io;
use std::io::{ErrorKind, Read, Write};
use std::process::Abort;
use std::test::Fail;

// How many bytes a sink takes at once, its calls that fail, and its room; what it gets of `abcdef`, and whether that
// is all.
const WRITES: [(usize, &[u64], usize, &str, bool); 6] = [
    (1, &[], 8, "abcdef", true),
    (4, &[], 6, "abcdef", true),
    (9, &[], 8, "abcdef", true),
    (4, &[1], 8, "abcd", false),
    (1, &[0], 8, "", false),
    (2, &[], 5, "abcde", false),
];

// How many bytes come in pieces of which size, what the sink takes at once and its calls that fail; what each flush
// then answers, and how many bytes the sink has got.
const BUFFERED: [(u32, usize, usize, &[u64], &[Result<(), Failed>], usize); 3] = [
    (40_000, 3000, 7000, &[], &[Ok(())], 40_000),
    (8, 8, 3, &[1, 2], &[Err(Failed), Err(Failed), Ok(())], 8),
    // the byte behind a full buffer isn't taken
    (16_385, 16_384, 10_000, &[1], &[Ok(())], 16_384),
];

#[test]
fn sinks_take_what_is_written(rt: HostRuntime) {
    let alloc = rt.alloc();
    for &(most, fails, room, want, done) in &WRITES {
        assert!(rt; most >= 1);
        let fails = fails.to_vec(alloc).expect(&rt, "memory");
        let mut sink = MemSink::new(alloc, most, fails, room).expect(&rt, "memory");
        is_send(&sink);
        let result = write_whole(&mut sink, b"abcdef");
        assert!(rt; result.is_ok() == done, "{want}");
        assert!(rt; sink.written() == want.as_bytes());
    }
    let mut sure = SureSink::new();
    is_send(&sure);
    assert!(rt; sure.write(b"abc") == Ok(3));
    let mut bytes = Vec::new(alloc);
    is_send(&StdSink::new(Vec::<u8>::new(alloc)));
    assert!(rt; write_whole(&mut StdSink::new(&mut bytes), b"abc") == Ok(()));
    assert!(rt; bytes.as_slice() == b"abc".as_slice());
    let mut short = [0; 2];
    assert!(rt; write_whole(&mut StdSink::new(short.as_mut_slice()), b"abc") == Err(Failed));
    assert!(rt; short.as_slice() == b"ab".as_slice());
}

#[test]
fn what_goes_through_a_buffer(rt: HostRuntime) {
    let alloc = rt.alloc();
    for &(count, size, most, fails, flushes, got) in &BUFFERED {
        let mut bytes = Vec::new(alloc);
        for number in 0..count {
            bytes.push((number % 251) as u8).expect(&rt, "memory");
        }
        assert!(rt; most >= 1 && size >= 1 && got <= bytes.len());
        let fails = fails.to_vec(alloc).expect(&rt, "memory");
        let mut sink = MemSink::new(alloc, most, fails, 40_000).expect(&rt, "memory");
        let mut buffered = Buffered::new(&mut sink);
        is_send(&buffered);
        for piece in bytes.chunks(size) {
            if write_whole(&mut buffered, piece).is_err() {
                break;
            }
        }
        for answer in flushes {
            assert!(rt; buffered.flush() == *answer, "{count}");
        }
        assert!(rt; sink.written() == &bytes[..got]);
    }
}

// What reads into two bytes answer, and the bytes that each gives.
fn reads<S: Source + Send>(
    rt: &impl Abort,
    source: &mut S,
    answers: &[(Result<usize, Failed>, &str)],
) {
    is_send(source);
    let mut buf = [0; 2];
    for (answer, given) in answers {
        assert!(rt; source.read(&mut buf) == *answer, "{given}");
        assert!(rt; buf.starts_with(given.as_bytes()));
    }
}

// A reader whose every call is an error.
#[derive(Drop)]
struct Broken;

impl Read for Broken {
    fn read(&mut self, _buf: &mut [u8]) -> io::Result<usize> {
        Err(io::Error::from(ErrorKind::BrokenPipe))
    }
}

#[test]
fn sources_give_their_bytes(rt: HostRuntime) -> Result<(), Fail> {
    let alloc = rt.alloc();
    let answers = [(Ok(2), "ab"), (Ok(1), "c"), (Ok(0), "")];
    reads(&rt, &mut SureSource::new(b"abc".to_vec(alloc)?), &answers);
    reads(&rt, &mut StdSource::new(b"abc".as_slice()), &answers);
    reads(&rt, &mut StdSource::new(Broken), &[(Err(Failed), "")]);
    let mut pieces = Vec::new(alloc);
    for text in ["ab", "", "cde"] {
        pieces.push(text.as_bytes().to_vec(alloc)?)?;
    }
    let mut source = MemSource::new(pieces, [1, 3].to_vec(alloc)?);
    let failing = [
        (Ok(2), "ab"),
        (Err(Failed), ""),
        (Ok(2), "cd"),
        (Err(Failed), ""),
        (Ok(1), "e"),
        (Ok(0), ""),
    ];
    reads(&rt, &mut source, &failing);
    let mut pieces = Vec::new(alloc);
    for text in ["abc", "", "defg"] {
        pieces.push(text.as_bytes().to_vec(alloc)?)?;
    }
    let mut source = MemSource::new(pieces, [2].to_vec(alloc)?);
    let mut intake = Intake::<4>::new();
    // how many bytes are let go before a read, its answer, and what is held behind it
    for (used, answer, held) in [
        (0, Ok(3), "abc"),
        (2, Ok(3), "cdef"),
        (1, Err(Failed), "def"),
        (1, Ok(1), "efg"),
        (3, Ok(0), ""),
    ] {
        assert!(rt; used <= intake.bytes().len());
        intake.advance(used);
        assert!(rt; intake.bytes().len() < 4 && intake.taken() < MOST_BYTES);
        assert!(rt; intake.more(&mut source) == answer, "{held}");
        assert!(rt; intake.bytes() == held.as_bytes());
    }
    assert!(rt; intake.taken() == 7);
    Ok(())
}
