// Lines that are written while the capture is still read, and how often a run reads and writes.
ghost use Rattle.std.specs.Prelude.{None};

use crate::forms::{Form, made_in};
use la_io::{Failed, Sink, Source, SureSink};
use ldecode::{Host, PlainPacer, Status, run, run_here};
use std::alloc::{AllocError, Global};
use std::sync::Wait;
use std::sync::atomic::{AtomicBool, Ordering};
use std::test::Fail;
use std::thread::Threads;

// Bytes are read and written in pieces of so many, or more.
const PIECE: u64 = 16_384;

// No line is longer; a piece ends with the last one that it has room for.
const LINE: u64 = 128;

// How bytes come: the most at a read, whether a read may wait for them, and how many have come when it
// is noted whether anything was written.
#[derive(Clone, Copy)]
struct Manner {
    most: usize,
    waits: bool,
    noted: usize,
}

// Gives a capture, and counts its reads.
#[derive(Drop)]
struct Watching<'a> {
    capture: &'a [u8],
    manner: Manner,
    taken: usize,
    reads: u64,
    written: &'a AtomicBool,
    early: Option<bool>,
}

impl Source for Watching<'_> {
    ghost left = { λ _. None };

    ghost faults = { λ _. 0 };

    fn read(&mut self, buf: &mut [u8]) -> Result<usize, Failed> {
        self.reads = self.reads.saturating_add(1);
        if self.taken >= self.manner.noted && self.early.is_none() {
            self.early = Some(self.written.load(Ordering::SeqCst));
        }
        let Some(rest) = self.capture.get(self.taken..) else {
            return Ok(0);
        };
        let count = rest.len().min(buf.len()).min(self.manner.most);
        buf[..count].copy_from_slice(&rest[..count]);
        self.taken = self.taken.saturating_add(count);
        Ok(count)
    }

    fn may_wait(&self) -> bool {
        self.manner.waits
    }
}

// Notes that something was written, and counts.
#[derive(Drop)]
struct Telling<'a> {
    written: &'a AtomicBool,
    writes: u64,
    bytes: u64,
}

impl Sink for Telling<'_> {
    ghost written = { λ _. None };

    ghost faults = { λ _. 0 };

    ghost goes_on = { λ _ _. Unit {0} };

    ghost goes_on_still = { λ _. tt };

    ghost goes_on_further = { λ _ _ _ _ _. tt };

    fn write(&mut self, bytes: &[u8]) -> Result<usize, Failed> {
        self.writes = self.writes.saturating_add(1);
        self.bytes = self.bytes.saturating_add(bytes.len() as u64);
        self.written.store(true, Ordering::SeqCst);
        Ok(bytes.len())
    }
}

// Words over a capture in a form, and of how many transactions it is where it comes through a pipe.
struct Job {
    form: Form,
    piped: u64,
    words: &'static [&'static str],
}

// A file has so many.
const FILED: u64 = 400;

// Decodes, a search and a part; of a part of the bytes of a bus hardly any are written.
const JOBS: [Job; 9] = [
    Job {
        form: Form::Raw,
        piped: FILED,
        words: &[
            "--ring=1",
            "--threads=no",
            "i2c:scl=D0:sda=D1",
            "uart:rx=D2:baud=100000",
        ],
    },
    Job {
        form: Form::Raw,
        piped: FILED,
        words: &["--ring=1", "i2c:scl=D0:sda=D1", "uart:rx=D2:baud=100000"],
    },
    Job {
        form: Form::Raw,
        piped: FILED,
        words: &["--watch=yes", "--ring=1", "i2c:scl=D0:sda=D1"],
    },
    Job {
        form: Form::Raw,
        piped: FILED,
        words: &["--job", "find", "D0=r"],
    },
    Job {
        form: Form::Raw,
        piped: FILED,
        words: &["--job", "part", "i2c:scl=D0:sda=D1"],
    },
    Job {
        form: Form::Dump,
        piped: 12,
        words: &["--format=vcd", "--ring=1", "i2c:scl=D0:sda=D1"],
    },
    Job {
        form: Form::Rows,
        piped: 12,
        words: &["--format=csv", "--ring=1", "i2c:scl=D0:sda=D1"],
    },
    Job {
        form: Form::Times,
        piped: 12,
        words: &[
            "--format=csv",
            "--csv=times",
            "--rate=1",
            "--ring=1",
            "i2c:scl=D0:sda=D1",
        ],
    },
    Job {
        form: Form::Raw,
        piped: FILED,
        words: &["--binary", "i2c-1:write", "i2c:scl=D0:sda=D1"],
    },
];

// What was seen of a run: whether it came to its end, and had written something when it was noted; how
// often it read, how often it wrote, and how many bytes.
#[derive(Clone, Copy)]
struct Seen {
    done: bool,
    early: bool,
    reads: u64,
    writes: u64,
    bytes: u64,
}

// A run of these words, with threads where they ask for threads and these are to be had, or without any.
fn seen_of<R: Threads + Wait + Sync>(
    rt: &R,
    alloc: Global,
    job: &Job,
    capture: &[u8],
    manner: Manner,
    threads: bool,
) -> Result<Seen, AllocError> {
    let mut words = Vec::new(alloc);
    for word in job.words {
        words.push(String::from_str(alloc, word)?)?;
    }
    let written = AtomicBool::new(false);
    let mut source = Watching {
        capture,
        manner,
        taken: 0,
        reads: 0,
        written: &written,
        early: None,
    };
    let mut sink = Telling {
        written: &written,
        writes: 0,
        bytes: 0,
    };
    let mut notices = SureSink::new();
    let status = if threads {
        let host = Host {
            runtime: rt,
            alloc,
            pacer: &PlainPacer,
        };
        run(&host, &words, &mut source, &mut sink, &mut notices)
    } else {
        run_here(alloc, &words, &mut source, &mut sink, &mut notices)
    };
    Ok(Seen {
        done: status == Status::Done,
        early: source.early == Some(true),
        reads: source.reads,
        writes: sink.writes,
        bytes: sink.bytes,
    })
}

#[test]
fn lines_are_written_while_a_pipe_is_read(rt: HostRuntime) -> Result<(), Fail> {
    let alloc = rt.alloc();
    // Some lines are settled at the third read, and far fewer than fill a buffer.
    let pipe = Manner {
        most: 1000,
        waits: true,
        noted: 2000,
    };
    for job in &JOBS {
        let capture = made_in(alloc, job.form, job.piped)?;
        for threads in [false, true] {
            let seen = seen_of(&rt, alloc, job, &capture, pipe, threads)?;
            assert!(rt; seen.done && seen.early, "{}", job.words[0]);
        }
    }
    Ok(())
}

#[test]
fn a_file_is_read_and_listed_in_large_pieces(rt: HostRuntime) -> Result<(), Fail> {
    let alloc = rt.alloc();
    for job in &JOBS[..8] {
        let capture = made_in(alloc, job.form, FILED)?;
        let length = capture.len() as u64;
        let file = Manner {
            most: usize::MAX,
            waits: false,
            noted: capture.len() / 2,
        };
        for threads in [false, true] {
            let seen = seen_of(&rt, alloc, job, &capture, file, threads)?;
            let Seen {
                done,
                early,
                reads,
                writes,
                bytes,
            } = seen;
            assert!(rt; done && early, "{}", job.words[0]);
            assert!(rt; reads <= length / PIECE + 2, "{reads} reads");
            assert!(rt;
                writes <= bytes / (PIECE - LINE) + 1,
                "{writes} writes of {bytes} bytes"
            );
        }
    }
    Ok(())
}
