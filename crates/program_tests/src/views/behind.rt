// What a reader is answered behind a run.
ghost use Rattle.std.specs.Prelude.{◌≡◌, ◌≤◌};
ghost use Rattle.view_store.specs.Listings.{nothing};
ghost use Rattle.view_store.specs.Views.{pending, published, reader_shelf, shelf_of};

use super::shelves::starts_of;
use la_base::NoMemory;
use la_io::{MemSink, MemSource};
use ldecode::{Host, PlainPacer, exit_code, run_watched};
use std::alloc::Global;
use std::sync::Wait;
use std::test::Fail;
use std::thread::Threads;
use view_store::{Answer, ViewReader, ViewWriter, shelf};

// An I2C bus on which an address is written and acknowledged: notes start at 1, 3, 19 and 22.
const ADDRESS: [u8; 23] = [
    3, 1, 2, 3, 0, 1, 2, 3, 0, 1, 0, 1, 0, 1, 0, 1, 0, 1, 0, 1, 0, 1, 3,
];

const AMPLE: usize = 1 << 12;

// What a run is given besides its words: from which byte on the source fails, and in which call the
// sink does.
#[derive(Clone, Copy)]
struct Faults {
    read: u64,
    write: u64,
}

const NEVER: u64 = 1000;

// What a reader is answered before a run, and behind it of two ranges.
#[derive(Drop)]
struct Answers {
    before: Answer,
    some: Answer,
    none: Answer,
}

// Runs the words on the capture, onto a new shelf: the exit status.
fn run_onto<R: Threads + Wait + Sync>(
    rt: &R,
    alloc: Global,
    words: &str,
    faults: Faults,
    writer: &mut ViewWriter,
) -> Result<u8, NoMemory>
    requires pending { pending writer.old ≡ nothing }
    requires published { published writer.old ≡ nothing }
    ensures { shelf_of writer.new ≡ shelf_of writer.old }
{
    let mut texts = Vec::new(alloc);
    for word in words.split_whitespace() {
        texts.push(String::from_str(alloc, word)?)?;
    }
    let mut pieces = Vec::new(alloc);
    for piece in ADDRESS.chunks(1) {
        pieces.push(piece.to_vec(alloc)?)?;
    }
    let mut read_fails = Vec::new(alloc);
    read_fails.push(faults.read)?;
    let mut write_fails = Vec::new(alloc);
    write_fails.push(faults.write)?;
    let mut source = MemSource::new(pieces, read_fails);
    let mut sink = MemSink::new(alloc, AMPLE, write_fails, AMPLE)?;
    let mut notices = MemSink::new(alloc, AMPLE, Vec::new(alloc), AMPLE)?;
    let host = Host {
        runtime: rt,
        alloc,
        pacer: &PlainPacer,
    };
    let status = run_watched(&host, &texts, &mut source, &mut sink, &mut notices, writer);
    Ok(exit_code(&status))
}

// What a reader is answered before a run, and behind it, where it was told, of two ranges.
fn asked<R: Threads + Wait + Sync>(
    rt: &R,
    alloc: Global,
    words: &str,
    faults: Faults,
    writer: &mut ViewWriter,
    mut reader: ViewReader,
) -> Result<(u8, Answers), NoMemory>
    requires pending { pending writer.old ≡ nothing }
    requires published { published writer.old ≡ nothing }
    requires own { reader_shelf reader ≡ shelf_of writer.old }
{
    let before = reader.ask(rt, 0, 30)?;
    let code = run_onto(rt, alloc, words, faults, writer)?;
    reader.learn(writer.tell());
    let some = reader.ask(rt, 3, 19)?;
    let none = reader.ask(rt, 23, 30)?;
    Ok((code, Answers { before, some, none }))
}

fn ask_about<R: Threads + Wait + Sync>(
    rt: &R,
    alloc: Global,
    words: &str,
    faults: Faults,
) -> Result<(u8, Answers), NoMemory> {
    let (mut writer, mut readers) = shelf(rt, alloc, 1)?;
    let came = match readers.pop() {
        Some(reader) => asked(rt, alloc, words, faults, &mut writer, reader),
        None => Err(NoMemory),
    };
    writer.close(rt);
    came
}

#[test]
fn a_run_leaves_its_notes_on_the_shelf(rt: HostRuntime) -> Result<(), Fail> {
    let alloc = rt.alloc();
    for words in [
        "i2c:scl=D0:sda=D1",
        "--threads no --watch yes i2c:scl=D0:sda=D1",
    ] {
        let faults = Faults {
            read: NEVER,
            write: NEVER,
        };
        let (code, answers) = ask_about(&rt, alloc, words, faults)?;
        let Answers { before, some, none } = answers;
        assert_eq!(rt; code, 0);
        assert_eq!(rt;
            (before.notes.len(), before.seen, before.ended),
            (0, 0, false)
        );
        assert!(rt; starts_of(alloc, &some)?.as_slice() == [3u64, 19].as_slice());
        assert_eq!(rt; (some.seen, some.ended), (4, true));
        assert_eq!(rt; (none.notes.len(), none.seen, none.ended), (0, 4, true));
    }
    Ok(())
}

// Words, in which call the source fails and in which the sink; the exit status, how many notes the
// shelf then has at the most, and whether it is ended. A whole listing is on it whole; behind a
// failed write there is a front of one.
const ROWS: [(&str, u64, u64, u8, u64, bool); 9] = [
    ("i2c:scl=D0:sda=D1", 21, NEVER, 2, 3, true),
    ("i2c:scl=D0:sda=D1", NEVER, 1, 4, 4, false),
    ("i2c:scl=D0:sda=D9", NEVER, NEVER, 1, 0, true),
    ("--channels 9 i2c:scl=D0:sda=D8", NEVER, NEVER, 3, 0, true),
    ("--format vcd i2c:scl=a:sda=b", NEVER, NEVER, 3, 0, true),
    ("i2x", NEVER, NEVER, 1, 0, true),
    ("--watch maybe i2c:scl=D0:sda=D1", NEVER, NEVER, 1, 0, false),
    ("--job find D0=r", NEVER, NEVER, 0, 0, false),
    (
        "--binary i2c-1:write i2c:scl=D0:sda=D1",
        NEVER,
        NEVER,
        0,
        0,
        false,
    ),
];

#[test]
fn a_shelf_is_ended_where_its_listing_is(rt: HostRuntime) -> Result<(), Fail> {
    let alloc = rt.alloc();
    for threads in ["", "--threads no "] {
        for &(words, read, write, status, most, ended) in &ROWS {
            let words = format!(in alloc; "{threads}{words}")?;
            let (code, answers) = ask_about(&rt, alloc, &words, Faults { read, write })?;
            let last = answers.none;
            assert_eq!(rt; (code, last.ended), (status, ended));
            assert!(rt; last.seen <= most);
            assert!(rt; last.seen == most || status == 4);
        }
    }
    Ok(())
}
