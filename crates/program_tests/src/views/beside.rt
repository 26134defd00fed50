// What readers in threads of their own are answered beside a run.
ghost use Rattle.std.specs.Prelude.{◌≡◌};
ghost use Rattle.std.specs.Thread.{IsSync};
ghost use Rattle.view_store.specs.Listings.{nothing};
ghost use Rattle.view_store.specs.Views.{pending, published, reader_shelf, shelf_of};

use capture_make::MadeSource;
use la_base::NoMemory;
use la_io::SureSink;
use ldecode::{Host, PlainPacer, Status, run_watched};
use std::alloc::Global;
use std::sync::Wait;
use std::sync::atomic::{AtomicBool, Ordering};
use std::test::Fail;
use std::thread::{Threads, join_mut};
use view_store::{ViewReader, ViewWriter, shelf};

const TRANSACTIONS: u64 = 2000;

// Eight notes of each transaction on the bus, and one on the serial line.
const NOTES: u64 = 18_000;

// What a reader saw that asked all the time.
#[derive(Clone, Copy)]
struct Watched {
    // How often it saw fewer notes than before, or notes behind an end.
    fell: u64,
    seen: u64,
    ended: bool,
}

// Asks for a short range until no more notes come, or the run is over.
fn watch<R: Wait>(rt: &R, reader: &mut ViewReader, over: &AtomicBool) -> Watched
    ensures { reader_shelf reader.new ≡ reader_shelf reader.old }
{
    let mut watched = Watched {
        fell: 0,
        seen: 0,
        ended: false,
    };
    for _ in rt.forever() {
        if over.load(Ordering::SeqCst) {
            return watched;
        }
        let Ok(answer) = reader.ask(rt, 100, 200) else {
            return watched;
        };
        if answer.seen < watched.seen || watched.ended {
            watched.fell = watched.fell.saturating_add(1);
        }
        watched.seen = answer.seen;
        watched.ended = answer.ended;
        if answer.ended {
            return watched;
        }
    }
    unreachable!()
}

// A run of these words on a made capture, and whether it came to its end.
fn run_made<R: Threads + Wait + Sync>(
    rt: &R,
    alloc: Global,
    words: &[String],
    writer: &mut ViewWriter,
) -> bool
    requires pending { pending writer.old ≡ nothing }
    requires published { published writer.old ≡ nothing }
    ensures { shelf_of writer.new ≡ shelf_of writer.old }
{
    let mut source = MadeSource::new(7, TRANSACTIONS);
    let mut sink = SureSink::new();
    let mut notices = SureSink::new();
    let host = Host {
        runtime: rt,
        alloc,
        pacer: &PlainPacer,
    };
    let status = run_watched(&host, words, &mut source, &mut sink, &mut notices, writer);
    status == Status::Done
}

// The run, and two readers beside it.
fn beside<R: Threads + Wait + Sync>(
    rt: &R,
    alloc: Global,
    words: &[String],
    writer: &mut ViewWriter,
    one: &mut ViewReader,
    other: &mut ViewReader,
) -> (bool, Watched, Watched)
    requires pending { pending writer.old ≡ nothing }
    requires published { published writer.old ≡ nothing }
    ensures writer { shelf_of writer.new ≡ shelf_of writer.old }
    ensures one { reader_shelf one.new ≡ reader_shelf one.old }
    ensures other { reader_shelf other.new ≡ reader_shelf other.old }
{
    let over = AtomicBool::new(false);
    let flag = &over;
    let (first, (second, done)) = join_mut(
        rt,
        &mut || -> Watched
            ensures { reader_shelf one.exit.now ≡ reader_shelf one.entry.now }
        { watch(rt, one, flag) },
        &mut || -> (Watched, bool)
            requires { IsSync R.row × (pending writer.now ≡ nothing)
                × (published writer.now ≡ nothing) }
            ensures { (reader_shelf other.exit.now ≡ reader_shelf other.entry.now)
                × (shelf_of writer.exit.now ≡ shelf_of writer.entry.now) }
        {
            join_mut(
                rt,
                &mut || -> Watched
                    ensures { reader_shelf other.exit.now ≡ reader_shelf other.entry.now }
                { watch(rt, other, flag) },
                &mut || -> bool
                    requires { IsSync R.row × (pending writer.now ≡ nothing)
                        × (published writer.now ≡ nothing) }
                    ensures { shelf_of writer.exit.now ≡ shelf_of writer.entry.now }
                {
                    let done = run_made(rt, alloc, words, writer);
                    flag.store(true, Ordering::SeqCst);
                    done
                },
            )
        },
    );
    (done, first, second)
}

// The same; then both learn the end, and ask once more. What they saw, and how many notes then.
fn two_readers<R: Threads + Wait + Sync>(
    rt: &R,
    alloc: Global,
    words: &[String],
    writer: &mut ViewWriter,
    mut one: ViewReader,
    mut other: ViewReader,
) -> Result<(bool, [Watched; 2], [u64; 2]), NoMemory>
    requires pending { pending writer.old ≡ nothing }
    requires published { published writer.old ≡ nothing }
    requires one { reader_shelf one ≡ shelf_of writer.old }
    requires other { reader_shelf other ≡ shelf_of writer.old }
{
    let (done, first, second) = beside(rt, alloc, words, writer, &mut one, &mut other);
    one.learn(writer.tell());
    other.learn(writer.tell());
    let a = one.ask(rt, 0, 30)?;
    let b = other.ask(rt, 0, 30)?;
    Ok((done, [first, second], [a.seen, b.seen]))
}

fn side_by_side<R: Threads + Wait + Sync>(
    rt: &R,
    alloc: Global,
    words: &[String],
) -> Result<(bool, [Watched; 2], [u64; 2]), NoMemory> {
    let (mut writer, mut readers) = shelf(rt, alloc, 2)?;
    let other = readers.pop();
    let one = readers.pop();
    let came = match (one, other) {
        (Some(one), Some(other)) => two_readers(rt, alloc, words, &mut writer, one, other),
        (_, _) => Err(NoMemory),
    };
    writer.close(rt);
    came
}

#[test]
fn readers_see_no_less_while_a_run_goes_on(rt: HostRuntime) -> Result<(), Fail> {
    let alloc = rt.alloc();
    for threads in ["--threads=yes", "--threads=no"] {
        let mut words = Vec::new(alloc);
        for word in [threads, "i2c:scl=D0:sda=D1", "uart:rx=D2:baud=100000"] {
            words.push(String::from_str(alloc, word)?)?;
        }
        let (done, [one, other], seen) = side_by_side(&rt, alloc, &words)?;
        assert!(rt; done);
        assert_eq!(rt; (one.fell, other.fell), (0, 0));
        assert!(rt; one.seen <= NOTES && other.seen <= NOTES);
        assert!(rt; seen == [NOTES, NOTES]);
    }
    Ok(())
}
