// A shelf through its public calls: what a reader is answered, and beside a writer.
ghost use Rattle.std.specs.Prelude.{◌≡◌, false};
ghost use Rattle.std.specs.Thread.{IsSync};
ghost use Rattle.view_store.specs.Views.{pending, reader_shelf, shelf_of};

use la_base::{NoMemory, Note};
use std::alloc::{AllocError, Global};
use std::sync::Wait;
use std::test::Fail;
use std::thread::{Threads, join_mut};
use view_store::{Answer, ViewReader, ViewWriter, shelf};

fn note_at(start: u64) -> Note {
    Note {
        class: 0,
        start,
        end: start,
        a: 0,
        b: 0,
    }
}

// Adds a note at each of these places, and publishes behind each `every`; then ends the listing.
fn fill<R: Wait>(
    rt: &R,
    writer: &mut ViewWriter,
    starts: &[u64],
    every: u64,
) -> Result<(), NoMemory>
    requires { (pending writer.old).ended ≡ false }
    ensures { shelf_of writer.new ≡ shelf_of writer.old }
{
    let mut left = every;
    for start in starts {
        writer.add(0, note_at(*start))?;
        if left <= 1 {
            writer.publish(rt)?;
            left = every;
        } else {
            left -= 1;
        }
    }
    writer.finish()?;
    writer.publish(rt)
}

/// Where the notes of an answer start.
pub fn starts_of(alloc: Global, answer: &Answer) -> Result<Vec<u64>, AllocError> {
    let mut starts = Vec::new(alloc);
    for note in &answer.notes {
        starts.push(note.1.start)?;
    }
    Ok(starts)
}

// Those places that are in a range.
fn within(alloc: Global, starts: &[u64], from: u64, to: u64) -> Result<Vec<u64>, AllocError> {
    let mut found = Vec::new(alloc);
    for start in starts {
        if from <= *start && *start <= to {
            found.push(*start)?;
        }
    }
    Ok(found)
}

// The asks of one reader: before anything is added; and behind the end, of two ranges.
fn one_reader<R: Wait>(
    rt: &R,
    writer: &mut ViewWriter,
    mut reader: ViewReader,
    starts: &[u64],
    every: u64,
    ranges: [(u64, u64); 2],
) -> Result<[Answer; 3], NoMemory>
    requires own { reader_shelf reader ≡ shelf_of writer.old }
    requires going { (pending writer.old).ended ≡ false }
{
    let before = reader.ask(rt, 0, u64::MAX)?;
    fill(rt, writer, starts, every)?;
    reader.learn(writer.tell());
    let [(from, to), (later, last)] = ranges;
    let first = reader.ask(rt, from, to)?;
    Ok([before, first, reader.ask(rt, later, last)?])
}

fn answers<R: Wait>(
    rt: &R,
    alloc: Global,
    starts: &[u64],
    every: u64,
    ranges: [(u64, u64); 2],
) -> Result<[Answer; 3], NoMemory> {
    let (mut writer, mut readers) = shelf(rt, alloc, 1)?;
    let asked = match readers.pop() {
        Some(reader) => one_reader(rt, &mut writer, reader, starts, every, ranges),
        None => Err(NoMemory),
    };
    writer.close(rt);
    asked
}

#[test]
fn a_range_is_answered(rt: HostRuntime) -> Result<(), Fail> {
    let [before, some, none] = answers(&rt, rt.alloc(), &[1, 3, 19, 22], 1, [(3, 19), (23, 30)])?;
    assert_eq!(rt;
        (before.notes.len(), before.seen, before.ended),
        (0, 0, false)
    );
    assert!(rt; starts_of(rt.alloc(), &some)?.as_slice() == [3u64, 19].as_slice());
    assert_eq!(rt; (some.seen, some.ended), (4, true));
    assert_eq!(rt; (none.notes.len(), none.seen, none.ended), (0, 4, true));
    Ok(())
}

#[test]
fn notes_in_any_order_are_answered_as_they_were_added(rt: HostRuntime) -> Result<(), Fail> {
    let mut starts = Vec::new(rt.alloc());
    for number in 0..5000u64 {
        starts.push(number.wrapping_mul(7919) % 5000)?;
    }
    for every in [1u64, 300, 100_000] {
        let [_, short, all] = answers(&rt, rt.alloc(), &starts, every, [(2490, 2510), (0, 5000)])?;
        let wanted = within(rt.alloc(), &starts, 2490, 2510)?;
        assert_eq!(rt; wanted.len(), 21);
        assert!(rt; starts_of(rt.alloc(), &short)?.as_slice() == wanted.as_slice());
        assert!(rt; starts_of(rt.alloc(), &all)?.as_slice() == starts.as_slice());
        assert_eq!(rt; (short.seen, all.seen), (5000, 5000));
    }
    Ok(())
}

// What a reader saw that asked all the time.
#[derive(Clone, Copy)]
struct Watched {
    // how often it saw fewer notes than before
    fell: u64,
    seen: u64,
}

fn watch<R: Wait>(rt: &R, reader: &mut ViewReader) -> Watched
    ensures { reader_shelf reader.new ≡ reader_shelf reader.old }
{
    let mut watched = Watched { fell: 0, seen: 0 };
    for _ in rt.forever() {
        let Ok(answer) = reader.ask(rt, 100, 110) else {
            return watched;
        };
        if answer.seen < watched.seen {
            watched.fell = watched.fell.saturating_add(1);
        }
        watched.seen = answer.seen;
        if answer.ended {
            return watched;
        }
    }
    unreachable!()
}

// The writer and two readers, side by side.
fn beside<R: Threads + Wait + Sync>(
    rt: &R,
    writer: &mut ViewWriter,
    one: &mut ViewReader,
    other: &mut ViewReader,
    starts: &[u64],
    every: u64,
) -> (Result<(), NoMemory>, Watched, Watched)
    requires { (pending writer.old).ended ≡ false }
    ensures writer { shelf_of writer.new ≡ shelf_of writer.old }
    ensures one { reader_shelf one.new ≡ reader_shelf one.old }
    ensures other { reader_shelf other.new ≡ reader_shelf other.old }
{
    let (filled, (first, second)) = join_mut(
        rt,
        &mut || -> Result<(), NoMemory>
            requires { (pending writer.now).ended ≡ false }
            ensures { shelf_of writer.exit.now ≡ shelf_of writer.entry.now }
        { fill(rt, writer, starts, every) },
        &mut || -> (Watched, Watched)
            requires { IsSync R.row }
            ensures { (reader_shelf one.exit.now ≡ reader_shelf one.entry.now)
                × (reader_shelf other.exit.now ≡ reader_shelf other.entry.now) }
        {
            join_mut(
                rt,
                &mut || -> Watched
                    ensures { reader_shelf one.exit.now ≡ reader_shelf one.entry.now }
                { watch(rt, one) },
                &mut || -> Watched
                    ensures { reader_shelf other.exit.now ≡ reader_shelf other.entry.now }
                { watch(rt, other) },
            )
        },
    );
    (filled, first, second)
}

// Two readers that ask all the time, and then learn the end.
fn two_readers<R: Threads + Wait + Sync>(
    rt: &R,
    writer: &mut ViewWriter,
    mut one: ViewReader,
    mut other: ViewReader,
    starts: &[u64],
    every: u64,
) -> Result<(Watched, Watched, u64, u64), NoMemory>
    requires one { reader_shelf one ≡ shelf_of writer.old }
    requires other { reader_shelf other ≡ shelf_of writer.old }
    requires going { (pending writer.old).ended ≡ false }
{
    let (filled, first, second) = beside(rt, writer, &mut one, &mut other, starts, every);
    filled?;
    one.learn(writer.tell());
    other.learn(writer.tell());
    let a = one.ask(rt, 0, 30)?;
    let b = other.ask(rt, 0, 30)?;
    Ok((first, second, a.seen, b.seen))
}

fn side_by_side<R: Threads + Wait + Sync>(
    rt: &R,
    alloc: Global,
    starts: &[u64],
    every: u64,
) -> Result<(Watched, Watched, u64, u64), NoMemory> {
    let (mut writer, mut readers) = shelf(rt, alloc, 2)?;
    let other = readers.pop();
    let one = readers.pop();
    let came = match (one, other) {
        (Some(one), Some(other)) => two_readers(rt, &mut writer, one, other, starts, every),
        (_, _) => Err(NoMemory),
    };
    writer.close(rt);
    came
}

#[test]
fn readers_see_no_less_beside_a_writer(rt: HostRuntime) -> Result<(), Fail> {
    let mut starts = Vec::new(rt.alloc());
    for start in 0..18_000u64 {
        starts.push(start)?;
    }
    for every in [1000u64, 100] {
        let (one, other, seen, also) = side_by_side(&rt, rt.alloc(), &starts, every)?;
        assert_eq!(rt; (one.fell, other.fell), (0, 0));
        assert_eq!(rt;
            (one.seen, other.seen, seen, also),
            (18_000, 18_000, 18_000, 18_000)
        );
    }
    Ok(())
}
