// What looks on as notes are listed adds them to a shelf.
ghost use Rattle.std.specs.Prelude.{◌≡◌, length};
ghost use Rattle.stack_words.specs.Stacks.{instances_in};
ghost use Rattle.view_store.specs.Listings.{nothing};
ghost use Rattle.view_store.specs.Views.{pending, published};

use crate::listers::two_lines;
use crate::stacks::word;
use crossbeam_utils::sync::EventCount;
use la_base::{Mark, NoMemory, Note};
use la_io::MemSink;
use note_lister::{ListStop, Lister, Watch};
use note_order::Entry;
use shelf_watch::ShelfWatch;
use stack_words::Stack;
use std::alloc::Global;
use std::sync::Wait;
use std::test::Fail;
use tree_io::MarkTake;
use view_store::{Answer, ViewReader, ViewWriter, shelf};

// The note of a byte on a serial line.
fn byte(start: u64, a: u64) -> Note {
    Note {
        class: 1,
        start,
        end: start.saturating_add(9),
        a,
        b: 0,
    }
}

// Shows so many notes.
fn show<W: Watch>(watch: &mut W, count: u64) -> Result<(), NoMemory> {
    for start in 0..count {
        let entry = Entry {
            instance: 0,
            note: byte(start, 65),
        };
        watch.see(&entry)?;
    }
    Ok(())
}

// What a reader is answered behind 1,024 notes, one more, a pause, and the end.
fn counts<R: Wait>(
    rt: &R,
    writer: &mut ViewWriter,
    mut reader: ViewReader,
) -> Result<[Answer; 4], NoMemory>
    requires pending { pending writer.old ≡ nothing }
    requires published { published writer.old ≡ nothing }
{
    let shown = EventCount::new();
    let mut watch = ShelfWatch::new(rt, writer, &shown);
    show(&mut watch, 1024)?;
    let many = reader.ask(rt, 0, u64::MAX)?;
    show(&mut watch, 1)?;
    let more = reader.ask(rt, 0, u64::MAX)?;
    watch.pause();
    let all = reader.ask(rt, 0, u64::MAX)?;
    let (_, ended) = watch.finish();
    ended?;
    Ok([many, more, all, reader.ask(rt, 0, u64::MAX)?])
}

#[test]
fn many_notes_are_published_at_once(rt: HostRuntime) -> Result<(), Fail> {
    let (mut writer, mut readers) = shelf(&rt, rt.alloc(), 1)?;
    let counted = match readers.pop() {
        Some(reader) => counts(&rt, &mut writer, reader),
        None => Err(NoMemory),
    };
    writer.close(&rt);
    let [many, more, all, ended] = counted?;
    assert_eq!(rt; (many.seen, many.ended), (0, false));
    assert_eq!(rt; (more.seen, more.ended), (1024, false));
    assert_eq!(rt; (all.seen, all.ended), (1025, false));
    assert_eq!(rt; (ended.seen, ended.ended), (1025, true));
    Ok(())
}

// Ends a shelf behind a listing that was stopped for this cause, if it was.
fn end<R: Wait>(mut watch: ShelfWatch<R>, cause: Option<ListStop>) -> Result<(), NoMemory> {
    if cause.is_some() {
        watch.pause();
        return Ok(());
    }
    let (_, ended) = watch.finish();
    ended
}

// Lists notes of both lines beside a shelf, and answers why it was stopped, if it was.
fn list<R: Wait>(
    rt: &R,
    alloc: Global,
    stack: &Stack,
    sink: &mut MemSink,
    writer: &mut ViewWriter,
) -> Result<Option<ListStop>, NoMemory>
    requires two { length (instances_in stack.now) ≡ 2 }
    requires pending { pending writer.old ≡ nothing }
    requires published { published writer.old ≡ nothing }
{
    let shown = EventCount::new();
    let mut lister = Lister::new(alloc, stack, sink, ShelfWatch::new(rt, writer, &shown))?;
    let _ = lister.take(1, Mark::Note(byte(5, 65)));
    let _ = lister.take(0, Mark::Note(byte(7, 65)));
    let _ = lister.take(1, Mark::Note(byte(30, 65)));
    let _ = lister.take(0, Mark::End);
    let _ = lister.take(1, Mark::End);
    let Lister { watch, cause, .. } = lister;
    end(watch, cause)?;
    Ok(cause)
}

// The same, and what a reader is answered behind it.
fn list_and_ask<R: Wait>(
    rt: &R,
    alloc: Global,
    stack: &Stack,
    sink: &mut MemSink,
    writer: &mut ViewWriter,
    mut reader: ViewReader,
) -> Result<(Option<ListStop>, Answer), NoMemory>
    requires two { length (instances_in stack.now) ≡ 2 }
    requires pending { pending writer.old ≡ nothing }
    requires published { published writer.old ≡ nothing }
{
    let cause = list(rt, alloc, stack, sink, writer)?;
    Ok((cause, reader.ask(rt, 0, u64::MAX)?))
}

// The same over a new shelf.
fn listed<R: Wait>(
    rt: &R,
    alloc: Global,
    stack: &Stack,
    sink: &mut MemSink,
) -> Result<(Option<ListStop>, Answer), NoMemory>
    requires { length (instances_in stack.now) ≡ 2 }
{
    let (mut writer, mut readers) = shelf(rt, alloc, 1)?;
    let came = match readers.pop() {
        Some(reader) => list_and_ask(rt, alloc, stack, sink, &mut writer, reader),
        None => Err(NoMemory),
    };
    writer.close(rt);
    came
}

// A sink that takes 4 bytes at once and fails in its call of this number; the second line is shown.
#[test]
fn a_note_is_seen_behind_its_line(rt: HostRuntime) -> Result<(), Fail> {
    let alloc = rt.alloc();
    let show = word(alloc, 2, "uart-2")?;
    let stack = two_lines(alloc, Some(&show), None)?;
    assert!(rt; stack.count() == 2);
    for (failed, bytes, seen) in [(100u64, 33usize, 2u64), (5, 20, 1), (3, 12, 0)] {
        let mut fails = Vec::new(alloc);
        fails.push(failed)?;
        let mut sink = MemSink::new(alloc, 4, fails, 100).expect(&rt, "memory");
        let (cause, answer) = listed(&rt, alloc, &stack, &mut sink)?;
        assert_eq!(rt;
            (cause.is_none(), answer.ended),
            (failed == 100, failed == 100)
        );
        assert_eq!(rt; answer.seen, seen);
        assert_eq!(rt; sink.written().len(), bytes);
    }
    Ok(())
}
