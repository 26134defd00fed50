// Lines and bytes that are written as soon as they may be.
ghost use Rattle.std.specs.Prelude.{◌≤◌, IfSome, length};
ghost use Rattle.std.specs.String.{string_bytes};

use crate::stacks::word;
use la_base::{Mark, Note, Piece};
use la_io::MemSink;
use note_lister::{ListStop, Lister, Unwatched};
use stack_words::{ChainWord, Stack, read_stack};
use std::alloc::Global;
use std::test::Fail;
use tree_io::{MarkTake, Stopped};

/// The stack of two serial lines, of which `uart-2` is the second.
pub fn two_lines(
    alloc: Global,
    show: Option<&ChainWord>,
    binary: Option<&ChainWord>,
) -> Result<Stack, Fail>
    requires show { IfSome show (λ chain. length (string_bytes chain.now.text) ≤ 4096) }
    requires binary { IfSome binary (λ chain. length (string_bytes chain.now.text) ≤ 4096) }
{
    let first = word(alloc, 0, "uart:rx=D0")?;
    let second = word(alloc, 1, "uart:rx=D1")?;
    let chains = [first, second];
    match read_stack(alloc, &chains, show, binary) {
        Ok(stack) => Ok(stack),
        Err(_) => Err("no stack".into()),
    }
}

// The note of a byte on a serial line.
fn byte(start: u64, a: u64) -> Mark {
    Mark::Note(Note {
        class: 1,
        start,
        end: start.saturating_add(9),
        a,
        b: 0,
    })
}

fn piece(start: u64, byte: u8) -> Mark {
    Mark::Piece(Piece {
        class: 0,
        start,
        end: start,
        byte,
    })
}

#[test]
fn a_line_is_written_once_no_earlier_one_can_come(rt: HostRuntime) -> Result<(), Fail> {
    let alloc = rt.alloc();
    let stack = two_lines(alloc, None, None)?;
    assert!(rt; stack.count() == 2);
    let mut sink = MemSink::new(alloc, 100, Vec::new(alloc), 100).expect(&rt, "memory");
    let mut lister = Lister::new(alloc, &stack, &mut sink, Unwatched).expect(&rt, "memory");
    assert!(rt; lister.take(1, byte(5, 65)) == Ok(()));
    assert!(rt; lister.take(1, Mark::Floor(5)) == Ok(()));
    // The first line may still give a note at 5.
    assert!(rt; lister.take(0, Mark::Floor(5)) == Ok(()));
    assert!(rt; lister.held() == 1);
    assert!(rt; lister.take(0, byte(7, 66)) == Ok(()));
    assert!(rt; lister.take(0, Mark::Floor(6)) == Ok(()));
    assert!(rt; lister.held() == 1);
    assert!(rt; lister.take(0, byte(6, 67)) == Ok(()));
    assert!(rt; lister.take(0, Mark::End) == Ok(()));
    assert!(rt; lister.take(1, Mark::End) == Ok(()));
    assert!(rt; lister.held() == 0);
    assert!(rt; lister.cause().is_none());
    drop(lister);
    let lines = "5-14 uart-2: 41\n6-15 uart-1: 43\n7-16 uart-1: 42\n";
    assert!(rt; sink.written() == lines.as_bytes());
    Ok(())
}

#[test]
fn a_line_of_an_instance_that_is_shown(rt: HostRuntime) -> Result<(), Fail> {
    let alloc = rt.alloc();
    let show = word(alloc, 2, "uart-2")?;
    let stack = two_lines(alloc, Some(&show), None)?;
    assert!(rt; stack.count() == 2);
    let mut sink = MemSink::new(alloc, 100, Vec::new(alloc), 100).expect(&rt, "memory");
    let mut lister = Lister::new(alloc, &stack, &mut sink, Unwatched).expect(&rt, "memory");
    assert!(rt; lister.take(0, byte(5, 65)) == Ok(()));
    assert!(rt; lister.take(1, byte(6, 66)) == Ok(()));
    assert!(rt; lister.take(0, Mark::End) == Ok(()));
    assert!(rt; lister.take(1, Mark::End) == Ok(()));
    drop(lister);
    assert!(rt; sink.written() == b"6-15 uart-2: 42\n".as_slice());
    Ok(())
}

#[test]
fn binary_data_is_written_as_it_comes(rt: HostRuntime) -> Result<(), Fail> {
    let alloc = rt.alloc();
    let binary = word(alloc, 2, "uart-2:data")?;
    let stack = two_lines(alloc, None, Some(&binary))?;
    assert!(rt; stack.count() == 2);
    let mut sink = MemSink::new(alloc, 100, Vec::new(alloc), 100).expect(&rt, "memory");
    let mut lister = Lister::new(alloc, &stack, &mut sink, Unwatched).expect(&rt, "memory");
    assert!(rt; lister.take(1, byte(5, 65)) == Ok(()));
    assert!(rt; lister.take(1, piece(5, 65)) == Ok(()));
    assert!(rt; lister.take(0, piece(5, 66)) == Ok(()));
    assert!(rt; lister.take(1, piece(3, 67)) == Ok(()));
    assert!(rt; lister.held() == 0);
    drop(lister);
    assert!(rt; sink.written() == b"AC".as_slice());
    Ok(())
}

#[test]
fn a_failed_write_stops_it(rt: HostRuntime) -> Result<(), Fail> {
    let alloc = rt.alloc();
    let stack = two_lines(alloc, None, None)?;
    assert!(rt; stack.count() == 2);
    let mut fails = Vec::new(alloc);
    fails.push(2).expect(&rt, "memory");
    let mut sink = MemSink::new(alloc, 4, fails, 100).expect(&rt, "memory");
    let mut lister = Lister::new(alloc, &stack, &mut sink, Unwatched).expect(&rt, "memory");
    assert!(rt; lister.take(0, byte(5, 65)) == Ok(()));
    assert!(rt; lister.take(0, Mark::End) == Ok(()));
    assert!(rt; lister.take(1, Mark::End) == Err(Stopped));
    assert!(rt; lister.cause() == Some(ListStop::Write));
    assert!(rt; lister.take(1, Mark::Floor(0)) == Err(Stopped));
    drop(lister);
    assert!(rt; sink.written() == b"5-14 uar".as_slice());
    Ok(())
}
