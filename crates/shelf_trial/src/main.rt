//! A shelf of notes where memory is refused once: notes are added, the listing is ended, and a reader
//! asks for all of it. What it says is the same whichever call for memory was refused, or none.
#![tactic(auto)]

ghost use Rattle.std.specs.Prelude.{◌≡◌, false};
ghost use Rattle.view_store.specs.Views.{pending, reader_shelf, shelf_of};

use la_base::{NoMemory, Note};
use std::alloc::Global;
use std::sync::Wait;
use view_store::{Answer, ViewReader, ViewWriter, shelf};

// More notes than a block of a shelf has.
const NOTES: u64 = 1500;

// Some are published behind each so many.
const AT_ONCE: u64 = 500;

// How many notes were added, and how many refused.
#[derive(Clone, Copy)]
struct Added {
    held: u64,
    refused: u64,
}

fn note_at(start: u64) -> Note {
    Note {
        class: 0,
        start,
        end: start,
        a: 0,
        b: 0,
    }
}

// Publishes, and once more where there was no memory.
fn publish<R: Wait>(rt: &R, writer: &mut ViewWriter) -> bool
    ensures shelf { shelf_of writer.new ≡ shelf_of writer.old }
    ensures pending { pending writer.new ≡ pending writer.old }
{
    match writer.publish(rt) {
        Ok(()) => true,
        Err(NoMemory) => writer.publish(rt).is_ok(),
    }
}

// Adds notes, and publishes now and then.
fn add<R: Wait>(rt: &R, writer: &mut ViewWriter) -> Added
    requires { (pending writer.old).ended ≡ false }
    ensures shelf { shelf_of writer.new ≡ shelf_of writer.old }
    ensures going { (pending writer.new).ended ≡ false }
{
    let mut held: u64 = 0;
    let mut refused: u64 = 0;
    for at in 0..NOTES {
        match writer.add(0, note_at(at)) {
            Ok(()) => held = held.saturating_add(1),
            Err(NoMemory) => refused = refused.saturating_add(1),
        }
        if at % AT_ONCE == 0 {
            let _ = publish(rt, writer);
        }
    }
    Added { held, refused }
}

// Asks for all notes, and once more where there was no memory.
fn ask<R: Wait>(rt: &R, reader: &mut ViewReader) -> Result<Answer, NoMemory> {
    match reader.ask(rt, 0, u64::MAX) {
        Ok(answer) => Ok(answer),
        Err(NoMemory) => reader.ask(rt, 0, u64::MAX),
    }
}

// What a shelf comes to.
fn filled<R: Wait>(rt: &R, writer: &mut ViewWriter, mut reader: ViewReader) -> &'static str
    requires own { reader_shelf reader ≡ shelf_of writer.old }
    requires going { (pending writer.old).ended ≡ false }
{
    let added = add(rt, writer);
    if added.refused > 1 {
        return "more notes were refused than one";
    }
    if writer.finish().is_err() {
        return "the listing couldn't be ended";
    }
    if !publish(rt, writer) {
        return "it couldn't be published";
    }
    reader.learn(writer.tell());
    match ask(rt, &mut reader) {
        Ok(answer) => {
            if answer.seen != added.held || answer.notes.len() as u64 != added.held {
                return "other notes are on it than were added";
            }
            if !answer.ended {
                return "the end isn't on it";
            }
            "all notes that were added are on the shelf, and it is ended"
        }
        Err(NoMemory) => "nothing is answered",
    }
}

// The same of a new shelf.
fn outcome<R: Wait>(rt: &R, alloc: Global) -> Result<&'static str, NoMemory> {
    let (mut writer, mut readers) = shelf(rt, alloc, 1)?;
    let told = match readers.pop() {
        Some(reader) => filled(rt, &mut writer, reader),
        None => "it has no reader",
    };
    writer.close(rt);
    Ok(told)
}

fn main(rt: HostRuntime) -> anyhow::Result<()> {
    let told = match outcome(&rt, rt.alloc()) {
        Ok(told) => told,
        Err(NoMemory) => match outcome(&rt, rt.alloc()) {
            Ok(told) => told,
            Err(NoMemory) => "there is no shelf",
        },
    };
    println!(rt; "{told}")?;
    Ok(())
}
