// The lines of notes that may be given.
ghost use Rattle.std.specs.Prelude.{◌≡◌, [], ◌∷◌, OnErr, OnOk, List, ℕ};
ghost use Rattle.std.specs.Io.KnownBytes.{Appends};
ghost use Rattle.la_base.specs.declared.wires.Mark.{Mark};
ghost use Rattle.note_order.specs.declared.entry.Entry.{Entry};
ghost use Rattle.la_io.specs.Causes.{AppendsFront, HasCause};
ghost use Rattle.stack_words.specs.Stacks.{stack_meaning};
ghost use Rattle.annot_merge.specs.Held.{Stands, count_of};
ghost use Rattle.note_lister.specs.Lines.{note_line, shown_entries, shown_line, shown_lines};
ghost use Rattle.note_lister.specs.Ready.{ListCause, ListsReady};
ghost use Rattle.note_lister.specs.Watching.{Sees, SeesNone, ShowsFront};

use crate::stop::ListStop;
use crate::watch::Watch;
use annot_merge::{Entry, Merge};
use la_base::NoMemory;
use la_io::{Failed, Sink};
use listing_out::NoteLine;
use stack_words::Stack;

// Writes the line of a note of an instance that is shown. One that isn't there has none.
#[inline(always)]
fn write_line<K: Sink>(
    line: &mut NoteLine,
    stack: &Stack,
    entry: &Entry,
    sink: &mut K,
) -> Result<(), Failed>
    ensures whole { OnOk result
        (Appends (K.written sink.old) (K.written sink.new)
        (note_line (stack_meaning stack.now).instances entry.now)) }
    ensures front { AppendsFront (K.written sink.old) (K.written sink.new)
        (note_line (stack_meaning stack.now).instances entry.now) }
    ensures cause { HasCause (K.faults sink.old) (K.faults sink.new) result }
    ensures goes_on { K.goes_on sink.old sink.new }
{
    if entry.instance >= stack.count() {
        return Ok(());
    }
    line.write(
        sink,
        stack.kind(entry.instance),
        stack.number(entry.instance),
        &entry.note,
    )
}

// Writes the line of a note and then shows the note to what looks on, where its instance is shown.
#[inline(always)]
fn write_shown<K: Sink, W: Watch>(
    line: &mut NoteLine,
    stack: &Stack,
    entry: &Entry,
    sink: &mut K,
    watch: &mut W,
) -> Result<(), ListStop>
    ensures whole { OnOk result
        (Appends (K.written sink.old) (K.written sink.new)
        (shown_line (stack_meaning stack.now) entry.now)) }
    ensures seen { OnOk result
        (Sees (W.saw watch.old) (W.saw watch.new)
        (shown_entries (stack_meaning stack.now) (entry.now ∷ []))) }
    ensures front { OnErr result
        (AppendsFront (K.written sink.old) (K.written sink.new)
        (shown_line (stack_meaning stack.now) entry.now)) }
    ensures unseen { OnErr result (SeesNone (W.saw watch.old) (W.saw watch.new)) }
    ensures cause { ListCause (K.faults sink.old) (K.faults sink.new) result }
    ensures goes_on { K.goes_on sink.old sink.new }
    ensures origin { W.origin watch.new ≡ W.origin watch.old }
{
    if !stack.shown(entry.instance) {
        return Ok(());
    }
    match write_line(line, stack, entry, sink) {
        Ok(()) => {}
        Err(Failed) => return Err(ListStop::Write),
    }
    match watch.see(entry) {
        Ok(()) => Ok(()),
        Err(NoMemory) => Err(ListStop::NoMemory),
    }
}

// Writes the lines of notes, those of instances that are shown, and shows each note behind its
// line.
#[inline(always)]
fn write_lines<K: Sink, W: Watch>(
    line: &mut NoteLine,
    stack: &Stack,
    entries: &[Entry],
    sink: &mut K,
    watch: &mut W,
) -> Result<(), ListStop>
    ensures whole { OnOk result
        (Appends (K.written sink.old) (K.written sink.new)
        (shown_lines (stack_meaning stack.now) entries.now)) }
    ensures seen { OnOk result
        (Sees (W.saw watch.old) (W.saw watch.new)
        (shown_entries (stack_meaning stack.now) entries.now)) }
    ensures front { OnErr result
        (ShowsFront (stack_meaning stack.now) (W.saw watch.old) (W.saw watch.new)
        (K.written sink.old) (K.written sink.new) entries.now) }
    ensures cause { ListCause (K.faults sink.old) (K.faults sink.new) result }
    ensures goes_on { K.goes_on sink.old sink.new }
    ensures origin { W.origin watch.new ≡ W.origin watch.old }
{
    for entry in entries {
        match write_shown(line, stack, entry, sink, watch) {
            Ok(()) => {}
            Err(why) => return Err(why),
        }
    }
    Ok(())
}

/// Writes the lines of all notes that may be given, and shows each note behind its line.
#[inline(never)]
pub fn list_ready<K: Sink, W: Watch>(
    merge: &mut Merge,
    stack: &Stack,
    line: &mut NoteLine,
    sink: &mut K,
    watch: &mut W,
) -> Result<(), ListStop>
    ensures count { count_of merge.new ≡ count_of merge.old }
    ensures lists { (marks : ℕ → List Mark) (given : List Entry) → Stands merge.old marks given
        → ListsReady (stack_meaning stack.now) merge.new (W.saw watch.old) (W.saw watch.new)
        (K.written sink.old) (K.written sink.new) marks given result }
    ensures cause { ListCause (K.faults sink.old) (K.faults sink.new) result }
    ensures goes_on { K.goes_on sink.old sink.new }
    ensures origin { W.origin watch.new ≡ W.origin watch.old }
{
    loop {
        let entries = merge.ready_notes();
        let count = entries.len();
        if count == 0 {
            return Ok(());
        }
        let written = write_lines(line, stack, entries, sink, watch);
        merge.let_go(count);
        match written {
            Ok(()) => {}
            Err(why) => return Err(why),
        }
    }
}
