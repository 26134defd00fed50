// The line of a note.
ghost use Rattle.std.specs.Prelude.{◌≡◌, [], List, ℕ, OnOk};
ghost use Rattle.std.specs.Io.KnownBytes.{Appends};
ghost use Rattle.la_io.specs.Causes.{AppendsFront, HasCause};
ghost use Rattle.listing_out.specs.NoteLines.{line_as};

use crate::name::Names;
use crate::note_texts::note_text;
use crate::text::push_text;
use kind_table::Kind;
use la_base::Note;
use la_io::{Failed, Sink, write_whole};
use line_text::{Decimal, LineBuf};
use std::marker::Model;

/// The line of a note, `START-END NAME: TEXT`: its places, the name of its instance and its text.
/// Contracts see its bytes. One serves for all notes: to make it fills it with zeros, and it keeps
/// the digits of the places and the names of instances.
#[derive(Drop)]
pub struct NoteLine {
    line: LineBuf,
    start: Decimal,
    end: Decimal,
    names: Names,
}

impl Model for NoteLine {
    ghost Value = { List ℕ };

    ghost view = { λ s. s.line };
}

impl NoteLine {
    /// An empty line.
    pub fn new() -> NoteLine
        ensures { result ≡ [] }
    {
        NoteLine {
            line: LineBuf::new(),
            start: Decimal::new(),
            end: Decimal::new(),
            names: Names::new(),
        }
    }

    // Makes it the line of a note, where its instance has this number among those of its kind.
    fn put(&mut self, kind: Kind, number: u32, note: &Note)
        ensures { self.new ≡ line_as kind number note.now }
    {
        self.start.set(note.start);
        self.end.set(note.end);
        let line = &mut self.line;
        line.clear();
        line.push_short(self.start.text());
        push_text(line, "-");
        line.push_short(self.end.text());
        self.names.push(kind, number, line);
        note_text(kind, *note, line);
        push_text(line, "\n");
    }

    /// Makes it the line of a note, where its instance has this number among those of its kind, and
    /// writes it. After `Failed` a front of it is written.
    pub fn write<K: Sink>(
        &mut self,
        sink: &mut K,
        kind: Kind,
        number: u32,
        note: &Note,
    ) -> Result<(), Failed>
        ensures whole { OnOk result
            (Appends (K.written sink.old) (K.written sink.new) (line_as kind number note.now)) }
        ensures front { AppendsFront (K.written sink.old) (K.written sink.new)
            (line_as kind number note.now) }
        ensures cause { HasCause (K.faults sink.old) (K.faults sink.new) result }
        ensures goes_on { K.goes_on sink.old sink.new }
    {
        self.put(kind, number, note);
        write_whole(sink, self.line.bytes())
    }
}

/// Writes the line of one note. After `Failed` a front of it is written. For many notes a
/// `NoteLine` costs less.
pub fn write_note<K: Sink>(sink: &mut K, kind: Kind, number: u32, note: Note) -> Result<(), Failed>
    ensures whole { OnOk result
        (Appends (K.written sink.old) (K.written sink.new) (line_as kind number note)) }
    ensures front { AppendsFront (K.written sink.old) (K.written sink.new)
        (line_as kind number note) }
    ensures cause { HasCause (K.faults sink.old) (K.faults sink.new) result }
    ensures goes_on { K.goes_on sink.old sink.new }
{
    let mut line = NoteLine::new();
    line.write(sink, kind, number, &note)
}
