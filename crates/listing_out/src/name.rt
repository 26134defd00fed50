// The names of instances, with their texts.
ghost use Rattle.std.specs.Prelude.{◌≡◌, ◌≤◌, ◌<◌, ◌++◌, ℕ, length, true};
ghost use Rattle.kind_table.specs.declared.kinds.Kind.{Kind};
ghost use Rattle.listing_out.specs.NoteLines.{name_as};

use crate::text::push_text;
use kind_table::{Kind, kind_name};
use line_text::{LineBuf, MOST_SHORT, ShortText};
use std::array;
use std::marker::Model;

// An instance by its kind and its number within this kind. Contracts see these. Its text is kept
// where it is short, so of one that is named again and again it isn't made anew.
#[derive(Drop)]
struct InstanceName {
    kind: Kind,
    of_kind: u32,
    is_short: bool,
    text: ShortText,
}

impl Model for InstanceName {
    ghost Value = { Kind × ℕ };

    ghost view = { λ s. (s.kind, s.of_kind) };

    ghost invariant = { λ s. s.is_short ≡ true → s.text ≡ name_as s.kind s.of_kind };
}

// Appends the name of an instance, as it stands in a line.
fn push_name(kind: Kind, number: u32, line: &mut LineBuf)
    requires { length line.old ≤ 50 }
    ensures text { line.new ≡ line.old ++ name_as kind number }
    ensures short { length line.new ≤ 120 }
{
    push_text(line, " ");
    push_text(line, kind_name(kind));
    push_text(line, "-");
    line.push_number(u64::from(number));
    push_text(line, ": ");
}

impl InstanceName {
    // One whose text isn't kept.
    fn new() -> InstanceName {
        InstanceName {
            kind: Kind::I2c,
            of_kind: 0,
            is_short: false,
            text: ShortText::new(),
        }
    }

    // Another instance.
    fn of(kind: Kind, number: u32) -> InstanceName
        ensures { result ≡ (kind, number) }
    {
        let mut line = LineBuf::new();
        push_name(kind, number, &mut line);
        let mut text = ShortText::new();
        let is_short = line.bytes().len() <= MOST_SHORT;
        if is_short {
            text.set(line.bytes());
        }
        InstanceName {
            kind,
            of_kind: number,
            is_short,
            text,
        }
    }

    // Whether it is this instance.
    #[inline(always)]
    fn is(&self, kind: Kind, number: u32) -> bool
        ensures { result ≡ true → self.now ≡ (kind, number) }
    {
        self.kind == kind && self.of_kind == number
    }

    // Appends its name, as it stands in a line.
    #[inline(always)]
    fn push(&self, line: &mut LineBuf)
        requires { length line.old ≤ 50 }
        ensures text { line.new ≡ line.old ++ name_as self.now.0 self.now.1 }
        ensures short { length line.new ≤ 120 }
    {
        if self.is_short {
            line.push_short(&self.text);
        } else {
            push_name(self.kind, self.of_kind, line);
        }
    }
}

// For how many names there is room.
const ROOM: usize = 64;

/// The names of instances, each made once as long as no other takes its place: the lines of several
/// instances alternate.
#[derive(Drop)]
pub struct Names {
    room: [InstanceName; ROOM],
}

// Where the name of an instance is kept. Small numbers of the same kind and of neighbouring kinds
// have places of their own.
#[inline(always)]
fn place_of(kind: Kind, number: u32) -> usize
    ensures { result < 64 }
{
    (kind as usize * 5 + number as usize) % ROOM
}

impl Names {
    /// No names.
    pub fn new() -> Names {
        Names {
            room: array::from_fn(|_| InstanceName::new()),
        }
    }

    /// Appends the name of an instance, as it stands in a line.
    #[inline(always)]
    pub fn push(&mut self, kind: Kind, number: u32, line: &mut LineBuf)
        requires { length line.old ≤ 50 }
        ensures text { line.new ≡ line.old ++ name_as kind number }
        ensures short { length line.new ≤ 120 }
    {
        let place = place_of(kind, number);
        if !self.room[place].is(kind, number) {
            self.room[place] = InstanceName::of(kind, number);
        }
        push_kept(&self.room[place], kind, number, line);
    }
}

// Appends the name of an instance, which is the one that is kept, or else is made anew.
#[inline(always)]
fn push_kept(kept: &InstanceName, kind: Kind, number: u32, line: &mut LineBuf)
    requires { length line.old ≤ 50 }
    ensures text { line.new ≡ line.old ++ name_as kind number }
    ensures short { length line.new ≤ 120 }
{
    if kept.is(kind, number) {
        kept.push(line);
    } else {
        push_name(kind, number, line);
    }
}
