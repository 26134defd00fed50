// What the writer does.
ghost use Rattle.std.specs.Prelude.{◌≡◌, ◌++◌, ◌∷◌, [], true, false, None, OnOk, OnErr};
ghost use Rattle.view_store.specs.Views.{pending, published, shelf_of, told_listing, told_shelf};

use super::{Told, ViewWriter};
use crate::added::Added;
use crate::block::Block;
use crate::front::Front;
use crate::rule::Publishes;
use crate::store::Change;
use core::mem::replace_with;
use la_base::{NoMemory, Note};
use std::mem::replace;
use std::sync::Wait;

// The most notes of a block: a short range of a long listing looks at few notes beside its own.
const MOST_NOTES: usize = 1024;

impl ViewWriter {
    // Adds a note.
    fn put(&mut self, instance: u32, note: Note) -> Result<(), NoMemory>
        requires { (pending self.old).ended ≡ false }
        ensures shelf { shelf_of self.new ≡ shelf_of self.old }
        ensures published { published self.new ≡ published self.old }
        ensures ok { OnOk result (pending self.new ≡ record (pending self.old) {
          notes = (pending self.old).notes ++ (instance, note) ∷ [];
        }) }
        ensures err { OnErr result (pending self.new ≡ pending self.old) }
    {
        // Room comes first, since what the history has got can't be taken back.
        if self.notes.try_reserve(1).is_err() {
            return Err(NoMemory);
        }
        // Nobody else adds to the history, so it is as long as is known.
        let Some(front) = self
            .front
            .longer_by(&self.head, Added::Note((instance, note)))
        else {
            return Err(NoMemory);
        };
        self.notes.push_reserved((instance, note));
        self.front = front;
        Ok(())
    }

    // Hands notes that wait to the store, where there are as many as a block has.
    fn make_room(&mut self) -> Result<(), NoMemory>
        ensures shelf { shelf_of self.new ≡ shelf_of self.old }
        ensures published { published self.new ≡ published self.old }
        ensures pending { pending self.new ≡ pending self.old }
    {
        if self.notes.len() < MOST_NOTES {
            return Ok(());
        }
        self.ready()
    }

    /// Adds a note to what is pending. It fails where there is no memory, and then changes nothing.
    pub fn add(&mut self, instance: u32, note: Note) -> Result<(), NoMemory>
        requires { (pending self.old).ended ≡ false }
        ensures shelf { shelf_of self.new ≡ shelf_of self.old }
        ensures published { published self.new ≡ published self.old }
        ensures ok { OnOk result (pending self.new ≡ record (pending self.old) {
          notes = (pending self.old).notes ++ (instance, note) ∷ [];
        }) }
        ensures err { OnErr result (pending self.new ≡ pending self.old) }
    {
        self.make_room()?;
        self.put(instance, note)
    }

    /// Ends what is pending. It takes no memory; where it fails it changes nothing.
    pub fn finish(&mut self) -> Result<(), NoMemory>
        requires { (pending self.old).ended ≡ false }
        ensures shelf { shelf_of self.new ≡ shelf_of self.old }
        ensures published { published self.new ≡ published self.old }
        ensures ok { OnOk result (pending self.new ≡ record (pending self.old) { ended = true }) }
        ensures err { OnErr result (pending self.new ≡ pending self.old) }
    {
        let Some(front) = self.front.longer_by(&self.head, Added::End) else {
            return Err(NoMemory);
        };
        self.front = front;
        Ok(())
    }

    // Makes a block of the notes, to be published next.
    fn hold(&mut self) -> Result<(), NoMemory>
        requires { self.old.held ≡ None }
        ensures shelf { shelf_of self.new ≡ shelf_of self.old }
        ensures published { published self.new ≡ published self.old }
        ensures pending { pending self.new ≡ pending self.old }
        ensures ok { OnOk result (self.new.notes.items ≡ []) }
    {
        if self.notes.is_empty() {
            return Ok(());
        }
        let alloc = self.alloc;
        let notes = replace(&mut self.notes, Vec::new(alloc));
        match Block::new(alloc, notes) {
            Ok(block) => {
                self.held = Some(block);
                Ok(())
            }
            Err(notes) => {
                self.notes = notes;
                Err(NoMemory)
            }
        }
    }

    // Hands the block that is held to the store.
    fn hand_on(&mut self) -> Result<(), NoMemory>
        ensures shelf { shelf_of self.new ≡ shelf_of self.old }
        ensures published { published self.new ≡ published self.old }
        ensures pending { pending self.new ≡ pending self.old }
        ensures notes { self.new.notes ≡ self.old.notes }
        ensures ok { OnOk result (self.new.held ≡ None) }
    {
        match self.held.take() {
            None => Ok(()),
            Some(block) => match self.writer.append(Change::Add(block)) {
                Ok(()) => Ok(()),
                Err(Change::Add(block)) => {
                    self.held = Some(block);
                    Err(NoMemory)
                }
                Err(Change::Keep(_)) => Err(NoMemory),
            },
        }
    }

    // Hands all notes to the store.
    fn ready(&mut self) -> Result<(), NoMemory>
        ensures shelf { shelf_of self.new ≡ shelf_of self.old }
        ensures published { published self.new ≡ published self.old }
        ensures pending { pending self.new ≡ pending self.old }
        ensures held { OnOk result (self.new.held ≡ None) }
        ensures notes { OnOk result (self.new.notes.items ≡ []) }
    {
        self.hand_on()?;
        self.hold()?;
        self.hand_on()
    }

    /// Makes what is pending the published listing, all at once. It may wait for a reader that is
    /// inside an `ask`. It fails where there is no memory, and then changes nothing.
    pub fn publish<R: Wait>(&mut self, rt: &R) -> Result<(), NoMemory>
        ensures shelf { shelf_of self.new ≡ shelf_of self.old }
        ensures pending { pending self.new ≡ pending self.old }
        ensures ok { OnOk result (published self.new ≡ pending self.old) }
        ensures err { OnErr result (published self.new ≡ published self.old) }
    {
        self.ready()?;
        replace_with(self, rt, |writer, rt| writer.show(rt))
    }

    fn show<R: Wait>(self, rt: &R) -> (ViewWriter, Result<(), NoMemory>)
        requires held { self.held ≡ None }
        requires notes { self.notes.items ≡ [] }
        ensures shelf { shelf_of result.0 ≡ shelf_of self }
        ensures pending { pending result.0 ≡ pending self }
        ensures ok { OnOk result.1 (published result.0 ≡ pending self) }
        ensures err { OnErr result.1 (published result.0 ≡ published self) }
    {
        let ViewWriter {
            alloc,
            mut writer,
            head,
            front,
            held,
            notes,
        } = self;
        match writer.append(Change::Keep(front.again())) {
            Err(_) => {
                let same = ViewWriter {
                    alloc,
                    writer,
                    head,
                    front,
                    held,
                    notes,
                };
                (same, Err(NoMemory))
            }
            Ok(()) => match writer.publish_as::<Publishes, R>(rt) {
                (writer, Ok(())) => {
                    let shown = ViewWriter {
                        alloc,
                        writer,
                        head,
                        front,
                        held,
                        notes,
                    };
                    (shown, Ok(()))
                }
                (writer, Err(_)) => {
                    let same = ViewWriter {
                        alloc,
                        writer,
                        head,
                        front,
                        held,
                        notes,
                    };
                    (same, Err(NoMemory))
                }
            },
        }
    }

    /// What is published now, for a reader of the same shelf to learn.
    pub fn tell(&mut self) -> Told
        ensures shelf { told_shelf result ≡ shelf_of self.old }
        ensures told { told_listing result ≡ published self.old }
        ensures same { self.new ≡ self.old }
    {
        Told {
            front: self.writer.published().front.again(),
        }
    }

    /// Ends the writer. It may wait for a reader that is inside an `ask`.
    pub fn close<R: Wait>(self, rt: &R) {
        let ViewWriter {
            alloc: _,
            writer,
            head: _,
            front: _,
            held: _,
            notes: _,
        } = self;
        drop(writer.take(rt));
    }
}

impl Told {
    pub(super) fn into_front(self) -> Front
        ensures { result ≡ self.front }
    {
        let Told { front } = self;
        front
    }
}
