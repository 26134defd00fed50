// What looks on, and adds each note to a shelf.
ghost use Rattle.std.specs.Prelude.{◌≡◌, ◌<◌, ◌≤◌, [], false, OnErr, OnOk};
ghost use Rattle.view_store.specs.Listings.{nothing};
ghost use Rattle.view_store.specs.Views.{pending, published, shelf_of};
ghost use Rattle.note_lister.specs.Watching.{SeesNone};
ghost use Rattle.shelf_watch.specs.Shelves.{ended_with};

use crossbeam_utils::sync::EventCount;
use la_base::NoMemory;
use note_lister::Watch;
use note_order::Entry;
use std::snapshot::Snapshot;
use std::sync::Wait;
use view_store::ViewWriter;

// So many notes are published at once, or more: answers over many small blocks are slow.
const MOST_WAITING: u32 = 1024;

// Ends what is pending, and publishes it.
fn end_shelf<R: Wait>(rt: &R, shelf: &mut ViewWriter) -> Result<(), NoMemory>
    requires { (pending shelf.old).ended ≡ false }
    ensures shelf { shelf_of shelf.new ≡ shelf_of shelf.old }
    ensures ok { OnOk result (published shelf.new ≡ ended_with (pending shelf.old)) }
    ensures err { OnErr result (published shelf.new ≡ published shelf.old) }
{
    shelf.finish()?;
    shelf.publish(rt)
}

/// Adds each note that it is shown to a shelf that was lent. It publishes once 1,024 notes wait, and
/// in a pause, and notifies those who wait for that. It may wait for a reader of the shelf that is
/// inside an `ask`.
pub struct ShelfWatch<'a, R: Wait> {
    shelf: &'a mut ViewWriter,
    rt: &'a R,
    // On which viewers wait for a longer listing.
    shown: &'a EventCount,
    // How many notes were added since the last publishing.
    waiting: u32,
    // There was no memory in a pause: the next call tells it.
    short: bool,
    // What it was lent. Contracts alone read it.
    lent: Snapshot<&'a mut ViewWriter>,
    ghost few: { waiting ≤ 1024 },
    pub ghost going: { (pending shelf.now).ended ≡ false },
}

impl<'a, R: Wait> Drop for ShelfWatch<'a, R> {
    fn drop(self) {
        let ShelfWatch {
            shelf: _,
            rt: _,
            shown: _,
            waiting: _,
            short: _,
            lent: _,
        } = self;
    }
}

impl<'a, R: Wait> ShelfWatch<'a, R> {
    ghost use Rattle.shelf_watch.specs.Watches.{Saw, lent_ref, shelf_ref};

    /// It has seen nothing, and the shelf is new. `shown` is notified of each publishing.
    pub fn new(rt: &'a R, shelf: &'a mut ViewWriter, shown: &'a EventCount) -> ShelfWatch<'a, R>
        requires pending { pending shelf.old ≡ nothing }
        requires published { published shelf.old ≡ nothing }
        ensures saw { Saw result [] }
        ensures lent { (lent_ref result).now ≡ shelf.old }
        ensures same_reference { (lent_ref result).ghost_name ≡ shelf.entry.ghost_name }
    {
        let lent = Snapshot::of(&shelf);
        ShelfWatch {
            shelf,
            rt,
            shown,
            waiting: 0,
            short: false,
            lent,
        }
    }

    // Publishes what waits.
    fn publish(&mut self) -> Result<(), NoMemory>
        ensures saw { SeesNone (Saw self.old) (Saw self.new) }
        ensures lent { self.new.lent ≡ self.old.lent }
        ensures none { OnOk result (self.new.waiting ≡ 0) }
    {
        match self.shelf.publish(self.rt) {
            Ok(()) => {
                self.waiting = 0;
                self.shown.notify_all();
                Ok(())
            }
            Err(NoMemory) => Err(NoMemory),
        }
    }

    // Publishes where as many wait as may.
    fn make_room(&mut self) -> Result<(), NoMemory>
        ensures saw { SeesNone (Saw self.old) (Saw self.new) }
        ensures lent { self.new.lent ≡ self.old.lent }
        ensures room { OnOk result (self.new.waiting < 1024) }
    {
        if self.short {
            return Err(NoMemory);
        }
        if self.waiting < MOST_WAITING {
            return Ok(());
        }
        self.publish()
    }

    /// All notes were seen: ends what is pending, publishes it, and gives the shelf back. It fails
    /// where there is no memory, or was none in a pause; what is published is then as it was.
    pub fn finish(self) -> (&'a mut ViewWriter, Result<(), NoMemory>)
        ensures same_reference { result.0.ghost_name ≡ (shelf_ref self.entry).ghost_name }
        ensures shelf { shelf_of result.0.now ≡ shelf_of (shelf_ref self.entry).now }
        ensures ok { OnOk result.1
            (published result.0.now ≡ ended_with (pending (shelf_ref self.entry).now)) }
        ensures err { OnErr result.1
            (published result.0.now ≡ published (shelf_ref self.entry).now) }
    {
        let ShelfWatch {
            shelf,
            rt,
            shown,
            waiting: _,
            short,
            lent: _,
        } = self;
        if short {
            return (shelf, Err(NoMemory));
        }
        let ended = end_shelf(rt, shelf);
        shown.notify_all();
        (shelf, ended)
    }

    /// The listing goes no further: gives the shelf back as it is.
    pub fn into_shelf(self) -> &'a mut ViewWriter
        ensures same_reference { result.ghost_name ≡ (shelf_ref self.entry).ghost_name }
        ensures same { result.now ≡ (shelf_ref self.entry).now }
    {
        let ShelfWatch {
            shelf,
            rt: _,
            shown: _,
            waiting: _,
            short: _,
            lent: _,
        } = self;
        shelf
    }
}

impl<'a, R: Wait> Watch for ShelfWatch<'a, R> {
    ghost use Rattle.shelf_watch.specs.Watches.{Saw};

    type Origin = Snapshot<&'a mut ViewWriter>;

    ghost saw = { λ watch entries. Saw watch entries };

    ghost origin = { λ watch. watch.lent };

    fn see(&mut self, entry: &Entry) -> Result<(), NoMemory> {
        self.make_room()?;
        self.shelf.add(entry.instance, entry.note)?;
        self.waiting += 1;
        Ok(())
    }

    fn pause(&mut self) {
        if self.waiting == 0 {
            return;
        }
        match self.publish() {
            Ok(()) => {}
            Err(NoMemory) => self.short = true,
        }
    }
}
