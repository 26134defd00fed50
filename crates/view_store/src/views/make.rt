// Makes a shelf.
ghost use Rattle.std.specs.Prelude.{◌≡◌, ◌≤◌, ◌<◌, ◌+◌, [], All, IfOk, Some, vec_len};
ghost use Rattle.std.specs.Prelude.{vec_capacity};
ghost use Rattle.left_right.specs.Sides.{view};
ghost use Rattle.view_store.specs.Listings.{nothing};
ghost use Rattle.view_store.specs.Stores.{name_of};
ghost use Rattle.view_store.specs.Views.{known, pending, published, reader_shelf, shelf_of};

use super::{ViewReader, ViewWriter};
use crate::front::Front;
use crate::rule::{Publishes, Shares, StoreWriter};
use crate::store::Store;
use la_base::NoMemory;
use left_right::writer::Writer;
use std::alloc::Global;
use std::sync::Wait;
use std::thread;

fn blank(alloc: Global, front: &Front) -> Store
    ensures { (result.blocks.items ≡ []) × (result.front.seen ≡ front.now.seen) }
{
    Store {
        blocks: Vec::new(alloc),
        front: front.again(),
    }
}

impl ViewWriter {
    // Room for so many readers, and nothing added or published.
    fn open<R: Wait>(rt: &R, alloc: Global, readers: u32) -> Result<ViewWriter, NoMemory>
        requires { (1 ≤ readers) × (readers ≤ 16) }
        ensures published { IfOk result (λ writer. published writer ≡ nothing) }
        ensures pending { IfOk result (λ writer. pending writer ≡ nothing) }
    {
        let (front, head) = Front::open();
        let first = blank(alloc, &front);
        let second = blank(alloc, &front);
        let writer: StoreWriter = Writer::new(alloc, first, second, readers as usize)?;
        // The writer comes to know the name of the history.
        match writer.publish_as::<Publishes, R>(rt) {
            (writer, Ok(())) => Ok(ViewWriter {
                alloc,
                writer,
                head,
                front,
                held: None,
                notes: Vec::new(alloc),
            }),
            (writer, Err(_)) => {
                drop(writer.take(rt));
                Err(NoMemory)
            }
        }
    }

    // One more reader of its shelf, which knows what is published.
    fn reader<R: Wait>(&mut self, rt: &R, alloc: Global) -> ViewReader
        ensures shelf { shelf_of self.new ≡ shelf_of self.old }
        ensures published { published self.new ≡ published self.old }
        ensures pending { pending self.new ≡ pending self.old }
        ensures own { reader_shelf result ≡ shelf_of self.old }
        ensures known { known result ≡ published self.old }
    {
        for _ in rt.forever() {
            if let Ok(mut reader) = self.writer.factory().reader() {
                reader.learn::<Shares>(self.writer.tell::<Shares>());
                let told = self.tell();
                return ViewReader {
                    alloc,
                    reader,
                    front: told.into_front(),
                };
            }
            thread::yield_now();
        }
        unreachable!()
    }
}

/// A shelf: its writer, and so many readers, which know nothing yet. It may wait for a reader's
/// place.
pub fn shelf<R: Wait>(
    rt: &R,
    alloc: Global,
    readers: u32,
) -> Result<(ViewWriter, Vec<ViewReader>), NoMemory>
    requires { (1 ≤ readers) × (readers ≤ 16) }
    ensures published { IfOk result (λ shelf. published shelf.0 ≡ nothing) }
    ensures pending { IfOk result (λ shelf. pending shelf.0 ≡ nothing) }
    ensures count { IfOk result (λ shelf. vec_len shelf.1 ≡ readers) }
    ensures own { IfOk result (λ shelf.
        All (λ reader. reader_shelf reader ≡ shelf_of shelf.0) shelf.1.items) }
    ensures known { IfOk result (λ shelf. All (λ reader. known reader ≡ nothing) shelf.1.items) }
{
    let mut made = Vec::with_capacity(alloc, readers as usize)?;
    let mut writer = ViewWriter::open(rt, alloc, readers)?;
    for _ in 0..readers {
        made.push_reserved(writer.reader(rt, alloc));
    }
    Ok((writer, made))
}
