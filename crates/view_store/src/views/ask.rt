// What a reader does.
ghost use Rattle.std.specs.Prelude.{◌≡◌, ◌⊎◌, IfOk, OnErr, IfSome, length};
ghost use Rattle.view_store.specs.Blocks.{notes_in};
ghost use Rattle.std.specs.List.{filter};
ghost use Rattle.view_store.specs.Listings.{GoesOn, IsFront, is_between, listing_of, notes_of};
ghost use Rattle.view_store.specs.Stores.{IsTied, content_of};
ghost use Rattle.view_store.specs.Views.{Answers, Asked, known, reader_shelf, told_listing};
ghost use Rattle.view_store.specs.Views.{told_shelf};

use super::{Answer, Told, ViewReader};
use crate::block::Block;
use crate::front::Front;
use crate::rule::Looks;
use crate::store::Store;
use crate::store::steps::{between, shared};
use core::mem::replace_with;
use la_base::NoMemory;
use std::alloc::Global;
use std::sync::Wait;
use std::thread;

// What was taken of a store for the notes of a range: the blocks in which there may be some, and its
// history.
#[derive(Drop)]
struct Taken {
    start: u64,
    end: u64,
    blocks: Vec<Block>,
    front: Front,
    ghost found: { filter (is_between start end) (notes_in blocks.items)
        ≡ filter (is_between start end) (notes_of front.seen.log) },
}

// What is taken of a store; none where it isn't as long as what is known.
fn look(
    store: &Store,
    known: &Front,
    alloc: Global,
    start: u64,
    end: u64,
) -> Option<Result<Taken, NoMemory>>
    requires tied { IsTied (content_of store.now) }
    requires book { known.now.seen.book ≡ store.now.front.seen.book }
    ensures { IfSome result (λ r. IfOk r (λ taken. (taken.front.seen ≡ store.now.front.seen)
        × IsFront known.now.seen.log store.now.front.seen.log
        × (taken.start ≡ start) × (taken.end ≡ end))) }
{
    if store.front.count < known.count {
        return None;
    }
    store.front.goes_on_from(known);
    match shared(alloc, &store.blocks, start, end) {
        Ok(blocks) => {
            let taken = Taken {
                start,
                end,
                blocks,
                front: store.front.again(),
            };
            Some(Ok(taken))
        }
        Err(NoMemory) => Some(Err(NoMemory)),
    }
}

// What is answered over what was taken.
fn answered(alloc: Global, taken: Taken) -> Result<(Answer, Front), NoMemory>
    ensures { IfOk result (λ t. (t.1.seen ≡ taken.front.seen)
        × Answers (listing_of taken.front.seen.log) taken.start taken.end t.0) }
{
    let notes = between(alloc, &taken.blocks, taken.start, taken.end)?;
    let seen = notes_added(&taken.front);
    let ended = taken.front.ended;
    Ok((Answer { notes, seen, ended }, taken.front))
}

// How many notes were added.
fn notes_added(front: &Front) -> u64
    ensures { result ≡ length (notes_of front.now.seen.log) }
{
    front.count - u64::from(front.ended)
}

impl ViewReader {
    /// Asks for the notes that start in a range, both ends counted. What is answered is over one
    /// listing of its shelf, which goes on from each that this reader saw or was told.
    ///
    /// It fails where there is no memory, and then changes nothing. Where the writer is gone, it
    /// may wait for ever.
    pub fn ask<R: Wait>(&mut self, rt: &R, start: u64, end: u64) -> Result<Answer, NoMemory>
        ensures shelf { reader_shelf self.new ≡ reader_shelf self.old }
        ensures later { GoesOn (known self.old) (known self.new) }
        ensures ok { IfOk result (Answers (known self.new) start end) }
        ensures err { OnErr result (known self.new ≡ known self.old) }
    {
        for _ in rt.forever() {
            if let Some(answer) = self.try_ask(start, end) {
                return answer;
            }
            thread::yield_now();
        }
        unreachable!()
    }

    // The same, once; none where there is no store, or one that isn't as long as what is known.
    fn try_ask(&mut self, start: u64, end: u64) -> Option<Result<Answer, NoMemory>>
        ensures shelf { reader_shelf self.new ≡ reader_shelf self.old }
        ensures asked { Asked self.old.front.seen.log self.new.front.seen.log start end result }
    {
        replace_with(self, (start, end), |reader, range| {
            reader.asked(range.0, range.1)
        })
    }

    fn asked(self, start: u64, end: u64) -> (ViewReader, Option<Result<Answer, NoMemory>>)
        ensures shelf { reader_shelf result.0 ≡ reader_shelf self }
        ensures asked { Asked self.front.seen.log result.0.front.seen.log start end result.1 }
    {
        let ViewReader {
            alloc,
            reader,
            front,
        } = self;
        match reader.enter_as::<Looks>() {
            Err(reader) => {
                let same = ViewReader {
                    alloc,
                    reader,
                    front,
                };
                (same, None)
            }
            Ok(reading) => {
                let found = look(reading.get(), &front, alloc, start, end);
                let reader = reading.leave();
                match found {
                    Some(Ok(taken)) => match answered(alloc, taken) {
                        Ok((answer, longer)) => {
                            let later = ViewReader {
                                alloc,
                                reader,
                                front: longer,
                            };
                            (later, Some(Ok(answer)))
                        }
                        Err(NoMemory) => {
                            let same = ViewReader {
                                alloc,
                                reader,
                                front,
                            };
                            (same, Some(Err(NoMemory)))
                        }
                    },
                    Some(Err(NoMemory)) => {
                        let same = ViewReader {
                            alloc,
                            reader,
                            front,
                        };
                        (same, Some(Err(NoMemory)))
                    }
                    None => {
                        let same = ViewReader {
                            alloc,
                            reader,
                            front,
                        };
                        (same, None)
                    }
                }
            }
        }
    }

    /// Takes in what the writer of its shelf told. From now on it sees no less.
    pub fn learn(&mut self, told: Told)
        requires { told_shelf told ≡ reader_shelf self.old }
        ensures shelf { reader_shelf self.new ≡ reader_shelf self.old }
        ensures later { GoesOn (known self.old) (known self.new) }
        ensures told { GoesOn (told_listing told) (known self.new) }
        ensures one { (known self.new ≡ known self.old) ⊎ (known self.new ≡ told_listing told) }
    {
        let Told { front } = told;
        if self.front.count < front.count {
            front.goes_on_from(&self.front);
            self.front = front;
        } else {
            self.front.goes_on_from(&front);
        }
    }
}
