// What items give, each with the one before it.
ghost use Rattle.std.specs.Prelude.{◌≡◌, ℕ, List, ◌++◌, Option, OnOk, IfOk};
ghost use Rattle.list_cuts.specs.Rising.{rising};
ghost use Rattle.list_cuts.specs.Neighbours.{at_neighbours};

use std::alloc::{AllocError, Global};

/// What an item gives, by its place, the item before it (none at place 0) and itself.
pub trait Gives<T, E> {
    ghost gives: { Self → ℕ → Option T → T → List E };

    /// Puts what the item gives behind `events`.
    fn add(
        &self,
        place: usize,
        before: Option<T>,
        now: T,
        events: &mut Vec<E>,
    ) -> Result<(), AllocError>
        ensures { OnOk result
            (events.new.items ≡ events.old.items ++ gives self.now place before now) };
}

/// What the items of a list give, in order.
pub fn events_of<T: Copy, E: Drop, G: Gives<T, E>>(
    alloc: Global,
    giver: &G,
    list: &[T],
) -> Result<Vec<E>, AllocError>
    ensures { IfOk result (λ events. events.items ≡ at_neighbours (G.gives giver.now) list.now) }
{
    let mut events = Vec::new(alloc);
    let mut before = None;
    for (place, now) in list.iter().enumerate() {
        giver.add(place, before, *now, &mut events)?;
        before = Some(*now);
    }
    Ok(events)
}

/// Gives the place of each number that is above the one before it.
#[derive(Clone, Copy)]
pub struct Rises;

impl Gives<u64, usize> for Rises {
    ghost gives = { λ s place before now. rising place before now };

    fn add(
        &self,
        place: usize,
        before: Option<u64>,
        now: u64,
        events: &mut Vec<usize>,
    ) -> Result<(), AllocError>
        ensures { OnOk result (events.new.items ≡ events.old.items ++ rising place before now) }
    {
        match before {
            Some(before) => {
                if before < now {
                    events.push(place)?;
                }
                Ok(())
            }
            None => Ok(()),
        }
    }
}
