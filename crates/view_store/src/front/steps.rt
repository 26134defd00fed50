// What is done with a beginning of a history.
ghost use Rattle.std.specs.Prelude.{◌≡◌, [], ◌∷◌, ◌++◌, true, false, IfSome, ◌≤◌, length};
ghost use Rattle.view_store.specs.Listings.{IsFront, ended_of, is_end};
ghost use Rattle.view_store.specs.Histories.{head_of};

use super::Front;
use crate::added::Added;
use crate::history::{Add, Beginning, Head, Law, Nothing};
use logbook::{Offer, Seen, Start, Word};

// Whether this is the end.
fn is_end(added: &Added) -> bool
    ensures { result ≡ is_end added.now }
{
    matches!(added, Added::End)
}

impl Front {
    /// A history to which nothing is added yet.
    pub fn open() -> (Front, Head)
        ensures empty { result.0.seen.log ≡ [] }
        ensures head { result.1 ≡ head_of result.0.seen.book }
    {
        let (seen, mut first, _second) = Seen::open(Start::alone(), 0, 0);
        let head = Word::tracked(0, &mut first);
        let front = Front {
            count: 0,
            ended: false,
            seen,
        };
        (front, head)
    }

    /// A copy.
    pub fn again(&self) -> Front
        ensures { result.seen ≡ self.now.seen }
    {
        Front {
            count: self.count,
            ended: self.ended,
            seen: self.seen.again(),
        }
    }

    /// Adds to the history behind this beginning. It fails only where the history is longer, or too
    /// long.
    pub fn longer_by(&self, head: &Head, added: Added) -> Option<Front>
        requires head { head.now ≡ head_of self.now.seen.book }
        requires going { ended_of self.now.seen.log ≡ false }
        ensures log { IfSome result (λ front. front.seen.log ≡ self.now.seen.log ++ added ∷ []) }
        ensures book { IfSome result (λ front. front.seen.book ≡ self.now.seen.book) }
    {
        if self.count == u64::MAX {
            return None;
        }
        let ended = is_end(&added);
        let mut seen = self.seen.again();
        let mut offer: Offer<Added, u64, Law, Nothing> = seen.plain::<Nothing, Added, Add>(&added);
        let mut pen = seen.no_pen();
        let found = head.compare_exchange::<Add, Nothing>(
            self.count,
            self.count + 1,
            &mut seen,
            &mut offer,
            &mut pen,
        );
        if found == self.count {
            Some(Front {
                count: self.count + 1,
                ended,
                seen,
            })
        } else {
            None
        }
    }

    /// This one goes on from another beginning of the same history that isn't longer.
    pub fn goes_on_from(&self, other: &Front)
        requires book { other.now.seen.book ≡ self.now.seen.book }
        requires shorter { other.now.count ≤ self.now.count }
        ensures { IsFront other.now.seen.log self.now.seen.log }
    {
        let mut both: Beginning = self.seen.again();
        both.learn(&other.seen);
    }
}
