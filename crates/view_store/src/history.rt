// The history of a listing: what was added to it so far, of which any thread may have seen a
// beginning.
use crate::added::Added;
use logbook::{Gain, Plain, Play, Rule, Seen, Word};

/// The rule of the history.
pub struct Law;

impl Rule<Added, u64> for Law {
    ghost use Rattle.std.specs.Prelude.{[]};
    ghost use base.Fml.{ftrue};
    ghost use Rattle.view_store.specs.Histories.{IsKept};

    ghost holds = { λ cells log. IsKept cells log };

    ghost first = { [] };

    ghost hinted = { λ n log. Unit {0} };

    ghost shows = { λ log. [] };

    ghost keeps = { λ names log. ftrue };

    ghost moves = { λ ask before after answer. Unit {0} };
}

/// A beginning of a history that was seen. It takes no bytes.
pub type Beginning = Seen<Added, u64, Law>;

/// The length of a history. Who has it alone can add to the history.
pub type Head = Word<Added, u64, Law>;

/// Callers trade nothing.
pub struct Nothing;

impl Gain<Added, u64> for Nothing {
    ghost use base.Fml.{ftrue};

    ghost after = { λ names about answer. ftrue };
}

/// A step that adds.
pub struct Add;

impl Play<Added, u64> for Add {
    ghost use Rattle.view_store.specs.Histories.{Adds};

    ghost then = { Adds };
}

impl Plain<Added, Added, u64> for Add {
    ghost use Rattle.std.specs.Prelude.{None};

    ghost ask = { λ added. added };

    ghost state = { λ added. None };
}
