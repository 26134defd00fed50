// A beginning of a history, with what is asked of it.
ghost use Rattle.std.specs.Prelude.{◌≡◌, true, length};
ghost use Rattle.view_store.specs.Listings.{ended_of, is_listing};

use crate::history::Beginning;

mod steps;

/// A beginning of the history of a listing, how long it is, and whether the listing is ended.
#[derive(Drop)]
pub struct Front {
    pub count: u64,
    pub ended: bool,
    pub seen: Beginning,
    pub ghost counted: { count ≡ length seen.log },
    pub ghost over: { ended ≡ ended_of seen.log },
    pub ghost legal: { is_listing seen.log ≡ true },
}
