// The rule that the store and what its threads know keep.
use crate::store::{Change, Store};
use atomic_table::{Join, Split};
use crossbeam_utils::rule::{Outcome, Protocol};
use left_right::reader::Reader;
use left_right::writer::Writer;

/// Which history a store has. No value of it is made.
pub struct Name {
    pub number: u64,
    pub log_name: u64,
    pub cells_name: u64,
}

/// A thread knows the name of the store's history, or nothing. The history says just what the store
/// has.
pub struct Named;

impl Protocol<Store, Option<Name>> for Named {
    ghost use Rattle.std.specs.Prelude.{None};
    ghost use Rattle.view_store.specs.Stores.{IsNamed};

    ghost holds = { IsNamed };

    ghost first = { None };
}

/// A step after which a writer knows the name.
pub struct Publishes;

impl Outcome<Store, Option<Name>> for Publishes {
    ghost use Rattle.std.specs.Prelude.{◌≡◌, Some};
    ghost use Rattle.view_store.specs.Stores.{name_of};

    ghost then = { λ before old new after. after ≡ Some (name_of new.front.seen.book) };
}

/// A step that looks at the store.
pub struct Looks;

impl Outcome<Store, Option<Name>> for Looks {
    ghost use Rattle.view_store.specs.Stores.{Looked};

    ghost then = { λ before old new after. Looked before old after };
}

/// A part of what a thread knows, for another.
pub struct Shares;

impl Split<Option<Name>> for Shares {
    ghost left = { λ view. view };

    ghost right = { λ view. view };
}

impl Join<Option<Name>> for Shares {
    ghost use Rattle.std.specs.Prelude.{None};

    ghost both = { λ view other. other };

    ghost spent = { None };
}

pub type StoreReader = Reader<Store, Option<Name>, Named>;

pub type StoreWriter = Writer<Store, Change, Option<Name>, Named>;
