//! The notes of a listing on a shelf: what looks on as they are listed adds each to the shelf, and
//! publishes many at once.
#![tactic(auto)]

mod shelf_watch;

pub use shelf_watch::ShelfWatch;
