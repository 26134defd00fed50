//! Whole lists, cut: what neighbours give, parts between marks, groups of a size, and the last
//! place at which something holds. Each is a short definition over the whole list, a law for one
//! more element, and a plain program that computes it on small lists and that faster ones are
//! compared with. Beside them stand definitions with laws alone: what items give with all those
//! before them, the numbers that bits make up, and first and last places.
#![tactic(auto)]

mod groups;
mod last;
mod laws;
mod neighbours;
mod parts;
mod test;

pub use groups::{after_groups_of, groups_of};
pub use last::{last_that, last_where};
pub use laws::{
    along_laws, between_laws, bit_laws, group_laws, last_laws, neighbour_laws, part_laws,
    place_laws,
};
pub use neighbours::{Gives, Rises, events_of};
pub use parts::{Part, parts_between, parts_of};
pub use test::Test;
