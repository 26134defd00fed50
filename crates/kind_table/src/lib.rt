//! The table of kinds of decoders: names, wires, options and their values, classes of binary data.
#![tactic(auto)]

mod kinds;
mod laws;
mod table;
mod values;

pub use kinds::{Asked, Kind, OptForm, OptRow};
pub use laws::{kinds_are_whole, values_in_range_fit};
pub use table::{
    KINDS, asked_of, class_of, classes_of, groups_of, input_of, kind_name, kind_of, options_of,
    output_of, place_of, word_place,
};
pub use values::{MOST_OPTIONS, OptValues, in_range, number_of};
