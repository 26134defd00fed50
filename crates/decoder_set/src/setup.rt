// How a decoder is set up.
use kind_table::{Kind, OptValues};
use la_base::Rate;

/// Kind, options and rate of a decoder.
#[derive(Clone, Copy, PartialEq, Eq)]
pub struct Setup {
    pub kind: Kind,
    pub values: OptValues,
    pub rate: Rate,
}
