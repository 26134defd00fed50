//! CSV captures: what their bytes give, and their reader.
//!
//! `specs/Records.antt` says which lines are records and which fields they have, `specs/Times.antt`
//! what time a field tells, and `specs/Csv.antt` what a file gives: a head, the settled samples and
//! an ending. `specs/Fields.antt` takes the fields of a line from the definition of `csv`; by
//! `specs/Plain.antt` they are read without it where each is plain or one quoted text, and
//! `specs/Reader.antt` says what the answers of the reader mean.
#![tactic(auto)]

mod body;
mod digits;
mod fields;
mod laws;
mod opening;
mod phase;
mod reader;
mod simple;
mod spaces;
mod span;
mod steps;
mod times;
mod values;

pub use laws::{
    given_is_front, longer_goes_on, pins_leave_the_ending, pins_leave_the_head, plain_is_split,
    simple_is_read, worked_lines_hold, worked_rows_hold, worked_times_hold,
};
pub use reader::CsvReader;
