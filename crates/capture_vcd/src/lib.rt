//! VCD captures, by clause 18 of IEEE 1364-2005: what a file gives, and its reader.
//!
//! `specs/Header.antt` says what a header declares, `specs/Body.antt` which times and changes a
//! body tells, and `specs/Vcd.antt` what a file gives: a head, the settled samples and an ending.
#![tactic(auto)]

mod bits;
mod body;
mod chains;
mod header;
mod keeping;
mod laws;
mod opening;
mod place;
mod reader;
mod scale;
mod section;
mod selecting;
mod slots;
mod tokens;

pub use laws::{
    faults_hold, given_is_front, longer_goes_on, pins_leave_the_ending, pins_leave_the_head,
    sparse_holds, stretch_is_run, worked_files_hold,
};
pub use reader::VcdReader;
