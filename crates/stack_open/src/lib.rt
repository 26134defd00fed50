//! What stands before a decoding: the capture is opened under the stack that the words ask for, and a
//! decoder is made for each instance.
#![tactic(auto)]

mod opening;

pub use opening::{Opened, open_stack};
