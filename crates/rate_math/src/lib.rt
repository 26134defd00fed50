//! Counts of samples from rates and times, exact: at which sample a part of a bit is, how many
//! samples some bits or a time have, and the rate of a timescale. No sum or product loses a digit.
#![tactic(auto)]

mod bits;
mod laws;
mod scale;
mod times;

pub use bits::{point, samples_of_bits};
pub use laws::point_laws;
pub use scale::{TimeUnit, timescale};
pub use times::samples_of_ns;
