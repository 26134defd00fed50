// Time scales.
ghost use Rattle.std.specs.Prelude.{◌≤◌};

use rate_math::TimeUnit;

/// A time scale: so many of a unit.
#[derive(Clone, Copy, PartialEq, Eq)]
pub struct Scale {
    pub count: u64,
    pub unit: TimeUnit,
    ghost count_fits: { (1 ≤ count) × (count ≤ 100) },
}
