// The rate of a timescale.
ghost use Rattle.std.specs.Prelude.{◌≡◌, ◌≤◌};

use la_base::Rate;

/// A unit of time: a second, or 10^-3, 10^-6, 10^-9, 10^-12 or 10^-15 of it.
#[derive(Clone, Copy, PartialEq, Eq)]
pub enum TimeUnit {
    S,
    Ms,
    Us,
    Ns,
    Ps,
    Fs,
}

impl TimeUnit {
    ghost use Rattle.rate_math.specs.Scale.{in_second};

    // How many of it are a second.
    fn in_second(self) -> u64
        ensures count { result ≡ in_second self }
        ensures some { 1 ≤ result }
    {
        match self {
            TimeUnit::S => 1,
            TimeUnit::Ms => 1_000,
            TimeUnit::Us => 1_000_000,
            TimeUnit::Ns => 1_000_000_000,
            TimeUnit::Ps => 1_000_000_000_000,
            TimeUnit::Fs => 1_000_000_000_000_000,
        }
    }
}

ghost use Rattle.rate_math.specs.Scale.{IsScale};

/// The rate of samples each of which stands for `down` steps of `count` units. `None` comes exactly
/// where `count * down` isn't below 2^64.
pub fn timescale(count: u64, unit: TimeUnit, down: u64) -> Option<Rate>
    requires count { 1 ≤ count }
    requires down { 1 ≤ down }
    ensures { IsScale count unit down result }
{
    match count.checked_mul(down) {
        Some(den) => Some(Rate {
            num: unit.in_second(),
            den,
        }),
        None => None,
    }
}
