// Samples of times.
ghost use Rattle.std.specs.Prelude.{◌≡◌, ◌≤◌, ◌^◌};
ghost use Rattle.rate_math.specs.Counts.{samples_of_ns};

use la_base::Rate;

/// How many samples `ns` nanoseconds have: ns * num / (den * 10^9), rounded up.
pub fn samples_of_ns(rate: Rate, ns: u64) -> u64
    requires rate { rate.num ≤ 10 ^ 15 }
    requires ns { ns ≤ 10 ^ 9 }
    ensures { result ≡ samples_of_ns rate.num rate.den ns }
{
    let parts = ns as u128 * rate.num as u128;
    let each = rate.den as u128 * 1_000_000_000;
    parts.div_ceil(each) as u64
}
