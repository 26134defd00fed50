// Counts that are worked by hand.
ghost use Rattle.std.specs.Prelude.{◌≤◌, ◌^◌};

use la_base::Rate;
use rate_math::{TimeUnit, point, point_laws, samples_of_bits, samples_of_ns, timescale};
use std::process::Abort;

// The highest rate that a capture may have, and the lowest that can be written.
const HIGHEST: Rate = Rate {
    num: 1_000_000_000_000_000,
    den: 1,
};

const LOWEST: Rate = Rate {
    num: 1,
    den: u64::MAX,
};

// Checks points and bits, each by its number.
fn check_bits(
    rt: &impl Abort,
    rate: Rate,
    baud: u64,
    sp: u64,
    points: &[(u64, u64)],
    bits: (u64, u64),
)
    requires rate { rate.num ≤ 10 ^ 15 }
    requires baud { (1 ≤ baud) × (baud ≤ 10 ^ 7) }
    requires sp { (1 ≤ sp) × (sp ≤ 99) }
{
    for (i, place) in points {
        assert!(rt; point(rate, baud, sp, (*i).min(15)) == *place, "point {i}");
    }
    assert!(rt; samples_of_bits(rate, baud, bits.0.min(16)) == bits.1);
}

// Checks numbers of nanoseconds.
fn check_times(rt: &impl Abort, rate: Rate, times: &[(u64, u64)])
    requires { rate.num ≤ 10 ^ 15 }
{
    for (ns, count) in times {
        let found = samples_of_ns(rate, (*ns).min(1_000_000_000));
        assert!(rt; found == *count, "{ns}");
    }
}

#[test]
fn points_times_and_scales(rt: HostRuntime) {
    // bits of three and of four samples
    let points = [
        (0, 1),
        (1, 5),
        (2, 8),
        (3, 11),
        (4, 15),
        (5, 18),
        (6, 21),
        (7, 25),
        (8, 28),
        (9, 31),
    ];
    let rate = Rate { num: 1000, den: 1 };
    check_bits(&rt, rate, 300, 50, &points, (10, 33));
    let last = [(0, 990_000_000_000_000), (15, 15_990_000_000_000_000)];
    check_bits(&rt, HIGHEST, 1, 99, &last, (16, 16_000_000_000_000_000));
    check_bits(&rt, LOWEST, 1, 99, &[(0, 0), (15, 0)], (16, 0));
    // 24,000,000 samples a second as a fraction
    let rate = Rate {
        num: 24_000_000_000_000,
        den: 1_000_000,
    };
    check_bits(&rt, rate, 115_200, 50, &[(0, 104), (9, 1979)], (10, 2083));
    // times are rounded up
    let megahertz = Rate {
        num: 1_000_000,
        den: 1,
    };
    let times = [(0, 0), (1, 1), (1000, 1), (1001, 2), (480_000, 480)];
    check_times(&rt, megahertz, &times);
    let times = [(3, 3_000_000), (1_000_000_000, 1_000_000_000_000_000)];
    check_times(&rt, HIGHEST, &times);
    check_times(&rt, LOWEST, &[(0, 0), (1, 1), (1_000_000_000, 1)]);
    point_laws();
}

#[test]
fn timescales(rt: HostRuntime) {
    for (count, unit, down, want) in [
        (1, TimeUnit::S, 1, Some((1, 1))),
        (10, TimeUnit::Ms, 1, Some((1_000, 10))),
        (1, TimeUnit::Us, 2, Some((1_000_000, 2))),
        (100, TimeUnit::Ns, 3, Some((1_000_000_000, 300))),
        (
            1,
            TimeUnit::Ps,
            u64::MAX,
            Some((1_000_000_000_000, u64::MAX)),
        ),
        (
            u64::MAX,
            TimeUnit::Fs,
            1,
            Some((1_000_000_000_000_000, u64::MAX)),
        ),
        (1 << 32, TimeUnit::S, 1 << 32, None),
        (u64::MAX, TimeUnit::Fs, 2, None),
    ] {
        let found = match timescale(count, unit, down) {
            Some(rate) => Some((rate.num, rate.den)),
            None => None,
        };
        assert!(rt; found == want, "{count} {down}");
    }
}
