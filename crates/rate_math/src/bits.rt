// Samples of bits.
ghost use Rattle.std.specs.Prelude.{◌≡◌, ◌≤◌, ◌^◌};
ghost use Rattle.rate_math.specs.Counts.{point, samples_of_bits};

use la_base::Rate;

/// Where `sp` hundredths of bit `i` lie, in whole samples behind the start of bit 0, at `baud` bits
/// a second: floor((100 * i + sp) * num / (100 * baud * den)).
pub fn point(rate: Rate, baud: u64, sp: u64, i: u64) -> u64
    requires rate { rate.num ≤ 10 ^ 15 }
    requires baud { (1 ≤ baud) × (baud ≤ 10 ^ 7) }
    requires sp { (1 ≤ sp) × (sp ≤ 99) }
    requires bit { i ≤ 15 }
    ensures { result ≡ point rate.num rate.den baud sp i }
{
    (100 * i + sp) * rate.num / (100 * baud) / rate.den
}

/// How many whole samples `count` bits have, at `baud` bits a second: floor(count * num / (baud *
/// den)).
pub fn samples_of_bits(rate: Rate, baud: u64, count: u64) -> u64
    requires rate { rate.num ≤ 10 ^ 15 }
    requires baud { (1 ≤ baud) × (baud ≤ 10 ^ 7) }
    requires count { count ≤ 16 }
    ensures { result ≡ samples_of_bits rate.num rate.den baud count }
{
    count * rate.num / baud / rate.den
}
