// The numbers that levels make up.
ghost use Rattle.std.specs.Prelude.{◌≡◌, ◌≤◌, ◌*◌, ◌^◌, length};
ghost use Rattle.list_cuts.specs.Bits.{bit_of, low_first, high_first};

// What a level is worth at a place.
fn worth(level: bool, place: usize) -> u64
    requires { place ≤ 31 }
    ensures value { result ≡ bit_of level * 2 ^ place }
    ensures few { result ≤ 2 ^ 31 }
{
    if level { 1 << place } else { 0 }
}

/// The first level is the lowest bit.
#[tactic(auto, using(crate::proofs::LevelLaws::low_more, crate::proofs::LevelLaws::low_small))]
pub fn low_first(levels: &[bool]) -> u64
    requires { length levels.now ≤ 32 }
    ensures { result ≡ low_first levels.now }
{
    let mut number: u64 = 0;
    for (place, level) in levels.iter().enumerate() {
        number += worth(*level, place);
    }
    number
}

/// The first level is the highest bit.
#[tactic(auto, using(crate::proofs::LevelLaws::high_more, crate::proofs::LevelLaws::high_small))]
pub fn high_first(levels: &[bool]) -> u64
    requires { length levels.now ≤ 32 }
    ensures { result ≡ high_first levels.now }
{
    let mut number: u64 = 0;
    for level in levels {
        number = 2 * number + worth(*level, 0);
    }
    number
}
