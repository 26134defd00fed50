// What is drawn from a seed.
ghost use Rattle.std.specs.Prelude.{◌≡◌, ◌≤◌, ◌<◌, ◌^◌};
ghost use Rattle.capture_make.specs.Made.{draw, drawn, next_number};
ghost use Rattle.capture_make.specs.Behind.{number_behind, sent_behind};

/// What a transaction sends: two data bytes to an address, and a byte over the serial line beside
/// it.
#[derive(Clone, Copy, PartialEq, Eq)]
pub struct Sent {
    /// The address of seven bits.
    pub address: u64,
    /// The first data byte.
    pub first: u64,
    /// The second data byte.
    pub second: u64,
    /// The byte that the serial line says.
    pub serial: u64,
}

// The number behind this one: that of the example of `rand` in ISO C, modulo 2^31.
#[inline(always)]
fn next_number(number: u64) -> u64
    requires { number < 2 ^ 31 }
    ensures next { result ≡ next_number number }
    ensures small { result < 2 ^ 31 }
{
    (number * 1_103_515_245 + 12_345) % (1 << 31)
}

// The bits 16 to 23 of a number.
#[inline(always)]
fn drawn(number: u64) -> u64
    ensures drawn { result ≡ drawn number }
    ensures byte { result < 256 }
{
    number / 65_536 % 256
}

/// Number `n` of those that a seed draws, counted from 1.
pub fn draw(seed: u64, n: u64) -> u8
    requires seed { seed < 2 ^ 31 }
    requires some { 1 ≤ n }
    requires few { n ≤ 4000000 }
    ensures { result ≡ draw seed n }
{
    let mut number = seed;
    for _ in 0..n {
        number = next_number(number);
    }
    drawn(number) as u8
}

/// What the transaction behind a number sends, and the number behind it.
pub fn sent_behind(number: u64) -> (Sent, u64)
    requires { number < 2 ^ 31 }
    ensures sent { result.0 ≡ sent_behind number }
    ensures next { result.1 ≡ number_behind number }
    ensures small { result.1 < 2 ^ 31 }
    ensures address { result.0.address < 128 }
{
    let address = next_number(number);
    let first = next_number(address);
    let second = next_number(first);
    let serial = next_number(second);
    let sent = Sent {
        address: 8 + drawn(address) % 112,
        first: drawn(first),
        second: drawn(second),
        serial: drawn(serial),
    };
    (sent, serial)
}
