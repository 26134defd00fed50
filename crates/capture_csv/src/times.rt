// The times of records, in picoseconds.
ghost use Rattle.std.specs.Prelude.{◌≡◌, ◌-◌, ◌*◌, ◌<◌, ◌≤◌, ◌^◌, length, slice_index, IfSome};
ghost use Rattle.std.specs.Prelude.{true};
ghost use Rattle.std.specs.Char.{is_ascii_digit};
ghost use Rattle.std.specs.List.{prefix_len};
ghost use Rattle.std.specs.Str.{all_ascii_digits};
ghost use Rattle.la_base.specs.Naming.{number_after};
ghost use Rattle.capture_csv.specs.Times.{amount_of, part_of, picos_of, sample_at, time_in, twelve};

use la_base::Rate;

/// The time 0: times are counted from 10^10 seconds before it, so that none is negative.
pub const ZERO_TIME: u128 = 10_000_000_000_000_000_000_000;

const PICOS: u128 = 1_000_000_000_000;

// The most digits of whole seconds, and how many decimals count.
const MOST_DIGITS: usize = 10;

const DECIMALS: usize = 12;

// How many bytes at the front are decimal digits.
fn digits_at(text: &[u8]) -> usize
    ensures digits { result ≡ prefix_len is_ascii_digit text.now }
    ensures within { result ≤ length text.now }
{
    let mut count = 0;
    while count < text.len() && text[count].is_ascii_digit() {
        count += 1;
    }
    count
}

// The number that a few digits write.
fn number_of(digits: &[u8]) -> u64
    requires few { length digits.now ≤ 10 }
    requires all { all_ascii_digits digits.now ≡ true }
    ensures number { result ≡ number_after 0 digits.now }
    ensures small { result < 10 ^ 10 }
{
    let mut number = 0;
    for digit in digits {
        number = 10 * number + u64::from(*digit - b'0');
    }
    number
}

// Whether all bytes are decimal digits.
fn all_digits(text: &[u8]) -> bool
    ensures { result ≡ all_ascii_digits text.now }
{
    for byte in text {
        if !byte.is_ascii_digit() {
            return false;
        }
    }
    true
}

// A decimal, and 0 behind the last of them.
fn decimal_at(decimals: &[u8], k: usize) -> u64
    requires all { all_ascii_digits decimals.now ≡ true }
    requires few { k < 12 }
    ensures decimal { result ≡ slice_index (twelve decimals.now) k - 48 }
    ensures small { result ≤ 9 }
{
    if k < decimals.len() {
        u64::from(decimals[k] - b'0')
    } else {
        0
    }
}

// The picoseconds of decimals: the first twelve count.
fn picos_of(decimals: &[u8]) -> u64
    requires { all_ascii_digits decimals.now ≡ true }
    ensures picos { result ≡ picos_of decimals.now }
    ensures small { result < 10 ^ 12 }
{
    let mut number = 0;
    for k in 0..DECIMALS {
        number = 10 * number + decimal_at(decimals, k);
    }
    number
}

// What stands behind whole seconds: nothing, or a point and decimals.
fn part_of(rest: &[u8]) -> Option<u64>
    ensures part { result ≡ part_of rest.now }
    ensures small { IfSome result (λ picos. picos < 10 ^ 12) }
{
    if rest.is_empty() {
        return Some(0);
    }
    let decimals = &rest[1..];
    if rest[0] != b'.' || decimals.is_empty() || !all_digits(decimals) {
        return None;
    }
    Some(picos_of(decimals))
}

// 1 to 10 digits, and perhaps a point and decimals.
fn amount_of(text: &[u8]) -> Option<u128>
    ensures amount { result ≡ amount_of text.now }
    ensures small { IfSome result (λ amount. amount < 10 ^ 22) }
{
    let digits = digits_at(text);
    if digits < 1 || MOST_DIGITS < digits {
        return None;
    }
    let seconds = number_of(&text[..digits]);
    let picos = part_of(&text[digits..])?;
    Some(u128::from(seconds) * PICOS + u128::from(picos))
}

/// The time that a field tells: a sign may stand before it.
pub fn time_of(field: &[u8]) -> Option<u128>
    ensures time { result ≡ time_in field.now }
    ensures small { IfSome result (λ time. time < 2 * 10 ^ 22) }
{
    if field.is_empty() {
        return None;
    }
    match field[0] {
        b'-' => Some(ZERO_TIME - amount_of(&field[1..])?),
        b'+' => Some(ZERO_TIME + amount_of(&field[1..])?),
        _ => Some(ZERO_TIME + amount_of(field)?),
    }
}

/// The sample of a time, from the first time on.
pub fn sample_at(rate: Rate, start: u128, time: u128) -> u128
    requires few { rate.num ≤ 10 ^ 15 }
    requires order { start ≤ time }
    requires small { time < 2 * 10 ^ 22 }
    ensures { result ≡ sample_at rate.num rate.den start time }
{
    (time - start) * u128::from(rate.num) / (PICOS * u128::from(rate.den))
}
