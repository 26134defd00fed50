// What a token says that belongs to nothing before it.
ghost use Rattle.std.specs.Prelude.{◌≡◌, ◌+◌, ◌*◌, ◌-◌, ◌^◌, ◌≤◌, ◌<◌, ◌&&◌, ◌||◌, ◌==◌, not};
ghost use Rattle.std.specs.Prelude.{length, min};
ghost use Rattle.std.specs.List.{list_all};
ghost use Rattle.la_base.specs.Naming.{number_after};
ghost use Rattle.text_parts.specs.Numbers.{is_number};
ghost use Rattle.capture_vcd.specs.Body.{first_is, is_digit};
ghost use Rattle.capture_vcd.specs.Begun.{Begins, IfNumber};

/// What a token says.
#[derive(Clone, Copy, PartialEq, Eq)]
pub enum Begun {
    /// A time below 2^60.
    Time(u64),
    /// A time of 2^60 or more.
    Large,
    /// A digit, and then the code that it is a value of.
    Scalar,
    /// Digits of a value, whose code is the next token.
    Vector,
    /// It is skipped with the next token.
    Skip,
    /// It begins a comment.
    Comment,
    /// It is passed over.
    Passed,
    /// It doesn't belong there.
    Wrong,
}

const LARGE: u64 = 1 << 60;

// Whether a byte is a digit of a value.
fn is_digit(byte: u8) -> bool
    ensures { result ≡ is_digit byte }
{
    byte == b'0' || byte == b'1' || byte == b'x' || byte == b'X' || byte == b'z' || byte == b'Z'
}

// Whether all bytes are digits of values.
fn all_digits(bytes: &[u8]) -> bool
    ensures { result ≡ list_all is_digit bytes.now }
{
    for byte in bytes {
        if !is_digit(*byte) {
            return false;
        }
    }
    true
}

// Every number of so many digits is below 2^60.
const SHORT: usize = 18;

// The number that a few decimal digits write; `None` where it isn't digits alone.
#[inline(always)]
fn short_number(text: &[u8]) -> Option<u64>
    requires some { 0 < length text.now }
    requires few { length text.now ≤ 18 }
    ensures { IfNumber text.now result }
{
    let mut number = 0;
    for byte in text {
        if !byte.is_ascii_digit() {
            return None;
        }
        number = 10 * number + u64::from(*byte - b'0');
    }
    Some(number)
}

// The same of any text, with 2^60 for every larger number.
#[inline(never)]
fn long_number(text: &[u8]) -> Option<u64>
    requires { 0 < length text.now }
    ensures { IfNumber text.now result }
{
    let mut number = 0;
    for byte in text {
        if !byte.is_ascii_digit() {
            return None;
        }
        let next = 10 * number + u64::from(*byte - b'0');
        number = next.min(LARGE);
    }
    Some(number)
}

// The number that decimal digits write, and 2^60 for every larger one; `None` where it isn't digits
// alone, at least one.
#[inline(always)]
pub fn number_of(text: &[u8]) -> Option<u64>
    ensures { IfNumber text.now result }
{
    if text.is_empty() {
        return None;
    }
    if text.len() <= SHORT {
        return short_number(text);
    }
    long_number(text)
}

// A digit and a code.
fn is_scalar(first: u8, rest: &[u8]) -> bool
    ensures { result ≡ (is_digit first && not (length rest.now == 0)) }
{
    is_digit(first) && !rest.is_empty()
}

// A value of digits, at least one.
fn is_vector(first: u8, rest: &[u8]) -> bool
    ensures { result
        ≡ (first_is first 98 66 && not (length rest.now == 0) && list_all is_digit rest.now) }
{
    (first == b'b' || first == b'B') && !rest.is_empty() && all_digits(rest)
}

// A value that isn't made of bits.
fn is_skipped(first: u8) -> bool
    ensures { result ≡ (first_is first 114 82 || first_is first 115 83) }
{
    first == b'r' || first == b'R' || first == b's' || first == b'S'
}

/// What a token says, by its first byte and its rest.
#[inline(always)]
pub fn begin(first: u8, rest: &[u8]) -> Begun
    ensures { Begins first rest.now result }
{
    if first == b'#' {
        return match number_of(rest) {
            None => Begun::Wrong,
            Some(number) if number < LARGE => Begun::Time(number),
            Some(_) => Begun::Large,
        };
    }
    if is_scalar(first, rest) {
        return Begun::Scalar;
    }
    if is_vector(first, rest) {
        return Begun::Vector;
    }
    if is_skipped(first) {
        return Begun::Skip;
    }
    if first != b'$' {
        return Begun::Wrong;
    }
    if b"comment".as_slice() == rest {
        Begun::Comment
    } else {
        Begun::Passed
    }
}
