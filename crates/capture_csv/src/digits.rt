// Lines of which each field is one digit, 0 or 1: all of them between quotes, or none.
ghost use Rattle.std.specs.Prelude.{◌≡◌, ◌+◌, ◌<◌, ◌^◌, Bool, length, true, false};
ghost use Rattle.capture_csv.specs.Digits.{DigitsIn, QuotedDigit, QuotedIn, digit_of, digits_of};

// Whether a byte is a digit that says a level.
#[inline(always)]
fn is_digit(byte: u8) -> bool
    ensures level { result ≡ true → (level : Bool) × (byte ≡ digit_of level) }
    ensures other { result ≡ false → (level : Bool) → byte ≡ digit_of level → ⊥ }
{
    byte == b'0' || byte == b'1'
}

/// Whether a line is so many digits, 0 or 1, with a comma between two.
#[inline(always)]
pub fn are_digits(text: &[u8], count: usize) -> bool
    requires few { count < 2 ^ 32 }
    ensures digits { result ≡ true → DigitsIn text.now count }
    ensures other { result ≡ false → DigitsIn text.now count → ⊥ }
{
    if count == 0 || text.len() + 1 != 2 * count || !is_digit(text[0]) {
        return false;
    }
    for k in 1..count {
        if text[2 * k - 1] != b',' || !is_digit(text[2 * k]) {
            return false;
        }
    }
    true
}

/// The levels of such a line.
#[inline(always)]
pub fn put_digits(text: &[u8], levels: &mut [bool])
    requires few { length levels.old < 2 ^ 32 }
    requires digits { DigitsIn text.now (length levels.old) }
    ensures len { length levels.new ≡ length levels.old }
    ensures digits { text.now ≡ digits_of false levels.new }
{
    for k in 0..levels.len() {
        levels[k] = text[2 * k] == b'1';
    }
}

// Whether a digit between quotes stands at this place.
#[inline(always)]
fn is_quoted_digit(text: &[u8], at: usize) -> bool
    requires { at + 2 < length text.now }
    ensures digit { result ≡ true → QuotedDigit text.now at }
    ensures other { result ≡ false → QuotedDigit text.now at → ⊥ }
{
    text[at] == b'"' && is_digit(text[at + 1]) && text[at + 2] == b'"'
}

/// Whether a line is so many digits, each between quotes, with a comma between two.
#[inline(always)]
pub fn are_quoted(text: &[u8], count: usize) -> bool
    requires few { count < 2 ^ 32 }
    ensures digits { result ≡ true → QuotedIn text.now count }
    ensures other { result ≡ false → QuotedIn text.now count → ⊥ }
{
    if count == 0 || text.len() + 1 != 4 * count || !is_quoted_digit(text, 0) {
        return false;
    }
    for k in 1..count {
        if text[4 * k - 1] != b',' || !is_quoted_digit(text, 4 * k) {
            return false;
        }
    }
    true
}

/// The levels of such a line.
#[inline(always)]
pub fn put_quoted(text: &[u8], levels: &mut [bool])
    requires few { length levels.old < 2 ^ 32 }
    requires digits { QuotedIn text.now (length levels.old) }
    ensures len { length levels.new ≡ length levels.old }
    ensures digits { text.now ≡ digits_of true levels.new }
{
    for k in 0..levels.len() {
        levels[k] = text[4 * k + 1] == b'1';
    }
}
