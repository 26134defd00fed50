// Decimal numbers in a range.
ghost use Rattle.std.specs.Prelude.{◌≡◌, ◌≤◌, IfOk};
ghost use Rattle.text_parts.specs.Numbers.{is_number, number_in};

// The most digits that a number may have: each such number fits 64 bits.
const MOST_DIGITS: usize = 19;

/// Why a text is no number in a range.
#[derive(Clone, Copy, PartialEq, Eq)]
pub enum NumberWhy {
    /// It isn't decimal digits alone.
    Value,
    /// The number is outside the range, or has more than 19 digits.
    Range,
}

// Whether a text is decimal digits alone, at least one.
fn is_number(text: &[u8]) -> bool
    ensures { result ≡ is_number text.now }
{
    if text.is_empty() {
        return false;
    }
    for byte in text {
        if !byte.is_ascii_digit() {
            return false;
        }
    }
    true
}

/// The number that a text writes in decimal digits, from `least` to `most`. Zeros may lead it.
pub fn number_in(text: &str, least: u64, most: u64) -> Result<u64, NumberWhy>
    ensures gives { result ≡ number_in least most text.now }
    ensures within { IfOk result (λ number. (least ≤ number) × (number ≤ most)) }
{
    if !is_number(text.as_bytes()) {
        return Err(NumberWhy::Value);
    }
    if text.len() > MOST_DIGITS {
        return Err(NumberWhy::Range);
    }
    let Ok(number) = text.parse::<u64>() else {
        return Err(NumberWhy::Range);
    };
    if number < least || most < number {
        return Err(NumberWhy::Range);
    }
    Ok(number)
}
