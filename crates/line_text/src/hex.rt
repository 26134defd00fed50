// Digits in base 16.
ghost use Rattle.std.specs.Prelude.{◌≡◌, ◌<◌, ◌≤◌, drop, true};
ghost use Rattle.std.specs.Fmt.{digits, digit_glyph};

/// The most digits that a number of 64 bits has in base 16.
pub const PLACES: usize = 16;

/// The digit of this value.
#[inline(always)]
pub(crate) fn digit(value: u8) -> u8
    requires { value < 16 }
    ensures { result ≡ digit_glyph true value }
{
    if value < 10 {
        b'0' + value
    } else {
        b'A' + (value - 10)
    }
}

/// Writes a number's digits so that they end with the last place, and answers where they start.
pub fn write_hex(number: u64, places: &mut [u8; PLACES]) -> usize
    ensures within { result ≤ 16 }
    ensures digits { drop result places.new ≡ digits 16 true number }
{
    let mut start = PLACES - 1;
    let mut rest = number;
    while rest >= 16 {
        places[start] = digit((rest % 16) as u8);
        rest /= 16;
        start -= 1;
    }
    places[start] = digit(rest as u8);
    start
}
