// Bytes that part tokens.
ghost use Rattle.std.specs.Prelude.{◌≡◌, ◌<◌, ◌≤◌, length, slice_index, true, false};
ghost use Rattle.byte_feed.specs.Tokens.{is_blank};
ghost use Rattle.byte_feed.specs.Blanks.{AllBlank, AllPlain};

/// Whether a byte parts tokens: tab, line feed, vertical tab, form feed, carriage return and space
/// do.
#[inline(always)]
pub fn is_blank(byte: u8) -> bool
    ensures { result ≡ is_blank byte }
{
    byte == 32 || (9 <= byte && byte <= 13)
}

/// How many bytes at the front are blanks.
#[inline(always)]
pub fn blanks_at(bytes: &[u8]) -> usize
    ensures within { result ≤ length bytes.now }
    ensures blank { AllBlank bytes.now result }
    ensures behind { result < length bytes.now → is_blank (slice_index bytes.now result) ≡ false }
{
    let mut count = 0;
    while count < bytes.len() && is_blank(bytes[count]) {
        count += 1;
    }
    count
}

/// How many bytes at the front are no blanks, where `known` of them are known not to be.
#[inline(always)]
pub fn plain_at(bytes: &[u8], known: usize) -> usize
    requires within { known ≤ length bytes.now }
    requires plain { AllPlain bytes.now known }
    ensures within { result ≤ length bytes.now }
    ensures more { known ≤ result }
    ensures plain { AllPlain bytes.now result }
    ensures behind { result < length bytes.now → is_blank (slice_index bytes.now result) ≡ true }
{
    let mut count = known;
    while count < bytes.len() && !is_blank(bytes[count]) {
        count += 1;
    }
    count
}
