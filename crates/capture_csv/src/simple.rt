// Lines whose fields are each plain or one quoted text.
ghost use Rattle.std.specs.Prelude.{◌≡◌, ◌≤◌, ◌<◌, List, ℕ, Bool, length, slice_index, true, false};
ghost use Rattle.std.specs.List.{count_by};
ghost use Rattle.capture_csv.specs.Plain.{IsPlain, IsPlainByte, IsSimple, Written, written};
ghost use Rattle.capture_csv.specs.Simple.{AllBefore, BeginsSimply, CountIs, EndsAt, FirstLen};
ghost use Rattle.capture_csv.specs.Simple.{IsField, IsQuoted, LenIs};
ghost use Rattle.capture_csv.specs.Values.{is_comma};

// How many commas a line has.
#[inline(always)]
fn commas_in(text: &[u8]) -> usize
    ensures commas { result ≡ count_by is_comma text.now }
    ensures few { result ≤ length text.now }
{
    let mut count = 0;
    for byte in text {
        if *byte == b',' {
            count += 1;
        }
    }
    count
}

// Whether a byte is no quote, and none that ends a line.
#[inline(always)]
fn is_plain_byte(byte: u8) -> bool
    ensures plain { result ≡ true → IsPlainByte byte }
    ensures other { result ≡ false → IsPlainByte byte → ⊥ }
{
    byte > b'"' || (byte != b'"' && byte != b'\n' && byte != b'\r')
}

// Whether a text has no quote, and no end of a line.
#[inline(always)]
fn is_plain(text: &[u8]) -> bool
    ensures plain { result ≡ true → IsPlain text.now }
    ensures other { result ≡ false → IsPlain text.now → ⊥ }
{
    for byte in text {
        if !is_plain_byte(*byte) {
            return false;
        }
    }
    true
}

// Where this byte first stands, or the end.
#[inline(always)]
fn byte_at(text: &[u8], byte: u8) -> usize
    ensures within { result ≤ length text.now }
    ensures before { AllBefore byte text.now result }
    ensures here { result < length text.now → slice_index text.now result ≡ byte }
{
    let mut count = 0;
    while count < text.len() && text[count] != byte {
        count += 1;
    }
    count
}

// Whether a quote stands first.
#[inline(always)]
fn is_quoted(text: &[u8]) -> bool
    ensures { IsQuoted text.now result }
{
    !text.is_empty() && text[0] == b'"'
}

/// How many bytes the first field takes, with its quotes, where it is plain or one quoted text.
#[inline(always)]
pub fn first_len(text: &[u8]) -> usize
    requires { BeginsSimply text.now }
    ensures within { result ≤ length text.now }
    ensures first { FirstLen text.now result }
{
    if !is_quoted(text) {
        return byte_at(text, b',');
    }
    byte_at(&text[1..], b'"') + 2
}

// Whether a field ends before this place: a comma stands here, or nothing does.
#[inline(always)]
fn ends_at(text: &[u8], at: usize) -> bool
    requires { at ≤ length text.now }
    ensures { EndsAt text.now at result }
{
    at == text.len() || text[at] == b','
}

// How many bytes the first field of any line takes: `None` where it is neither plain nor one quoted
// text.
#[inline(always)]
fn simple_len(text: &[u8]) -> Option<usize>
    ensures { LenIs text.now result }
{
    if !is_quoted(text) {
        let len = byte_at(text, b',');
        if !is_plain(&text[..len]) {
            return None;
        }
        return Some(len);
    }
    let len = byte_at(&text[1..], b'"') + 2;
    if text.len() < len {
        return None;
    }
    if !ends_at(text, len) {
        return None;
    }
    Some(len)
}

/// The text of such a field, without the quotes round it.
#[inline(always)]
pub fn text_in(field: &[u8]) -> &[u8]
    requires { IsField field.now }
    ensures { (w : Written) → IsSimple w → field.now ≡ written w → result.now ≡ w.text }
{
    if !is_quoted(field) {
        return field;
    }
    &field[1..field.len() - 1]
}

// How many fields a line has each of which is plain or one quoted text; `None` where one is
// neither.
#[inline(never)]
fn count_each(text: &[u8]) -> Option<usize>
    requires { 0 < length text.now }
    ensures { CountIs text.now result }
{
    let mut from = 0;
    let mut count = 1;
    'fields: loop {
        let rest = &text[from..];
        let len = match simple_len(rest) {
            Some(len) => len,
            None => return None,
        };
        if len == rest.len() {
            return Some(count);
        }
        from += len + 1;
        count += 1;
    }
}

/// The same. Most lines have no quote, and have one field more than commas.
#[inline(always)]
pub fn field_count(text: &[u8]) -> Option<usize>
    requires { 0 < length text.now }
    ensures { CountIs text.now result }
{
    if is_plain(text) {
        return Some(commas_in(text) + 1);
    }
    count_each(text)
}
