// What stands round the text of a line and of its fields.
ghost use Rattle.std.specs.Prelude.{◌≡◌, ◌≤◌, length, take, drop};
ghost use Rattle.capture_csv.specs.Records.{is_passed, is_space, trim_back, trim_front, trimmed};
ghost use Rattle.capture_csv.specs.Records.{without_marks};

// The byte order mark.
const MARK: [u8; 3] = [239, 187, 191];

// Whether a byte is a space or a tab.
#[inline(always)]
fn is_space(byte: u8) -> bool
    ensures { result ≡ is_space byte }
{
    byte == b' ' || byte == b'\t'
}

/// A line without the byte order marks before it.
#[inline(always)]
pub fn without_marks(line: &[u8]) -> &[u8]
    ensures { result.now ≡ without_marks line.now }
{
    let mut at = 0;
    while line[at..].starts_with(&MARK) {
        at += 3;
    }
    &line[at..]
}

/// Whether a line is no record: it has only spaces and tabs, or begins with `;` or `#` behind them.
#[inline(always)]
pub fn is_passed(text: &[u8]) -> bool
    ensures { result ≡ is_passed text.now }
{
    for byte in text {
        if !is_space(*byte) {
            return *byte == b';' || *byte == b'#';
        }
    }
    true
}

// How many spaces and tabs stand at the front.
#[inline(always)]
fn spaces_at(field: &[u8]) -> usize
    ensures within { result ≤ length field.now }
    ensures behind { drop result field.now ≡ trim_front field.now }
{
    let mut count = 0;
    while count < field.len() && is_space(field[count]) {
        count += 1;
    }
    count
}

// How many bytes stand before the spaces and tabs at the end.
#[inline(always)]
fn text_len(field: &[u8]) -> usize
    ensures within { result ≤ length field.now }
    ensures before { take result field.now ≡ trim_back field.now }
{
    let mut count = field.len();
    while count > 0 && is_space(field[count - 1]) {
        count -= 1;
    }
    count
}

/// A field without the spaces and tabs round it.
#[inline(always)]
pub fn trimmed(field: &[u8]) -> &[u8]
    ensures { result.now ≡ trimmed field.now }
{
    let rest = &field[spaces_at(field)..];
    &rest[..text_len(rest)]
}
