// Rows of tables, and what they say. A table is a text, a row a line, since one text is proved much
// faster than a list of many.
ghost use Rattle.std.specs.Prelude.{◌≤◌};

use la_io::MemSource;
use std::alloc::Global;
use std::test::Fail;

/// What stands before brackets, between them and behind them.
pub fn parts_of(row: &str) -> (&str, &str, &str) {
    let (before, rest) = row.split_once('[').unwrap_or(("", row));
    let (inside, behind) = rest.split_once(']').unwrap_or((rest, ""));
    (before, inside, behind.trim_start())
}

/// The numbers of a text, between blanks or commas.
pub fn numbers_of(alloc: Global, text: &str) -> Result<Vec<u64>, Fail> {
    let mut numbers = Vec::new(alloc);
    for part in text.split([' ', ',']) {
        if let Ok(number) = part.parse::<u64>() {
            numbers.push(number)?;
        }
    }
    Ok(numbers)
}

/// The words of a line.
pub fn words_of(alloc: Global, line: &str) -> Result<Vec<String>, Fail> {
    let mut words = Vec::new(alloc);
    for word in line.split_whitespace() {
        words.push(String::from_str(alloc, word)?)?;
    }
    Ok(words)
}

/// The bytes that hexadecimal digits write: behind a star stands how often the digits before it do.
pub fn bytes_of(alloc: Global, text: &str) -> Result<Vec<u8>, Fail> {
    let mut bytes = Vec::new(alloc);
    for part in text.split(' ') {
        let (digits, times) = part.split_once('*').unwrap_or((part, "1"));
        for _ in 0..times.parse::<u32>().unwrap_or(0) {
            for pair in digits.as_bytes().chunks_exact(2) {
                let digits = str::from_utf8(pair).unwrap_or("");
                bytes.push(u8::from_str_radix(digits, 16).unwrap_or(0))?;
            }
        }
    }
    Ok(bytes)
}

/// A source of these bytes in pieces of `length`, whose calls of these numbers fail.
pub fn source_of(
    alloc: Global,
    bytes: &[u8],
    length: usize,
    fails: &[u64],
) -> Result<MemSource, Fail>
    requires { 1 ≤ length }
{
    let mut pieces = Vec::new(alloc);
    for piece in bytes.chunks(length) {
        pieces.push(piece.to_vec(alloc)?)?;
    }
    Ok(MemSource::new(pieces, fails.to_vec(alloc)?))
}

/// Lines as a text, with a bar at the end of each.
pub fn barred(alloc: Global, bytes: &[u8]) -> Result<String, Fail> {
    let mut text = String::new(alloc);
    for byte in bytes {
        text.push(if *byte == b'\n' {
            '|'
        } else {
            char::from(*byte)
        })?;
    }
    Ok(text)
}

/// Appends a text, in which a roof stands for carriage return and line feed, and a slash for a line
/// feed.
pub fn add_text(bytes: &mut Vec<u8>, text: &str) -> Result<(), Fail> {
    for byte in text.as_bytes() {
        match byte {
            b'^' => bytes.extend_from_slice(b"\r\n")?,
            b'/' => bytes.push(b'\n')?,
            _ => bytes.push(*byte)?,
        }
    }
    Ok(())
}

/// Whether a text is its head, and behind it a front of so many bytes of the whole.
pub fn is_front(told: &str, head: &str, whole: &str, length: usize) -> bool {
    match told.strip_prefix(head) {
        Some(front) => front.len() == length && whole.starts_with(front),
        None => false,
    }
}

/// Takes what may move to another thread.
pub fn is_send<T: Send>(_: &T) {}
