// The texts of a row: what stands for bytes that aren't easily written, and words.
use crate::waves::{byte_of, number_of};
use anyhow::{Context, Result, bail, ensure};
use std::alloc::Global;
use std::mem;

// The most bytes of a text.
const MOST: usize = 1 << 24;

// Appends a text in which a backslash stands before `n`, `r`, `t`, or `x` and two hexadecimal
// digits.
fn add_escaped(bytes: &mut Vec<u8>, text: &str) -> Result<()> {
    let mut parts = text.split('\\');
    bytes.extend_from_slice(parts.next().unwrap_or("").as_bytes())?;
    for part in parts {
        let (escape, rest) = part
            .split_at_checked(1)
            .context("nothing behind a backslash")?;
        let rest = match escape {
            "x" => {
                let (digits, rest) = rest.split_at_checked(2).context("digits behind x")?;
                bytes.push(byte_of(digits)?)?;
                rest
            }
            "n" => add_behind(bytes, b'\n', rest)?,
            "r" => add_behind(bytes, b'\r', rest)?,
            "t" => add_behind(bytes, b'\t', rest)?,
            _ => bail!("{escape:?} behind a backslash"),
        };
        bytes.extend_from_slice(rest.as_bytes())?;
    }
    Ok(())
}

fn add_behind<'a>(bytes: &mut Vec<u8>, byte: u8, rest: &'a str) -> Result<&'a str> {
    bytes.push(byte)?;
    Ok(rest)
}

// Appends a text as often as is said before its colon: `3 times:` or, with a number in the place of
// each `@`, `5 to 7:`.
fn add_repeated(alloc: Global, bytes: &mut Vec<u8>, text: &str) -> Result<()> {
    let (often, text) = text.split_once(':').context("no colon behind a brace")?;
    let (first, last) = match often.strip_suffix(" times") {
        Some(times) => (1, number_of(times)?),
        None => {
            let (first, last) = often.split_once(" to ").context("neither times nor to")?;
            (number_of(first)?, number_of(last)?)
        }
    };
    ensure!(last <= 1 << 20, "{last} is too often");
    let mut parts = text.split('@');
    let plain = parts.next() == Some(text);
    for number in first..=last {
        ensure!(bytes.len() < MOST, "too long a text");
        if plain {
            add_escaped(bytes, text)?;
        } else {
            let counted = text.replace(alloc, "@", number.to_string(alloc)?.as_str())?;
            add_escaped(bytes, counted.as_str())?;
        }
    }
    Ok(())
}

/// Appends a text in which `{3 times:TEXT}` and `{5 to 7:TEXT}` stand for a text several times, and
/// `\n`, `\r`, `\t` and `\x41` for bytes.
pub fn add_text(alloc: Global, bytes: &mut Vec<u8>, text: &str) -> Result<()> {
    let mut parts = text.split('{');
    add_escaped(bytes, parts.next().unwrap_or(""))?;
    for part in parts {
        let (repeated, behind) = part.split_once('}').context("a brace isn't closed")?;
        add_repeated(alloc, bytes, repeated)?;
        add_escaped(bytes, behind)?;
    }
    Ok(())
}

/// Appends a line, with a line feed behind it but where it ends with a backslash.
pub fn add_line(alloc: Global, bytes: &mut Vec<u8>, line: &str) -> Result<()> {
    match line.strip_suffix('\\') {
        Some(text) => add_text(alloc, bytes, text),
        None => {
            add_text(alloc, bytes, line)?;
            bytes.push(b'\n')?;
            Ok(())
        }
    }
}

/// Appends the words of a line, with blanks between them: what stands between simple quotes is of
/// one word, blanks too.
pub fn add_words(alloc: Global, words: &mut Vec<String>, line: &str) -> Result<()> {
    let mut bytes = Vec::new(alloc);
    add_text(alloc, &mut bytes, line)?;
    let mut word = String::new(alloc);
    let mut begun = false;
    let mut quoted = false;
    for letter in str::from_utf8(&bytes).context("words are text")?.chars() {
        if letter == '\'' {
            quoted = !quoted;
            begun = true;
        } else if letter != ' ' || quoted {
            word.push(letter)?;
            begun = true;
        } else if begun {
            words.push(mem::replace(&mut word, String::new(alloc)))?;
            begun = false;
        }
    }
    ensure!(!quoted, "a quote isn't closed");
    if begun {
        words.push(word)?;
    }
    Ok(())
}
