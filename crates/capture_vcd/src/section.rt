// The sections of a header, and what their words declare.
ghost use Rattle.std.specs.Prelude.{◌≡◌, ◌≤◌, ◌&&◌, nat_le, map, IfOk, IfSome};
ghost use Rattle.capture_vcd.specs.Header.{a_second, first_at, has_no_channel, is_code, joined};
ghost use Rattle.capture_vcd.specs.Header.{scale_by, scale_of};
ghost use Rattle.capture_vcd.specs.Gathered.{Opens, VariableGives, WidthGives, per_second, placed};
ghost use Rattle.capture_vcd.specs.Gathered.{scale_said};

use crate::scale::Scale;
use crate::tokens::number_of;
use la_base::NoMemory;
use la_io::CaptureFault;
use rate_math::TimeUnit;
use std::alloc::Global;

/// A word of a section, and the place of its first byte.
#[derive(Drop)]
pub struct Word {
    pub at: u64,
    pub text: Vec<u8>,
}

/// What a section is for.
#[derive(Clone, Copy, PartialEq, Eq)]
pub enum Kind {
    /// There is none: what is read stands outside of sections.
    Outside,
    /// It is passed over.
    Passed,
    /// It ends the header.
    Definitions,
    /// It tells the time scale.
    Scale,
    /// It declares a variable.
    Variable,
}

/// The most channels of a file.
pub const MOST_CHANNELS: u64 = 4096;

/// The widest variable.
const MOST_WIDTH: u64 = 65_535;

/// The section that a token opens outside of sections.
pub fn opened_by(text: &[u8]) -> Kind
    ensures { Opens text.now result }
{
    if !text.starts_with(b"$".as_slice()) || b"$end".as_slice() == text {
        return Kind::Outside;
    }
    if b"$enddefinitions".as_slice() == text {
        return Kind::Definitions;
    }
    if b"$timescale".as_slice() == text {
        return Kind::Scale;
    }
    if b"$var".as_slice() == text {
        return Kind::Variable;
    }
    Kind::Passed
}

// The texts of words, put together.
pub fn joined(alloc: Global, words: &[Word]) -> Result<Vec<u8>, NoMemory>
    ensures { IfOk result (λ text. text.items ≡ joined (map placed words.now)) }
{
    let mut text = Vec::new(alloc);
    for word in words {
        text.extend_from_slice(&word.text)?;
    }
    Ok(text)
}

// The unit that a text names.
fn unit_of(text: &[u8]) -> Option<TimeUnit>
    ensures { per_second result ≡ a_second text.now }
{
    if b"s".as_slice() == text {
        return Some(TimeUnit::S);
    }
    if b"ms".as_slice() == text {
        return Some(TimeUnit::Ms);
    }
    if b"us".as_slice() == text {
        return Some(TimeUnit::Us);
    }
    if b"ns".as_slice() == text {
        return Some(TimeUnit::Ns);
    }
    if b"ps".as_slice() == text {
        return Some(TimeUnit::Ps);
    }
    if b"fs".as_slice() == text {
        return Some(TimeUnit::Fs);
    }
    None
}

// A count of a unit; where that is none, a fault at this place.
fn scale_by(at: u64, count: u64, unit: &[u8]) -> Result<Scale, CaptureFault>
    requires some { 1 ≤ count }
    requires few { count ≤ 100 }
    ensures { scale_said result ≡ scale_by at count (a_second unit.now) }
{
    match unit_of(unit) {
        Some(unit) => Ok(Scale { count, unit }),
        None => Err(CaptureFault::Token { at }),
    }
}

/// What the words of a `$timescale` say, put together. A fault has this place.
pub fn scale_of(at: u64, text: &[u8]) -> Result<Scale, CaptureFault>
    ensures { scale_said result ≡ scale_of at text.now }
{
    if text.starts_with(b"100".as_slice()) {
        return scale_by(at, 100, &text[3..]);
    }
    if text.starts_with(b"10".as_slice()) {
        return scale_by(at, 10, &text[2..]);
    }
    if text.starts_with(b"1".as_slice()) {
        return scale_by(at, 1, &text[1..]);
    }
    Err(CaptureFault::Token { at })
}

/// Whether a variable of this type has no channels.
pub fn has_no_channel(kind: &[u8]) -> bool
    ensures { result ≡ has_no_channel kind.now }
{
    b"real".as_slice() == kind || b"realtime".as_slice() == kind || b"string".as_slice() == kind
}

// Whether a byte may stand in a code.
fn is_code_byte(byte: u8) -> bool
    ensures { result ≡ (nat_le 33 byte && nat_le byte 126) }
{
    33 <= byte && byte <= 126
}

// Whether a text is a code.
fn is_code(code: &[u8]) -> bool
    ensures { result ≡ is_code code.now }
{
    for byte in code {
        if !is_code_byte(*byte) {
            return false;
        }
    }
    true
}

// A width that is asked for, where a variable may have it behind so many channels.
fn width_in(at: u64, before: u64, size: &[u8]) -> Result<u64, CaptureFault>
    requires { before ≤ 4096 }
    ensures { WidthGives at before size.now result }
{
    let width = match number_of(size) {
        Some(width) => width,
        None => return Err(CaptureFault::Token { at }),
    };
    if width < 1 || MOST_WIDTH < width {
        return Err(CaptureFault::Token { at });
    }
    if MOST_CHANNELS < before + width {
        return Err(CaptureFault::TooMany { at });
    }
    Ok(width)
}

/// How many channels the words of a `$var` declare behind so many others, or `None` where its type
/// has none. A fault has this place.
pub fn width_of(at: u64, before: u64, words: &[Word]) -> Result<Option<u64>, CaptureFault>
    requires { before ≤ 4096 }
    ensures { VariableGives at before (map placed words.now) result }
{
    if words.len() < 4 || !is_code(&words[2].text) {
        return Err(CaptureFault::Token { at });
    }
    if has_no_channel(&words[0].text) {
        return Ok(None);
    }
    match width_in(at, before, &words[1].text) {
        Ok(width) => Ok(Some(width)),
        Err(fault) => Err(fault),
    }
}

/// The place of the first word, or the one where there is none.
pub fn first_at(end_at: u64, words: &[Word]) -> u64
    ensures { result ≡ first_at end_at (map placed words.now) }
{
    if words.is_empty() {
        end_at
    } else {
        words[0].at
    }
}
