// A line of text of at most 256 bytes.
ghost use Rattle.std.specs.Prelude.{◌≡◌, ◌+◌, ◌^◌, ◌<◌, ◌≤◌, List, ℕ, [], ◌∷◌, ◌++◌, length, take};
ghost use Rattle.std.specs.Fmt.{decimal};
ghost use Rattle.line_text.specs.Texts.{padded, hex, fixed};

use crate::hex::{PLACES, digit, write_hex};
use crate::short::{MOST_SHORT, ShortText};
use itoa::Buffer;
use std::marker::Model;

/// The most bytes that a line holds.
pub const ROOM: usize = 256;

const ZEROS: [u8; PLACES] = [b'0'; PLACES];

/// A line of text, at most `ROOM` bytes. Contracts see it as the list of its bytes.
#[derive(Drop)]
pub struct LineBuf {
    buffer: [u8; ROOM],
    len: usize,
}

impl Model for LineBuf {
    ghost Value = { List ℕ };

    ghost view = { λ line. take line.len line.buffer };

    ghost invariant = { λ line. line.len ≤ 256 };
}

impl LineBuf {
    /// An empty line.
    pub fn new() -> LineBuf
        ensures { result ≡ [] }
    {
        LineBuf {
            buffer: [0; ROOM],
            len: 0,
        }
    }

    /// The bytes of the line.
    pub fn bytes(&self) -> &[u8]
        ensures bytes { result.now ≡ self.now }
        ensures fits { length self.now ≤ 256 }
    {
        &self.buffer[..self.len]
    }

    /// Empties the line.
    pub fn clear(&mut self)
        ensures { self.new ≡ [] }
    {
        self.len = 0;
    }

    /// Appends bytes.
    pub fn push_bytes(&mut self, bytes: &[u8])
        requires { length self.old + length bytes.now ≤ 256 }
        ensures text { self.new ≡ self.old ++ bytes.now }
        ensures grows { length self.new ≡ length self.old + length bytes.now }
    {
        let end = self.len + bytes.len();
        self.buffer[self.len..end].copy_from_slice(bytes);
        self.len = end;
    }

    /// Appends one byte.
    pub fn push_byte(&mut self, byte: u8)
        requires { length self.old < 256 }
        ensures text { self.new ≡ self.old ++ byte ∷ [] }
        ensures grows { length self.new ≡ length self.old + 1 }
    {
        self.buffer[self.len] = byte;
        self.len += 1;
    }

    /// Appends a number in decimal, with no leading zero, where there is room for any: it has at
    /// most 20 digits.
    #[tactic(auto, using(crate::proofs::Widths::decimal_room))]
    pub fn push_number(&mut self, n: u64)
        requires { length self.old ≤ 236 }
        ensures text { self.new ≡ self.old ++ decimal n }
        ensures grows { length self.new ≤ length self.old + 20 }
    {
        self.push_dec(n);
    }

    /// Appends a number in decimal, with no leading zero.
    pub fn push_dec(&mut self, n: u64)
        requires { length self.old + length (decimal n) ≤ 256 }
        ensures text { self.new ≡ self.old ++ decimal n }
        ensures grows { length self.new ≡ length self.old + length (decimal n) }
    {
        let mut buffer = Buffer::new();
        self.push_bytes(buffer.format(n).as_bytes());
    }

    /// Appends a short text, where there is room for any.
    #[inline]
    pub fn push_short(&mut self, text: &ShortText)
        requires { length self.old ≤ 236 }
        ensures text { self.new ≡ self.old ++ text.now }
        ensures grows { length self.new ≤ length self.old + 20 }
    {
        // All of its room, since a copy of a fixed length takes less time.
        let end = self.len + MOST_SHORT;
        let room = text.room();
        self.buffer[self.len..end].copy_from_slice(&room);
        self.len += text.len();
    }

    // Appends a byte in two digits.
    #[inline(always)]
    fn push_byte_hex(&mut self, n: u8)
        requires { length self.old ≤ 254 }
        ensures text { self.new ≡ self.old ++ hex 2 n }
        ensures grows { length self.new ≡ length self.old + 2 }
    {
        self.push_bytes(&[digit(n / 16), digit(n % 16)]);
    }

    /// Appends a number in upper case hexadecimal, with leading zeros up to `digits` digits.
    // Inlined, since most numbers are bytes.
    #[inline(always)]
    pub fn push_hex(&mut self, n: u64, digits: u32)
        requires digits { (1 ≤ digits) × (digits ≤ 16) }
        requires room { length self.old + length (hex digits n) ≤ 256 }
        ensures text { self.new ≡ self.old ++ hex digits n }
        ensures grows { length self.new ≡ length self.old + length (hex digits n) }
    {
        if digits == 2 && n < 256 {
            self.push_byte_hex(n as u8);
        } else {
            self.push_any_hex(n, digits);
        }
    }

    // The same of any number.
    #[inline(never)]
    fn push_any_hex(&mut self, n: u64, digits: u32)
        requires digits { (1 ≤ digits) × (digits ≤ 16) }
        requires room { length self.old + length (hex digits n) ≤ 256 }
        ensures text { self.new ≡ self.old ++ hex digits n }
        ensures grows { length self.new ≡ length self.old + length (hex digits n) }
    {
        let mut places = [0; PLACES];
        let start = write_hex(n, &mut places);
        self.push_padded(&places[start..], digits);
    }

    /// Appends a text of constant length.
    #[inline(always)]
    pub fn push_label<const N: usize>(&mut self, label: &[u8; N])
        requires { length self.old + N ≤ 256 }
        ensures text { self.new ≡ self.old ++ label.now }
        ensures grows { length self.new ≡ length self.old + N }
    {
        // Taken by value, so that the copy needn't ask whether both are the same memory.
        let label = *label;
        self.push_bytes(&label);
    }

    /// Appends a label, and a number in upper case hexadecimal with leading zeros up to `digits`
    /// digits, where there is room for any.
    #[tactic(auto, using(crate::proofs::Widths::hex_room))]
    #[inline(always)]
    pub fn push_labelled<const N: usize>(&mut self, label: &[u8; N], n: u64, digits: u32)
        requires digits { (1 ≤ digits) × (digits ≤ 16) }
        requires room { length self.old + N + 16 ≤ 256 }
        ensures text { self.new ≡ self.old ++ (label.now ++ hex digits n) }
        ensures short { length self.new ≤ length self.old + N + 16 }
    {
        self.push_label(label);
        self.push_hex(n, digits);
    }

    /// The same after any text.
    #[tactic(auto, using(crate::proofs::Widths::hex_room))]
    pub fn push_numbered(&mut self, text: &[u8], n: u64, digits: u32)
        requires digits { (1 ≤ digits) × (digits ≤ 16) }
        requires room { length self.old + length text.now + 16 ≤ 256 }
        ensures text { self.new ≡ self.old ++ (text.now ++ hex digits n) }
        ensures short { length self.new ≤ length self.old + length text.now + 16 }
    {
        self.push_bytes(text);
        self.push_hex(n, digits);
    }

    /// Appends `-` where `negative`, then `whole` in decimal, a point, and `part` in decimal with
    /// leading zeros up to `digits` digits: `part` counts units of the last of these places.
    pub fn push_fixed(&mut self, negative: bool, whole: u64, part: u64, digits: u32)
        requires digits { (1 ≤ digits) × (digits ≤ 4) }
        requires part { part < 10 ^ digits }
        requires room { length self.old + length (fixed negative whole part digits) ≤ 256 }
        ensures text { self.new ≡ self.old ++ fixed negative whole part digits }
        ensures grows { length self.new
            ≡ length self.old + length (fixed negative whole part digits) }
    {
        if negative {
            self.push_bytes(b"-");
        }
        self.push_dec(whole);
        self.push_bytes(b".");
        let mut buffer = Buffer::new();
        self.push_padded(buffer.format(part).as_bytes(), digits);
    }

    // Appends a text, behind zeros up to a width.
    fn push_padded(&mut self, text: &[u8], width: u32)
        requires width { width ≤ 16 }
        requires room { length self.old + length (padded width text.now) ≤ 256 }
        ensures text { self.new ≡ self.old ++ padded width text.now }
        ensures grows { length self.new ≡ length self.old + length (padded width text.now) }
    {
        let zeros = (width as usize).saturating_sub(text.len());
        self.push_bytes(&ZEROS[..zeros]);
        self.push_bytes(text);
    }
}
