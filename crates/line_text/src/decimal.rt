// A number whose text is kept.
ghost use Rattle.std.specs.Prelude.{◌≡◌, ◌≤◌, ◌*◌, ◌/◌, ◌%◌, ℕ};
ghost use Rattle.std.specs.Fmt.{decimal};

use crate::ShortText;
use itoa::Buffer;
use std::marker::Model;

/// A number and its text in decimal, with no leading zero. Contracts see the number. The text is
/// kept, so that of a number which differs from the one before in its last two digits alone, or its
/// last four, these are made anew.
#[derive(Drop)]
pub struct Decimal {
    digits: ShortText,
    number: u64,
    // the number with its last two digits 0
    hundreds: u64,
    // and with its last four digits 0
    myriads: u64,
}

impl Model for Decimal {
    ghost Value = { ℕ };

    ghost view = { λ s. s.number };

    ghost invariant = { λ s.
        record {
          digits : s.digits ≡ decimal s.number;
          hundreds : s.hundreds ≡ s.number / 100 * 100;
          myriads : s.myriads ≡ s.number / 10000 * 10000;
        } };
}

impl Decimal {
    /// The number 0.
    pub fn new() -> Decimal
        ensures { result ≡ 0 }
    {
        let mut digits = ShortText::new();
        digits.push_byte(b'0');
        Decimal {
            digits,
            number: 0,
            hundreds: 0,
            myriads: 0,
        }
    }

    /// Makes it another number. Often it is the same again: the lines of several decoders of one bus
    /// begin at one place.
    #[inline]
    pub fn set(&mut self, number: u64)
        ensures { self.new ≡ number }
    {
        if number == self.number {
            return;
        }
        if self.hundreds > 0 && number >= self.hundreds && number - self.hundreds < 100 {
            self.write_last_two(number, (number - self.hundreds) as u8);
        } else if self.myriads > 0 && number >= self.myriads && number - self.myriads < 10_000 {
            self.write_last_four(number, (number - self.myriads) as u32);
        } else {
            self.write(number);
        }
    }

    // Writes all digits.
    #[inline(never)]
    fn write(&mut self, number: u64)
        ensures { self.new ≡ number }
    {
        let mut buffer = Buffer::new();
        self.digits.set(buffer.format(number).as_bytes());
        self.number = number;
        self.hundreds = number / 100 * 100;
        self.myriads = number / 10_000 * 10_000;
    }

    // Writes the last four digits; those before them stay.
    fn write_last_four(&mut self, number: u64, last: u32)
        requires some { 10000 ≤ number }
        requires same { number / 10000 ≡ self.old / 10000 }
        requires last { last ≡ number % 10000 }
        ensures { self.new ≡ number }
    {
        let high = (last / 100) as u8;
        let low = (last % 100) as u8;
        self.digits.set_last_four([
            b'0' + high / 10,
            b'0' + high % 10,
            b'0' + low / 10,
            b'0' + low % 10,
        ]);
        self.number = number;
        self.hundreds = number - u64::from(low);
    }

    // Writes the last two digits; those before them stay.
    fn write_last_two(&mut self, number: u64, last: u8)
        requires some { 100 ≤ number }
        requires same { number / 100 ≡ self.old / 100 }
        requires last { last ≡ number % 100 }
        ensures { self.new ≡ number }
    {
        self.digits.set_last_two(b'0' + last / 10, b'0' + last % 10);
        self.number = number;
    }

    /// Its text.
    pub fn text(&self) -> &ShortText
        ensures { result.now ≡ decimal self.now }
    {
        &self.digits
    }
}
