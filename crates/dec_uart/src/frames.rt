// What the levels of a frame say, by the number that they make up.
ghost use Rattle.std.specs.Prelude.{◌≡◌, ◌≤◌, ◌<◌, ◌^◌};
ghost use Rattle.dec_uart.specs.laws.Machine.{with_level, word_data, word_parity, word_stop};

use crate::points::{before_stop, parity_of};
use crate::{Line, Parity};

/// The levels at the points before point i, with that at point i.
pub fn with_level(i: u64, word: u16, level: bool) -> u16
    requires { i ≤ 12 }
    ensures { result ≡ with_level i word level }
{
    let place = 1 << i;
    word % place + level as u16 * place
}

/// The data of a frame.
pub fn data_of(line: Line, word: u16) -> u64
    ensures value { result ≡ word_data line.opts word }
    ensures few { result < 2 ^ line.opts.bits }
{
    word as u64 / 2 % (1 << line.opts.bits)
}

/// Whether the parity of a frame is wrong.
pub fn parity_wrong(line: Line, word: u16) -> bool
    ensures { result ≡ word_parity line.opts word }
{
    let word = word as u64;
    let bits = line.opts.bits;
    let bit = word >> (bits + 1) & 1 == 1;
    let ones = (word / 2 % (1 << (bits + 1))).count_ones();
    match parity_of(line.opts.parity) {
        Parity::Without => false,
        Parity::Odd => ones % 2 == 0,
        Parity::Even => ones % 2 == 1,
        Parity::Zero => bit,
        Parity::One => !bit,
    }
}

/// Whether a stop bit is low.
pub fn stop_wrong(line: Line, word: u16) -> bool
    ensures { result ≡ word_stop line.opts word }
{
    word as u64 >> before_stop(line) != (1 << line.opts.stop) - 1
}
