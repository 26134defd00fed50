// The samples of a transaction.
ghost use Rattle.std.specs.Prelude.{◌≡◌, ◌<◌};
ghost use Rattle.capture_make.specs.Made.{block};
ghost use Rattle.capture_make.specs.Levels.{bus_bit, rx_at, sample_at, scl_at, sda_at};

use crate::drawing::Sent;
use la_base::{Word, pin};

/// The samples of a transaction.
pub const BLOCK: usize = 120;

// Bit `i` of the 27 on SDA.
#[inline(always)]
fn bus_bit(sent: Sent, i: u32) -> bool
    requires few { i < 27 }
    requires address { sent.address < 128 }
    ensures { result ≡ bus_bit sent i }
{
    let byte = match i / 9 {
        0 => 2 * sent.address,
        1 => sent.first,
        _ => sent.second,
    };
    i % 9 < 8 && pin(byte as Word, 7 - i % 9)
}

// The level of SCL at sample `k`.
#[inline(always)]
fn scl_at(k: u32) -> bool
    requires { k < 120 }
    ensures { result ≡ scl_at k }
{
    k < 4 || k >= 114 || k % 4 >= 2
}

// The level of SDA at sample `k`.
#[inline(always)]
fn sda_at(sent: Sent, k: u32) -> bool
    requires few { k < 120 }
    requires address { sent.address < 128 }
    ensures { result ≡ sda_at sent k }
{
    if k < 4 {
        return k < 2;
    }
    if k >= 112 {
        return k >= 116;
    }
    bus_bit(sent, (k - 4) / 4)
}

// The level of the serial line at sample `k`.
#[inline(always)]
fn rx_at(sent: Sent, k: u32) -> bool
    requires { k < 120 }
    ensures { result ≡ rx_at sent k }
{
    if k < 20 {
        return k < 10;
    }
    k >= 100 || pin(sent.serial as Word, (k - 20) / 10)
}

// Sample `k`.
#[inline(always)]
fn sample_at(sent: Sent, k: u32) -> u8
    requires few { k < 120 }
    requires address { sent.address < 128 }
    ensures { result ≡ sample_at sent k }
{
    scl_at(k) as u8 + 2 * sda_at(sent, k) as u8 + 4 * rx_at(sent, k) as u8
}

/// The samples of a transaction that sends this.
pub fn put_block(sent: Sent, into: &mut [u8; BLOCK])
    requires { sent.address < 128 }
    ensures { into.new ≡ block sent }
{
    for k in 0..BLOCK {
        into[k] = sample_at(sent, k as u32);
    }
}
