// The CRC of sixteen bits that Modbus uses.
ghost use Rattle.std.specs.Prelude.{◌≡◌};
ghost use Rattle.std.specs.Int.Bits.{bit_xor};
ghost use Rattle.dec_modbus.specs.Modbus.{shifted, shifts};

// One shift of the register.
fn shifted(crc: u16) -> u16
    ensures { result ≡ shifted crc }
{
    if crc % 2 == 1 {
        crc / 2 ^ 0xA001
    } else {
        crc / 2
    }
}

// The register behind eight shifts.
fn behind_shifts(crc: u16) -> u16
    ensures { result ≡ shifts 8 crc }
{
    let mut register = crc;
    for _ in 0..8_u8 {
        register = shifted(register);
    }
    register
}

/// The register behind a byte.
pub fn with_byte(crc: u16, byte: u8) -> u16
    ensures { result ≡ shifts 8 (bit_xor crc byte) }
{
    behind_shifts(crc ^ byte as u16)
}
