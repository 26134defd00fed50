// The CRC of eight bits that 1-Wire uses.
ghost use Rattle.std.specs.Prelude.{◌≡◌};
ghost use Rattle.dec_onewire.specs.Net.{shifted, shifts, crc8, crc_wrong};

// One shift of the register.
fn shifted(crc: u8) -> u8
    ensures { result ≡ shifted crc }
{
    if crc % 2 == 1 {
        crc / 2 ^ 0x8C
    } else {
        crc / 2
    }
}

// The register behind eight shifts.
fn behind_byte(crc: u8) -> u8
    ensures { result ≡ shifts 8 crc }
{
    let mut register = crc;
    for _ in 0..8_u8 {
        register = shifted(register);
    }
    register
}

/// The CRC of bytes by application note 27: the polynomial x^8 + x^5 + x^4 + 1, the lowest bit of
/// each byte first, from a register of 0 on.
pub fn crc8(bytes: &[u8]) -> u8
    ensures { result ≡ crc8 bytes.now }
{
    let mut crc = 0;
    for byte in bytes {
        crc = behind_byte(crc ^ *byte);
    }
    crc
}

/// Whether the last byte of a ROM, whose first byte is the lowest one of the number, isn't the CRC
/// of the others.
pub fn crc_wrong(rom: u64) -> bool
    ensures { result ≡ crc_wrong rom }
{
    let bytes = rom.to_le_bytes();
    crc8(&bytes[..7]) != bytes[7]
}
