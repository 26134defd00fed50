// What an EEPROM is made of.
ghost use Rattle.std.specs.Prelude.{◌<◌};

/// Options: the lowest three bits of the address, 0 to 7; the places of its size and of its page
/// among the words of these options; and 1 where it takes a general call's reset, else 0.
#[derive(Clone, Copy, PartialEq, Eq)]
pub struct EepromOpts {
    pub addr: u64,
    pub size: u64,
    pub page: u64,
    pub gcall: u64,
}

/// An EEPROM by its numbers: the lowest bits of its address, its size and that of a page in bytes,
/// and whether it takes a general call's reset.
#[derive(Clone, Copy, PartialEq, Eq)]
pub struct Chip {
    pub addr: u8,
    pub size: u32,
    pub page: u32,
    pub resets: bool,
    ghost some_size: { 0 < size },
    ghost some_page: { 0 < page },
}
