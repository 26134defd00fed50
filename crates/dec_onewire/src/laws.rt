// Laws of the definitions, each on a function that does nothing.
ghost use Rattle.std.specs.Prelude.{◌≡◌, ◌++◌, ◌∷◌, [], ℕ, List};
ghost use Rattle.std.specs.List.{flat_map};
ghost use Rattle.la_base.specs.declared.wires.Packet.{Packet};
ghost use Rattle.dec_onewire.specs.Link.{edges, pulses};
ghost use Rattle.dec_onewire.specs.Net.{crc8, segment_cut};
ghost use Rattle.dec_onewire.specs.Shapes.{ArePulses};

/// No bit of a segment is lost, and none is read twice: those of its command, its ROM and its bytes
/// and those left over are its bits in their order.
pub fn groups_are_the_bits()
    ensures { (bits : List Packet) → flat_map (λ group. group.bits) (segment_cut bits).whole
        ++ (segment_cut bits).rest ≡ bits }
{}

/// Bytes with their CRC behind them have the CRC 0, as application note 27 says.
pub fn own_crc_leaves_nothing()
    ensures { (bytes : List ℕ) → crc8 (bytes ++ crc8 bytes ∷ []) ≡ 0 }
{}

/// The pulses of the link are just the stretches of low samples between two high ones.
pub fn pulses_are_the_low_stretches()
    ensures { (line : ℕ) (samples : List ℕ) → ArePulses line samples (pulses (edges line samples)) }
{}
