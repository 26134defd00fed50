// Laws of the definition, each on a function that does nothing.
ghost use Rattle.std.specs.Prelude.{◌≡◌, ◌++◌, ◌∷◌, ◌/◌, ◌%◌, [], false, ℕ, List};
ghost use Rattle.std.specs.List.{flat_map};
ghost use Rattle.la_base.specs.declared.wires.Packet.{Packet};
ghost use Rattle.dec_modbus.specs.Modbus.{crc16, crc_wrong, messages, together};
ghost use Rattle.dec_modbus.specs.Shapes.{AreRows};

/// Messages and breaks are maximal rows of packets that are together; no packet is lost, and none
/// is read twice.
pub fn messages_are_the_packets()
    ensures rows { (gap : ℕ) (packets : List Packet)
        → AreRows (together gap) (messages gap packets) }
    ensures whole { (gap : ℕ) (packets : List Packet)
        → flat_map (λ row. row) (messages gap packets) ≡ packets }
{}

/// Bytes with their CRC behind them, its lower byte first, have the right CRC.
pub fn own_crc_is_right()
    ensures { (bytes : List ℕ)
        → crc_wrong (bytes ++ crc16 bytes % 256 ∷ crc16 bytes / 256 ∷ []) ≡ false }
{}
