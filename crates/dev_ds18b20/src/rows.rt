// Rows that are worked by hand.
ghost use Rattle.std.specs.Prelude.{◌≡◌};
ghost use Rattle.dev_ds18b20.specs.Rows.{FineReading, CoarseReading, ForeignRom, TooFew, Written};

/// The definition gives what was worked by hand. (Nothing is done.)
pub fn rows_hold()
    ensures fine { FineReading }
    ensures coarse { CoarseReading }
    ensures written { Written }
    ensures foreign { ForeignRom }
    ensures few { TooFew }
{}
