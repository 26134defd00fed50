// The law of made captures, on a function that does nothing.
ghost use Rattle.std.specs.Prelude.{ℕ, ◌≡◌};
ghost use Rattle.capture_make.specs.Made.{made, sent_from};
ghost use Rattle.dec_i2c.specs.Bus.{i2c_outs};
ghost use Rattle.made_laws.specs.BusTold.{all_told};

/// For every seed and count, what the I2C definition gives on the samples of a made capture is what
/// was put on its bus: for each transaction a START, the address with its acknowledge, both data
/// bytes with theirs, and a STOP, at their places.
pub fn made_buses_tell()
    ensures { (seed count : ℕ)
        → i2c_outs 0 1 (made seed count) ≡ all_told 0 (sent_from seed 0 count) }
{}
