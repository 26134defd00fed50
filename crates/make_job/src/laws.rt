// A law of what the job writes, on a function that does nothing.
ghost use Rattle.make_job.specs.Sums.{ReadBack};

/// What `make` writes of a made capture is known from what was sent: for every seed and count, the
/// definitions of I2C and of a serial line give on its samples the addresses and bytes that were
/// drawn, and nothing else.
pub fn made_captures_are_read_back()
    ensures { ReadBack }
{}
