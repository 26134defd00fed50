// Laws of made captures, each on a function that does nothing.
ghost use Rattle.capture_make.specs.Worked.{BlocksAreWhole, WorkedDraws};

/// What seed 7 draws.
pub fn worked_draws_hold()
    ensures { WorkedDraws }
{}

/// A made capture has 120 samples a transaction.
pub fn blocks_are_whole()
    ensures { BlocksAreWhole }
{}
