// Laws of points, on a function that does nothing.
ghost use Rattle.rate_math.specs.Laws.{Points};

/// Point 0 stands behind the start exactly where the rate is high enough for it, and then each
/// further point stands behind the one before.
pub fn point_laws()
    ensures { Points }
{}
