// Laws of walks, each on a function that does nothing.
ghost use Rattle.sample_walks.specs.Promises.{KeepsPromises, GivesByEvents, KeepsByEvents};

/// What follows for outputs that are those of a sound walk. Samples that meet nothing add nothing,
/// and the samples fix the place of the last stop. No samples give nothing, what was given stays,
/// the starts of packets never fall, one more sample adds at most 16 outputs, and nothing that more
/// samples add starts before the near place.
pub fn walk_laws<H>()
    ensures { KeepsPromises H }
{}

/// A definition over whole lists of events that goes on as the events say gives what the walk by
/// events gives, and leaves what that keeps.
pub fn event_laws<H, E>()
    ensures given { GivesByEvents H E }
    ensures walked { KeepsByEvents H E }
{}
