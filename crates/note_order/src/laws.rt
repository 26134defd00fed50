// Laws of the order of a listing, each on a function that does nothing.
ghost use Rattle.note_order.specs.Laws.{OneOrder, KeepsEachInstance, InstancesMakeTheListing};

/// Two lists that are in order, and have the same entries of each start and instance in the same
/// order, are one list: so there is one listing.
pub fn one_order()
    ensures { OneOrder }
{}

/// In the order of a listing the entries of one start and instance stand as they were given.
pub fn order_keeps_each_instance()
    ensures { KeepsEachInstance }
{}

/// The listing follows from the entries of each instance, however those of different instances were
/// mixed.
pub fn instances_make_the_listing()
    ensures { InstancesMakeTheListing }
{}
