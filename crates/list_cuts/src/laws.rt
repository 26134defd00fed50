// Laws of the cuts of a list, each on a function that does nothing.
ghost use Rattle.std.specs.Prelude.{ℕ, ◌<◌, List, Bool, Option};
ghost use Rattle.list_cuts.specs.Laws.{Along, Bits, Groups, LastWhere, Neighbours, Parts};
ghost use Rattle.list_cuts.specs.Laws.{PartsBetween, Places};

/// The groups of a list are its items in order, with less than a group left; one more item ends a
/// group or is left.
pub fn group_laws<T>()
    ensures { (n : ℕ) → 0 < n → Groups T n }
{}

/// One more item gives what it gives with the one before it, behind what the others give.
pub fn neighbour_laws<T, E>()
    ensures { (f : ℕ → Option T → T → List E) → Neighbours T E f }
{}

/// One more item begins a part of its own at a mark, and else joins the last part.
pub fn part_laws<T>()
    ensures { (mark : T → Bool) → Parts T mark }
{}

/// One more item begins a part of its own, or ends the last one, or joins it where nothing has
/// ended it.
pub fn between_laws<T>()
    ensures { (begins ends : T → Bool) → PartsBetween T begins ends }
{}

/// The last place that passes is a place that passes, behind which none does; one more item is it
/// or changes nothing.
pub fn last_laws<T>()
    ensures { (test : T → Bool) → LastWhere T test }
{}

/// One more item gives what it gives with all those before it, behind what they give.
pub fn along_laws<T, E>()
    ensures { (f : List T → T → List E) → Along T E f }
{}

/// One more bit stands behind the others; a number of bits is below their power of two.
pub fn bit_laws()
    ensures { Bits }
{}

/// One more event stands last, and first where there was none.
pub fn place_laws<E>()
    ensures { (place : E → ℕ) → Places E place }
{}
