// Ties both ends of each link of a tree.
ghost use Rattle.std.specs.Prelude.{◌≡◌, ◌<◌, ◌≤◌, ℕ, Option, Some, None, true, false, length, map};
ghost use Rattle.std.specs.Prelude.{slice_get};
ghost use Rattle.std.specs.List.{AllZip};
ghost use Rattle.la_base.specs.declared.wires.Feed.{Feed as FeedIs};
ghost use Rattle.la_base.specs.declared.wires.Mark.{Mark as MarkIs};
ghost use Rattle.tree_runs.specs.Passing.{IsForest, same_place};
ghost use Rattle.stage_ring.specs.Link.{received, rx_link, tx_link};
ghost use Rattle.stage_run.specs.Inputs.{input_link, reads_samples};
ghost use Rattle.stage_run.specs.Stages.{Links, parts_links};
ghost use Rattle.stage_run.specs.declared.input.HalfRun.{HalfRun as HalfRunIs};
ghost use Rattle.stack_threads.specs.Ties.{Alike, AllKnown, Given, Got, Heard, KnowsPackets};
ghost use Rattle.stack_threads.specs.Ties.{KnowsSamples, SameBut, SameEnds, Sent, Tied, given_by};
ghost use Rattle.stack_threads.specs.Ties.{got_on, heard_by, sent_on};
ghost use Rattle.stack_threads.specs.Trees.{Reads, Wired, place_of};

use la_base::{Feed, Mark};
use stage_ring::{Rx, Tx, settle};
use stage_run::{HalfRun, Input, Parts};

// Ties the marks of one instance.
fn settle_marks<M>(parts: &mut [Parts<M>], marks: &mut [Rx<Mark>], instance: usize)
    requires within { (instance < length parts.old) × (instance < length marks.old) }
    requires link { (s : Links) → slice_get (map parts_links parts.old) instance ≡ Some s
        → slice_get (map rx_link marks.old) instance ≡ Some s.marks }
    ensures parts { AllZip Alike parts.old parts.new }
    ensures heard { map heard_by parts.new ≡ map heard_by parts.old }
    ensures marks { (map received marks.new ≡ map received marks.old)
        × (map rx_link marks.new ≡ map rx_link marks.old) }
    ensures len { (length parts.new ≡ length parts.old) × (length marks.new ≡ length marks.old) }
    ensures others { SameBut instance (map got_on marks.old) (map got_on marks.new) }
    ensures tied { (g : Given) (m : Got MarkIs)
        → slice_get (map given_by parts.old) instance ≡ Some g
        → slice_get (map got_on marks.new) instance ≡ Some m → AllKnown m g.marks }
{
    settle(&mut parts[instance].marks, &mut marks[instance]);
}

// Ties the input of a root.
fn settle_root<M>(parts: &mut [Parts<M>], feeds: &mut [Tx<HalfRun>], instance: usize, place: usize)
    requires within { (instance < length parts.old) × (place < length feeds.old) }
    requires link { (s : Links) → slice_get (map parts_links parts.old) instance ≡ Some s
        → (slice_get (map tx_link feeds.old) place ≡ Some s.input) × (s.samples ≡ true) }
    ensures parts { AllZip Alike parts.old parts.new }
    ensures feeds { (map sent_on feeds.new ≡ map sent_on feeds.old)
        × (map tx_link feeds.new ≡ map tx_link feeds.old) }
    ensures len { (length parts.new ≡ length parts.old) × (length feeds.new ≡ length feeds.old) }
    ensures others { SameBut instance (map heard_by parts.old) (map heard_by parts.new) }
    ensures tied { (h : Heard) (s : Sent HalfRunIs)
        → slice_get (map heard_by parts.new) instance ≡ Some h
        → slice_get (map sent_on feeds.old) place ≡ Some s → KnowsSamples h s }
{
    match &mut parts[instance].input {
        Input::Samples(from) => settle(&mut feeds[place], from),
        Input::Packets(_) => {}
    }
}

// Ties the input of a child to its parent.
fn settle_child<M>(parent: &mut Parts<M>, place: usize, child: &mut Parts<M>)
    requires within { place < length parent.old.children.items }
    requires link { (slice_get (map tx_link parent.old.children.items) place
        ≡ Some (input_link child.old.input)) × (reads_samples child.old.input ≡ false) }
    ensures parent { Alike parent.old parent.new }
    ensures heard { heard_by parent.new ≡ heard_by parent.old }
    ensures child { Alike child.old child.new }
    ensures tied { (s : Sent FeedIs)
        → slice_get (map sent_on parent.old.children.items) place ≡ Some s
        → KnowsPackets (heard_by child.new) s }
{
    match &mut child.input {
        Input::Packets(from) => settle(&mut parent.children[place], from),
        Input::Samples(_) => {}
    }
}

// Whether two places are the same; None is the outside of the tree.
fn same_place(one: Option<u32>, other: Option<u32>) -> bool
    ensures { result ≡ same_place one other }
{
    match (one, other) {
        (None, None) => true,
        (Some(one), Some(other)) => one == other,
        (None, Some(_)) => false,
        (Some(_), None) => false,
    }
}

// The place of an instance among those that stand where it does.
fn place_among(parents: &[Option<u32>], parent: Option<u32>, instance: usize) -> usize
    requires { instance ≤ length parents.now }
    ensures { result ≡ place_of parents.now instance parent }
{
    let mut place = 0usize;
    for before in 0..instance {
        if same_place(parents[before], parent) {
            place += 1;
        }
    }
    place
}

// Ties the input of a child, which stands behind its parent.
fn settle_below<M>(parts: &mut [Parts<M>], parent: usize, place: usize, instance: usize)
    requires within { (parent < instance) × (instance < length parts.old) }
    requires link { (s above : Links) → slice_get (map parts_links parts.old) instance ≡ Some s
        → slice_get (map parts_links parts.old) parent ≡ Some above
        → (slice_get above.children place ≡ Some s.input) × (s.samples ≡ false) }
    ensures parts { AllZip Alike parts.old parts.new }
    ensures len { length parts.new ≡ length parts.old }
    ensures others { SameBut instance (map heard_by parts.old) (map heard_by parts.new) }
    ensures tied { (h : Heard) (above : Given) (s : Sent FeedIs)
        → slice_get (map heard_by parts.new) instance ≡ Some h
        → slice_get (map given_by parts.old) parent ≡ Some above
        → slice_get above.children place ≡ Some s → KnowsPackets h s }
{
    let (front, back) = parts.split_at_mut(instance);
    settle_child(&mut front[parent], place, &mut back[0]);
}

// Ties the input of one instance.
fn settle_input<M>(
    parts: &mut [Parts<M>],
    parents: &[Option<u32>],
    feeds: &mut [Tx<HalfRun>],
    parent: Option<u32>,
    instance: usize,
)
    requires parent { slice_get parents.now instance ≡ Some parent }
    requires within { (instance < length parents.now)
        × (length parts.old ≡ length parents.now) }
    requires forest { IsForest parents.now }
    requires inputs { Reads parents.now (map parts_links parts.old) (map tx_link feeds.old)
        instance }
    ensures parts { AllZip Alike parts.old parts.new }
    ensures feeds { (map sent_on feeds.new ≡ map sent_on feeds.old)
        × (map tx_link feeds.new ≡ map tx_link feeds.old) }
    ensures len { length parts.new ≡ length parts.old }
    ensures others { SameBut instance (map heard_by parts.old) (map heard_by parts.new) }
    ensures root { slice_get parents.now instance ≡ Some None → (h : Heard) (s : Sent HalfRunIs)
        → slice_get (map heard_by parts.new) instance ≡ Some h
        → slice_get (map sent_on feeds.old) (place_of parents.now instance None) ≡ Some s
        → KnowsSamples h s }
    ensures child { (p : ℕ) → slice_get parents.now instance ≡ Some (Some p)
        → (h : Heard) (above : Given) (s : Sent FeedIs)
        → slice_get (map heard_by parts.new) instance ≡ Some h
        → slice_get (map given_by parts.old) p ≡ Some above
        → slice_get above.children (place_of parents.now instance (Some p)) ≡ Some s
        → KnowsPackets h s }
{
    let place = place_among(parents, parent, instance);
    match parent {
        None => settle_root(parts, feeds, instance, place),
        Some(above) => settle_below(parts, above as usize, place, instance),
    }
}

// Ties the links of one instance.
fn settle_one<M>(
    parts: &mut [Parts<M>],
    parents: &[Option<u32>],
    feeds: &mut [Tx<HalfRun>],
    marks: &mut [Rx<Mark>],
    parent: Option<u32>,
    instance: usize,
)
    requires parent { slice_get parents.now instance ≡ Some parent }
    requires within { (instance < length parents.now)
        × (length parts.old ≡ length parents.now) × (length marks.old ≡ length parents.now) }
    requires forest { IsForest parents.now }
    requires wired { Wired parents.now (map parts_links parts.old) (map tx_link feeds.old)
        (map rx_link marks.old) }
    ensures parts { AllZip Alike parts.old parts.new }
    ensures ends { SameEnds feeds.old feeds.new marks.old marks.new }
    ensures len { (length parts.new ≡ length parts.old) × (length marks.new ≡ length marks.old) }
    ensures inputs { SameBut instance (map heard_by parts.old) (map heard_by parts.new) }
    ensures marks { SameBut instance (map got_on marks.old) (map got_on marks.new) }
    ensures tied { Tied parents.now (map heard_by parts.new) (map given_by parts.new)
        (map sent_on feeds.new) (map got_on marks.new) instance }
{
    settle_marks(parts, marks, instance);
    settle_input(parts, parents, feeds, parent, instance);
}

/// Ties the two links of each instance of a tree, once its stages have ended: of each, what was
/// received, and then what the end that receives knows to wait, is what was sent. Nothing is sent
/// or received.
///
/// `feeds` are the driver's ends of the links to those that stand on nothing, in order, and `marks`
/// those of the links of all instances' marks.
pub fn settle_tree<M>(
    parts: &mut [Parts<M>],
    parents: &[Option<u32>],
    feeds: &mut [Tx<HalfRun>],
    marks: &mut [Rx<Mark>],
)
    requires counts { (length parts.old ≡ length parents.now)
        × (length marks.old ≡ length parents.now) }
    requires forest { IsForest parents.now }
    requires wired { Wired parents.now (map parts_links parts.old) (map tx_link feeds.old)
        (map rx_link marks.old) }
    ensures parts { AllZip Alike parts.old parts.new }
    ensures ends { SameEnds feeds.old feeds.new marks.old marks.new }
    ensures tied { (j : ℕ) → j < length parents.now
        → Tied parents.now (map heard_by parts.new) (map given_by parts.new)
        (map sent_on feeds.new) (map got_on marks.new) j }
{
    for (instance, parent) in parents.iter().enumerate() {
        settle_one(parts, parents, feeds, marks, *parent, instance);
    }
}
