// Laws of a running tree. Nothing is done.
ghost use Rattle.std.specs.Prelude.{◌≡◌, length, map};
ghost use Rattle.tree_runs.specs.Machines.{defined};
ghost use Rattle.tree_runs.specs.Passing.{IsForest};
ghost use Rattle.stack_laws.specs.Keeping.{MovesKeep};
ghost use Rattle.stack_laws.specs.Laws.{ActsKeepLegal, EventKeepsLegal, EventsKeepLegal};
ghost use Rattle.stack_laws.specs.Laws.{EventsPrintListing, IsLawful, LegalPrintsListing};
ghost use Rattle.stack_laws.specs.Laws.{PrintsAll, PrintsFront, PrintsFrontAtEnd};
ghost use Rattle.stack_laws.specs.Laws.{PrintsFrontWhateverComes};
ghost use Rattle.stack_laws.specs.Owning.{MovesAreEvents, StageKeepsItsOwn, StageLeavesOthers};
ghost use Rattle.stack_laws.specs.Settling.{EndIsSentLast, FittingTells, FittingTellsTheRest};
ghost use Rattle.stack_laws.specs.Settling.{MachinesTell, RestsAreATree, RestsReadTheRest};
ghost use Rattle.stack_laws.specs.Settling.{SettledEndsFit, TiedEndsFit};
ghost use Rattle.stack_laws.specs.Worked.{WorkedRun};

use decoder_core::Machine;

/// Each event keeps a state legal. This would be false, and so would `events_keep_legal` be, if
/// - a note were printed whatever the floors are, or behind a stop (`Print`);
/// - a floor were any number (`Step`);
/// - a stage closed with a rest of its input, or without a floor behind its last batch (`Close`);
/// - a stop that is heard didn't end what is made for the roots (`Hear`);
/// - an End also ruled out what a stopped run could have gone on with (`MayFollow`).
pub fn event_keeps_legal()
    ensures { EventKeepsLegal }
{}

/// An event of a stage keeps what the stage knows by itself, whatever the other ends of its links
/// did.
pub fn stage_keeps_its_own()
    ensures { StageKeepsItsOwn }
{}

/// What a stage may do by itself are events of the tree.
pub fn moves_are_events()
    ensures { MovesAreEvents }
{}

/// Moves keep what a stage has: it is what its decoder's definition gives on what the stage has
/// consumed.
pub fn moves_keep()
    ensures { MovesKeep }
{}

/// An event of a stage leaves alone what the driver has, what other stages have, and each link but
/// for the ends that the stage owns.
pub fn stage_leaves_others()
    ensures { StageLeavesOthers }
{}

/// Each list of events, from the opening state on, leads to a legal state.
pub fn events_keep_legal()
    ensures { EventsKeepLegal }
{}

/// So does each list of acts of a tree whose stages take one feed at a time.
pub fn acts_keep_legal()
    ensures { ActsKeepLegal }
{}

/// In a legal state, whatever the inputs go on with, what was printed is a front of the listing.
pub fn prints_front_whatever_comes()
    ensures { PrintsFrontWhateverComes }
{}

/// While the feed hasn't ended by itself, what was printed is a front of the listing of all samples
/// that go on from those that were fed.
pub fn prints_front()
    ensures { PrintsFront }
{}

/// Once it has, what was printed is a front of the listing of what was fed.
pub fn prints_front_at_end()
    ensures { PrintsFrontAtEnd }
{}

/// Where each End was gathered and no note is held, what was printed is the listing of what was
/// fed.
pub fn prints_all()
    ensures { PrintsAll }
{}

/// Where the two ends of each link were tied, what each stage and the driver know by themselves is
/// that the lists of the tree fit together.
pub fn tied_ends_fit()
    ensures { TiedEndsFit }
{}

/// What the settled ends of a tree's links hold is one state, whose lists fit together.
pub fn settled_ends_fit()
    ensures { SettledEndsFit }
{}

/// Where the lists of a tree fit together, End was sent on a link only where it was received, with
/// nothing left to consume, and behind all that was made for that link.
pub fn end_is_sent_last()
    ensures { EndIsSentLast }
{}

/// Where the lists of a tree fit together, a stage that has closed has received all that was made
/// for it and has consumed its input; and its marks, from the first one on, are those of a run that
/// has ended, or of one that was stopped.
pub fn fitting_tells()
    ensures { FittingTells }
{}

/// So it is behind any earlier samples that the tree had read.
pub fn fitting_tells_the_rest()
    ensures { FittingTellsTheRest }
{}

/// What each instance gives behind earlier outputs makes a tree, so that the laws hold of a run
/// that goes on.
pub fn rests_are_a_tree()
    ensures { RestsAreATree }
{}

/// Its inputs are what comes behind the earlier ones.
pub fn rests_read_the_rest()
    ensures { RestsReadTheRest }
{}

/// The definitions of machines make a tree.
pub fn machines_are_a_tree<M: Machine>(machines: &[M], parents: &[Option<u32>])
    requires forest { IsForest parents.now }
    ensures { IsLawful parents.now (defined M.outputs M.near (map M.setup machines.now)) }
{}

/// Of a tree of machines, in every legal state, and so in every order of events, the notes of the
/// shown instances that were printed are of the one listing of what was fed: a front of it, and all
/// of it in the end.
pub fn machines_print_their_listing<M: Machine>(machines: &[M], parents: &[Option<u32>])
    requires forest { IsForest parents.now }
    requires each { length machines.now ≡ length parents.now }
    ensures legal { LegalPrintsListing M.outputs M.near (map M.setup machines.now) parents.now }
    ensures events { EventsPrintListing M.outputs M.near (map M.setup machines.now) parents.now }
{}

/// What a settled tree of machines tells of each instance, whatever samples the machines stood for
/// before: that it has consumed its input on all samples, and that its marks are those of a run.
pub fn machines_tell_their_inputs<M: Machine>(machines: &[M], parents: &[Option<u32>])
    requires forest { IsForest parents.now }
    requires each { length machines.now ≡ length parents.now }
    ensures { MachinesTell M.outputs M.near (map M.setup machines.now) parents.now }
{}

/// A worked run of two instances: its events may happen one after another, and print both notes.
pub fn worked_run()
    ensures { WorkedRun }
{}
