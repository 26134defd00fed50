// Taking marks.
ghost use Rattle.std.specs.Prelude.{◌≡◌, ◌≢◌, ◌<◌, ◌∷◌, [], ℕ, List, IfOk, IsErr, IsSome, None, OnErr, OnOk};
ghost use Rattle.std.specs.Prelude.{Some, false, length, true};
ghost use Rattle.annot_merge.specs.Held.{Stands, count_of, held_in};
ghost use Rattle.std.specs.Result.{is_ok};
ghost use Rattle.std.specs.Io.KnownBytes.{Appends};
ghost use Rattle.la_base.specs.declared.wires.Mark.{Mark as MarkIs};
ghost use Rattle.la_io.specs.Causes.{AppendsFront, HasCause, Rose};
ghost use Rattle.tree_io.specs.Feeds.{TakesFront, TakesMark, TakesMarks, marks_of, real};
ghost use Rattle.stack_words.specs.Stacks.{instances_in, stack_meaning};
ghost use Rattle.note_lister.specs.Data.{wanted_by};
ghost use Rattle.note_lister.specs.Taking.{Goes, SameOrigin, StaysStopped, StopsFor, Took};
ghost use Rattle.note_lister.specs.Taking.{cause_of, first_of, first_sink, held_by, instances_of};
ghost use Rattle.note_lister.specs.Pushing.{list_of};
ghost use Rattle.note_lister.specs.Taking.{merges_in};
ghost use Rattle.note_lister.specs.Taking.{sink_of, stack_of, stops_of, watch_of};

use crate::lines::list_ready;
use crate::lister::Lister;
use crate::pushing::{mark_of, push_marks, push_outs, real_of};
use crate::stop::ListStop;
use crate::watch::Watch;
use annot_merge::Merge;
use la_base::{Mark, NoMemory, Out};
use la_io::{Failed, Sink};
use listing_out::{NoteLine, write_piece};
use stack_words::Stack;
use std::alloc::Global;
use std::snapshot::Snapshot;
use tree_io::{MarkTake, Stopped};

// Writes the byte of a mark, where it is a piece that is wanted.
fn write_wanted<K: Sink>(
    stack: &Stack,
    instance: u32,
    mark: Mark,
    sink: &mut K,
) -> Result<(), Failed>
    ensures whole { OnOk result
        (Appends (K.written sink.old) (K.written sink.new)
        (wanted_by (stack_meaning stack.now).binary instance mark)) }
    ensures front { AppendsFront (K.written sink.old) (K.written sink.new)
        (wanted_by (stack_meaning stack.now).binary instance mark) }
    ensures cause { HasCause (K.faults sink.old) (K.faults sink.new) result }
    ensures goes_on { K.goes_on sink.old sink.new }
{
    match (stack.binary(), mark) {
        (Some((of, class)), Mark::Piece(piece)) => {
            if of != instance {
                return Ok(());
            }
            if piece.class != class {
                return Ok(());
            }
            write_piece(sink, piece)
        }
        _ => Ok(()),
    }
}

// The taking is stopped, for this cause.
#[cold]
fn stop(
    cause: &mut Option<ListStop>,
    stops: &mut u64,
    merges: &mut bool,
    why: ListStop,
) -> Result<(), Stopped>
    requires { stops.old ≡ 0 }
    ensures cause { cause.new ≡ Some why }
    ensures stops { stops.new ≡ 1 }
    ensures merges { merges.new ≡ false }
    ensures rose { HasCause stops.old stops.new result }
    ensures stopped { IsErr result }
{
    *cause = Some(why);
    *stops = 1;
    *merges = false;
    Err(Stopped)
}

// There is a cause already.
#[cold]
fn stop_again(stops: &mut u64) -> Result<(), Stopped>
    ensures first { stops.old ≡ 0 → stops.new ≡ 1 }
    ensures again { stops.old ≢ 0 → 1 < stops.new }
    ensures rose { HasCause stops.old stops.new result }
    ensures stopped { IsErr result }
{
    *stops = stops.saturating_add(1);
    Err(Stopped)
}

impl<'a, 'b, K: Sink, W: Watch> Lister<'a, 'b, K, W> {
    /// Takes the marks of this stack by this merge, to which nothing was pushed. What looks on
    /// has seen nothing.
    pub fn over(stack: &'a Stack, merge: Merge, sink: &'b mut K, watch: W) -> Lister<'a, 'b, K, W>
        requires unseen { W.saw watch [] }
        requires stands { Stands merge (λ _. []) [] }
        requires none { held_in merge ≡ [] }
        ensures instances { instances_of result ≡ count_of merge }
        ensures stack { stack_of result ≡ stack.now }
        ensures first { first_sink result ≡ sink.old }
        ensures now { sink_of result ≡ sink.old }
        ensures same { (first_of result).ghost_name ≡ sink.entry.ghost_name }
        ensures watch { watch_of result ≡ watch }
        ensures goes { Goes true result }
        ensures never { stops_of result ≡ 0 }
        ensures took { Took K.written K.faults K.goes_on W.saw result (λ _. []) }
    {
        let first = Snapshot::of(&sink);
        Lister {
            stack,
            sink,
            watch,
            merge,
            line: NoteLine::new(),
            cause: None,
            stops: 0,
            merges: stack.binary().is_none(),
            first,
        }
    }

    // Takes a mark where notes are listed.
    #[inline(always)]
    fn take_mark(&mut self, instance: u32, mark: Mark) -> Result<(), Stopped>
        requires within { instance < instances_of self.old }
        requires merges { merges_in self.old ≡ true }
        ensures adds { TakesMark (Took K.written K.faults K.goes_on W.saw self.old)
            (Took K.written K.faults K.goes_on W.saw self.new) instance mark }
        ensures instances { instances_of self.new ≡ instances_of self.old }
        ensures cause { HasCause (stops_of self.old) (stops_of self.new) result }
        ensures going { Goes true self.old → Goes (is_ok result) self.new }
        ensures origin { SameOrigin W.origin self.old self.new }
        ensures ok { OnOk result (cause_of self.new ≡ None) }
        ensures why { OnErr result (StopsFor (cause_of self.new)
            (K.faults (sink_of self.old)) (K.faults (sink_of self.new))) }
    {
        match self.merge.push(instance, mark) {
            Ok(()) => {
                if !self.merge.is_ready() {
                    return Ok(());
                }
                let listed = list_ready(
                    &mut self.merge,
                    self.stack,
                    &mut self.line,
                    self.sink,
                    &mut self.watch,
                );
                match listed {
                    Ok(()) => Ok(()),
                    Err(why) => stop(&mut self.cause, &mut self.stops, &mut self.merges, why),
                }
            }
            Err(NoMemory) => stop(
                &mut self.cause,
                &mut self.stops,
                &mut self.merges,
                ListStop::NoMemory,
            ),
        }
    }

    // Takes the notes and the pieces among outputs where notes are listed.
    #[inline]
    fn list_outs(&mut self, instance: u32, outs: &[Out]) -> Result<(), Stopped>
        requires within { instance < instances_of self.old }
        requires merges { merges_in self.old ≡ true }
        ensures adds { TakesFront (is_ok result)
            (Took K.written K.faults K.goes_on W.saw self.old)
            (Took K.written K.faults K.goes_on W.saw self.new) instance (marks_of outs.now) }
        ensures instances { instances_of self.new ≡ instances_of self.old }
        ensures cause { HasCause (stops_of self.old) (stops_of self.new) result }
        ensures going { Goes true self.old → Goes (is_ok result) self.new }
        ensures origin { SameOrigin W.origin self.old self.new }
        ensures ok { OnOk result (cause_of self.new ≡ None) }
        ensures why { OnErr result (StopsFor (cause_of self.new)
            (K.faults (sink_of self.old)) (K.faults (sink_of self.new))) }
    {
        match push_outs(&mut self.merge, instance, outs) {
            Ok(some) => {
                if !some {
                    return Ok(());
                }
                if !self.merge.is_ready() {
                    return Ok(());
                }
                let listed = list_ready(
                    &mut self.merge,
                    self.stack,
                    &mut self.line,
                    self.sink,
                    &mut self.watch,
                );
                match listed {
                    Ok(()) => Ok(()),
                    Err(why) => stop(&mut self.cause, &mut self.stops, &mut self.merges, why),
                }
            }
            Err(NoMemory) => stop(
                &mut self.cause,
                &mut self.stops,
                &mut self.merges,
                ListStop::NoMemory,
            ),
        }
    }

    // Takes marks, but for ends, where notes are listed.
    #[inline]
    fn list_marks(&mut self, instance: u32, marks: &[Mark]) -> Result<(), Stopped>
        requires within { instance < instances_of self.old }
        requires merges { merges_in self.old ≡ true }
        ensures adds { TakesFront (is_ok result)
            (Took K.written K.faults K.goes_on W.saw self.old)
            (Took K.written K.faults K.goes_on W.saw self.new) instance (real marks.now) }
        ensures instances { instances_of self.new ≡ instances_of self.old }
        ensures cause { HasCause (stops_of self.old) (stops_of self.new) result }
        ensures going { Goes true self.old → Goes (is_ok result) self.new }
        ensures origin { SameOrigin W.origin self.old self.new }
        ensures ok { OnOk result (cause_of self.new ≡ None) }
        ensures why { OnErr result (StopsFor (cause_of self.new)
            (K.faults (sink_of self.old)) (K.faults (sink_of self.new))) }
    {
        match push_marks(&mut self.merge, instance, marks) {
            Ok(some) => {
                if !some {
                    return Ok(());
                }
                if !self.merge.is_ready() {
                    return Ok(());
                }
                let listed = list_ready(
                    &mut self.merge,
                    self.stack,
                    &mut self.line,
                    self.sink,
                    &mut self.watch,
                );
                match listed {
                    Ok(()) => Ok(()),
                    Err(why) => stop(&mut self.cause, &mut self.stops, &mut self.merges, why),
                }
            }
            Err(NoMemory) => stop(
                &mut self.cause,
                &mut self.stops,
                &mut self.merges,
                ListStop::NoMemory,
            ),
        }
    }

    // Takes a mark where binary data is wanted.
    fn take_data(&mut self, instance: u32, mark: Mark) -> Result<(), Stopped>
        requires never { cause_of self.old ≡ None }
        requires wanted { IsSome (stack_meaning (stack_of self.old)).binary }
        ensures adds { TakesMark (Took K.written K.faults K.goes_on W.saw self.old)
            (Took K.written K.faults K.goes_on W.saw self.new) instance mark }
        ensures instances { instances_of self.new ≡ instances_of self.old }
        ensures cause { HasCause (stops_of self.old) (stops_of self.new) result }
        ensures going { Goes true self.old → Goes (is_ok result) self.new }
        ensures origin { SameOrigin W.origin self.old self.new }
        ensures merges { OnOk result (merges_in self.new ≡ merges_in self.old) }
        ensures ok { OnOk result (cause_of self.new ≡ None) }
        ensures why { OnErr result (StopsFor (cause_of self.new)
            (K.faults (sink_of self.old)) (K.faults (sink_of self.new))) }
        ensures faults { OnOk result
            (K.faults (sink_of self.new) ≡ K.faults (sink_of self.old)) }
    {
        match write_wanted(self.stack, instance, mark, self.sink) {
            Ok(()) => Ok(()),
            Err(Failed) => stop(
                &mut self.cause,
                &mut self.stops,
                &mut self.merges,
                ListStop::Write,
            ),
        }
    }

    // Takes a mark that doesn't go to the merge.
    #[inline(never)]
    fn take_apart(&mut self, instance: u32, mark: Mark) -> Result<(), Stopped>
        requires within { instance < instances_of self.old }
        requires apart { merges_in self.old ≡ false }
        ensures adds { TakesMark (Took K.written K.faults K.goes_on W.saw self.old)
            (Took K.written K.faults K.goes_on W.saw self.new) instance mark }
        ensures instances { instances_of self.new ≡ instances_of self.old }
        ensures cause { HasCause (stops_of self.old) (stops_of self.new) result }
        ensures going { Goes true self.old → Goes (is_ok result) self.new }
        ensures origin { SameOrigin W.origin self.old self.new }
        ensures still { OnOk result (merges_in self.new ≡ false) }
        ensures ok { OnOk result (cause_of self.new ≡ None) }
        ensures why { cause_of self.old ≡ None → OnErr result (StopsFor (cause_of self.new)
            (K.faults (sink_of self.old)) (K.faults (sink_of self.new))) }
        ensures after { IsSome (cause_of self.old) → StaysStopped self.old self.new result }
        ensures faults { OnOk result
            (K.faults (sink_of self.new) ≡ K.faults (sink_of self.old)) }
    {
        if self.cause.is_some() {
            return stop_again(&mut self.stops);
        }
        self.take_data(instance, mark)
    }

    // The same, where there is a mark.
    #[inline(always)]
    fn some_apart(&mut self, instance: u32, mark: Option<Mark>) -> Result<(), Stopped>
        requires within { instance < instances_of self.old }
        requires apart { merges_in self.old ≡ false }
        ensures adds { TakesMarks (Took K.written K.faults K.goes_on W.saw self.old)
            (Took K.written K.faults K.goes_on W.saw self.new) instance (list_of mark) }
        ensures some { OnErr result (list_of mark ≢ []) }
        ensures apart { OnOk result (merges_in self.new ≡ false) }
        ensures instances { instances_of self.new ≡ instances_of self.old }
        ensures cause { HasCause (stops_of self.old) (stops_of self.new) result }
        ensures going { Goes true self.old → Goes (is_ok result) self.new }
        ensures origin { SameOrigin W.origin self.old self.new }
        ensures ok { OnOk result (cause_of self.new ≡ cause_of self.old) }
        ensures why { cause_of self.old ≡ None → OnErr result (StopsFor (cause_of self.new)
            (K.faults (sink_of self.old)) (K.faults (sink_of self.new))) }
        ensures after { IsSome (cause_of self.old)
            → OnErr result (StaysStopped self.old self.new result) }
        ensures faults { OnOk result
            (K.faults (sink_of self.new) ≡ K.faults (sink_of self.old)) }
        ensures same { IsSome (cause_of self.old) → OnOk result (self.new ≡ self.old) }
        ensures none { IsSome (cause_of self.old) → OnOk result (list_of mark ≡ []) }
    {
        match mark {
            Some(mark) => self.take_apart(instance, mark),
            None => Ok(()),
        }
    }

    // Takes the notes and the pieces among outputs where they don't go to the merge.
    #[inline(never)]
    fn outs_apart(&mut self, instance: u32, outs: &[Out]) -> Result<(), Stopped>
        requires within { instance < instances_of self.old }
        requires apart { merges_in self.old ≡ false }
        ensures adds { TakesFront (is_ok result)
            (Took K.written K.faults K.goes_on W.saw self.old)
            (Took K.written K.faults K.goes_on W.saw self.new) instance (marks_of outs.now) }
        ensures instances { instances_of self.new ≡ instances_of self.old }
        ensures cause { HasCause (stops_of self.old) (stops_of self.new) result }
        ensures going { Goes true self.old → Goes (is_ok result) self.new }
        ensures origin { SameOrigin W.origin self.old self.new }
        ensures ok { OnOk result (cause_of self.new ≡ cause_of self.old) }
        ensures why { cause_of self.old ≡ None → OnErr result (StopsFor (cause_of self.new)
            (K.faults (sink_of self.old)) (K.faults (sink_of self.new))) }
        ensures after { IsSome (cause_of self.old)
            → OnErr result (StaysStopped self.old self.new result) }
        ensures none { IsSome (cause_of self.old) → OnOk result (marks_of outs.now ≡ []) }
    {
        for out in outs {
            match self.some_apart(instance, mark_of(out)) {
                Ok(()) => {}
                Err(Stopped) => return Err(Stopped),
            }
        }
        Ok(())
    }

    // Takes marks, but for ends, where they don't go to the merge.
    #[inline(never)]
    fn marks_apart(&mut self, instance: u32, marks: &[Mark]) -> Result<(), Stopped>
        requires within { instance < instances_of self.old }
        requires apart { merges_in self.old ≡ false }
        ensures adds { TakesFront (is_ok result)
            (Took K.written K.faults K.goes_on W.saw self.old)
            (Took K.written K.faults K.goes_on W.saw self.new) instance (real marks.now) }
        ensures instances { instances_of self.new ≡ instances_of self.old }
        ensures cause { HasCause (stops_of self.old) (stops_of self.new) result }
        ensures going { Goes true self.old → Goes (is_ok result) self.new }
        ensures origin { SameOrigin W.origin self.old self.new }
        ensures ok { OnOk result (cause_of self.new ≡ cause_of self.old) }
        ensures why { cause_of self.old ≡ None → OnErr result (StopsFor (cause_of self.new)
            (K.faults (sink_of self.old)) (K.faults (sink_of self.new))) }
        ensures after { IsSome (cause_of self.old)
            → OnErr result (StaysStopped self.old self.new result) }
        ensures none { IsSome (cause_of self.old) → OnOk result (real marks.now ≡ []) }
    {
        for mark in marks {
            match self.some_apart(instance, real_of(*mark)) {
                Ok(()) => {}
                Err(Stopped) => return Err(Stopped),
            }
        }
        Ok(())
    }

    /// How many notes were taken and not yet given.
    pub fn held(&self) -> u64
        ensures { result ≡ length (held_by self.now) }
    {
        self.merge.held()
    }

    /// Why nothing more is written; none exactly where neither a mark was stopped nor handing on in
    /// a pause failed.
    pub fn cause(&self) -> Option<ListStop>
        ensures { result ≡ cause_of self.now }
    {
        self.cause
    }
}

impl<'a, 'b, K: Sink, W: Watch + Drop> Lister<'a, 'b, K, W> {
    /// Takes the marks of this stack, of which none was taken yet, and writes to this sink. What
    /// looks on has seen nothing. It fails where there is no memory.
    pub fn new(
        alloc: Global,
        stack: &'a Stack,
        sink: &'b mut K,
        watch: W,
    ) -> Result<Lister<'a, 'b, K, W>, NoMemory>
        requires { W.saw watch [] }
        ensures instances { IfOk result
            (λ lister. instances_of lister ≡ length (instances_in stack.now)) }
        ensures stack { IfOk result (λ lister. stack_of lister ≡ stack.now) }
        ensures first { IfOk result (λ lister. first_sink lister ≡ sink.old) }
        ensures same { IfOk result
            (λ lister. (first_of lister).ghost_name ≡ sink.entry.ghost_name) }
        ensures watch { IfOk result (λ lister. watch_of lister ≡ watch) }
        ensures goes { IfOk result (λ lister. Goes true lister) }
        ensures never { IfOk result (λ lister. stops_of lister ≡ 0) }
        ensures took { IfOk result
            (λ lister. Took K.written K.faults K.goes_on W.saw lister (λ _. [])) }
    {
        match Merge::new(alloc, stack.count()) {
            Ok(merge) => Ok(Lister::over(stack, merge, sink, watch)),
            Err(NoMemory) => Err(NoMemory),
        }
    }
}

impl<'a, 'b, K: Sink, W: Watch> MarkTake for Lister<'a, 'b, K, W> {
    ghost use Rattle.note_lister.specs.Taking.{Goes, Took, instances_of, origin_of};

    type Origin = (&'a Stack, Snapshot<&'b mut K>, W::Origin);

    ghost instances = { λ lister. instances_of lister };

    ghost took = { λ lister marks. Took K.written K.faults K.goes_on W.saw lister marks };

    ghost stops = { λ lister. lister.stops };

    ghost going = { λ lister still. Goes still lister };

    ghost origin = { λ lister. origin_of W.origin lister };

    /// Takes the next mark of an instance. Once there is a cause, it stops at each mark, and writes
    /// nothing.
    #[inline(always)]
    fn take(&mut self, instance: u32, mark: Mark) -> Result<(), Stopped>
        requires { instance < instances_of self.old }
        ensures adds { TakesMark (Took K.written K.faults K.goes_on W.saw self.old)
            (Took K.written K.faults K.goes_on W.saw self.new) instance mark }
        ensures instances { instances_of self.new ≡ instances_of self.old }
        ensures cause { HasCause (stops_of self.old) (stops_of self.new) result }
        ensures going { Goes true self.old → Goes (is_ok result) self.new }
        ensures origin { SameOrigin W.origin self.old self.new }
        ensures ok { OnOk result (cause_of self.new ≡ None) }
        ensures why { cause_of self.old ≡ None → OnErr result (StopsFor (cause_of self.new)
            (K.faults (sink_of self.old)) (K.faults (sink_of self.new))) }
        ensures after { IsSome (cause_of self.old) → StaysStopped self.old self.new result }
    {
        if self.merges {
            self.take_mark(instance, mark)
        } else {
            self.take_apart(instance, mark)
        }
    }

    /// The same of the notes and the pieces among outputs: all lines that may be written then are
    /// written together.
    #[inline(always)]
    fn take_outs(&mut self, instance: u32, outs: &[Out]) -> Result<(), Stopped>
        requires { instance < instances_of self.old }
        ensures adds { TakesFront (is_ok result)
            (Took K.written K.faults K.goes_on W.saw self.old)
            (Took K.written K.faults K.goes_on W.saw self.new) instance (marks_of outs.now) }
        ensures instances { instances_of self.new ≡ instances_of self.old }
        ensures cause { HasCause (stops_of self.old) (stops_of self.new) result }
        ensures going { Goes true self.old → Goes (is_ok result) self.new }
        ensures origin { SameOrigin W.origin self.old self.new }
        ensures ok { OnOk result (cause_of self.new ≡ cause_of self.old) }
        ensures why { cause_of self.old ≡ None → OnErr result (StopsFor (cause_of self.new)
            (K.faults (sink_of self.old)) (K.faults (sink_of self.new))) }
        ensures after { IsSome (cause_of self.old)
            → OnErr result (StaysStopped self.old self.new result) }
        ensures none { IsSome (cause_of self.old) → OnOk result (marks_of outs.now ≡ []) }
    {
        if self.merges {
            self.list_outs(instance, outs)
        } else {
            self.outs_apart(instance, outs)
        }
    }

    /// The same of marks, but for ends.
    #[inline(always)]
    fn take_marks(&mut self, instance: u32, marks: &[Mark]) -> Result<(), Stopped>
        requires { instance < instances_of self.old }
        ensures adds { TakesFront (is_ok result)
            (Took K.written K.faults K.goes_on W.saw self.old)
            (Took K.written K.faults K.goes_on W.saw self.new) instance (real marks.now) }
        ensures instances { instances_of self.new ≡ instances_of self.old }
        ensures cause { HasCause (stops_of self.old) (stops_of self.new) result }
        ensures going { Goes true self.old → Goes (is_ok result) self.new }
        ensures origin { SameOrigin W.origin self.old self.new }
        ensures ok { OnOk result (cause_of self.new ≡ cause_of self.old) }
        ensures why { cause_of self.old ≡ None → OnErr result (StopsFor (cause_of self.new)
            (K.faults (sink_of self.old)) (K.faults (sink_of self.new))) }
        ensures after { IsSome (cause_of self.old)
            → OnErr result (StaysStopped self.old self.new result) }
        ensures none { IsSome (cause_of self.old) → OnOk result (real marks.now ≡ []) }
    {
        if self.merges {
            self.list_marks(instance, marks)
        } else {
            self.marks_apart(instance, marks)
        }
    }

    /// Has the sink hand on what it keeps back, and then what looks on. It stops where the sink fails.
    fn pause(&mut self) -> Result<(), Stopped>
        ensures took { (marks : ℕ → List MarkIs)
            → Took K.written K.faults K.goes_on W.saw self.old marks
            → Took K.written K.faults K.goes_on W.saw self.new marks }
        ensures instances { instances_of self.new ≡ instances_of self.old }
        ensures cause { HasCause (stops_of self.old) (stops_of self.new) result }
        ensures going { Goes true self.old → Goes (is_ok result) self.new }
        ensures origin { SameOrigin W.origin self.old self.new }
        ensures ok { OnOk result (cause_of self.new ≡ None) }
        ensures why { cause_of self.old ≡ None → OnErr result
            ((cause_of self.new ≡ Some ListStop.Write)
            × Rose (K.faults (sink_of self.old)) (K.faults (sink_of self.new))) }
        ensures after { IsSome (cause_of self.old) → StaysStopped self.old self.new result }
    {
        if self.cause.is_some() {
            return stop_again(&mut self.stops);
        }
        match self.sink.hand_on() {
            Ok(()) => {
                self.watch.pause();
                Ok(())
            }
            Err(Failed) => stop(
                &mut self.cause,
                &mut self.stops,
                &mut self.merges,
                ListStop::Write,
            ),
        }
    }
}
