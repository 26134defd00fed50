// Marks that are pushed to a merge together.
ghost use Rattle.std.specs.Prelude.{◌≡◌, ◌<◌, ◌∷◌, [], IfOk, List, OnErr, OnOk, false};
ghost use Rattle.tree_io.specs.Feeds.{marks_of, real};
ghost use Rattle.annot_merge.specs.Held.{count_of};
ghost use Rattle.note_lister.specs.Pushing.{PushesFront, PushesMarks, TellsSome, list_of};

use annot_merge::Merge;
use la_base::{Mark, NoMemory, Out};

// The mark that an output is, if it is one.
#[inline(always)]
pub fn mark_of(out: &Out) -> Option<Mark>
    ensures { list_of result ≡ marks_of (out.now ∷ []) }
{
    match out {
        Out::Note(note) => Some(Mark::Note(*note)),
        Out::Piece(piece) => Some(Mark::Piece(*piece)),
        Out::Packet(_) => None,
    }
}

// A mark, unless it is an end.
#[inline(always)]
pub fn real_of(mark: Mark) -> Option<Mark>
    ensures { list_of result ≡ real (mark ∷ []) }
{
    match mark {
        Mark::Note(note) => Some(Mark::Note(note)),
        Mark::Piece(piece) => Some(Mark::Piece(piece)),
        Mark::Floor(start) => Some(Mark::Floor(start)),
        Mark::End => None,
    }
}

// Pushes a mark, where there is one, and answers whether there is one now or was before.
#[inline(always)]
fn push_some(
    merge: &mut Merge,
    instance: u32,
    mark: Option<Mark>,
    some: bool,
) -> Result<bool, NoMemory>
    requires { instance < count_of merge.old }
    ensures count { count_of merge.new ≡ count_of merge.old }
    ensures pushes { OnOk result (PushesMarks merge.old merge.new instance (list_of mark)) }
    ensures some { IfOk result
        (λ now. TellsSome some now merge.old merge.new (list_of mark)) }
    ensures front { OnErr result (PushesFront merge.old merge.new instance (list_of mark)) }
{
    match mark {
        Some(mark) => match merge.push(instance, mark) {
            Ok(()) => Ok(true),
            Err(NoMemory) => Err(NoMemory),
        },
        None => Ok(some),
    }
}

/// Pushes the notes and the pieces among outputs of an instance, and answers whether there were some.
/// At `NoMemory` those before a note were pushed.
#[inline(always)]
pub fn push_outs(merge: &mut Merge, instance: u32, outs: &[Out]) -> Result<bool, NoMemory>
    requires { instance < count_of merge.old }
    ensures count { count_of merge.new ≡ count_of merge.old }
    ensures pushes { OnOk result (PushesMarks merge.old merge.new instance (marks_of outs.now)) }
    ensures some { IfOk result
        (λ some. TellsSome false some merge.old merge.new (marks_of outs.now)) }
    ensures front { OnErr result (PushesFront merge.old merge.new instance (marks_of outs.now)) }
{
    let mut some = false;
    for out in outs {
        match push_some(merge, instance, mark_of(out), some) {
            Ok(now) => some = now,
            Err(NoMemory) => return Err(NoMemory),
        }
    }
    Ok(some)
}

/// The same of marks, but for ends.
#[inline(always)]
pub fn push_marks(merge: &mut Merge, instance: u32, marks: &[Mark]) -> Result<bool, NoMemory>
    requires { instance < count_of merge.old }
    ensures count { count_of merge.new ≡ count_of merge.old }
    ensures pushes { OnOk result (PushesMarks merge.old merge.new instance (real marks.now)) }
    ensures some { IfOk result (λ some. TellsSome false some merge.old merge.new (real marks.now)) }
    ensures front { OnErr result (PushesFront merge.old merge.new instance (real marks.now)) }
{
    let mut some = false;
    for mark in marks {
        match push_some(merge, instance, real_of(*mark), some) {
            Ok(now) => some = now,
            Err(NoMemory) => return Err(NoMemory),
        }
    }
    Ok(some)
}
