// The outputs of one step, as what is kept for the links.
ghost use Rattle.std.specs.Prelude.{◌≡◌, ◌≤◌, ◌+◌, ◌++◌, length};
ghost use Rattle.tree_io.specs.Feeds.{marks_of};
ghost use Rattle.stack_laws.specs.Feeds.{feeds_of};

use crate::row::Row;
use la_base::{Feed, Mark, Out};

/// Keeps the notes and pieces.
#[inline]
pub(crate) fn keep_marks(marks: &mut Row<Mark>, outs: &[Out])
    requires { length marks.old.list + length outs.now ≤ 64 }
    ensures list { marks.new.list ≡ marks.old.list ++ marks_of outs.now }
    ensures at { marks.new.at ≡ marks.old.at }
    ensures few { length marks.new.list ≤ length marks.old.list + length outs.now }
{
    for out in outs {
        match *out {
            Out::Note(note) => marks.push(Mark::Note(note)),
            Out::Piece(piece) => marks.push(Mark::Piece(piece)),
            Out::Packet(_) => (),
        }
    }
}

/// Keeps the packets.
#[inline]
pub(crate) fn keep_feeds(feeds: &mut Row<Feed>, outs: &[Out])
    requires { length feeds.old.list + length outs.now ≤ 64 }
    ensures list { feeds.new.list ≡ feeds.old.list ++ feeds_of outs.now }
    ensures at { feeds.new.at ≡ feeds.old.at }
    ensures few { length feeds.new.list ≤ length feeds.old.list + length outs.now }
{
    for out in outs {
        if let Out::Packet(packet) = *out {
            feeds.push(Feed::Packet(packet));
        }
    }
}
