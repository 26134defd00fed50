// Several links that each get the same row.
ghost use Rattle.std.specs.Prelude.{◌≡◌, ◌≤◌, List, length, map, vec_len};
ghost use Rattle.stage_ring.specs.Link.{sent, tx_link};
ghost use Rattle.stage_crew.specs.Fans.{Fans};

use stage_ring::Tx;

/// How far a row was handed out: all of it to the links before the place `child`, and `given` of it
/// to the one there.
#[derive(Clone, Copy, PartialEq, Eq)]
pub(crate) struct Cursor {
    pub(crate) child: usize,
    pub(crate) given: usize,
}

/// Hands out as much of a row as the next link has room for.
#[inline]
pub(crate) fn hand_out<T: Copy + Send>(ends: &mut Vec<Tx<T>>, row: &[T], so_far: Cursor) -> Cursor
    requires within { so_far.given ≤ length row.now }
    ensures links { map tx_link ends.new.items ≡ map tx_link ends.old.items }
    ensures len { vec_len ends.new ≡ vec_len ends.old }
    ensures within { result.given ≤ length row.now }
    ensures fans { (all : List T) → Fans (map sent ends.old.items) row.now so_far all
        → Fans (map sent ends.new.items) row.now result all }
{
    let Cursor { child, given } = so_far;
    if child >= ends.len() {
        return so_far;
    }
    let given = given + ends[child].offer_some(&row[given..]);
    if given == row.len() {
        Cursor {
            child: child + 1,
            given: 0,
        }
    } else {
        Cursor { child, given }
    }
}
