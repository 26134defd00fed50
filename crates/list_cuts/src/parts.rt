// The parts of a list between marks.
ghost use Rattle.std.specs.Prelude.{◌≡◌, ◌∷◌, IfOk, map};
ghost use Rattle.list_cuts.specs.Parts.{before_mark, first_mark, parts, cuts, parts_between};
ghost use Rattle.list_cuts.specs.Kept.{kept};

use crate::Test;
use std::alloc::{AllocError, Global};

/// A part of a list, and what ended it: none where the list ends first.
#[derive(Drop)]
pub struct Part<T> {
    pub items: Vec<T>,
    pub ended_by: Option<T>,
}

// The items before the first mark.
fn before<'a, T: Copy, M: Test<T>>(mark: &M, list: &'a [T]) -> &'a [T]
    ensures { result.now ≡ before_mark (M.passes mark.now) list.now }
{
    for (place, item) in list.iter().enumerate() {
        if mark.test(item) {
            return &list[..place];
        }
    }
    list
}

// An item, and others behind it.
fn headed<T: Copy>(alloc: Global, head: T, others: &[T]) -> Result<Vec<T>, AllocError>
    ensures { IfOk result (λ items. items.items ≡ head ∷ others.now) }
{
    let mut items = Vec::new(alloc);
    items.push(head)?;
    items.extend_from_slice(others)?;
    Ok(items)
}

/// The parts that begin at a mark, each up to the next; what stands before the first mark is in
/// none.
pub fn parts_of<T: Copy, M: Test<T>>(
    alloc: Global,
    mark: &M,
    list: &[T],
) -> Result<Vec<Vec<T>>, AllocError>
    ensures { IfOk result
        (λ lists. map (λ part. part.items) lists.items ≡ parts (M.passes mark.now) list.now) }
{
    let mut lists = Vec::new(alloc);
    for (place, item) in list.iter().enumerate() {
        if mark.test(item) {
            let (_, behind) = list.split_at(place + 1);
            lists.push(headed(alloc, *item, before(mark, behind))?)?;
        }
    }
    Ok(lists)
}

// The items before the first that begins or ends a part, and that one.
fn up_to<'a, T: Copy, B: Test<T>, E: Test<T>>(
    begins: &B,
    ends: &E,
    list: &'a [T],
) -> (&'a [T], Option<T>)
    ensures front { result.0.now
        ≡ before_mark (cuts (B.passes begins.now) (E.passes ends.now)) list.now }
    ensures mark { result.1 ≡ first_mark (cuts (B.passes begins.now) (E.passes ends.now)) list.now }
{
    for (place, item) in list.iter().enumerate() {
        if begins.test(item) {
            return (&list[..place], Some(*item));
        }
        if ends.test(item) {
            return (&list[..place], Some(*item));
        }
    }
    (list, None)
}

/// The parts that begin at a beginning, each up to the next beginning or end; what stands between
/// an end and the next beginning is in none.
pub fn parts_between<T: Copy, B: Test<T>, E: Test<T>>(
    alloc: Global,
    begins: &B,
    ends: &E,
    list: &[T],
) -> Result<Vec<Part<T>>, AllocError>
    ensures { IfOk result
        (λ lists. map kept lists.items
        ≡ parts_between (B.passes begins.now) (E.passes ends.now) list.now) }
{
    let mut lists = Vec::new(alloc);
    for (place, item) in list.iter().enumerate() {
        if begins.test(item) {
            let (_, behind) = list.split_at(place + 1);
            let (inside, ended_by) = up_to(begins, ends, behind);
            let items = headed(alloc, *item, inside)?;
            lists.push(Part { items, ended_by })?;
        }
    }
    Ok(lists)
}
