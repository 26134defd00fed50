// The last item that passes a test.
ghost use Rattle.std.specs.Prelude.{◌≡◌};
ghost use Rattle.list_cuts.specs.LastWhere.{last_where, last_that};

use crate::Test;

/// The place of the last item that passes, if any does.
pub fn last_where<T: Copy, P: Test<T>>(test: &P, list: &[T]) -> Option<usize>
    ensures { result ≡ last_where (P.passes test.now) list.now }
{
    let mut last = None;
    for (place, item) in list.iter().enumerate() {
        if test.test(item) {
            last = Some(place);
        }
    }
    last
}

/// The last item that passes, if any does.
pub fn last_that<T: Copy, P: Test<T>>(test: &P, list: &[T]) -> Option<T>
    ensures { result ≡ last_that (P.passes test.now) list.now }
{
    let mut last = None;
    for item in list {
        if test.test(item) {
            last = Some(*item);
        }
    }
    last
}
