//! Returns exclusive references to two elements of a slice.
ghost use Rattle.std.specs.Prelude.{◌≡◌, ◌<◌, length, slice_get, slice_set, Some};
ghost use Rattle.std.specs.Borrow.{sem, LendsBoth, Array};

/// Returns the elements at the places `i` and `j`, of which `i` is the lower.
pub(crate) fn pair_of<T>(items: &mut [T], i: usize, j: usize) -> (&mut T, &mut T)
    requires less { i < j }
    requires within { j < length items.old }
    ensures first { slice_get items.old i ≡ Some result.0.now }
    ensures second { slice_get items.old j ≡ Some result.1.now }
    ensures* writes_back { sem 𝓛 (LendsBoth (Array T.row 0) T.row T.row items.entry result (λ x y.
        slice_set (slice_set items.old i x) j y)) }
{
    let (front, back) = items.split_at_mut(j);
    (&mut front[i], &mut back[0])
}
