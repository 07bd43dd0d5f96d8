//! The data invariant of the benchmark's lines: the first lane never decreases.
ghost use Rattle.bench_line.specs.NonDecreasing.{Rises, rises_by_nothing};

use qolb_model::Keep;

/// The data invariant that the first lane never decreases.
pub struct NonDecreasing;

impl Keep for NonDecreasing {
    ghost good = { λ _. Unit {0} };

    ghost allows = { Rises };

    ghost stays_good = { λ _ _ _ _. tt };

    ghost allows_same = { λ bytes _. rises_by_nothing bytes };
}
