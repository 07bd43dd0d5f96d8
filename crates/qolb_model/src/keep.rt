//! The data invariant of a line, which the program that opens the line chooses.
ghost use Rattle.std.specs.Prelude.{List, ℕ};

/// The data invariant of a line: which bytes are good, and which changes a turn may make.
pub trait Keep {
    /// The property of good bytes.
    ghost good: { List ℕ → Type 0 };

    /// The changes that a turn may make, from the old bytes to the new ones.
    ghost allows: { List ℕ → List ℕ → Type 0 };

    /// An allowed change of good bytes gives good bytes.
    ghost stays_good: { (old new : List ℕ) → good old → allows old new → good new };

    /// A turn may leave good bytes unchanged.
    ghost allows_same: { (bytes : List ℕ) → good bytes → allows bytes bytes };
}

/// The data invariant that allows every change of every byte.
pub struct Free;

impl Keep for Free {
    ghost good = { λ _. Unit {0} };

    ghost allows = { λ _ _. Unit {0} };

    ghost stays_good = { λ _ _ _ _. tt };

    ghost allows_same = { λ _ _. tt };
}
