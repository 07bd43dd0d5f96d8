//! Counts the polls of a port. The count is ghost state, which exists only in proofs.
ghost use Rattle.std.specs.Prelude.{◌≡◌, ℕ, ◌+◌};
ghost use Rattle.std.specs.Borrow.{ftrue};

use std::marker::Model;

/// A ghost counter of polls. It has no bytes, and its methods do nothing at run time.
///
/// Each port has one counter, which `poll` increments. A contract over any line can therefore bound a caller's polls:
/// the caller polls at most as often as its patience allows, and exactly that often if the answer is late.
#[derive(Drop)]
pub struct PollCount {
    /// The number of polls.
    pub ghost count: { ℕ },
}

impl Model for PollCount {
    ghost also_owns = { λ _. ftrue };
}

// The counter owns nothing, so it can be sent to another thread.
unsafe impl Send for PollCount {}

impl PollCount {
    /// Returns a counter that has counted no polls.
    #[inline(always)]
    pub fn none() -> PollCount
        ensures { result.count ≡ 0 }
    {
        PollCount {}
    }

    /// Returns the counter with one more poll.
    #[inline(always)]
    pub fn and_one(&self) -> PollCount
        ensures { result.count ≡ self.now.count + 1 }
    {
        PollCount {}
    }
}
