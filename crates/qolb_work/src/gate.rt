//! A gate decides when a worker may start its next job.
ghost use Rattle.std.specs.Prelude.{◌≡◌, ℕ, false};

use std::thread::yield_now;

/// The number of times that a gate may refuse a worker before the same job.
///
/// After this number of refusals, the worker gives up.
pub const MAX_REFUSALS: u32 = 1_000_000;

/// Decides when a worker may start its next job.
pub trait Gate {
    /// `may_refuse gate worker` says that the gate may refuse this worker.
    ///
    /// A gate that does not define `may_refuse` may refuse every worker.
    ghost may_refuse: { Self → ℕ → Type 0 } = { λ gate worker. Unit {0} };

    /// Tells the gate the number of all jobs.
    ///
    /// The call comes once, before the workers begin. By default, it does nothing.
    fn begins(&self, _jobs: usize) {}

    /// Returns `true` if the worker may start job number `at`. The jobs of each worker are counted from 0.
    ///
    /// A worker that is refused yields its processor and asks again. After its last job, a worker asks once more, with
    /// the number of its jobs as `at`, and ignores the answer.
    fn may(&self, worker: u64, at: u64) -> bool
        ensures { result ≡ false → may_refuse self.now worker };
}

/// A gate that refuses no worker.
#[derive(Clone, Copy, Debug)]
pub struct AlwaysOpen;

impl Gate for AlwaysOpen {
    ghost may_refuse = { λ gate worker. ⊥ };

    fn may(&self, _worker: u64, _at: u64) -> bool {
        true
    }
}

/// Asks the gate until the worker may start its job. Returns `false` if the gate has refused `MAX_REFUSALS` times.
pub(crate) fn passes<G: Gate>(gate: &G, worker: u64, at: u64) -> bool
    ensures { result ≡ false → G.may_refuse gate.now worker }
{
    for _refusals in 0..MAX_REFUSALS {
        if gate.may(worker, at) {
            return true;
        }
        yield_now();
    }
    false
}
