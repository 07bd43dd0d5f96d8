//! Measures a fair lock that protects 64 bytes: each thread repeatedly enters the lock, adds 1, and leaves.
use crate::mutex::add_one;
use crate::run::RunError;
use fair_lock::FairLock;
use line_blocking::scoped::{ScopedTask, run_scoped};
use line_lanes::Line64;
use std::alloc::Global;
use std::sync::Wait;
use std::thread::Threads;

/// The task of each thread: `rounds` rounds, or fewer if the lock is shut.
#[derive(Drop)]
struct FairRounds {
    rounds: u64,
}

impl<R: Wait> ScopedTask<R, FairLock<Line64>, ()> for FairRounds {
    type Output = ();

    ghost pre = { λ _ _ _ _. Unit {0} };

    ghost post = { λ _ _ _ _. Unit {0} };

    fn work(&self, rt: &R, shared: &FairLock<Line64>, _place: usize, _part: ()) {
        for _ in 0..self.rounds {
            let Ok(mut guard) = shared.enter(rt) else {
                return;
            };
            add_one(guard.value_mut());
            guard.leave(rt);
        }
    }
}

/// Runs `rounds` rounds with each of `threads` threads, in a strict lock or with this barging limit. Returns the line's
/// last bytes.
pub fn run_fair<R: Threads + Wait + Sync>(
    rt: &R,
    alloc: Global,
    threads: usize,
    rounds: u64,
    barging_limit: Option<u16>,
) -> Result<Line64, RunError> {
    let made = match barging_limit {
        Some(limit) => FairLock::with_barging(alloc, limit, Line64::zero()),
        None => FairLock::new(alloc, Line64::zero()),
    };
    let Ok(shared) = made else {
        return Err(RunError::Refused);
    };
    let Ok(parts) = Vec::from_elem(alloc, (), threads) else {
        return Err(RunError::Refused);
    };
    run_scoped(rt, alloc, &FairRounds { rounds }, &shared, parts).ok_or(RunError::Refused)?;
    Ok(shared.into_inner())
}
