//! Measures the toolchain's mutex with 64 bytes in it: each thread repeatedly locks the mutex, adds 1, and unlocks it.
use crate::run::RunError;
use line_blocking::scoped::{ScopedTask, run_scoped};
use line_lanes::{Line64, lane, set_lane};
use std::alloc::Global;
use std::sync::{Mutex, Wait};
use std::thread::Threads;

/// The task of each thread: `rounds` rounds.
#[derive(Drop)]
struct MutexRounds {
    rounds: u64,
}

impl<R: Wait> ScopedTask<R, Mutex<Line64>, ()> for MutexRounds {
    type Output = ();

    ghost pre = { λ _ _ _ _. Unit {0} };

    ghost post = { λ _ _ _ _. Unit {0} };

    fn work(&self, rt: &R, shared: &Mutex<Line64>, _place: usize, _part: ()) {
        for _ in 0..self.rounds {
            let mut guard = shared.lock(rt);
            add_one(&mut guard);
        }
    }
}

/// Adds 1 to the first lane.
#[inline]
pub(crate) fn add_one(line: &mut Line64) {
    let next = lane(line, 0).wrapping_add(1);
    set_lane(line, 0, next);
}

/// Runs `rounds` rounds with each of `threads` threads. Returns the line's last bytes.
pub fn run_mutex<R: Threads + Wait + Sync>(
    rt: &R,
    alloc: Global,
    threads: usize,
    rounds: u64,
) -> Result<Line64, RunError> {
    let shared = Mutex::new(Line64::zero());
    let Ok(parts) = Vec::from_elem(alloc, (), threads) else {
        return Err(RunError::Refused);
    };
    run_scoped(rt, alloc, &MutexRounds { rounds }, &shared, parts).ok_or(RunError::Refused)?;
    Ok(shared.into_inner())
}
