//! Runs each worker in a thread of its own, and collects the workers' states when the threads have ended.
ghost use Rattle.std.specs.Prelude.{◌≡◌, ◌+◌, ◌++◌, ◌∷◌, [], ◌<◌, ◌≤◌, ℕ, List, All, IfSome, IfOk, IfErr, MatchOption, Some, length, map, vec_len, vec_capacity};
ghost use Rattle.qolb_script.specs.declared.job.Job.{Job};
ghost use Rattle.qolb_script.specs.declared.schedule.TheConstants.{MAX_COMMANDS};
ghost use Rattle.qolb_model.specs.declared.config.TheConstants.{MAX_NODES};
ghost use Rattle.qolb_work.specs.Jobs.{jobs_of};
ghost use Rattle.qolb_work.specs.Workers.{AreBack, AreFresh, AreRefused, HasEnded, IsFirstGone};

use crate::gate::{Gate, passes};
use crate::work::RunError;
use line_blocking::scoped;
use qolb_script::{Job, Work};
use std::alloc::Global;
use std::sync::Wait;
use std::thread::Threads;

/// The number of times that a worker polls for its turn before it withdraws its request and tries again.
pub(crate) const PATIENCE: u64 = 64;

/// How a worker's job ended.
#[derive(Clone, Copy, Debug, PartialEq, Eq)]
pub(crate) enum JobOutcome {
    /// The worker has done the job.
    Done,
    /// The worker was told that a line is closed, and did not do the job.
    Told,
}

/// A place where workers do jobs: a board, or a bank.
pub(crate) trait JobTarget {
    /// The state that each worker owns: its ports and its counts.
    type WorkerState;

    /// `has_done target worker state jobs` says that the worker, in this state, has done these jobs at this place.
    ghost has_done: { Self → ℕ → Self.WorkerState → List Job → Type 0 };

    /// `was_told target worker state` says that the worker, in this state, was told that a line is closed.
    ///
    /// The line is one of this place.
    ghost was_told: { Self → ℕ → Self.WorkerState → Type 0 };

    /// `takes target job` says that the job is of a kind that this place can do.
    ghost takes: { Self → Job → Type 0 };

    /// Does one job. Blocks until the lines of the job are granted, or a line is closed.
    fn run_job<R: Wait>(&self, rt: &R, hand: &mut Self::WorkerState, job: &Job) -> JobOutcome
        requires takes { takes self.now job.now }
        requires done { (worker : ℕ) × (done : List Job) × has_done self.now worker hand.old done
            × (length done < MAX_COMMANDS) }
        ensures done { result ≡ JobOutcome.Done → (worker : ℕ) (done : List Job)
            → has_done self.now worker hand.old done
            → has_done self.now worker hand.new (done ++ job.now ∷ []) }
        ensures told { result ≡ JobOutcome.Told → (worker : ℕ) (done : List Job)
            → has_done self.now worker hand.old done → was_told self.now worker hand.new };
}

/// The task of each worker's thread, which is to do the worker's jobs. Each job begins once the gate allows it.
#[derive(Drop)]
struct Jobs<'a, G> {
    gate: &'a G,
    work: &'a Work,
}

impl<R: Wait, G: Gate, S: JobTarget> scoped::ScopedTask<R, S, S::WorkerState> for Jobs<'_, G>
where
    S::WorkerState: Drop,
{
    type Output = Option<S::WorkerState>;

    ghost pre = { λ jobs site place hand. S.has_done site (place + 1) hand []
        × All (S.takes site) jobs.work.now.jobs };

    ghost post = { λ jobs site place back.
        MatchOption back (G.may_refuse jobs.gate.now (place + 1)) (λ hand.
        HasEnded S.has_done S.was_told site (place + 1) hand
        (jobs_of (place + 1) jobs.work.now.jobs)) };

    fn work(&self, rt: &R, site: &S, place: usize, hand: S::WorkerState) -> Option<S::WorkerState> {
        let number = place as u64 + 1;
        run_jobs(rt, self.gate, site, self.work, number, hand)
    }
}

/// The states of all workers, whose threads have been joined. A worker that gave up has `None`.
///
/// This type is linear: it is not `Drop`, and only `all_done` takes it apart. `all_done` moves the states into memory
/// that was allocated before the threads ran. Therefore, once the threads are joined, an error that names the worker
/// that gave up cannot be replaced by an out-of-memory error.
pub(crate) struct Joined<H> {
    back: Vec<Option<H>>,
}

/// Runs a thread for each worker, and joins the threads. Allocates memory, and blocks until all threads have ended.
///
/// Returns `None` if a memory allocation or the start of a thread was refused. All threads that were started have ended
/// by then.
pub(crate) fn run_workers<R: Threads + Wait + Sync, G: Gate + Sync, S: JobTarget + Sync>(
    rt: &R,
    alloc: Global,
    gate: &G,
    site: &S,
    work: &Work,
    hands: Vec<S::WorkerState>,
) -> Option<Joined<S::WorkerState>>
where
    S::WorkerState: Send + Drop,
    requires fresh { AreFresh S.has_done site.now hands.items }
    requires takes { All (S.takes site.now) work.now.jobs }
    ensures len { IfSome result (λ joined. vec_len joined.back ≡ vec_len hands) }
    ensures back { IfSome result (λ joined.
        AreBack (HasEnded S.has_done S.was_told) site.now work.now.jobs joined.back.items) }
    ensures refused { IfSome result (λ joined.
        AreRefused (G.may_refuse gate.now) joined.back.items) }
{
    let jobs = Jobs { gate, work };
    let back = scoped::run_scoped(rt, alloc, &jobs, site, hands)?;
    Some(Joined { back })
}

/// Does the jobs of one worker in order, until all are done or a line is closed. Before each job, it asks the gate.
///
/// Returns `None` if the worker gave up because the gate refused it too often.
fn run_jobs<R: Wait, G: Gate, S: JobTarget>(
    rt: &R,
    gate: &G,
    site: &S,
    work: &Work,
    number: u64,
    hand: S::WorkerState,
) -> Option<S::WorkerState>
where
    S::WorkerState: Drop,
    requires fresh { S.has_done site.now number hand [] }
    requires takes { All (S.takes site.now) work.now.jobs }
    ensures { MatchOption result (G.may_refuse gate.now number) (λ hand.
        HasEnded S.has_done S.was_told site.now number hand (jobs_of number work.now.jobs)) }
{
    let mut hand = hand;
    let mut at = 0u64;
    for job in work.jobs() {
        if job.worker() == number {
            if !passes(gate, number, at) {
                return None;
            }
            match site.run_job(rt, &mut hand, job) {
                JobOutcome::Done => at += 1,
                JobOutcome::Told => return Some(hand),
            }
        }
    }
    let _ = gate.may(number, at);
    Some(hand)
}

/// Moves the states of all workers into `room` and returns them.
///
/// If a worker gave up, returns an error that names the first such worker.
pub(crate) fn all_done<H: Drop>(joined: Joined<H>, room: Vec<H>) -> Result<Vec<H>, RunError>
    requires empty { room.items ≡ [] }
    requires room { vec_len joined.back ≤ vec_capacity room }
    requires in_range { vec_len joined.back ≤ MAX_NODES }
    ensures all { IfOk result (λ hands. map Some hands.items ≡ joined.back.items) }
    ensures stalled { IfErr result (IsFirstGone joined.back.items) }
{
    let Joined { back } = joined;
    let mut hands = room;
    for hand in back {
        let number = hands.len() as u64 + 1;
        let Some(hand) = hand else {
            return Err(RunError::Stalled(number));
        };
        if hands.push(hand).is_err() {
            // The caller made `room` large enough for the states of all workers.
            unreachable!();
        }
    }
    Ok(hands)
}
