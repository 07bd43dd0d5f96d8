//! Runs work scripts on queued lines whose kind the caller chooses.
ghost use Rattle.std.specs.Prelude.{◌≡◌, ℕ, Err, IfOk, IfErr};
ghost use Rattle.qolb_work.specs.Workers.{MayStop};
ghost use Rattle.qolb_work.specs.Reports.{IsReportOf};
ghost use Rattle.qolb_work.specs.BankWork.{IsBankedOver};
ghost use Rattle.qolb_work.specs.BoardWork.{IsBoardedOver};
ghost use Rattle.qolb_run.specs.Kinds.{lock_of};

use crate::each_lock::{KindSpec, Lines, Locks};
use line_accounts::AccountLaw;
use line_board::BoardLaw;
use line_generic::{Discipline, Line};
use line_kinds::{Lock, for_kind};
use qolb_model::LineSync;
use qolb_script::{Report, Work};
use qolb_work::{Gate, RunError, WaitMode, run_work_over};
use std::alloc::Global;
use std::sync::Wait;
use std::thread::Threads;

/// Does the jobs of a work script, with a thread for each worker.
///
/// Every line is opened with zeros, and is finished once all workers have done their jobs. The call allocates memory,
/// and blocks until all its threads have ended. A worker that waits for its turn polls in a loop; with `run_work_with`,
/// workers can sleep instead.
pub fn run_work<R: Threads + Wait + Sync, G: Gate + Sync>(
    rt: &R,
    alloc: Global,
    gate: &G,
    work: &Work,
    lines: Lines,
) -> Result<Report, RunError>
    ensures report { IfOk result (IsReportOf work.now) }
    ensures over { IfOk result (⟦<Locks as KindSpec>⟧.done_over (lock_of lines) work.now) }
    ensures stalled { IfErr result (MayStop work.now) }
    ensures by_gate { (worker : ℕ) → result ≡ Err (RunError.Stalled worker)
        → G.may_refuse gate.now worker }
{
    run_work_with(rt, alloc, gate, work, lines.lock(), WaitMode::Awake)
}

/// Does the jobs as `run_work` does, but over lines of any lock. `waits` says how the workers wait.
pub fn run_work_with<R: Threads + Wait + Sync, G: Gate + Sync>(
    rt: &R,
    alloc: Global,
    gate: &G,
    work: &Work,
    lock: Lock,
    waits: WaitMode,
) -> Result<Report, RunError>
    ensures report { IfOk result (IsReportOf work.now) }
    ensures over { IfOk result (⟦<Locks as KindSpec>⟧.done_over lock work.now) }
    ensures stalled { IfErr result (MayStop work.now) }
    ensures by_gate { (worker : ℕ) → result ≡ Err (RunError.Stalled worker)
        → G.may_refuse gate.now worker }
{
    for_kind!(lock, run_work_by, [R, G], (rt, alloc, gate, work, waits))
}

/// Does the jobs over lines of the queue algorithm `Q`.
fn run_work_by<
    R: Threads + Wait + Sync,
    G: Gate + Sync,
    Q: Discipline<BoardLaw> + Discipline<AccountLaw> + Send + Sync,
>(rt: &R, alloc: Global, gate: &G, work: &Work, waits: WaitMode) -> Result<Report, RunError>
    ensures report { IfOk result (IsReportOf work.now) }
    ensures boarded { let board = ⟦<Line<BoardLaw, Q> as LineSync<BoardLaw>>⟧ in
        IfOk result (IsBoardedOver board.belongs board.view board.config_of work.now) }
    ensures banked { let bank = ⟦<Line<AccountLaw, Q> as LineSync<AccountLaw>>⟧ in
        IfOk result (IsBankedOver bank.belongs bank.view bank.config_of work.now) }
    ensures stalled { IfErr result (MayStop work.now) }
    ensures by_gate { (worker : ℕ) → result ≡ Err (RunError.Stalled worker)
        → G.may_refuse gate.now worker }
{
    run_work_over::<R, G, Line<BoardLaw, Q>, Line<AccountLaw, Q>>(rt, alloc, gate, work, waits)
}
