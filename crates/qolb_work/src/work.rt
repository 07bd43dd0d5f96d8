//! Runs work scripts, in which worker threads share a task board or a bank.
ghost use Rattle.std.specs.Prelude.{◌≡◌, ℕ, Err, IfOk, IfErr};
ghost use Rattle.qolb_work.specs.declared.work.RunError.TheVariants.{Memory};
ghost use Rattle.qolb_work.specs.Workers.{MayStop};
ghost use Rattle.qolb_work.specs.Reports.{IsReportOf};
ghost use Rattle.qolb_work.specs.BankWork.{IsBankedOver};
ghost use Rattle.qolb_work.specs.BoardWork.{IsBoardedOver};

use crate::bank::run_bank;
use crate::board::run_board;
use crate::gate::Gate;
use line_accounts::AccountLaw;
use line_board::BoardLaw;
use qolb_model::{OpenLine, ParkingLine};
use qolb_script::{Report, Work, WorkKind};
use std::alloc::{AllocError, Global};
use std::sync::Wait;
use std::thread::Threads;
use thiserror::Error;

/// The reason why work has no report.
#[derive(Clone, Copy, Debug, PartialEq, Eq, Error)]
pub enum RunError {
    /// A memory allocation was refused, or a thread could not be started.
    #[error("out of memory")]
    Memory,
    /// The worker with this number gave up, and no worker with a smaller number did.
    ///
    /// A worker gives up when the gate has refused it `MAX_REFUSALS` times before the same job.
    #[error("stalled {0}")]
    Stalled(u64),
}

impl RunError {
    /// Returns the number of the error: 1 for `Memory`, 2 for `Stalled`.
    pub fn number(&self) -> u8
        ensures memory { self.now ≡ RunError.Memory → result ≡ 1 }
        ensures stalled { (worker : ℕ) → self.now ≡ RunError.Stalled worker → result ≡ 2 }
    {
        match self {
            RunError::Memory => 1,
            RunError::Stalled(_) => 2,
        }
    }
}

impl From<AllocError> for RunError {
    ghost from_gives = { λ _ error. error ≡ Memory };

    fn from(_error: AllocError) -> RunError {
        RunError::Memory
    }
}

/// How a worker waits for its turn at a line.
#[derive(Clone, Copy, Debug, Default, PartialEq, Eq)]
pub enum WaitMode {
    /// The worker polls in a loop, and yields the processor from time to time.
    #[default]
    Awake,
    /// The worker sleeps between two polls, until a release of the line wakes it.
    Asleep,
}

/// Does the jobs of a work script over lines of the given types.
///
/// A board is kept in one line of type `B`. The accounts of a bank are kept in lines of type `A`. Each worker is a node
/// with a thread of its own, and `waits` says how the worker waits for its turn. Every line is opened with zeros, and
/// is finished once all workers have done their jobs. The call allocates memory, and blocks until all threads that it
/// started have ended.
pub fn run_work_over<
    R: Threads + Wait + Sync,
    G: Gate + Sync,
    B: OpenLine<BoardLaw> + ParkingLine<BoardLaw> + Sync + Drop,
    A: OpenLine<AccountLaw> + ParkingLine<AccountLaw> + Sync + Drop,
>(rt: &R, alloc: Global, gate: &G, work: &Work, waits: WaitMode) -> Result<Report, RunError>
where
    B::Port: Send + Drop,
    A::Port: Send + Drop,
    ensures report { IfOk result (IsReportOf work.now) }
    ensures boarded { IfOk result (IsBoardedOver B.belongs B.view B.config_of work.now) }
    ensures banked { IfOk result (IsBankedOver A.belongs A.view A.config_of work.now) }
    ensures stalled { IfErr result (MayStop work.now) }
    ensures by_gate { (worker : ℕ) → result ≡ Err (RunError.Stalled worker)
        → G.may_refuse gate.now worker }
{
    gate.begins(work.jobs().len());
    match work.kind() {
        WorkKind::Board => run_board::<R, G, B>(rt, alloc, gate, work, waits),
        WorkKind::Bank => run_bank::<R, G, A>(rt, alloc, gate, work, waits),
    }
}
