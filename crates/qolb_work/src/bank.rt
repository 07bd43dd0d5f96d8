//! Runs workers that share a bank. The accounts of the bank are stored in queued lines.
ghost use Rattle.std.specs.Prelude.{◌≡◌, ◌≤◌, ℕ, [], All, Err, IfOk, IfErr, length, map, vec_len};
ghost use Rattle.qolb_script.specs.declared.schedule.TheConstants.{MAX_COMMANDS};
ghost use Rattle.qolb_model.specs.declared.config.TheConstants.{MAX_NODES};
ghost use Rattle.qolb_model.specs.Opening.{AreNodes};
ghost use Rattle.line_accounts.specs.Desks.{ArePatient, IsDeskOver};
ghost use Rattle.line_accounts.specs.Settled.{all_paid_in, all_paid_out};
ghost use Rattle.qolb_work.specs.Workers.{AreDone, AreFresh, HasEnded, MayStop, IsWithinLimits};
ghost use Rattle.qolb_work.specs.Jobs.{IsBankJob};
ghost use Rattle.qolb_work.specs.BankWork.{HasBanked, WasTold, Asks, PaysOneAmount, ArePaid, IsAmount, IsBankedOver};
ghost use Rattle.qolb_work.specs.JustOpened.{IsNewLine, work_config};
ghost use Rattle.qolb_work.specs.Reports.{IsReportOf};

use crate::gate::Gate;
use crate::open::open_line;
use crate::work::{RunError, WaitMode};
use crate::workers::{JobOutcome, JobTarget, PATIENCE, all_done, run_workers};
use line_accounts::{
    AccountLaw, Desk, OpenDesksError, Reply, SettleError, deposit, open_desks, settle, take_out,
    transfer,
};
use line_blocking::ParkOnPoll;
use qolb_model::{LineSync, OpenLine, ParkingLine, PortState};
use qolb_script::{Job, Report, Work, WorkKind};
use std::alloc::{AllocError, Global};
use std::sync::Wait;
use std::thread::{Threads, yield_now};

/// A bank, whose accounts are stored in these lines. All workers share it.
#[derive(Drop)]
pub(crate) struct Bank<L> {
    pub lines: Vec<L>,
}

impl<L: LineSync<AccountLaw>> JobTarget for Bank<L> {
    type WorkerState = Desk<L>;

    ghost has_done = { λ bank worker desk jobs.
        HasBanked L.belongs L.view L.config_of bank.lines.items worker desk jobs };

    ghost was_told = { λ bank worker desk. WasTold L.belongs L.view bank.lines.items worker desk };

    ghost takes = { λ bank job. IsBankJob (length bank.lines.items) job };

    fn run_job<R: Wait>(&self, rt: &R, desk: &mut Desk<L>, job: &Job) -> JobOutcome {
        for _ in rt.forever() {
            match try_once(&self.lines, desk, job) {
                Reply::Late | Reply::Busy => yield_now(),
                Reply::Closed => return JobOutcome::Told,
                Reply::Done | Reply::Short | Reply::Over | Reply::SameAccount => {
                    return JobOutcome::Done;
                }
                // The contract excludes jobs whose account is in no line of the bank.
                Reply::NoAccount => unreachable!(),
            }
        }
        unreachable!()
    }
}

/// Tries the job once at the desk.
///
/// `Late` and `Busy` mean that a line was not granted in time, so the job must be tried again. `Short` and `Over` are
/// outcomes of the job.
fn try_once<L: LineSync<AccountLaw>>(lines: &[L], desk: &mut Desk<L>, job: &Job) -> Reply
    requires over { IsDeskOver L.belongs L.view lines.now desk.old }
    requires kind { IsBankJob (length lines.now) job.now }
    ensures over { IsDeskOver L.belongs L.view lines.now desk.new }
    ensures asks { Asks L.view (length lines.now) job.now desk.old desk.new result }
    ensures pays { PaysOneAmount desk.old desk.new }
    ensures amount { IsAmount job.now }
    ensures patient { ArePatient L.counters PATIENCE desk.old.ports desk.new.ports }
{
    match *job {
        Job::PayIn {
            account,
            amount,
            ..
        } => deposit(lines, desk, account, amount, PATIENCE),
        Job::PayOut {
            account,
            amount,
            ..
        } => take_out(lines, desk, account, amount, PATIENCE),
        Job::Move {
            source,
            target,
            amount,
            ..
        } => transfer(lines, desk, source, target, amount, PATIENCE),
        // The contract excludes the jobs of a board.
        Job::Put { .. } | Job::Take { .. } => unreachable!(),
    }
}

/// Returns the amount that was paid in at all desks, and the amount that was paid out at all desks.
fn sum_up<L: LineSync<AccountLaw>>(desks: &[Desk<L>]) -> (u128, u128)
    requires desks { length desks.now ≤ MAX_NODES }
    requires small { All (λ desk. ArePaid MAX_COMMANDS desk) desks.now }
    ensures { (result.0 ≡ all_paid_in desks.now) × (result.1 ≡ all_paid_out desks.now) }
{
    let mut paid_in = 0u128;
    let mut paid_out = 0u128;
    for desk in desks {
        paid_in += desk.paid_in();
        paid_out += desk.paid_out();
    }
    (paid_in, paid_out)
}

/// Finishes the lines of the bank and returns the report of its work.
///
/// No worker was told that a line is closed, because no call of a bank shuts a line, and no line has a lease (a limit
/// on the number of its acquisitions).
fn finish<L: LineSync<AccountLaw> + Drop>(
    alloc: Global,
    bank: Bank<L>,
    work: &Work,
    desks: Vec<Desk<L>>,
) -> Result<Report, RunError>
where
    L::Port: Drop,
    requires kind { work.now.kind ≡ WorkKind.Bank }
    requires config { All (λ line. L.config_of line ≡ work_config work.now.workers)
        bank.lines.items }
    requires limits { IsWithinLimits work.now }
    requires lines { vec_len bank.lines ≡ work.now.lines }
    requires len { vec_len desks ≡ work.now.workers }
    requires ended { AreDone (HasEnded (HasBanked L.belongs L.view L.config_of)
        (WasTold L.belongs L.view)) bank.lines.items work.now.jobs desks.items }
    ensures report { IfOk result (IsReportOf work.now) }
    ensures banked { IfOk result (IsBankedOver L.belongs L.view L.config_of work.now) }
    ensures memory { IfErr result (λ error. error ≡ RunError.Memory) }
{
    let (paid_in, paid_out) = sum_up(desks.as_slice());
    let total = match settle(alloc, bank.lines, desks) {
        Ok(total) => total,
        Err(unsettled) => match unsettled.why {
            SettleError::Memory => return Err(RunError::Memory),
            // Each worker's desk has the port of the worker's node for every line.
            SettleError::Missing { .. } => unreachable!(),
        },
    };
    Ok(Report::Bank {
        paid_in,
        paid_out,
        total,
    })
}

/// Opens the lines of a bank, with labels from 0 on. Each line has a port for each worker.
fn open_lines<L: OpenLine<AccountLaw> + Drop>(
    alloc: Global,
    lines: u64,
    workers: u64,
) -> Result<Vec<(L, Vec<L::Port>)>, RunError>
where
    L::Port: Drop,
    requires { AreNodes workers }
    ensures memory { IfErr result (λ error. error ≡ RunError.Memory) }
    ensures len { IfOk result (λ opened. All (λ line. vec_len line.1 ≡ workers) opened.items) }
    ensures lines { IfOk result (λ opened. vec_len opened ≡ lines) }
    ensures new { IfOk result (λ opened.
        All (λ line. IsNewLine L.belongs L.view L.config_of workers line.0 line.1.items)
        opened.items) }
{
    let mut all = Vec::with_capacity(alloc, lines as usize)?;
    for label in 0..lines {
        let opened = open_line::<AccountLaw, L>(alloc, label, workers)?;
        if all.push(opened).is_err() {
            return Err(RunError::Memory);
        }
    }
    Ok(all)
}

/// Wraps each line in a `ParkOnPoll`, so that workers sleep between polls.
///
/// The order of the lines and their ports stay the same.
fn all_asleep<R: Wait, L: ParkingLine<AccountLaw> + Drop>(
    rt: &R,
    alloc: Global,
    opened: Vec<(L, Vec<L::Port>)>,
) -> Result<Vec<(ParkOnPoll<'_, R, L>, Vec<L::Port>)>, AllocError>
where
    L::Port: Drop,
    ensures { IfOk result (λ all. map (λ asleep. (asleep.0.line, asleep.1)) all.items
        ≡ opened.items) }
{
    let mut all = Vec::with_capacity(alloc, opened.len())?;
    for (line, ports) in opened {
        all.push((ParkOnPoll::new(rt, line), ports))?;
    }
    Ok(all)
}

/// Makes a desk for each worker over lines that were just opened.
fn desks_at<L: LineSync<AccountLaw> + Drop>(
    alloc: Global,
    opened: Vec<(L, Vec<L::Port>)>,
    workers: u64,
) -> Result<(Vec<L>, Vec<Desk<L>>), RunError>
where
    L::Port: Drop,
    requires workers { AreNodes workers }
    requires len { All (λ line. vec_len line.1 ≡ workers) opened.items }
    requires new { All (λ line. IsNewLine L.belongs L.view L.config_of workers line.0 line.1.items)
        opened.items }
    ensures memory { IfErr result (λ error. error ≡ RunError.Memory) }
    ensures config { IfOk result (λ made.
        All (λ line. L.config_of line ≡ work_config workers) made.0.items) }
    ensures lines { IfOk result (λ made. vec_len made.0 ≡ vec_len opened) }
    ensures len { IfOk result (λ made. vec_len made.1 ≡ workers) }
    ensures new { IfOk result (λ made.
        AreFresh (HasBanked L.belongs L.view L.config_of) made.0.items made.1.items) }
{
    match open_desks(alloc, opened, workers as usize) {
        Ok(made) => Ok(made),
        Err(OpenDesksError::Memory) => Err(RunError::Memory),
        // Each line was opened with a port for each worker.
        Err(OpenDesksError::Few { .. }) => unreachable!(),
    }
}

/// Runs the jobs of a bank over lines of this kind, with a desk and a thread for each worker.
pub(crate) fn run_bank<
    R: Threads + Wait + Sync,
    G: Gate + Sync,
    L: OpenLine<AccountLaw> + ParkingLine<AccountLaw> + Sync + Drop,
>(rt: &R, alloc: Global, gate: &G, work: &Work, waits: WaitMode) -> Result<Report, RunError>
where
    L::Port: Send + Drop,
    requires { work.now.kind ≡ WorkKind.Bank }
    ensures report { IfOk result (IsReportOf work.now) }
    ensures banked { IfOk result (IsBankedOver L.belongs L.view L.config_of work.now) }
    ensures stalled { IfErr result (MayStop work.now) }
    ensures by_gate { (worker : ℕ) → result ≡ Err (RunError.Stalled worker)
        → G.may_refuse gate.now worker }
{
    let workers = work.workers();
    let opened = open_lines::<L>(alloc, work.lines(), workers)?;
    // The contract of this call says that a script has at most `MAX_COMMANDS` jobs, which the proof needs here.
    let _ = work.jobs();
    match waits {
        WaitMode::Awake => {
            let (lines, desks) = desks_at::<L>(alloc, opened, workers)?;
            work_at::<R, G, L>(rt, alloc, gate, work, lines, desks)
        }
        WaitMode::Asleep => {
            let asleep = all_asleep::<R, L>(rt, alloc, opened)?;
            let (lines, desks) = desks_at::<ParkOnPoll<'_, R, L>>(alloc, asleep, workers)?;
            work_at::<R, G, ParkOnPoll<'_, R, L>>(rt, alloc, gate, work, lines, desks)
        }
    }
}

/// Runs the jobs of a bank over these newly opened lines. Each worker uses its new desk.
fn work_at<R: Threads + Wait + Sync, G: Gate + Sync, L: LineSync<AccountLaw> + Sync + Drop>(
    rt: &R,
    alloc: Global,
    gate: &G,
    work: &Work,
    lines: Vec<L>,
    desks: Vec<Desk<L>>,
) -> Result<Report, RunError>
where
    L::Port: Send + Drop,
    requires kind { work.now.kind ≡ WorkKind.Bank }
    requires limits { IsWithinLimits work.now }
    requires config { All (λ line. L.config_of line ≡ work_config work.now.workers) lines.items }
    requires lines { vec_len lines ≡ work.now.lines }
    requires len { vec_len desks ≡ work.now.workers }
    requires fresh { AreFresh (HasBanked L.belongs L.view L.config_of) lines.items desks.items }
    ensures report { IfOk result (IsReportOf work.now) }
    ensures banked { IfOk result (IsBankedOver L.belongs L.view L.config_of work.now) }
    ensures stalled { IfErr result (MayStop work.now) }
    ensures by_gate { (worker : ℕ) → result ≡ Err (RunError.Stalled worker)
        → G.may_refuse gate.now worker }
{
    let room = Vec::with_capacity(alloc, desks.len())?;
    let bank = Bank { lines };
    let Some(joined) = run_workers(rt, alloc, gate, &bank, work, desks) else {
        return Err(RunError::Memory);
    };
    let desks = all_done(joined, room)?;
    finish(alloc, bank, work, desks)
}
