//! Runs workers that share a task board, which is stored in one queued line.
ghost use Rattle.std.specs.Prelude.{◌≡◌, ◌*◌, ℕ, [], ◌∷◌, ◌≤◌, All, Err, IfOk, IfErr, IfNone, Some, true, false, length, map, vec_len};
ghost use Rattle.qolb_script.specs.declared.schedule.TheConstants.{MAX_COMMANDS};
ghost use Rattle.qolb_model.specs.declared.config.TheConstants.{MAX_NODES};
ghost use Rattle.qolb_model.specs.Releasing.{IsTold};
ghost use Rattle.line_accounts.specs.Desks.{IsAtRest};
ghost use Rattle.qolb_work.specs.Workers.{AreDone, AreFresh, HasEnded, MayStop, IsWithinLimits};
ghost use Rattle.qolb_work.specs.BoardWork.{Turn, HasTurns, HasStored, FoundFull, HasTakenOne, FoundNone, HasWorked, WasTold, AreWithin, AreAdded, AreSums, IsBoardedOver};
ghost use Rattle.qolb_work.specs.JustOpened.{AreJustOpened, IsNewLine, work_config};
ghost use Rattle.qolb_work.specs.Jobs.{IsBoardJob};
ghost use Rattle.qolb_work.specs.BoardRuns.{no_counts};
ghost use Rattle.qolb_work.specs.Reports.{IsReportOf};

use crate::gate::Gate;
use crate::open::open_line;
use crate::work::{RunError, WaitMode};
use crate::workers::{JobOutcome, JobTarget, PATIENCE, all_done, run_workers};
use line_blocking::ParkOnPoll;
use line_board::{BoardLaw, Put, Take, decode, put, take};
use qolb_model::{FinishError, LineSync, OpenLine, ParkingLine, PortState};
use qolb_script::{Job, Report, Work, WorkKind};
use std::alloc::{AllocError, Global};
use std::sync::Wait;
use std::thread::{Threads, yield_now};

/// A task board in one line. All workers share it.
#[derive(Drop)]
pub(crate) struct Board<L> {
    pub line: L,
}

/// How many puts and takes of one worker ended in each way.
#[derive(Clone, Copy, Debug, PartialEq, Eq)]
pub(crate) struct BoardCounts {
    /// The number of puts that stored a task. `full` is the number of puts that found the board full.
    pub stored: u64,
    pub full: u64,
    /// The number of takes that removed a task. `empty` is the number of takes that found no task.
    pub taken: u64,
    pub empty: u64,
}

/// The state of one worker of a board: its port and its counts.
#[derive(Drop)]
pub(crate) struct BoardHand<P> {
    pub port: P,
    pub counts: BoardCounts,
}

impl<L: LineSync<BoardLaw>> JobTarget for Board<L> {
    type WorkerState = BoardHand<L::Port>;

    ghost has_done = { λ board worker hand jobs.
        HasWorked L.belongs L.view board.line worker hand jobs };

    ghost was_told = { λ board worker hand. WasTold L.belongs L.view board.line worker hand };

    ghost takes = { λ board job. IsBoardJob job };

    fn run_job<R: Wait>(&self, rt: &R, hand: &mut BoardHand<L::Port>, job: &Job) -> JobOutcome {
        match *job {
            Job::Put { task, .. } => match put_at_last(rt, &self.line, &mut hand.port, task) {
                Some(true) => hand.counts.stored += 1,
                Some(false) => hand.counts.full += 1,
                None => return JobOutcome::Told,
            },
            Job::Take { .. } => match take_at_last(rt, &self.line, &mut hand.port) {
                Some(true) => hand.counts.taken += 1,
                Some(false) => hand.counts.empty += 1,
                None => return JobOutcome::Told,
            },
            // The contract excludes the jobs of a bank.
            Job::PayIn { .. } | Job::PayOut { .. } | Job::Move { .. } => unreachable!(),
        }
        JobOutcome::Done
    }
}

/// Puts the task on the board.
///
/// Tries again whenever the line was not granted in time or the port was busy, and blocks until the line is granted or
/// closed.
///
/// Returns `Some(true)` if the task was stored, `Some(false)` if the board was full, and `None` if the line is closed.
fn put_at_last<R: Wait, L: LineSync<BoardLaw>>(
    rt: &R,
    line: &L,
    port: &mut L::Port,
    task: u64,
) -> Option<bool>
    requires belongs { L.belongs line.now port.old }
    requires at_rest { IsAtRest (L.view port.old) }
    ensures belongs { L.belongs line.now port.new }
    ensures stored { result ≡ Some true → (turn : Turn)
        × HasTurns (L.view port.old) (L.view port.new) (turn ∷ []) × HasStored task turn }
    ensures full { result ≡ Some false → (turn : Turn)
        × HasTurns (L.view port.old) (L.view port.new) (turn ∷ []) × FoundFull turn }
    ensures told { IfNone result (HasTurns (L.view port.old) (L.view port.new) []
        × IsTold (L.view port.new)) }
{
    for _ in rt.forever() {
        match put(line, port, task, PATIENCE) {
            Put::Stored => return Some(true),
            Put::Full => return Some(false),
            Put::Late | Put::Busy => yield_now(),
            Put::Closed => return None,
        }
    }
    unreachable!()
}

/// Takes a task from the board.
///
/// Tries again whenever the line was not granted in time or the port was busy, and blocks until the line is granted or
/// closed.
///
/// Returns `Some(true)` if a task was taken, `Some(false)` if the board had no task, and `None` if the line is closed.
fn take_at_last<R: Wait, L: LineSync<BoardLaw>>(
    rt: &R,
    line: &L,
    port: &mut L::Port,
) -> Option<bool>
    requires belongs { L.belongs line.now port.old }
    requires at_rest { IsAtRest (L.view port.old) }
    ensures belongs { L.belongs line.now port.new }
    ensures taken { result ≡ Some true → (turn : Turn)
        × HasTurns (L.view port.old) (L.view port.new) (turn ∷ []) × HasTakenOne turn }
    ensures empty { result ≡ Some false → (turn : Turn)
        × HasTurns (L.view port.old) (L.view port.new) (turn ∷ []) × FoundNone turn }
    ensures told { IfNone result (HasTurns (L.view port.old) (L.view port.new) []
        × IsTold (L.view port.new)) }
{
    for _ in rt.forever() {
        match take(line, port, PATIENCE) {
            Take::Task(_) => return Some(true),
            Take::Empty => return Some(false),
            Take::Late | Take::Busy => yield_now(),
            Take::Closed => return None,
        }
    }
    unreachable!()
}

impl BoardCounts {
    /// Returns counts that are all 0.
    pub fn none() -> BoardCounts
        ensures { result ≡ no_counts }
    {
        BoardCounts {
            stored: 0,
            full: 0,
            taken: 0,
            empty: 0,
        }
    }

    /// Adds each count of `other` to the same count of `self`.
    fn add(&mut self, other: &BoardCounts)
        requires mine { AreWithin (MAX_NODES * MAX_COMMANDS) self.old }
        requires others { AreWithin MAX_COMMANDS other.now }
        ensures { AreAdded self.old other.now self.new }
    {
        self.stored += other.stored;
        self.full += other.full;
        self.taken += other.taken;
        self.empty += other.empty;
    }
}

/// Makes the state of each worker from its port. The counts are 0, because no worker has done a job.
fn fresh_hands<L: LineSync<BoardLaw>>(
    alloc: Global,
    line: &L,
    ports: Vec<L::Port>,
) -> Result<Vec<BoardHand<L::Port>>, AllocError>
where
    L::Port: Drop,
    requires { AreJustOpened L.belongs L.view L.config_of line.now ports.items }
    ensures len { IfOk result (λ hands. vec_len hands ≡ vec_len ports) }
    ensures fresh { IfOk result (λ hands.
        AreFresh (HasWorked L.belongs L.view) line.now hands.items) }
{
    let mut hands = Vec::with_capacity(alloc, ports.len())?;
    for port in ports {
        let counts = BoardCounts::none();
        hands.push(BoardHand { port, counts })?;
    }
    Ok(hands)
}

/// Returns the sums of the counts of all workers.
fn sum_up<P>(hands: &[BoardHand<P>]) -> BoardCounts
    requires hands { length hands.now ≤ MAX_NODES }
    requires small { All (λ hand. AreWithin MAX_COMMANDS hand.counts) hands.now }
    ensures { AreSums hands.now result }
{
    let mut all = BoardCounts::none();
    for hand in hands {
        all.add(&hand.counts);
    }
    all
}

/// Takes the ports out of the workers' states. The order stays the same.
fn ports_of<P: Drop>(alloc: Global, hands: Vec<BoardHand<P>>) -> Result<Vec<P>, AllocError>
    ensures { IfOk result (λ ports. ports.items ≡ map (λ hand. hand.port) hands.items) }
{
    let mut ports = Vec::with_capacity(alloc, hands.len())?;
    for hand in hands {
        ports.push(hand.port)?;
    }
    Ok(ports)
}

/// Finishes the line of the board and returns the report of its work.
///
/// No worker was told that the line is closed, because no call of a board shuts the line, and the line has no lease (a
/// limit on the number of its acquisitions).
fn finish<L: LineSync<BoardLaw> + Drop>(
    alloc: Global,
    board: Board<L>,
    work: &Work,
    hands: Vec<BoardHand<L::Port>>,
) -> Result<Report, RunError>
where
    L::Port: Drop,
    requires kind { work.now.kind ≡ WorkKind.Board }
    requires config { L.config_of board.line ≡ work_config work.now.workers }
    requires limits { IsWithinLimits work.now }
    requires len { vec_len hands ≡ work.now.workers }
    requires ended { AreDone (HasEnded (HasWorked L.belongs L.view) (WasTold L.belongs L.view))
        board.line work.now.jobs hands.items }
    ensures report { IfOk result (IsReportOf work.now) }
    ensures boarded { IfOk result (IsBoardedOver L.belongs L.view L.config_of work.now) }
    ensures memory { IfErr result (λ error. error ≡ RunError.Memory) }
{
    let counts = sum_up(hands.as_slice());
    let ports = ports_of(alloc, hands)?;
    let last = match board.line.finish(alloc, ports) {
        Ok(last) => last,
        Err(back) => match back.why {
            FinishError::Memory => return Err(RunError::Memory),
            // The port of each node was passed, and no port waits or holds the line.
            FinishError::Missing(_) | FinishError::Unquiet(_) => unreachable!(),
        },
    };
    let Some(tasks) = decode(&last) else {
        unreachable!();
    };
    Ok(Report::Board {
        stored: counts.stored,
        full: counts.full,
        taken: counts.taken,
        empty: counts.empty,
        left: tasks.len() as u64,
    })
}

/// Runs the jobs of a board in a line of this type. Each worker has a port and a thread.
pub(crate) fn run_board<
    R: Threads + Wait + Sync,
    G: Gate + Sync,
    L: OpenLine<BoardLaw> + ParkingLine<BoardLaw> + Sync + Drop,
>(rt: &R, alloc: Global, gate: &G, work: &Work, waits: WaitMode) -> Result<Report, RunError>
where
    L::Port: Send + Drop,
    requires { work.now.kind ≡ WorkKind.Board }
    ensures report { IfOk result (IsReportOf work.now) }
    ensures boarded { IfOk result (IsBoardedOver L.belongs L.view L.config_of work.now) }
    ensures stalled { IfErr result (MayStop work.now) }
    ensures by_gate { (worker : ℕ) → result ≡ Err (RunError.Stalled worker)
        → G.may_refuse gate.now worker }
{
    let (line, ports) = open_line::<BoardLaw, L>(alloc, 0, work.workers())?;
    // The contract of this call says that a script has at most `MAX_COMMANDS` jobs, which the proof needs here.
    let _ = work.jobs();
    match waits {
        WaitMode::Awake => work_at::<R, G, L>(rt, alloc, gate, work, line, ports),
        WaitMode::Asleep => {
            let line = ParkOnPoll::new(rt, line);
            work_at::<R, G, ParkOnPoll<'_, R, L>>(rt, alloc, gate, work, line, ports)
        }
    }
}

/// Runs the jobs of a board in this newly opened line. Each worker uses its new port.
fn work_at<R: Threads + Wait + Sync, G: Gate + Sync, L: LineSync<BoardLaw> + Sync + Drop>(
    rt: &R,
    alloc: Global,
    gate: &G,
    work: &Work,
    line: L,
    ports: Vec<L::Port>,
) -> Result<Report, RunError>
where
    L::Port: Send + Drop,
    requires kind { work.now.kind ≡ WorkKind.Board }
    requires limits { IsWithinLimits work.now }
    requires len { vec_len ports ≡ work.now.workers }
    requires new { IsNewLine L.belongs L.view L.config_of work.now.workers line ports.items }
    ensures report { IfOk result (IsReportOf work.now) }
    ensures boarded { IfOk result (IsBoardedOver L.belongs L.view L.config_of work.now) }
    ensures stalled { IfErr result (MayStop work.now) }
    ensures by_gate { (worker : ℕ) → result ≡ Err (RunError.Stalled worker)
        → G.may_refuse gate.now worker }
{
    let hands = fresh_hands(alloc, &line, ports)?;
    let room = Vec::with_capacity(alloc, hands.len())?;
    let board = Board { line };
    let Some(joined) = run_workers(rt, alloc, gate, &board, work, hands) else {
        return Err(RunError::Memory);
    };
    let hands = all_done(joined, room)?;
    finish(alloc, board, work, hands)
}
