//! Tests a gate, which decides whether a worker may begin its next job, with eight workers. Each worker must ask the
//! gate before each of its jobs, and a run must name the first worker that gives up.
use crate::tests::gates::{Begun, Closed};
use crate::tests::rows::{expect, expect_at};
use line_kinds::ALL;
use qolb_run::{Gate, Lines, RunError, WaitMode, run_work, run_work_with};
use qolb_script::{Report, WorkKind, read_work};
use std::alloc::Global;
use std::sync::atomic::{AtomicU64, Ordering};
use std::test::Fail;

/// Work whose gate is always closed, with the first worker that has a job.
static FIRST_TO_STALL: [(WorkKind, &str, u64); 6] = [
    (WorkKind::Board, "board workers 2\n2 put 5\n", 2),
    (
        WorkKind::Board,
        "board workers 8\n8 put 1\n4 put 1\n6 take\n",
        4,
    ),
    (WorkKind::Board, "board workers 8\n7 take\n5 put 1\n", 5),
    (WorkKind::Board, "board workers 200\n200 put 1\n", 200),
    (
        WorkKind::Bank,
        "bank workers 8 lines 1\n8 in 0 1\n6 in 0 1\n",
        6,
    ),
    (WorkKind::Bank, "bank workers 8 lines 2\n8 move 0 8 0\n", 8),
];

#[test]
fn the_first_of_many_that_stalls_is_named(rt: HostRuntime) -> Result<(), Fail> {
    for (kind, script, worker) in &FIRST_TO_STALL {
        let work = read_work(rt.alloc(), script.as_bytes(), *kind)?;
        for lock in ALL {
            let found = run_work_with(&rt, rt.alloc(), &Closed, &work, lock, WaitMode::Awake);
            let wanted = Err(RunError::Stalled(*worker));
            expect_at(&rt, &(*script, lock), found, wanted);
        }
    }
    Ok(())
}

/// A count for each of eight workers.
pub(crate) type Eight = [AtomicU64; 8];

fn zeros() -> Eight {
    [
        AtomicU64::new(0),
        AtomicU64::new(0),
        AtomicU64::new(0),
        AtomicU64::new(0),
        AtomicU64::new(0),
        AtomicU64::new(0),
        AtomicU64::new(0),
        AtomicU64::new(0),
    ]
}

pub(crate) fn loaded(counts: &Eight) -> [u64; 8] {
    let mut all = [0; 8];
    for worker in 0..8 {
        all[worker] = counts[worker].load(Ordering::SeqCst);
    }
    all
}

/// A gate that counts the questions of each worker. It refuses each job of the worker `slow` until the worker asks for
/// the `opens_at`-th time.
#[derive(Drop)]
pub(crate) struct Counts {
    slow: u64,
    opens_at: u64,
    /// How many times `slow` has asked for the same job.
    again: AtomicU64,
    pub(crate) asked: Eight,
    /// The number of each worker's next job. `jumps` counts the questions that were neither for this job nor for the
    /// one before.
    pub(crate) next: Eight,
    jumps: AtomicU64,
    begun: Begun,
}

impl Counts {
    pub(crate) fn new(slow: u64, opens_at: u64) -> Counts {
        Counts {
            slow,
            opens_at,
            again: AtomicU64::new(0),
            asked: zeros(),
            next: zeros(),
            jumps: AtomicU64::new(0),
            begun: Begun::not_yet(),
        }
    }

    /// Returns how many times the gate was told that work begins, the number of jobs that it was told, and `jumps`.
    pub(crate) fn told(&self) -> [u64; 3] {
        let jumps = self.jumps.load(Ordering::SeqCst);
        [self.begun.times(), self.begun.jobs(), jumps]
    }
}

impl Gate for Counts {
    ghost may_refuse = { λ gate worker. Unit {0} };

    fn begins(&self, jobs: usize) {
        self.begun.note(jobs);
    }

    fn may(&self, worker: u64, at: u64) -> bool {
        let place = (worker.wrapping_sub(1) % 8) as usize;
        self.asked[place].fetch_add(1, Ordering::SeqCst);
        let next = self.next[place].load(Ordering::SeqCst);
        let is_next = at == next;
        if is_next {
            self.next[place].store(at.wrapping_add(1), Ordering::SeqCst);
        } else if at.wrapping_add(1) != next {
            self.jumps.fetch_add(1, Ordering::SeqCst);
        }
        if worker != self.slow {
            return true;
        }
        if is_next {
            self.again.store(0, Ordering::SeqCst);
        }
        let asks = self.again.fetch_add(1, Ordering::SeqCst).wrapping_add(1);
        asks >= self.opens_at
    }
}

/// Returns a script of 1,500 jobs for eight workers, who take turns. Each worker does `first` and `second` alternately.
fn many_jobs(alloc: Global, head: &str, first: &str, second: &str) -> Result<String, Fail> {
    let mut script = head.to_string(alloc)?;
    for job in 0..1_500u64 {
        let worker = (job % 8).saturating_add(1);
        let word = if job % 16 < 8 { first } else { second };
        script.push_str(format!(in alloc; "{worker} {word}\n")?.as_str())?;
    }
    Ok(script)
}

/// The header of a script, and the two jobs that its workers do alternately.
static MANY: [(WorkKind, &str, &str, &str); 2] = [
    (WorkKind::Board, "board workers 8\n", "put 5", "take"),
    (
        WorkKind::Bank,
        "bank workers 8 lines 2\n",
        "in 0 1",
        "move 0 8 1",
    ),
];

/// The number of questions of each worker. Each worker has 187 of the 1,500 jobs, and each of the first four has one
/// more. Each worker asks once more after its last job.
const ASKED: [u64; 8] = [189, 189, 189, 189, 188, 188, 188, 188];

#[test]
fn each_of_eight_workers_asks_before_each_job(rt: HostRuntime) -> Result<(), Fail> {
    let alloc = rt.alloc();
    for (kind, head, first, second) in &MANY {
        let script = many_jobs(alloc, *head, *first, *second)?;
        let work = read_work(alloc, script.as_bytes(), *kind)?;
        for lock in ALL {
            let gate = Counts::new(0, 1);
            let done = run_work_with(&rt, alloc, &gate, &work, lock, WaitMode::Asleep);
            let found = (done.is_ok(), gate.told(), loaded(&gate.asked));
            expect_at(&rt, &(*kind, lock), found, (true, [1, 1_500, 0], ASKED));
        }
    }
    Ok(())
}

#[test]
fn the_last_of_eight_waits_for_the_millionth_ask(rt: HostRuntime) -> Result<(), Fail> {
    let script = b"board workers 8\n8 put 5\n8 take\n";
    let work = read_work(rt.alloc(), script, WorkKind::Board)?;
    let report = Report::Board {
        stored: 1,
        full: 0,
        taken: 1,
        empty: 0,
        left: 0,
    };
    let gate = Counts::new(8, 1_000_000);
    let found = run_work(&rt, rt.alloc(), &gate, &work, Lines::Ring);
    let asked = [1, 1, 1, 1, 1, 1, 1, 2_000_001];
    let found = (found, gate.told(), loaded(&gate.asked));
    expect(&rt, "two jobs", found, (Ok(report), [1, 2, 0], asked));
    Ok(())
}
