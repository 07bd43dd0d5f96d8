//! Tests gates. A gate decides whether a worker may begin its next job.
use crate::tests::rows::{expect, expect_at};
use crate::tests::work::{EITHER, expect_work};
use line_kinds::{ALL, Lock};
use qolb_run::{Gate, Lines, RunError, TaskError, WaitMode, answer_work, run_work, run_work_with};
use qolb_script::{Report, WorkKind, read_work};
use std::alloc::Global;
use std::process::Abort;
use std::sync::Wait;
use std::sync::atomic::{AtomicU64, Ordering};
use std::test::Fail;
use std::thread::{Threads, yield_now};

/// A gate that never opens.
pub(crate) struct Closed;

impl Gate for Closed {
    ghost may_refuse = { λ gate worker. Unit {0} };

    fn may(&self, _worker: u64, _at: u64) -> bool {
        false
    }
}

#[test]
fn a_worker_gives_up_before_a_closed_gate(rt: HostRuntime) -> Result<(), Fail> {
    let script = "board workers 3\n2 put 5\n3 put 6\n";
    expect_work(
        &rt,
        rt.alloc(),
        &Closed,
        script,
        WorkKind::Board,
        Err(RunError::Stalled(2)),
    )
}

#[test]
fn a_report_of_work_says_who_gave_up(rt: HostRuntime) {
    let done = answer_work(
        &rt,
        rt.alloc(),
        &Closed,
        b"board workers 2\n2 put 5\n",
        WorkKind::Board,
        Lock::Ring,
        WaitMode::Awake,
    );
    expect(&rt, "a report", done.err(), Some(TaskError::Stalled(2)));
}

/// Runs the work over lines of each lock, each time behind a new gate, and expects this report.
fn expect_behind<R: Threads + Wait + Abort + Sync, G: Gate + Default + Sync + Drop>(
    rt: &R,
    alloc: Global,
    script: &str,
    kind: WorkKind,
    report: Report,
) -> Result<(), Fail> {
    let work = read_work(alloc, script.as_bytes(), kind)?;
    for lock in ALL {
        let found = run_work_with(rt, alloc, &G::default(), &work, lock, WaitMode::Awake);
        expect_at(rt, &lock, found, Ok(report));
    }
    Ok(())
}

/// A gate that opens once two workers wait at it at the same time.
#[derive(Drop)]
struct Meeting {
    first: AtomicU64,
    second: AtomicU64,
    met: AtomicU64,
}

impl Default for Meeting {
    fn default() -> Meeting {
        Meeting {
            first: AtomicU64::new(0),
            second: AtomicU64::new(0),
            met: AtomicU64::new(0),
        }
    }
}

impl Gate for Meeting {
    ghost may_refuse = { λ gate worker. Unit {0} };

    fn may(&self, worker: u64, _at: u64) -> bool {
        let (mine, other) = if worker == 1 {
            (&self.first, &self.second)
        } else {
            (&self.second, &self.first)
        };
        mine.store(1, Ordering::SeqCst);
        for _ in 0..100 {
            if other.load(Ordering::SeqCst) == 1 {
                self.met.store(1, Ordering::SeqCst);
            }
            if self.met.load(Ordering::SeqCst) == 1 {
                return true;
            }
            yield_now();
        }
        mine.store(0, Ordering::SeqCst);
        false
    }
}

#[test]
fn workers_stand_before_a_gate_at_the_same_time(rt: HostRuntime) -> Result<(), Fail> {
    let report = Report::Bank {
        paid_in: 2,
        paid_out: 0,
        total: 2,
    };
    let script = "bank workers 2 lines 1\n1 in 0 1\n2 in 0 1\n";
    expect_behind::<_, Meeting>(&rt, rt.alloc(), script, WorkKind::Bank, report)
}

/// A gate that opens for the second worker once the first worker has reached it, and for the first worker once the
/// second worker has done its two jobs.
#[derive(Drop)]
struct InTurn {
    came: AtomicU64,
    done: AtomicU64,
}

impl Default for InTurn {
    fn default() -> InTurn {
        InTurn {
            came: AtomicU64::new(0),
            done: AtomicU64::new(0),
        }
    }
}

impl Gate for InTurn {
    ghost may_refuse = { λ gate worker. Unit {0} };

    fn may(&self, worker: u64, at: u64) -> bool {
        if worker == 1 {
            self.came.store(1, Ordering::SeqCst);
        } else if at == 2 {
            self.done.store(1, Ordering::SeqCst);
        }
        let awaited = if worker == 1 { &self.done } else { &self.came };
        for _ in 0..100 {
            if awaited.load(Ordering::SeqCst) == 1 {
                return true;
            }
            yield_now();
        }
        false
    }
}

#[test]
fn no_job_is_done_before_its_gate_is_passed(rt: HostRuntime) -> Result<(), Fail> {
    let report = Report::Board {
        stored: 1,
        full: 0,
        taken: 0,
        empty: 2,
        left: 1,
    };
    let script = "board workers 2\n1 put 5\n2 take\n2 take\n";
    expect_behind::<_, InTurn>(&rt, rt.alloc(), script, WorkKind::Board, report)
}

/// How many times a gate was told that work begins, and the number of jobs that it was told the last time.
#[derive(Drop)]
pub(crate) struct Begun {
    times: AtomicU64,
    jobs: AtomicU64,
}

impl Begun {
    pub(crate) fn not_yet() -> Begun {
        Begun {
            times: AtomicU64::new(0),
            jobs: AtomicU64::new(0),
        }
    }

    pub(crate) fn note(&self, jobs: usize) {
        self.times.fetch_add(1, Ordering::SeqCst);
        self.jobs.store(jobs as u64, Ordering::SeqCst);
    }

    pub(crate) fn times(&self) -> u64 {
        self.times.load(Ordering::SeqCst)
    }

    pub(crate) fn jobs(&self) -> u64 {
        self.jobs.load(Ordering::SeqCst)
    }
}

/// A gate that allows a job of worker 1 when asked for the `opens_at`-th time. It counts the questions for each job
/// number.
#[derive(Drop)]
struct Counting {
    opens_at: u64,
    asked: [AtomicU64; 4],
    /// The job numbers in the order of their first question, as decimal digits. Each digit is the job number plus 1.
    numbers: AtomicU64,
    begun: Begun,
    /// How many questions came before the gate was told that work begins.
    early: AtomicU64,
}

impl Counting {
    fn new(opens_at: u64) -> Counting {
        Counting {
            opens_at,
            asked: [
                AtomicU64::new(0),
                AtomicU64::new(0),
                AtomicU64::new(0),
                AtomicU64::new(0),
            ],
            numbers: AtomicU64::new(0),
            begun: Begun::not_yet(),
            early: AtomicU64::new(0),
        }
    }

    fn asks_for(&self, at: usize) -> u64 {
        self.asked[at % 4].load(Ordering::SeqCst)
    }

    /// Returns how many questions were asked for each of the first three job numbers.
    fn asks(&self) -> [u64; 3] {
        [self.asks_for(0), self.asks_for(1), self.asks_for(2)]
    }

    fn numbers(&self) -> u64 {
        self.numbers.load(Ordering::SeqCst)
    }

    /// Returns how many times the gate was told that work begins, the number of jobs that it was told, and `early`.
    fn told(&self) -> [u64; 3] {
        let early = self.early.load(Ordering::SeqCst);
        [self.begun.times(), self.begun.jobs(), early]
    }
}

impl Gate for Counting {
    ghost may_refuse = { λ gate worker. Unit {0} };

    fn begins(&self, jobs: usize) {
        self.begun.note(jobs);
    }

    fn may(&self, worker: u64, at: u64) -> bool {
        if self.begun.times() == 0 {
            self.early.fetch_add(1, Ordering::SeqCst);
        }
        if worker != 1 {
            return true;
        }
        let asks = self.asked[(at % 4) as usize]
            .fetch_add(1, Ordering::SeqCst)
            .saturating_add(1);
        if asks == 1 {
            let before = self.numbers.load(Ordering::SeqCst);
            let next = before.wrapping_mul(10).wrapping_add(at % 4 + 1);
            self.numbers.store(next, Ordering::SeqCst);
        }
        asks >= self.opens_at
    }
}

/// Scripts of three jobs. Two of the jobs belong to the first of two workers.
static OF_THREE: [(WorkKind, &str); 2] = [
    (
        WorkKind::Board,
        "board workers 2\n1 put 5\n2 put 6\n1 take\n",
    ),
    (
        WorkKind::Bank,
        "bank workers 2 lines 1\n1 in 0 1\n2 in 1 1\n1 out 0 1\n",
    ),
];

#[test]
fn a_worker_asks_before_each_job_and_once_after_the_last(rt: HostRuntime) -> Result<(), Fail> {
    for (kind, script) in &OF_THREE {
        let work = read_work(rt.alloc(), script.as_bytes(), *kind)?;
        for lock in ALL {
            let gate = Counting::new(1);
            let done = run_work_with(&rt, rt.alloc(), &gate, &work, lock, WaitMode::Asleep);
            let found = (done.is_ok(), gate.told(), gate.numbers(), gate.asks());
            expect_at(
                &rt,
                &(*kind, lock),
                found,
                (true, [1, 3, 0], 123, [1, 1, 1]),
            );
        }
    }
    Ok(())
}

#[test]
fn work_that_is_reported_is_done_once(rt: HostRuntime) -> Result<(), Fail> {
    for (kind, script) in &OF_THREE {
        for lock in ALL {
            for waits in EITHER {
                let gate = Counting::new(1);
                let alloc = rt.alloc();
                let script = script.as_bytes();
                let done = answer_work(&rt, alloc, &gate, script, *kind, lock, waits);
                let found = (done.is_ok(), gate.asks());
                expect_at(&rt, &(*kind, lock, waits), found, (true, [1, 1, 1]));
            }
        }
    }
    Ok(())
}

#[test]
fn a_worker_waits_for_the_millionth_ask_for_each_job(rt: HostRuntime) -> Result<(), Fail> {
    let script = b"board workers 1\n1 put 5\n1 take\n";
    let work = read_work(rt.alloc(), script, WorkKind::Board)?;
    let report = Report::Board {
        stored: 1,
        full: 0,
        taken: 1,
        empty: 0,
        left: 0,
    };
    let gate = Counting::new(1_000_000);
    let found = run_work(&rt, rt.alloc(), &gate, &work, Lines::Ring);
    let wanted = (Ok(report), [1_000_000, 1_000_000, 1]);
    expect(&rt, "two jobs", (found, gate.asks()), wanted);
    Ok(())
}

#[test]
fn a_worker_gives_up_at_the_millionth_refusal(rt: HostRuntime) -> Result<(), Fail> {
    let work = read_work(rt.alloc(), b"board workers 1\n1 put 5\n", WorkKind::Board)?;
    let gate = Counting::new(1_000_001);
    let found = run_work(&rt, rt.alloc(), &gate, &work, Lines::Ring);
    let asked = (found, gate.asks_for(0), gate.asks_for(1));
    let wanted = (Err(RunError::Stalled(1)), 1_000_000, 0);
    expect(&rt, "one job", asked, wanted);
    Ok(())
}

#[test]
fn a_gate_is_told_of_work_without_jobs_and_asked_once(rt: HostRuntime) -> Result<(), Fail> {
    let work = read_work(rt.alloc(), b"board workers 2\n", WorkKind::Board)?;
    let gate = Counting::new(1);
    let done = run_work(&rt, rt.alloc(), &gate, &work, Lines::Ring);
    let found = (done.is_ok(), gate.told(), gate.asks_for(0));
    expect(&rt, "no job", found, (true, [1, 0, 0], 1));
    Ok(())
}
