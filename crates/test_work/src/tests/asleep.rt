//! Tests that workers sleep while they wait if they are configured to do so, and never sleep otherwise. In these tests
//! a holder keeps the line until a waiter has waited in the expected way.
use crate::tests::gates::Closed;
use crate::tests::rows::expect;
use line_accounts::AccountLaw;
use line_board::BoardLaw;
use line_kinds::RingLine;
use qolb_model::{Keep, OpenLine, ParkingLine};
use qolb_run::{AlwaysOpen, Gate, RunError, WaitMode, run_work_over};
use qolb_script::{Report, Work, WorkKind, read_work};
use std::alloc::Global;
use std::process::Abort;
use std::sync::Wait;
use std::sync::atomic::{AtomicU64, Ordering};
use std::test::Fail;
use std::thread::{Threads, yield_now};
use std::time::Duration;
use test_support::{HookedLine, Hooks};

/// Waits until the count is no longer 0.
fn wait_until_some(count: &AtomicU64) {
    for _ in 0..u64::MAX {
        if count.load(Ordering::SeqCst) > 0 {
            return;
        }
        yield_now();
    }
}

/// Hooks that let a holder release only after a waiter has slept. Work by two nodes therefore never ends if the waiter
/// does not sleep.
#[derive(Drop)]
struct UntilSlept {
    sleeps: AtomicU64,
}

impl Default for UntilSlept {
    fn default() -> UntilSlept {
        UntilSlept {
            sleeps: AtomicU64::new(0),
        }
    }
}

impl Hooks for UntilSlept {
    fn on_release<K: Keep, L: ParkingLine<K>>(&self, _line: &L, _port: &L::Port) {
        wait_until_some(&self.sleeps);
    }

    fn sleep<R: Wait, K: Keep, L: ParkingLine<K>>(
        &self,
        rt: &R,
        line: &L,
        port: &L::Port,
        at_most: Duration,
    ) {
        self.sleeps.fetch_add(1, Ordering::SeqCst);
        line.sleep(rt, port, at_most)
    }
}

/// Hooks that let a holder release only after a waiter has polled without a grant, and in which a sleep never ends.
/// Work by two nodes therefore never ends if the waiter sleeps.
#[derive(Drop)]
struct UntilLooked {
    poll_count: AtomicU64,
}

impl Default for UntilLooked {
    fn default() -> UntilLooked {
        UntilLooked {
            poll_count: AtomicU64::new(0),
        }
    }
}

impl Hooks for UntilLooked {
    fn on_waiting<K: Keep, L: ParkingLine<K>>(&self, _line: &L, _port: &L::Port) {
        self.poll_count.fetch_add(1, Ordering::SeqCst);
    }

    fn on_release<K: Keep, L: ParkingLine<K>>(&self, _line: &L, _port: &L::Port) {
        wait_until_some(&self.poll_count);
    }

    fn sleep<R: Wait, K: Keep, L: ParkingLine<K>>(
        &self,
        _rt: &R,
        _line: &L,
        _port: &L::Port,
        _at_most: Duration,
    ) {
        for _ in 0..u64::MAX {
            yield_now();
        }
    }
}

/// The number of times that a job polls before it withdraws its request and asks again.
const LOOKS: u64 = 64;

/// Hooks that let a holder release only after a waiter has polled 64 times without a grant, has withdrawn its request,
/// and has asked again while the node was still busy. Work by two nodes therefore never ends if the waiter withdraws
/// earlier or later.
#[derive(Drop)]
struct UntilBusy {
    poll_count: AtomicU64,
    busy: AtomicU64,
}

impl Default for UntilBusy {
    fn default() -> UntilBusy {
        UntilBusy {
            poll_count: AtomicU64::new(0),
            busy: AtomicU64::new(0),
        }
    }
}

impl Hooks for UntilBusy {
    fn on_busy<K: Keep, L: ParkingLine<K>>(&self, _line: &L, _port: &L::Port) {
        if self.poll_count.load(Ordering::SeqCst) == LOOKS {
            self.busy.fetch_add(1, Ordering::SeqCst);
        }
    }

    fn on_waiting<K: Keep, L: ParkingLine<K>>(&self, _line: &L, _port: &L::Port) {
        self.poll_count.fetch_add(1, Ordering::SeqCst);
    }

    fn on_release<K: Keep, L: ParkingLine<K>>(&self, _line: &L, _port: &L::Port) {
        wait_until_some(&self.busy);
    }
}

/// Hooks in which no release ends. Work therefore ends only if no job is done.
#[derive(Drop)]
struct Kept;

impl Default for Kept {
    fn default() -> Kept {
        Kept
    }
}

impl Hooks for Kept {
    fn on_release<K: Keep, L: ParkingLine<K>>(&self, _line: &L, _port: &L::Port) {
        for _ in 0..u64::MAX {
            yield_now();
        }
    }
}

/// Hooks in which the first release ends, and no later one does. Work therefore ends only if at most one job is done.
#[derive(Drop)]
struct OneJob {
    releases: AtomicU64,
}

impl Default for OneJob {
    fn default() -> OneJob {
        OneJob {
            releases: AtomicU64::new(0),
        }
    }
}

impl Hooks for OneJob {
    fn on_release<K: Keep, L: ParkingLine<K>>(&self, _line: &L, _port: &L::Port) {
        if self.releases.fetch_add(1, Ordering::SeqCst) == 0 {
            return;
        }
        for _ in 0..u64::MAX {
            yield_now();
        }
    }
}

/// A gate that allows the first job of each worker, and refuses all later jobs.
struct ForOne;

impl Gate for ForOne {
    ghost may_refuse = { λ gate worker. Unit {0} };

    fn may(&self, _worker: u64, at: u64) -> bool {
        at == 0
    }
}

/// Does the work behind this gate, over lines with these hooks.
fn work_hooked<
    R: Threads + Wait + Sync,
    G: Gate + Sync,
    H: Hooks + Default + Sync + Drop,
    B: OpenLine<BoardLaw> + ParkingLine<BoardLaw> + Sync + Drop,
    A: OpenLine<AccountLaw> + ParkingLine<AccountLaw> + Sync + Drop,
>(rt: &R, alloc: Global, gate: &G, work: &Work, waits: WaitMode) -> Result<Report, RunError>
where
    B::Port: Send + Drop,
    A::Port: Send + Drop,
{
    run_work_over::<R, G, HookedLine<H, B>, HookedLine<H, A>>(rt, alloc, gate, work, waits)
}

/// Does the work over ring lines only. How a worker waits does not depend on the lock, and for each lock the prover
/// needs a minute to establish that a hooked line of this lock implements the interface of a line.
fn work_over_rings<R: Threads + Wait + Sync, G: Gate + Sync, H: Hooks + Default + Sync + Drop>(
    rt: &R,
    alloc: Global,
    gate: &G,
    work: &Work,
    waits: WaitMode,
) -> Result<Report, RunError> {
    work_hooked::<R, G, H, RingLine<BoardLaw>, RingLine<AccountLaw>>(rt, alloc, gate, work, waits)
}

/// The reports of two puts that stored a task, and, further down, of two takes that found none, of two payments that
/// were done, and of jobs that paid nothing.
const TWO_STORED: Report = Report::Board {
    stored: 2,
    full: 0,
    taken: 0,
    empty: 0,
    left: 2,
};

const NOTHING_TAKEN: Report = Report::Board {
    stored: 0,
    full: 0,
    taken: 0,
    empty: 2,
    left: 0,
};

const TWO_PAID: Report = Report::Bank {
    paid_in: 200,
    paid_out: 0,
    total: 200,
};

const NOTHING_PAID: Report = Report::Bank {
    paid_in: 0,
    paid_out: 0,
    total: 0,
};

/// Jobs of each kind for two or more workers, with the expected report. At least two workers ask for each line. The
/// tasks and the amounts are larger than the number of polls after which a job withdraws its request.
static JOBS_OF_EACH_KIND: [(WorkKind, &str, Report); 10] = [
    (
        WorkKind::Board,
        "board workers 2\n1 put 500\n2 put 600\n",
        TWO_STORED,
    ),
    (
        WorkKind::Board,
        "board workers 2\n1 take\n2 take\n",
        NOTHING_TAKEN,
    ),
    (
        WorkKind::Bank,
        "bank workers 2 lines 1\n1 in 0 100\n2 in 0 100\n",
        TWO_PAID,
    ),
    (
        WorkKind::Bank,
        "bank workers 2 lines 1\n1 out 0 100\n2 out 0 100\n",
        NOTHING_PAID,
    ),
    (
        WorkKind::Bank,
        "bank workers 2 lines 1\n1 move 0 1 100\n2 move 0 1 100\n",
        NOTHING_PAID,
    ),
    (
        WorkKind::Bank,
        "bank workers 3 lines 2\n1 move 0 8 100\n2 out 0 100\n3 out 8 100\n",
        NOTHING_PAID,
    ),
    (
        WorkKind::Bank,
        "bank workers 3 lines 2\n1 move 8 0 100\n2 out 0 100\n3 out 8 100\n",
        NOTHING_PAID,
    ),
    // Work with more workers.
    (
        WorkKind::Board,
        "board workers 4\n3 put 500\n4 put 600\n",
        TWO_STORED,
    ),
    (
        WorkKind::Board,
        "board workers 8\n4 take\n8 take\n",
        NOTHING_TAKEN,
    ),
    (
        WorkKind::Bank,
        "bank workers 8 lines 1\n5 in 0 100\n8 in 0 100\n",
        TWO_PAID,
    ),
];

/// Runs jobs of each kind over lines with these hooks.
fn expect_hooked<R: Threads + Wait + Abort + Sync, H: Hooks + Default + Sync + Drop>(
    rt: &R,
    alloc: Global,
    waits: WaitMode,
) -> Result<(), Fail> {
    for (kind, script, report) in &JOBS_OF_EACH_KIND {
        let work = read_work(alloc, script.as_bytes(), *kind)?;
        let found = work_over_rings::<R, AlwaysOpen, H>(rt, alloc, &AlwaysOpen, &work, waits);
        expect(rt, script, found, Ok(*report));
    }
    Ok(())
}

#[test]
fn workers_sleep_that_are_to(rt: HostRuntime) -> Result<(), Fail> {
    expect_hooked::<HostRuntime, UntilSlept>(&rt, rt.alloc(), WaitMode::Asleep)
}

#[test]
fn workers_stay_awake_that_are_to(rt: HostRuntime) -> Result<(), Fail> {
    expect_hooked::<HostRuntime, UntilLooked>(&rt, rt.alloc(), WaitMode::Awake)
}

#[test]
fn a_job_withdraws_after_64_polls(rt: HostRuntime) -> Result<(), Fail> {
    expect_hooked::<HostRuntime, UntilBusy>(&rt, rt.alloc(), WaitMode::Awake)
}

#[test]
fn who_gives_up_before_a_closed_gate_does_no_job(rt: HostRuntime) -> Result<(), Fail> {
    let work = read_work(rt.alloc(), b"board workers 1\n1 put 5\n", WorkKind::Board)?;
    let found = work_over_rings::<_, Closed, Kept>(
        &rt,
        rt.alloc(),
        &Closed,
        &work,
        WaitMode::Awake,
    );
    expect(&rt, "one worker", found, Err(RunError::Stalled(1)));
    Ok(())
}

#[test]
fn who_gives_up_before_a_later_job_does_not_do_it(rt: HostRuntime) -> Result<(), Fail> {
    let script = b"board workers 5\n5 put 5\n5 put 6\n";
    let work = read_work(rt.alloc(), script, WorkKind::Board)?;
    let found = work_over_rings::<_, ForOne, OneJob>(
        &rt,
        rt.alloc(),
        &ForOne,
        &work,
        WaitMode::Awake,
    );
    expect(&rt, "two jobs", found, Err(RunError::Stalled(5)));
    Ok(())
}
