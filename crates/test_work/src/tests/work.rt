//! Tests workers that share lines of each kind, and that wait with or without sleeping.
ghost use Rattle.std.specs.Prelude.{◌<◌};

use crate::tests::rows::{expect, expect_at};
use line_kinds::{ALL, Lock, NAMES};
use qolb_run::{AlwaysOpen, Gate, Lines, RunError, WaitMode, run_work, run_work_with};
use qolb_script::{Report, WorkKind, read_work};
use std::alloc::Global;
use std::process::Abort;
use std::sync::Wait;
use std::test::Fail;
use std::thread::Threads;

/// The ways in which workers can wait.
pub(crate) static EITHER: [WaitMode; 2] = [WaitMode::Awake, WaitMode::Asleep];

/// Expects this outcome of the script behind the gate, over lines of each kind, with workers that poll and with workers
/// that sleep.
pub(crate) fn expect_work<R: Threads + Wait + Abort + Sync, G: Gate + Sync>(
    rt: &R,
    alloc: Global,
    gate: &G,
    script: &str,
    kind: WorkKind,
    want: Result<Report, RunError>,
) -> Result<(), Fail> {
    let work = read_work(alloc, script.as_bytes(), kind)?;
    for lock in ALL {
        for waits in EITHER {
            let found = run_work_with(rt, alloc, gate, &work, lock, waits);
            expect_at(rt, &(lock, waits), found, want);
        }
    }
    Ok(())
}

/// The names themselves are checked by the test of `--version`.
#[test]
fn each_name_is_that_of_the_lock_at_its_place(rt: HostRuntime) -> Result<(), Fail> {
    for (lock, name) in ALL.iter().zip(NAMES.iter()) {
        expect_at(&rt, name, Lock::named(name), Some(*lock));
    }
    Ok(())
}

/// The kind of a script, the script, and its expected report.
type Row = (WorkKind, &'static str, Report);

/// Scripts with one worker.
static OF_ONE: [Row; 4] = [
    (
        WorkKind::Board,
        "board workers 1\n1 put 5\n1 put 9\n1 take\n1 take\n1 take\n",
        Report::Board {
            stored: 2,
            full: 0,
            taken: 2,
            empty: 1,
            left: 0,
        },
    ),
    // A board that becomes full.
    (
        WorkKind::Board,
        "board workers 1\n1 put 3\n1 put 3\n1 put 3\n1 put 3\n1 put 3\n1 put 3\n1 put 3\n1 put 3\n",
        Report::Board {
            stored: 7,
            full: 1,
            taken: 0,
            empty: 0,
            left: 7,
        },
    ),
    (
        WorkKind::Bank,
        "bank workers 1 lines 2\n1 in 0 10\n1 move 0 9 4\n1 out 9 9\n1 out 9 1\n",
        Report::Bank {
            paid_in: 10,
            paid_out: 1,
            total: 9,
        },
    ),
    // The jobs, in order: pay 10 into account 0; move 4 from account 0 to account 9; move 5 from account 0 to itself;
    // pay 9 out of account 9, which has only 4; pay 1 out of account 9; pay 2^48 into account 0, which has 6; move 6
    // from account 0 to account 1; pay 6 out of account 1.
    (
        WorkKind::Bank,
        "bank workers 1 lines 2\n1 in 0 10\n1 move 0 9 4\n1 move 0 0 5\n1 out 9 9\n1 out 9 1\n1 in 0 281474976710656\n1 move 0 1 6\n1 out 1 6\n",
        Report::Bank {
            paid_in: 10,
            paid_out: 7,
            total: 3,
        },
    ),
];

#[test]
fn one_worker_does_its_jobs(rt: HostRuntime) -> Result<(), Fail> {
    for (kind, script, report) in &OF_ONE {
        expect_work(&rt, rt.alloc(), &AlwaysOpen, *script, *kind, Ok(*report))?;
    }
    Ok(())
}

/// Scripts with two workers whose report is the same in any order of the jobs.
static OF_TWO: [Row; 2] = [
    // No put finds the board full, even if it comes last.
    (
        WorkKind::Board,
        "board workers 2\n1 put 1\n1 put 2\n1 put 3\n2 put 4\n2 put 5\n2 put 6\n2 put 7\n",
        Report::Board {
            stored: 7,
            full: 0,
            taken: 0,
            empty: 0,
            left: 7,
        },
    ),
    // Payments in are all done if they fit, whichever moves come before them. Account 0 receives payments of
    // 2^48 - 110, 60 and 10, and 20 is moved from it to account 8. Account 9 receives a payment of 10, which is moved
    // to account 0. The payments in come to 2^48 - 30, and together with the moves to 2^48.
    (
        WorkKind::Bank,
        "bank workers 2 lines 2\n1 in 0 281474976710546\n2 in 0 60\n2 in 9 10\n2 move 0 8 20\n1 move 9 0 10\n1 in 0 10\n",
        Report::Bank {
            paid_in: 281_474_976_710_626,
            paid_out: 0,
            total: 281_474_976_710_626,
        },
    ),
];

#[test]
fn two_workers_do_theirs_in_any_order(rt: HostRuntime) -> Result<(), Fail> {
    for (kind, script, report) in &OF_TWO {
        for _ in 0..100 {
            expect_work(&rt, rt.alloc(), &AlwaysOpen, *script, *kind, Ok(*report))?;
        }
    }
    Ok(())
}

/// Runs a bank with `workers` workers and `accounts` accounts, of which each line holds eight. Each worker pays in 1
/// `times` times, each time into the next account. All payments together come to `paid`.
fn expect_payments<R: Threads + Wait + Abort + Sync>(
    rt: &R,
    alloc: Global,
    workers: u64,
    accounts: u64,
    times: u64,
    paid: u128,
) -> Result<(), Fail>
    requires { 0 < accounts }
{
    let lines = accounts / 8;
    let mut script = format!(in alloc; "bank workers {workers} lines {lines}\n")?;
    for worker in 1..workers.saturating_add(1) {
        for turn in 0..times {
            let account = worker.wrapping_add(turn) % accounts;
            script.push_str(format!(in alloc; "{worker} in {account} 1\n")?.as_str())?;
        }
    }
    let report = Report::Bank {
        paid_in: paid,
        paid_out: 0,
        total: paid,
    };
    expect_work(
        rt,
        alloc,
        &AlwaysOpen,
        script.as_str(),
        WorkKind::Bank,
        Ok(report),
    )
}

#[test]
fn no_payment_of_many_workers_is_lost(rt: HostRuntime) -> Result<(), Fail> {
    expect_payments(&rt, rt.alloc(), 4, 8, 100, 400)?;
    expect_payments(&rt, rt.alloc(), 200, 8, 1, 200)?;
    expect_payments(&rt, rt.alloc(), 200, 64, 1, 200)
}

#[test]
fn the_longest_work_of_a_board_is_done(rt: HostRuntime) -> Result<(), Fail> {
    let mut script = "board workers 1\n".to_string(rt.alloc())?;
    for _ in 0..50_000u32 {
        script.push_str("1 put 5\n1 take\n")?;
    }
    let report = Report::Board {
        stored: 50_000,
        full: 0,
        taken: 50_000,
        empty: 0,
        left: 0,
    };
    let work = read_work(rt.alloc(), script.as_bytes(), WorkKind::Board)?;
    let found = run_work(&rt, rt.alloc(), &AlwaysOpen, &work, Lines::Ring);
    expect(&rt, "50,000 times two jobs", found, Ok(report));
    Ok(())
}
