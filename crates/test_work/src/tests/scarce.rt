//! Tests runs of workers with limited memory. The work must be either refused or done completely, and refused work must
//! not be begun a second time.
use crate::tests::eight::{Counts, loaded};
use crate::tests::rows::{expect, expect_at};
use line_kinds::{ALL, Lock};
use qolb_run::{Gate, RunError, WaitMode, run_work_with};
use qolb_script::{Report, Work, WorkKind, read_work};
use std::alloc::Global;
use std::fmt::Debug;
use std::process::Abort;
use std::sync::Wait;
use std::test::Fail;
use std::thread::Threads;
use test_support::{GRAIN, MemoryLimit};

/// Does this work while only `bytes` bytes of memory are free.
fn worked_in<T: Threads + Wait + Sync, G: Gate + Sync>(
    rt: &T,
    alloc: Global,
    limit: &MemoryLimit,
    bytes: usize,
    gate: &G,
    work: &Work,
    lock: Lock,
) -> Result<Result<Report, RunError>, Fail> {
    let rest = limit.leave(alloc, bytes)?;
    let found = run_work_with(rt, alloc, gate, work, lock, WaitMode::Awake);
    drop(rest);
    Ok(found)
}

/// Work of two workers, who have two jobs each, with the expected report.
static OF_TWO: [(WorkKind, &str, Report); 2] = [
    (
        WorkKind::Board,
        "board workers 2\n1 put 5\n2 put 6\n1 put 7\n2 put 8\n",
        Report::Board {
            stored: 4,
            full: 0,
            taken: 0,
            empty: 0,
            left: 4,
        },
    ),
    (
        WorkKind::Bank,
        "bank workers 2 lines 2\n1 in 0 1\n2 in 0 2\n1 in 8 4\n2 in 8 8\n",
        Report::Bank {
            paid_in: 15,
            paid_out: 0,
            total: 15,
        },
    ),
];

/// Amounts of free memory, in bytes: the first amount, a bound that is never reached, and the step from one amount to
/// the next. The first row grows in steps of the heap's grain, so that each allocation is refused once. The last row
/// has enough memory for the stacks of the threads.
static ROOMS: [(usize, usize, usize); 2] = [
    (2 * GRAIN, 1 << 16, GRAIN),
    (1 << 20, 1 << 26, 1 << 18),
];

/// Returns how many workers have begun. Expects that the first workers are the ones that have begun, that each of them
/// has done each of its two jobs once, and that the gate was told once that there are four jobs.
fn expect_whole<R: Abort, D: Debug>(rt: &R, at: &D, gate: &Counts) -> usize {
    let asked = loaded(&gate.asked);
    let mut begun = 0usize;
    let mut wanted = [0u64; 8];
    for place in 0..2usize {
        if asked[place] > 0 {
            wanted[begun % 8] = 3;
            begun = begun.saturating_add(1);
        }
    }
    let found = (gate.told(), asked, loaded(&gate.next));
    expect_at(rt, at, found, ([1, 4, 0], wanted, wanted));
    begun
}

/// How many amounts of memory were too small, and how many of these were enough for the first of two workers alone.
#[derive(Clone, Copy, Debug, PartialEq, Eq)]
struct TooSmall {
    rooms: u32,
    half_done: u32,
}

/// Does this work with more and more free memory, until the memory is enough. Returns how often it was not enough.
fn refusals_of<T: Threads + Wait + Sync + Abort>(
    rt: &T,
    alloc: Global,
    limit: &MemoryLimit,
    work: &Work,
    lock: Lock,
    report: Report,
) -> Result<TooSmall, Fail> {
    let mut small = TooSmall {
        rooms: 0,
        half_done: 0,
    };
    for (first, end, step) in &ROOMS {
        for bytes in (*first..*end).step_by(*step) {
            let gate = Counts::new(0, 1);
            let found = worked_in(rt, alloc, limit, bytes, &gate, work, lock)?;
            let row = (lock, bytes);
            let begun = expect_whole(rt, &row, &gate);
            if found.is_ok() {
                expect_at(rt, &row, (found, begun), (Ok(report), 2));
                return Ok(small);
            }
            expect_at(rt, &row, found, Err(RunError::Memory));
            small.rooms = small.rooms.saturating_add(1);
            if begun == 1 {
                small.half_done = small.half_done.saturating_add(1);
            }
        }
    }
    Err(Fail::from("no room was large enough"))
}

#[test]
fn work_is_refused_in_each_room_that_is_too_small(rt: HostRuntime) -> Result<(), Fail> {
    let alloc = rt.alloc();
    let limit = MemoryLimit::begin(alloc, 1 << 28)?;
    let mut half_done = 0u32;
    for (kind, script, report) in &OF_TWO {
        let work = read_work(alloc, script.as_bytes(), *kind)?;
        for lock in ALL {
            let small = refusals_of(&rt, alloc, &limit, &work, lock, *report)?;
            expect_at(&rt, &(*kind, lock, small), small.rooms > 30, true);
            half_done = half_done.saturating_add(small.half_done);
        }
    }
    expect(&rt, "some work was half done", half_done > 0, true);
    Ok(())
}
