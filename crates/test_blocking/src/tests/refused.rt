//! Tests `run_scoped` with limited memory. If there is no memory for a thread or a list, the outputs of all threads
//! must be dropped.
use crate::tests::held::{expect, expect_at};
use line_blocking::scoped::{ScopedTask, run_scoped};
use std::alloc::Global;
use std::sync::atomic::{AtomicU64, Ordering};
use std::sync::{Wait, WaitMethods};
use std::test::Fail;
use std::thread::Threads;
use std::time::Duration;
use test_support::{GRAIN, MemoryLimit};

/// This number of threads is so large that their stacks take more than what the heap may keep, which is 64 megabytes.
const MANY: u64 = 8;

/// This number of threads is so small that the stacks of all of them are kept for others once they have ended. The C
/// library keeps 40 megabytes.
const FEW: u64 = 4;

/// How many bytes an output has: a list of them takes more than a list of handles.
const LARGE: usize = 1 << 12;

/// The output of a thread. It is counted when it is dropped.
struct Output<'a> {
    dropped: &'a AtomicU64,
    bytes: [u8; LARGE],
}

impl Drop for Output<'_> {
    fn drop(self) {
        let Self { dropped, bytes: _ } = self;
        dropped.fetch_add(1, Ordering::SeqCst);
    }
}

/// How many naps of a millisecond a thread waits for the others, so that its stack is in use while they start.
const NAPS: u32 = 1_000;

/// Each thread counts that it works, waits for the others for a bounded time, and returns an output.
#[derive(Drop)]
struct Working<'a> {
    all: u64,
    naps: u32,
    worked: &'a AtomicU64,
    dropped: &'a AtomicU64,
}

impl<'a, R: Wait> ScopedTask<R, u64, u64> for Working<'a> {
    type Output = Output<'a>;

    ghost pre = { λ _ _ _ _. Unit {0} };

    ghost post = { λ _ _ _ _. Unit {0} };

    fn work(&self, rt: &R, _shared: &u64, _place: usize, _part: u64) -> Output<'a> {
        self.worked.fetch_add(1, Ordering::SeqCst);
        for _ in 0..self.naps {
            if self.worked.load(Ordering::SeqCst) == self.all {
                break;
            }
            AtomicU64::new(0).park_timeout(rt, 0, Duration::from_millis(1));
        }
        Output {
            dropped: self.dropped,
            bytes: [0; LARGE],
        }
    }
}

/// Runs `all` threads, which wait this many naps, in a room of `bytes` bytes. Returns how many outputs came back, how
/// many threads worked, and how many outputs were dropped by then.
fn run_in<R: Threads + Wait + Sync>(
    rt: &R,
    alloc: Global,
    limit: &MemoryLimit,
    bytes: usize,
    all: u64,
    naps: u32,
) -> Result<(Option<u64>, u64, u64), Fail> {
    let (worked, dropped) = (AtomicU64::new(0), AtomicU64::new(0));
    let task = Working {
        all,
        naps,
        worked: &worked,
        dropped: &dropped,
    };
    let parts = vec![in alloc; 0u64; all as usize]?;
    let rest = limit.leave(alloc, bytes)?;
    let back = run_scoped(rt, alloc, &task, &0, parts);
    let by_then = dropped.load(Ordering::SeqCst);
    drop(rest);
    let came_back = back.as_ref().map(|outputs| outputs.len() as u64);
    Ok((came_back, worked.load(Ordering::SeqCst), by_then))
}

/// Whether the call returned the outputs of all threads, or all outputs are dropped.
fn is_right(found: (Option<u64>, u64, u64), all: u64) -> bool {
    let (came_back, worked, dropped) = found;
    match came_back {
        Some(outputs) => outputs == all && worked == all && dropped == 0,
        None => worked == dropped,
    }
}

#[test]
fn no_output_is_left_behind(rt: HostRuntime) -> Result<(), Fail> {
    let alloc = rt.alloc();
    let limit = MemoryLimit::begin(alloc, 1 << 28)?;
    let mut half_done = false;
    for room in 1..100usize {
        let found = run_in(&rt, alloc, &limit, room << 20, MANY, NAPS)?;
        expect_at(&rt, room as u64, is_right(found, MANY), true);
        if found.0.is_some() {
            break;
        }
        half_done = half_done || found.1 > 0;
    }
    expect(&rt, "a later thread was refused", half_done, true);
    // There are now stacks for all threads, so only a list or an output can be refused.
    for grains in 2..4_096usize {
        let found = run_in(&rt, alloc, &limit, GRAIN * grains, FEW, 0)?;
        expect_at(&rt, grains as u64, is_right(found, FEW), true);
        if found.0.is_some() {
            return Ok(());
        }
    }
    Err(Fail::from("no room was large enough"))
}
