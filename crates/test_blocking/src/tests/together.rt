//! Tests `run_scoped`, which runs a task in several threads, without a line.
use crate::tests::held::{expect, wait_until};
use line_blocking::scoped::{ScopedTask, run_scoped};
use std::alloc::Global;
use std::process::Abort;
use std::sync::Wait;
use std::sync::atomic::{AtomicU64, Ordering};
use std::test::Fail;
use std::thread::Threads;

/// Each thread waits until as many threads have arrived as its part says.
struct Gathering;

impl<R: Wait> ScopedTask<R, AtomicU64, u64> for Gathering {
    type Output = bool;

    ghost pre = { λ _ _ _ _. Unit {0} };

    ghost post = { λ _ _ _ _. Unit {0} };

    fn work(&self, rt: &R, came: &AtomicU64, _place: usize, all: u64) -> bool {
        came.fetch_add(1, Ordering::SeqCst);
        wait_until(rt, came, all);
        true
    }
}

/// Each thread adds its part to the shared number, and 1,000 for each part before its own.
struct Adding;

impl<R: Wait> ScopedTask<R, u64, u64> for Adding {
    type Output = u64;

    ghost pre = { λ _ _ _ _. Unit {0} };

    ghost post = { λ _ _ _ _. Unit {0} };

    fn work(&self, _rt: &R, shared: &u64, place: usize, part: u64) -> u64 {
        let before = (place as u64).wrapping_mul(1_000);
        shared.wrapping_add(part).wrapping_add(before)
    }
}

#[test]
fn what_comes_back_stands_in_the_order_of_the_parts(rt: HostRuntime) -> Result<(), Fail> {
    let alloc = rt.alloc();
    let parts = vec![in alloc; 5, 3, 9]?;
    let Some(back) = run_scoped(&rt, alloc, &Adding, &100, parts) else {
        return Err(Fail::from("refused"));
    };
    expect(
        &rt,
        "the order",
        back.as_slice(),
        [105, 1_103, 2_109].as_slice(),
    );
    Ok(())
}

#[test]
fn no_part_needs_no_thread(rt: HostRuntime) -> Result<(), Fail> {
    let alloc: Global = rt.alloc();
    let Some(back) = run_scoped(&rt, alloc, &Adding, &100, Vec::new(alloc)) else {
        return Err(Fail::from("refused"));
    };
    expect(&rt, "no part", back.len(), 0);
    Ok(())
}

/// As many threads as there are parts are at work at the same time.
fn work_at_the_same_time<R: Threads + Wait + Abort + Sync>(
    rt: &R,
    alloc: Global,
    many: usize,
) -> Result<(), Fail> {
    let parts = vec![in alloc; many as u64; many]?;
    let Some(back) = run_scoped(rt, alloc, &Gathering, &AtomicU64::new(0), parts) else {
        return Err(Fail::from("refused"));
    };
    expect(rt, "all", back.len(), many);
    Ok(())
}

#[test]
fn two_hundred_work_at_the_same_time(rt: HostRuntime) -> Result<(), Fail> {
    work_at_the_same_time(&rt, rt.alloc(), 200)
}

#[test]
fn three_hundred_work_at_the_same_time(rt: HostRuntime) -> Result<(), Fail> {
    work_at_the_same_time(&rt, rt.alloc(), 300)
}
