//! Tests a lock that several threads share. The threads request the lock, try to get it without waiting, withdraw their
//! requests, sleep, and are woken. No two threads may be inside at the same time, and no acquisition may be lost or
//! counted twice. Tickets must have their turns in order, and the number of barging threads must stay within its
//! bounds.
use crate::field::Field;
use crate::{barging, strict};
use lock_core::LockKind;
use std::alloc::Global;
use std::process::Abort;
use std::sync::Wait;
use std::test::Fail;
use std::thread::{Threads, map_indices};

/// The requests of all threads of one run.
const REQUESTS: u64 = 40_000;

/// Runs this number of threads over a strict lock.
fn run_strict<R: Threads + Wait + Sync + Abort>(
    rt: &R,
    alloc: Global,
    threads: u64,
) -> Result<(), Fail> {
    let field = Field::open(alloc, LockKind::Strict).ok().ok_or("opened")?;
    let requests = REQUESTS / threads.max(1);
    let turns = map_indices(
        rt,
        alloc,
        threads as usize,
        &|place| { strict::turns(rt, &field, place as u64, requests) },
    )?;
    let sum = turns.iter().fold(0u64, |sum, n| sum.wrapping_add(*n));
    assert_eq!(rt; field.counts.faults(), 0, "{threads} threads");
    assert_eq!(rt; field.counts.turns(), sum, "{threads} threads");
    Ok(())
}

/// Runs this number of threads over a barging lock with this limit.
fn run_barging<R: Threads + Wait + Sync + Abort>(
    rt: &R,
    alloc: Global,
    threads: u64,
    barging_limit: u16,
) -> Result<(), Fail> {
    let field = Field::open(alloc, LockKind::Barging(barging_limit))
        .ok()
        .ok_or("opened")?;
    let requests = REQUESTS / threads.max(1);
    let most = u64::from(barging_limit);
    let bound = threads.wrapping_mul(most.saturating_sub(1));
    let turns = map_indices(
        rt,
        alloc,
        threads as usize,
        &|place| { barging::turns(rt, &field, place as u64, requests, most, bound) },
    )?;
    let sum = turns.iter().fold(0u64, |sum, n| sum.wrapping_add(*n));
    assert_eq!(rt;
        field.counts.faults(),
        0,
        "{threads} threads, barging limit {barging_limit}"
    );
    assert_eq!(rt;
        field.counts.turns(),
        sum,
        "{threads} threads, barging limit {barging_limit}"
    );
    Ok(())
}

#[test]
fn strict_turns_are_in_order(rt: HostRuntime) -> Result<(), Fail> {
    for threads in [2, 4, 16, 64] {
        run_strict(&rt, rt.alloc(), threads)?;
    }
    Ok(())
}

#[test]
fn barging_keeps_its_bounds(rt: HostRuntime) -> Result<(), Fail> {
    for (threads, barging_limit) in [(2, 2), (4, 3), (4, 16), (16, 64), (64, 2)] {
        run_barging(&rt, rt.alloc(), threads, barging_limit)?;
    }
    Ok(())
}
