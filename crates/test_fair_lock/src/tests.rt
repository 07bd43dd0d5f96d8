//! The list of the tests of the fair lock, and functions that these tests share.
mod answers;
mod order;
mod threads;
mod timeouts;

use fair_lock::{EnterError, FairLock, TryEnterError};
use std::alloc::Global;
use std::rt::Clock;
use std::sync::Wait;
use std::time::Duration;

/// A strict lock of a number, or a barging lock if the limit is at least two.
fn lock_of(alloc: Global, barging_limit: u16, value: u64) -> Option<FairLock<u64>> {
    if barging_limit < 2 {
        FairLock::new(alloc, value).ok()
    } else {
        FairLock::with_barging(alloc, barging_limit, value).ok()
    }
}

/// What a call answers. A guard that it is given leaves at once.
#[derive(Clone, Copy, Debug, PartialEq)]
enum Answer {
    Served,
    Busy,
    TimedOut,
    Closed,
}

/// The answer of `enter`.
fn enter<R: Wait>(rt: &R, lock: &FairLock<u64>) -> Answer {
    match lock.enter(rt) {
        Ok(guard) => {
            guard.leave(rt);
            Answer::Served
        }
        Err(_) => Answer::Closed,
    }
}

/// The answer of `try_enter`.
fn try_enter<R: Wait>(rt: &R, lock: &FairLock<u64>) -> Answer {
    match lock.try_enter(rt) {
        Ok(guard) => {
            guard.leave(rt);
            Answer::Served
        }
        Err(TryEnterError::Busy(_)) => Answer::Busy,
        Err(TryEnterError::Closed(_)) => Answer::Closed,
    }
}

/// The answer of `enter_within`, with this timeout by this clock.
fn enter_within<R: Wait, C: Wait + Clock>(
    rt: &R,
    lock: &FairLock<u64>,
    clock: &C,
    at_most: Duration,
) -> Answer {
    match lock.enter_within(clock, at_most) {
        Ok(guard) => {
            guard.leave(rt);
            Answer::Served
        }
        Err(EnterError::TimedOut(_)) => Answer::TimedOut,
        Err(EnterError::Closed(_)) => Answer::Closed,
    }
}

/// Adds one this many times, each time in a critical section of its own. Returns how many critical sections there were.
fn add<R: Wait>(rt: &R, lock: &FairLock<u64>, times: u64) -> u64 {
    let mut had = 0u64;
    for _ in 0..times {
        if let Ok(mut guard) = lock.enter(rt) {
            let value = guard.value_mut();
            *value = value.wrapping_add(1);
            guard.leave(rt);
            had = had.wrapping_add(1);
        }
    }
    had
}

/// Does the same, but each call has a timeout. Returns how many did not time out.
fn add_within<R: Wait + Clock>(rt: &R, lock: &FairLock<u64>, times: u64, at_most: Duration) -> u64 {
    let mut had = 0u64;
    for _ in 0..times {
        if let Ok(mut guard) = lock.enter_within(rt, at_most) {
            let value = guard.value_mut();
            *value = value.wrapping_add(1);
            guard.leave(rt);
            had = had.wrapping_add(1);
        }
    }
    had
}

/// Adds one this many times, if that is possible at once. Returns how often it was.
fn try_add<R: Wait>(rt: &R, lock: &FairLock<u64>, times: u64) -> u64 {
    let mut had = 0u64;
    for _ in 0..times {
        if let Ok(mut guard) = lock.try_enter(rt) {
            let value = guard.value_mut();
            *value = value.wrapping_add(1);
            guard.leave(rt);
            had = had.wrapping_add(1);
        }
    }
    had
}
