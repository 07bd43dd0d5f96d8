//! Tests that threads can share a value: no acquisition is lost, and no two critical sections overlap.
use super::{add, add_within, lock_of, try_add};
use fair_lock::FairLock;
use std::rt::Clock;
use std::sync::Wait;
use std::sync::atomic::AtomicU64;
use std::sync::atomic::Ordering::SeqCst;
use std::thread;
use std::time::Duration;

/// The sum of what the threads had.
pub(super) fn sum(had: &Vec<u64>) -> u64 {
    let mut all = 0u64;
    for n in had.iter() {
        all = all.wrapping_add(*n);
    }
    all
}

#[test]
fn each_turn_counts_once(rt: HostRuntime) {
    for (barging_limit, threads, times) in [
        (1, 2, 4000),
        (1, 4, 2000),
        (1, 16, 200),
        (1, 64, 20),
        (2, 4, 2000),
        (32, 2, 4000),
        (32, 8, 1000),
        (32, 64, 50),
    ] {
        let lock = lock_of(rt.alloc(), barging_limit, 0).expect(&rt, "memory");
        let had = thread::map_indices(&rt, rt.alloc(), threads, &|_| add(&rt, &lock, times))
            .ok()
            .expect(&rt, "memory");
        let wanted = threads as u64 * times;
        assert_eq!(&rt; sum(&had), wanted, "at {barging_limit}");
        assert_eq!(&rt; lock.into_inner(), wanted, "at {barging_limit}");
    }
}

#[test]
fn who_had_no_turn_leaves_nothing(rt: HostRuntime) {
    for barging_limit in [1, 2, 32] {
        let lock = lock_of(rt.alloc(), barging_limit, 0).expect(&rt, "memory");
        let had = thread::map_indices(
            &rt,
            rt.alloc(),
            9,
            &|i| match i % 3 {
                0 => add_within(&rt, &lock, 300, Duration::from_micros(30)),
                1 => try_add(&rt, &lock, 500),
                _ => add(&rt, &lock, 400),
            },
        )
        .ok()
        .expect(&rt, "memory");
        let all = sum(&had);
        assert!(&rt; all >= 1200);
        assert_eq!(&rt; lock.into_inner(), all, "at {barging_limit}");
    }
}

/// Waits until the stage is reached.
pub(super) fn wait_for<R: Wait + Clock>(rt: &R, stage: &AtomicU64, wanted: u64) {
    for _ in rt.forever() {
        if stage.load(SeqCst) >= wanted {
            return;
        }
        thread::sleep(rt, Duration::from_micros(20));
    }
    unreachable!()
}

/// Holds the lock this often: until that number of threads has come, and then long enough for the others to fall
/// asleep. Returns how many critical sections there were.
fn hold_while_others_sleep<R: Wait + Clock>(
    rt: &R,
    lock: &FairLock<u64>,
    stage: &AtomicU64,
    threads: u64,
    times: u64,
) -> u64 {
    let mut turns = 0u64;
    for _ in 0..times {
        if let Ok(guard) = lock.enter(rt) {
            stage.fetch_add(1, SeqCst);
            wait_for(rt, stage, threads);
            thread::sleep(rt, Duration::from_millis(5));
            guard.leave(rt);
            turns = turns.wrapping_add(1);
        }
    }
    turns
}

#[test]
fn those_that_sleep_are_woken(rt: HostRuntime) {
    for barging_limit in [1, 2] {
        let lock = lock_of(rt.alloc(), barging_limit, 0).expect(&rt, "memory");
        let stage = AtomicU64::new(0);
        let had = thread::map_indices(
            &rt,
            rt.alloc(),
            9,
            &|i| {
                if i == 0 {
                    hold_while_others_sleep(&rt, &lock, &stage, 9, 4)
                } else {
                    wait_for(&rt, &stage, 1);
                    stage.fetch_add(1, SeqCst);
                    add(&rt, &lock, 20)
                }
            },
        )
        .ok()
        .expect(&rt, "memory");
        assert_eq!(&rt; sum(&had), 164, "at {barging_limit}");
        assert_eq!(&rt; lock.into_inner(), 160, "at {barging_limit}");
    }
}

/// Enters with a timeout or without: the value becomes sixteen times itself and `digit`.
pub(super) fn append<R: Wait + Clock>(rt: &R, lock: &FairLock<u64>, digit: u64, has_timeout: bool) {
    let entered = if has_timeout {
        lock.enter_within(rt, Duration::from_secs(50)).ok()
    } else {
        lock.enter(rt).ok()
    };
    if let Some(mut guard) = entered {
        let value = guard.value_mut();
        *value = value.wrapping_mul(16).wrapping_add(digit);
        guard.leave(rt);
    }
}

/// Holds the lock until another thread waits for it, leaves, and requests it again.
fn hold_and_draw_again<R: Wait + Clock>(
    rt: &R,
    lock: &FairLock<u64>,
    stage: &AtomicU64,
    has_timeout: bool,
) {
    if let Ok(guard) = lock.enter(rt) {
        stage.store(1, SeqCst);
        wait_for(rt, stage, 2);
        thread::sleep(rt, Duration::from_millis(20));
        guard.leave(rt);
    }
    append(rt, lock, 2, has_timeout);
}

/// A thread may be stopped between its last step before the call and its request, so not each round has to show the
/// order.
#[test]
fn a_waiter_is_served_before_a_later_request(rt: HostRuntime) {
    for waiter_has_timeout in [false, true] {
        let mut in_order = 0u64;
        for _ in 0..20 {
            let lock = lock_of(rt.alloc(), 1, 0).expect(&rt, "memory");
            let stage = AtomicU64::new(0);
            thread::map_indices(
                &rt,
                rt.alloc(),
                2,
                &|i| {
                    if i == 0 {
                        hold_and_draw_again(&rt, &lock, &stage, !waiter_has_timeout);
                    } else {
                        wait_for(&rt, &stage, 1);
                        stage.store(2, SeqCst);
                        append(&rt, &lock, 1, waiter_has_timeout);
                    }
                },
            )
            .ok()
            .expect(&rt, "memory");
            if lock.into_inner() == 0x12 {
                in_order = in_order.wrapping_add(1);
            }
        }
        assert!(&rt; in_order >= 18, "in order {in_order} times of 20");
    }
}
