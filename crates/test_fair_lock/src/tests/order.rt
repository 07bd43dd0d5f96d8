//! Tests that threads get the lock in the order of their requests, even if they sleep while they wait.
use super::threads::{append, sum, wait_for};
use super::{Answer, add, add_within, lock_of, try_enter};
use fair_lock::FairLock;
use std::rt::Clock;
use std::sync::Wait;
use std::sync::atomic::AtomicU64;
use std::sync::atomic::Ordering::SeqCst;
use std::time::{Duration, Instant};
use std::{io, thread};

/// Holds the lock while these waiters come. Each of them comes some time after the one before has called.
fn hold_for<R: Wait + Clock>(rt: &R, lock: &FairLock<u64>, stage: &AtomicU64, waiters: u64) {
    if let Ok(guard) = lock.enter(rt) {
        for waiter in 1..=waiters {
            stage.fetch_add(1, SeqCst);
            wait_for(rt, stage, waiter.wrapping_mul(2));
            thread::sleep(rt, Duration::from_millis(3));
        }
        guard.leave(rt);
    }
}

/// Waits as the waiter of this number behind `hold_for`, and is served.
fn come_as<R: Wait + Clock>(
    rt: &R,
    lock: &FairLock<u64>,
    stage: &AtomicU64,
    waiter: u64,
    has_timeout: bool,
) {
    wait_for(rt, stage, waiter.wrapping_mul(2).wrapping_sub(1));
    stage.fetch_add(1, SeqCst);
    append(rt, lock, waiter, has_timeout);
}

/// Either no waiter has a timeout, or each has one, or every second one has. A thread may be stopped between its last
/// step before the call and its request, so not each round has to show the order: three of at most fifty rounds must.
#[test]
fn thirteen_waiters_are_served_as_they_came(rt: HostRuntime) {
    for (barging_limit, timeouts) in [(1, 0), (1, 1), (1, 2), (2, 0), (8, 2)] {
        let mut in_order = 0u64;
        for _ in 0..50 {
            let lock = lock_of(rt.alloc(), barging_limit, 0).expect(&rt, "memory");
            let stage = AtomicU64::new(0);
            thread::map_indices(
                &rt,
                rt.alloc(),
                14,
                &|i| {
                    if i == 0 {
                        hold_for(&rt, &lock, &stage, 13);
                    } else {
                        let has_timeout = timeouts == 1 || timeouts == 2 && i % 2 == 0;
                        come_as(&rt, &lock, &stage, i as u64, has_timeout);
                    }
                },
            )
            .ok()
            .expect(&rt, "memory");
            if lock.into_inner() == 0x123456789abcd {
                in_order = in_order.wrapping_add(1);
                if in_order == 3 {
                    break;
                }
            }
        }
        assert!(&rt;
            in_order == 3,
            "at {barging_limit}, {timeouts}: in order {in_order} times of 50"
        );
    }
}

/// Holds the lock until another waits, and tries to enter it once more. Returns 1 if that was busy.
fn try_while_another_waits<R: Wait + Clock>(
    rt: &R,
    lock: &FairLock<u64>,
    stage: &AtomicU64,
) -> u64 {
    let Ok(guard) = lock.enter(rt) else { return 0 };
    stage.store(1, SeqCst);
    wait_for(rt, stage, 2);
    thread::sleep(rt, Duration::from_millis(5));
    let is_busy = try_enter(rt, lock) == Answer::Busy;
    guard.leave(rt);
    u64::from(is_busy)
}

#[test]
fn who_tries_does_not_wait_behind_a_waiter(rt: HostRuntime) {
    for barging_limit in [1, 2, 8] {
        let lock = lock_of(rt.alloc(), barging_limit, 0).expect(&rt, "memory");
        let stage = AtomicU64::new(0);
        let busy = thread::map_indices(
            &rt,
            rt.alloc(),
            2,
            &|i| {
                if i == 0 {
                    return try_while_another_waits(&rt, &lock, &stage);
                }
                come_as(&rt, &lock, &stage, 1, false);
                0
            },
        )
        .ok()
        .expect(&rt, "memory");
        assert_eq!(&rt; sum(&busy), 1, "at {barging_limit}");
        assert_eq!(&rt; lock.into_inner(), 1, "at {barging_limit}");
    }
}

/// A clock whose second reading waits until the gate is open.
#[derive(Drop)]
struct Gated<'r, R> {
    /// Allows the clock's reader to wait.
    _rt: &'r R,
    readings: &'r AtomicU64,
    gate: &'r AtomicU64,
}

impl<R: Wait> Wait for Gated<'_, R> {}

impl<R> Clock for Gated<'_, R> {
    fn monotonic(&self) -> io::Result<Duration> {
        let reading = self.readings.fetch_add(1, SeqCst);
        if reading == 1 {
            for _ in 0..u64::MAX {
                if self.gate.load(SeqCst) > 0 {
                    break;
                }
                thread::yield_now();
            }
        }
        Ok(Duration::from_nanos(reading))
    }

    fn since_1970(&self) -> io::Result<Duration> {
        self.monotonic()
    }
}

/// The waiters of a lock, up to the one that shares the wake word of the first.
const WAITERS: u64 = 33;

/// Holds the lock until the first waiter has its ticket and reads its clock, the others have theirs, and the first
/// sleeps behind them.
fn hold_past_the_gate<R: Wait + Clock>(
    rt: &R,
    lock: &FairLock<u64>,
    stage: &AtomicU64,
    readings: &AtomicU64,
    gate: &AtomicU64,
) {
    if let Ok(guard) = lock.enter(rt) {
        stage.fetch_add(1, SeqCst);
        wait_for(rt, readings, 2);
        stage.fetch_add(1, SeqCst);
        for waiter in 2..=WAITERS {
            stage.fetch_add(1, SeqCst);
            wait_for(rt, stage, waiter.wrapping_mul(2));
            thread::sleep(rt, Duration::from_millis(3));
        }
        gate.store(1, SeqCst);
        thread::sleep(rt, Duration::from_millis(5));
        guard.leave(rt);
    }
}

/// The first and the last waiter share a wake word, and the last fell asleep first.
#[test]
fn both_that_sleep_at_one_word_are_woken(rt: HostRuntime) {
    let lock = lock_of(rt.alloc(), 1, 0).expect(&rt, "memory");
    let (stage, readings, gate) = (AtomicU64::new(0), AtomicU64::new(0), AtomicU64::new(0));
    let begun = Instant::now(&rt).ok().expect(&rt, "clock");
    thread::map_indices(
        &rt,
        rt.alloc(),
        WAITERS as usize + 1,
        &|i| {
            if i == 0 {
                hold_past_the_gate(&rt, &lock, &stage, &readings, &gate);
            } else if i == 1 {
                let clock = Gated {
                    _rt: &rt,
                    readings: &readings,
                    gate: &gate,
                };
                wait_for(&rt, &stage, 1);
                add_within(&clock, &lock, 1, Duration::from_secs(50));
            } else {
                wait_for(&rt, &stage, (i as u64).wrapping_mul(2).wrapping_sub(1));
                stage.fetch_add(1, SeqCst);
                add(&rt, &lock, 1);
            }
        },
    )
    .ok()
    .expect(&rt, "memory");
    let took = begun.elapsed(&rt).ok().expect(&rt, "clock");
    assert!(&rt; took < Duration::from_secs(25), "woken by no one");
    assert_eq!(&rt; lock.into_inner(), WAITERS);
}

/// Enters the lock again and again once another thread waits, until that thread was served. Returns how often it
/// entered.
fn take_again<R: Wait + Clock>(rt: &R, lock: &FairLock<u64>, stage: &AtomicU64) -> u64 {
    let Ok(guard) = lock.enter(rt) else { return 0 };
    stage.store(1, SeqCst);
    wait_for(rt, stage, 2);
    thread::sleep(rt, Duration::from_millis(20));
    guard.leave(rt);
    for more in 0..1_000_000u64 {
        let Ok(mut guard) = lock.enter(rt) else {
            return 0
        };
        let is_over = *guard.value_mut() != 0;
        guard.leave(rt);
        if is_over {
            return more;
        }
    }
    1_000_000
}

/// The queue head sleeps while a newcomer is inside. The newcomer then barges again and again, but at most as often as
/// the barging limit allows.
#[test]
fn a_queue_head_that_sleeps_is_served_after_the_barging_limit(rt: HostRuntime) {
    for (barging_limit, has_timeout) in [
        (2, false),
        (8, false),
        (8, true),
        (64, false),
        (64, true),
    ] {
        let mut within = 0u64;
        for _ in 0..10 {
            let lock = lock_of(rt.alloc(), barging_limit, 0).expect(&rt, "memory");
            let stage = AtomicU64::new(0);
            let more = thread::map_indices(
                &rt,
                rt.alloc(),
                2,
                &|i| {
                    if i == 0 {
                        return take_again(&rt, &lock, &stage);
                    }
                    come_as(&rt, &lock, &stage, 1, has_timeout);
                    0
                },
            )
            .ok()
            .expect(&rt, "memory");
            assert_eq!(&rt; lock.into_inner(), 1, "at {barging_limit}");
            if sum(&more) < u64::from(barging_limit) {
                within = within.wrapping_add(1);
            }
        }
        assert!(&rt;
            within >= 8,
            "at {barging_limit}: within the bound {within} times of 10"
        );
    }
}
