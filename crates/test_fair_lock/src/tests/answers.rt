//! Tests each answer that a call on a fair lock can give, with one thread.
use super::{Answer, add, add_within, enter, enter_within, lock_of, try_add, try_enter};
use fair_lock::{FairLock, NewError, OpenError};
use std::rt::Clock;
use std::sync::Wait;
use std::time::{Duration, Instant};

#[test]
fn a_barging_limit_of_one_is_refused_and_the_value_comes_back(rt: HostRuntime) {
    let refused = FairLock::with_barging(rt.alloc(), 1, 7u64);
    let Err(NewError { error, value }) = refused else {
        panic!(&rt; "made with a barging limit of one")
    };
    assert_eq!(&rt; error, OpenError::BadBargingLimit(1));
    assert_eq!(&rt; value, 7);
}

#[test]
fn a_free_lock_is_entered_at_once(rt: HostRuntime) {
    for barging_limit in [1, 2, 8] {
        let lock = lock_of(rt.alloc(), barging_limit, 0).expect(&rt, "memory");
        assert_eq!(&rt; add(&rt, &lock, 2), 2, "at {barging_limit}");
        assert_eq!(&rt; try_add(&rt, &lock, 3), 3, "at {barging_limit}");
        assert_eq!(&rt;
            add_within(&rt, &lock, 4, Duration::ZERO),
            4,
            "at {barging_limit}"
        );
        assert_eq!(&rt; lock.into_inner(), 9, "at {barging_limit}");
    }
}

#[test]
fn a_held_lock_is_busy_and_times_out(rt: HostRuntime) {
    for barging_limit in [1, 2, 8] {
        let lock = lock_of(rt.alloc(), barging_limit, 5).expect(&rt, "memory");
        let mut guard = lock.enter(&rt).ok().expect(&rt, "open");
        let value = *guard.value_mut();
        *guard.value_mut() = 6;
        let tried = try_enter(&rt, &lock);
        let timed_out = enter_within(&rt, &lock, &rt, Duration::from_millis(3));
        guard.leave(&rt);
        let had = add(&rt, &lock, 3);
        let found = (value, tried, timed_out, had, lock.into_inner());
        let wanted = (5, Answer::Busy, Answer::TimedOut, 3, 9);
        assert_eq!(&rt; found, wanted, "at {barging_limit}");
    }
}

#[test]
fn a_call_that_times_out_waits_as_long_as_it_may(rt: HostRuntime) {
    let timeout = Duration::from_millis(20);
    for barging_limit in [1, 2, 8] {
        let lock = lock_of(rt.alloc(), barging_limit, 0).expect(&rt, "memory");
        let guard = lock.enter(&rt).ok().expect(&rt, "open");
        let begun = Instant::now(&rt).ok().expect(&rt, "clock");
        let answer = enter_within(&rt, &lock, &rt, timeout);
        let waited = begun.elapsed(&rt).ok().expect(&rt, "clock");
        guard.leave(&rt);
        let is_in_time = waited >= timeout && waited < Duration::from_secs(20);
        assert_eq!(&rt;
            (answer, is_in_time),
            (Answer::TimedOut, true),
            "at {barging_limit}"
        );
    }
}

#[test]
fn a_shut_lock_is_closed_to_all(rt: HostRuntime) {
    for barging_limit in [1, 2, 8] {
        let lock = lock_of(rt.alloc(), barging_limit, 1).expect(&rt, "memory");
        let mut guard = lock.enter(&rt).ok().expect(&rt, "open");
        guard.shut();
        *guard.value_mut() = 2;
        guard.leave(&rt);
        let answers = [
            enter(&rt, &lock),
            try_enter(&rt, &lock),
            enter_within(&rt, &lock, &rt, Duration::from_millis(3)),
        ];
        let found = (answers, lock.into_inner());
        assert_eq!(&rt; found, ([Answer::Closed; 3], 2), "at {barging_limit}");
    }
}

/// Holds the lock while five calls with a timeout request it. Returns how many of these calls timed out, which is none
/// if the lock could not be entered.
fn hold_while_five_time_out<R: Wait + Clock>(rt: &R, lock: &FairLock<u64>) -> u64 {
    let mut timed_out = 0u64;
    if let Ok(guard) = lock.enter(rt) {
        for _ in 0..5 {
            if enter_within(rt, lock, rt, Duration::from_micros(1)) == Answer::TimedOut {
                timed_out = timed_out.wrapping_add(1);
            }
        }
        guard.leave(rt);
    }
    timed_out
}

#[test]
fn a_withdrawn_request_is_passed(rt: HostRuntime) {
    for barging_limit in [1, 2] {
        let lock = lock_of(rt.alloc(), barging_limit, 0).expect(&rt, "memory");
        for _ in 0..40 {
            assert_eq!(&rt;
                hold_while_five_time_out(&rt, &lock),
                5,
                "at {barging_limit}"
            );
        }
        let had = add(&rt, &lock, 10);
        assert_eq!(&rt; (had, lock.into_inner()), (10, 10), "at {barging_limit}");
    }
}

#[test]
fn a_guard_learns_of_who_left_before(rt: HostRuntime) {
    let Ok(lock) = FairLock::new(rt.alloc(), 3u64) else {
        panic!(&rt; "memory")
    };
    let Ok(first) = lock.enter(&rt) else {
        panic!(&rt; "shut")
    };
    let left = first.leave(&rt);
    let Ok(mut second) = lock.enter(&rt) else {
        panic!(&rt; "shut")
    };
    second.learn_order(left);
    assert_eq!(&rt; *second.value_mut(), 3);
    second.leave(&rt);
    assert_eq!(&rt; lock.into_inner(), 3);
}
