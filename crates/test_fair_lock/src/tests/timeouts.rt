//! Tests timeouts, with a clock that the test advances.
use super::{Answer, enter_within, lock_of};
use fair_lock::FairLock;
use std::io;
use std::rt::Clock;
use std::sync::Wait;
use std::sync::atomic::AtomicU64;
use std::sync::atomic::Ordering::SeqCst;
use std::time::Duration;

/// A clock that moves by a nanosecond at each reading, and counts its readings; or a clock that cannot be read.
#[derive(Drop)]
struct Ticking<'r, R> {
    /// Allows the clock's reader to wait.
    _rt: &'r R,
    can_be_read: bool,
    readings: AtomicU64,
}

impl<'r, R> Ticking<'r, R> {
    fn new(rt: &'r R, can_be_read: bool) -> Ticking<'r, R> {
        Ticking {
            _rt: rt,
            can_be_read,
            readings: AtomicU64::new(0),
        }
    }
}

impl<R: Wait> Wait for Ticking<'_, R> {}

impl<R> Clock for Ticking<'_, R> {
    fn monotonic(&self) -> io::Result<Duration> {
        let reading = self.readings.fetch_add(1, SeqCst);
        if self.can_be_read {
            Ok(Duration::from_nanos(reading))
        } else {
            Err(io::Error::from(io::ErrorKind::Other))
        }
    }

    fn since_1970(&self) -> io::Result<Duration> {
        self.monotonic()
    }
}

/// Returns whether a call times out with this timeout in nanoseconds, and how often it read the clock.
fn call_that_times_out<R: Wait>(
    rt: &R,
    lock: &FairLock<u64>,
    can_be_read: bool,
    nanos: u64,
) -> (bool, u64) {
    let clock = Ticking::new(rt, can_be_read);
    let answer = enter_within(rt, lock, &clock, Duration::from_nanos(nanos));
    (answer == Answer::TimedOut, clock.readings.load(SeqCst))
}

/// A call begins at its first reading, and reads the clock once after each try. It times out at the reading that is
/// `nanos` later, and at the second one at the earliest. The same holds for a call behind 60 requests, which draws no
/// ticket. A call that cannot read the clock times out at the second reading.
#[test]
fn a_call_that_times_out_reads_the_clock_up_to_its_timeout(rt: HostRuntime) {
    for barging_limit in [1, 2, 8] {
        let lock = lock_of(rt.alloc(), barging_limit, 0).expect(&rt, "memory");
        let guard = lock.enter(&rt).ok().expect(&rt, "open");
        for call in 0..80u64 {
            let nanos = call % 5;
            let found = call_that_times_out(&rt, &lock, true, nanos);
            let wanted = (true, nanos.wrapping_add(1).max(2));
            assert_eq!(&rt; found, wanted, "at {barging_limit}, call {call}");
        }
        let found = call_that_times_out(&rt, &lock, false, 1_000_000_000);
        assert_eq!(&rt; found, (true, 2), "at {barging_limit}");
        guard.leave(&rt);
        assert_eq!(&rt; lock.into_inner(), 0);
    }
}

/// The system's clock, whose readings are counted.
#[derive(Drop)]
struct Counted<'r, R> {
    rt: &'r R,
    readings: AtomicU64,
}

impl<R: Wait> Wait for Counted<'_, R> {}

impl<R: Clock> Clock for Counted<'_, R> {
    fn monotonic(&self) -> io::Result<Duration> {
        self.readings.fetch_add(1, SeqCst);
        self.rt.monotonic()
    }

    fn since_1970(&self) -> io::Result<Duration> {
        self.rt.since_1970()
    }
}

/// A call that is too far from its turn to draw a ticket naps between two looks, each of which reads the clock. In 50
/// ms it therefore looks at most 250 times, and a few times before.
#[test]
fn a_call_far_from_its_turn_naps(rt: HostRuntime) {
    let lock = lock_of(rt.alloc(), 1, 0).expect(&rt, "memory");
    let guard = lock.enter(&rt).ok().expect(&rt, "open");
    for _ in 0..64u32 {
        let (is_timed_out, _) = call_that_times_out(&rt, &lock, true, 2);
        assert!(&rt; is_timed_out);
    }
    let clock = Counted {
        rt: &rt,
        readings: AtomicU64::new(0),
    };
    let answer = enter_within(&rt, &lock, &clock, Duration::from_millis(50));
    let readings = clock.readings.load(SeqCst);
    assert!(&rt; answer == Answer::TimedOut && readings < 300, "{readings}");
    guard.leave(&rt);
    assert_eq!(&rt; lock.into_inner(), 0);
}
