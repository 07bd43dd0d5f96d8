//! Tests the blocking calls with a port whose withdrawn request is still in the queue. Such a call tries again until
//! the withdrawn request has been skipped, and then makes a new request. The tests run on each kind of line.
use crate::tests::held::{Scene, SleepLine, all_see, for_nodes, wait_until};
use example_line::timed::add_within;
use line_blocking::{Got, TimedAcquire, acquire, acquire_parking};
use qolb_model::{Free, Keep, OpenError, ParkingLine};
use std::alloc::Global;
use std::process::Abort;
use std::rt::Clock;
use std::sync::Wait;
use std::sync::atomic::{AtomicU64, Ordering};
use std::thread;
use std::thread::Threads;
use std::time::Duration;
use test_support::{HookedLine, Hooks};

/// How many milliseconds node 1 at least holds the line while node 2 asks again.
const BUSY_MILLIS: u64 = 30;

/// The call by which node 2 asks again.
#[derive(Clone, Copy, Debug)]
enum Again {
    Awake,
    Asleep,
    /// The node asks again with this timeout.
    Timed(Duration),
}

/// The number of busy tries after which a parking or timed call sleeps briefly between two tries.
const AWAKE: u64 = 64;

/// How many more tries of node 2 are busy, at least, before node 1 releases.
const NAPS: u64 = 200;

/// Less than a brief sleep, in nanoseconds.
const HASTE: u64 = 100_000;

/// Several brief sleeps, in nanoseconds. The system ends a very short sleep some 60 microseconds late.
const LONG: u64 = 1_000_000;

/// Counts the busy tries of a node, and the hasty ones among them: those that followed the last too soon for a sleep in
/// between, although there had been more than `AWAKE`.
#[derive(Drop)]
struct Tries<'r, R> {
    clock: &'r R,
    count: AtomicU64,
    hasty: AtomicU64,
    /// When the node was last busy, in nanoseconds.
    last: AtomicU64,
    /// The shortest time between two tries after the first `AWAKE`, in nanoseconds.
    shortest: AtomicU64,
}

impl<'r, R: Clock> Tries<'r, R> {
    fn none(clock: &'r R) -> Tries<'r, R> {
        Tries {
            clock,
            count: AtomicU64::new(0),
            hasty: AtomicU64::new(0),
            last: AtomicU64::new(0),
            shortest: AtomicU64::new(u64::MAX),
        }
    }

    /// The time in nanoseconds, or 0 if the clock cannot be read.
    fn nanos(&self) -> u64 {
        match self.clock.monotonic() {
            Ok(time) => u64::try_from(time.as_nanos()).unwrap_or(u64::MAX),
            Err(_) => 0,
        }
    }
}

impl<R: Clock> Hooks for &Tries<'_, R> {
    fn on_busy<K: Keep, L: ParkingLine<K>>(&self, _line: &L, _port: &L::Port) {
        let before = self.count.fetch_add(1, Ordering::SeqCst);
        let now = self.nanos();
        let last = self.last.swap(now, Ordering::SeqCst);
        if before > AWAKE {
            let pause = now.saturating_sub(last);
            self.shortest.fetch_min(pause, Ordering::SeqCst);
            if pause < HASTE {
                self.hasty.fetch_add(1, Ordering::SeqCst);
            }
        }
    }
}

/// Node 2 times out while node 1 holds the line, and requests it again at once.
#[derive(Drop)]
struct Asking<'t> {
    again: Again,
    late: AtomicU64,
    /// The number of node 2's busy tries.
    busy: &'t AtomicU64,
}

impl<R: Wait + Clock, L: ParkingLine<Free>> Scene<R, L> for Asking<'_> {
    fn keep(&self, rt: &R, _line: &L) -> bool {
        wait_until(rt, &self.late, 1);
        thread::sleep(rt, Duration::from_millis(BUSY_MILLIS));
        wait_until(rt, self.busy, AWAKE + NAPS);
        false
    }

    fn behind(&self, rt: &R, line: &L, port: &mut L::Port) -> bool {
        let TimedAcquire::TimedOut = add_within(rt, line, port, Duration::ZERO) else {
            return false;
        };
        self.late.store(1, Ordering::SeqCst);
        match self.again {
            Again::Awake => acquire(rt, line, port) == Got::Granted,
            Again::Asleep => acquire_parking(rt, line, port) == Got::Granted,
            Again::Timed(at_most) => add_within(rt, line, port, at_most) == TimedAcquire::Granted,
        }
    }
}

/// Whether both nodes had the line; node 2's busy and hasty tries; the shortest pause between two tries that may sleep
/// in between.
#[derive(Clone, Copy, Debug)]
struct Found {
    had: bool,
    busy: u64,
    hasty: u64,
    shortest: u64,
}

/// Node 1 of a new line holds it, and node 2 asks again until it is granted the line after node 1.
fn ask_again<R: Threads + Wait + Clock + Sync, L: SleepLine + Sync>(
    rt: &R,
    alloc: Global,
    again: Again,
) -> Result<Found, OpenError>
where
    L::Port: Send + Drop,
{
    let tries = Tries::none(rt);
    let asking = Asking {
        again,
        late: AtomicU64::new(0),
        busy: &tries.count,
    };
    let (line, ports) = L::open_with(alloc, 1, for_nodes(2))?;
    let line = HookedLine::with(&tries, line);
    let had = all_see(rt, alloc, &line, ports, &asking, &AtomicU64::new(0));
    Ok(Found {
        had,
        busy: tries.count.load(Ordering::SeqCst),
        hasty: tries.hasty.load(Ordering::SeqCst),
        shortest: tries.shortest.load(Ordering::SeqCst),
    })
}

/// Node 2 asks again with each call, over lines of this type. A parking or timed call sleeps 200 microseconds between
/// two tries. These are some hundred tries in 30 milliseconds, which are hasty only if a sleep ends early. Without the
/// sleeps there would be thousands of tries. The shortest sleep takes less than `LONG`.
pub(super) fn each_manner<R: Threads + Wait + Clock + Abort + Sync, L: SleepLine + Sync>(
    rt: &R,
    alloc: Global,
)
where
    L::Port: Send + Drop,
{
    let within = Again::Timed(Duration::from_secs(20));
    for again in [Again::Awake, Again::Asleep, within] {
        let found = ask_again::<R, L>(rt, alloc, again);
        let held = found.is_ok_and(|found| {
            let naps = !matches!(again, Again::Awake);
            let naps_well = found.hasty < 5 && found.shortest < LONG;
            found.had && found.busy > 0 && (naps_well || !naps)
        });
        assert!(rt; held, "{again:?}: {found:?}");
    }
}
