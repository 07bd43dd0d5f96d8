//! Tests how long a waiter sleeps, measured with the system's clock, on all kinds of lines.
ghost use Rattle.std.specs.Prelude.{◌≡◌};

use crate::tests::held::{Scene, SleepLine, all_see, expect, for_nodes, open_three, wait_until};
use example_line::counter::add;
use qolb_model::{Enq, Free, OpenError, ParkingLine, PortState};
use std::alloc::Global;
use std::process::Abort;
use std::rt::Clock;
use std::sync::Wait;
use std::sync::atomic::{AtomicU64, Ordering};
use std::thread::Threads;
use std::time::{Duration, Instant};
use test_support::{HookedLine, Hooks};

/// The number of turns that a line has had before a node sleeps at it.
const TURNS_BEFORE: u64 = 300;

/// Hooks that do nothing.
#[derive(Drop)]
pub(super) struct NoHooks;

impl Default for NoHooks {
    fn default() -> NoHooks {
        NoHooks
    }
}

impl Hooks for NoHooks {}

/// The shortest and the longest sleep before the turn, and one sleep while the node was at its turn.
#[derive(Clone, Copy, Debug)]
struct Took {
    shortest: Duration,
    longest: Duration,
    after: Duration,
}

/// Measures one sleep of at most `at_most`. Returns `None` if the clock cannot be read.
pub(super) fn sleep_for<R: Wait + Clock, L: ParkingLine<Free>>(
    rt: &R,
    line: &L,
    port: &L::Port,
    at_most: Duration,
) -> Option<Duration>
    requires belongs { L.belongs line.now port.now }
    requires state { (L.view port.now).state ≡ PortState.Queued }
{
    let begin = Instant::now(rt).ok()?;
    line.sleep(rt, port, at_most);
    begin.elapsed(rt).ok()
}

/// Node 1 holds the line, and nodes 2 and 3 queue. Node 2 sleeps with the timeout `at_most` until it has slept that
/// long, and once less than `less`, but at most `times` times. Then node 1 releases, and node 2 sleeps once more with a
/// timeout 1,000 times as long.
fn sleep_behind_another<R: Wait + Clock, L: SleepLine>(
    rt: &R,
    alloc: Global,
    times: u32,
    at_most: Duration,
    less: Duration,
) -> Option<Took>
where
    L::Port: Drop,
{
    let (line, mut one, mut two, mut three) = open_three::<L>(alloc)?;
    add(rt, &line, &mut one, TURNS_BEFORE);
    let Enq::Granted = line.enqolb(&mut one) else {
        return None;
    };
    let Enq::Queued = line.enqolb(&mut two) else {
        return None;
    };
    let Enq::Queued = line.enqolb(&mut three) else {
        return None;
    };
    let mut shortest = Duration::MAX;
    let mut longest = Duration::ZERO;
    for _ in 0..times {
        let took = sleep_for(rt, &line, &two, at_most)?;
        shortest = shortest.min(took);
        longest = longest.max(took);
        if longest >= at_most && shortest < less {
            break;
        }
    }
    line.deqolb(&mut one);
    let after = sleep_for(rt, &line, &two, at_most.saturating_mul(1_000))?;
    Some(Took {
        shortest,
        longest,
        after,
    })
}

/// How often node 2 sleeps at most, its timeout in microseconds, and a bound in microseconds on the shortest of these
/// sleeps. The system ends a very short sleep some 60 microseconds late. If many threads want a processor, it usually
/// ends the sleep a whole millisecond late.
static SLEEPS: [(u32, u64, u64); 4] = [
    (5_000, 200, 1_000),
    (1_000, 4_000, 8_000),
    (200, 20_000, 40_000),
    (5, 1_100_000, 2_200_000),
];

/// The longest sleep takes at least its timeout, and the shortest hardly longer. At its turn a node does not sleep.
pub(super) fn a_sleep_lasts_as_long_as_it_may<R: Wait + Clock + Abort, L: SleepLine>(
    rt: &R,
    alloc: Global,
)
where
    L::Port: Drop,
{
    for (times, micros, less) in &SLEEPS {
        let at_most = Duration::from_micros(*micros);
        let less = Duration::from_micros(*less);
        let took = sleep_behind_another::<R, L>(rt, alloc, *times, at_most, less);
        let held = took.is_some_and(|took| {
            took.longest >= at_most
                && took.shortest < less
                && took.after < at_most.saturating_mul(500)
        });
        assert!(rt; held, "{times} times {micros} us: {took:?}");
    }
}

/// The number of nodes of a line at which all nodes but one sleep.
const NODES: u64 = 200;

/// Node 1 holds the line until all others have slept behind it, ten times each with the timeout `at_most`. Each node
/// tells whether one of its sleeps took that long.
#[derive(Drop)]
struct Dozing {
    at_most: Duration,
    slept: AtomicU64,
}

impl Dozing {
    /// Sleeps ten times. Returns `true` if one of the sleeps took `at_most` or longer.
    fn doze<R: Wait + Clock, L: ParkingLine<Free>>(&self, rt: &R, line: &L, port: &L::Port) -> bool
        requires belongs { L.belongs line.now port.now }
        requires state { (L.view port.now).state ≡ PortState.Queued }
    {
        let mut was_long = false;
        for _ in 0..10 {
            let took = sleep_for(rt, line, port, self.at_most);
            was_long = was_long || took.is_some_and(|took| took >= self.at_most);
        }
        was_long
    }
}

impl<R: Wait + Clock, L: ParkingLine<Free>> Scene<R, L> for Dozing {
    fn keep(&self, rt: &R, _line: &L) -> bool {
        wait_until(rt, &self.slept, NODES - 1);
        false
    }

    fn behind(&self, rt: &R, line: &L, port: &mut L::Port) -> bool {
        let was_long = match line.enqolb(port) {
            Enq::Queued => self.doze(rt, line, port),
            _ => false,
        };
        self.slept.fetch_add(1, Ordering::SeqCst);
        was_long
    }
}

/// Runs the scene on a new line. Returns `true` if all waiters slept long, at the same time, behind one holder.
fn doze_together<R: Threads + Wait + Clock + Sync, L: SleepLine + Sync>(
    rt: &R,
    alloc: Global,
) -> Result<bool, OpenError>
where
    L::Port: Send + Drop,
{
    let dozing = Dozing {
        at_most: Duration::from_millis(20),
        slept: AtomicU64::new(0),
    };
    let (line, ports) = L::open_with(alloc, 1, for_nodes(NODES))?;
    Ok(all_see(rt, alloc, &line, ports, &dozing, &AtomicU64::new(0)))
}

/// All 199 waiters sleep at the same time. None stays awake because others sleep.
pub(super) fn all_sleep_at_the_same_time<
    R: Threads + Wait + Clock + Abort + Sync,
    L: SleepLine + Sync,
>(rt: &R, alloc: Global)
where
    L::Port: Send + Drop,
{
    expect(rt, "together", doze_together::<R, L>(rt, alloc), Ok(true));
}
