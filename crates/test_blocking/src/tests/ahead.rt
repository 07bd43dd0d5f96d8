//! Tests which waiters a release wakes: the next holder and, one turn early, the waiter behind the next holder. All
//! later waiters must stay asleep. The tests run on all kinds of lines.
ghost use Rattle.std.specs.Prelude.{◌≡◌};

use crate::tests::held::{Scene, SleepLine, all_see, for_nodes, wait_until};
use crate::tests::parked::sleep_for;
use qolb_model::{Enq, Free, OpenError, Out, ParkingLine, PortState};
use std::alloc::Global;
use std::process::Abort;
use std::rt::Clock;
use std::sync::Wait;
use std::sync::atomic::{AtomicU64, Ordering};
use std::thread;
use std::thread::Threads;
use std::time::Duration;

/// The number of nodes of the line. Node 1 holds it, and the others ask behind it in their order.
const NODES: u64 = 5;

/// How many milliseconds the waiters have to fall asleep, one attempt for each. A waiter that is still awake when it is
/// woken one turn early falls asleep later and sleeps on, because it is not at its turn.
static NAPS: [u64; 6] = [50, 100, 200, 400, 800, 1_600];

/// How many milliseconds the next holder and the waiter behind it may sleep.
const LONG_MILLIS: u64 = 5_000;

/// Node 1 releases the line; the nodes before the next holder have withdrawn; the next holder does nothing with the
/// line.
#[derive(Drop)]
struct Ahead {
    /// The next holder's node.
    next: u64,
    /// Whether the next holder sleeps.
    sleeps: bool,
    /// Whether node 1 closes the line as it releases it.
    shuts: bool,
    /// How long the waiters have to fall asleep; and how long the third waiter may sleep, which no release wakes.
    nap: Duration,
    short: Duration,
    asked: AtomicU64,
}

impl Ahead {
    /// Waits as the node's place behind the next holder demands. Returns `true` if the wait took as long as it should.
    fn wait<R: Wait + Clock, L: ParkingLine<Free>>(
        &self,
        rt: &R,
        line: &L,
        port: &mut L::Port,
        node: u64,
    ) -> bool
        requires belongs { L.belongs line.now port.old }
        requires state { (L.view port.old).state ≡ PortState.Queued }
    {
        let behind = node.wrapping_sub(self.next);
        let long = Duration::from_millis(LONG_MILLIS);
        match behind {
            0 => !self.sleeps || sleep_for(rt, line, port, long).is_some_and(|took| took < long),
            1 => sleep_for(rt, line, port, long).is_some_and(|took| took < long),
            2 => sleep_for(rt, line, port, self.short).is_some_and(|took| took >= self.short),
            _ => true,
        }
    }
}

impl<R: Wait + Clock, L: ParkingLine<Free>> Scene<R, L> for Ahead {
    fn keep(&self, rt: &R, _line: &L) -> bool {
        wait_until(rt, &self.asked, NODES - 1);
        thread::sleep(rt, self.nap);
        self.shuts
    }

    fn behind(&self, rt: &R, line: &L, port: &mut L::Port) -> bool {
        let node = L::node(port);
        wait_until(rt, &self.asked, node.saturating_sub(2));
        let Enq::Queued = line.enqolb(port) else {
            return false;
        };
        if node < self.next {
            let out = line.withdraw(port);
            self.asked.fetch_add(1, Ordering::SeqCst);
            return out == Out::Withdrawn;
        }
        self.asked.fetch_add(1, Ordering::SeqCst);
        self.wait(rt, line, port, node)
    }
}

/// Runs the scene on a new line. Returns `true` if each node saw what it should.
fn wake_ahead<R: Threads + Wait + Clock + Sync, L: SleepLine + Sync>(
    rt: &R,
    alloc: Global,
    next: u64,
    sleeps: bool,
    shuts: bool,
    nap: Duration,
) -> Result<bool, OpenError>
where
    L::Port: Send + Drop,
{
    let scene = Ahead {
        next,
        sleeps,
        shuts,
        nap,
        short: nap.saturating_mul(3),
        asked: AtomicU64::new(0),
    };
    let (line, ports) = L::open_with(alloc, 1, for_nodes(NODES))?;
    Ok(all_see(rt, alloc, &line, ports, &scene, &AtomicU64::new(0)))
}

/// A release wakes the waiter behind the next holder, and no waiter behind that one. It does so whether or not the next
/// holder sleeps, also if the release passes a withdrawn request, and if it closes the line.
pub(super) fn each_release_wakes_one_ahead<
    R: Threads + Wait + Clock + Abort + Sync,
    L: SleepLine + Sync,
>(rt: &R, alloc: Global)
where
    L::Port: Send + Drop,
{
    for (next, sleeps, shuts) in [
        (2, true, false),
        (2, false, false),
        (3, true, false),
        (3, false, false),
        (2, true, true),
        (2, false, true),
    ] {
        let mut woke = false;
        for millis in &NAPS {
            let nap = Duration::from_millis(*millis);
            woke = woke || wake_ahead::<R, L>(rt, alloc, next, sleeps, shuts, nap) == Ok(true);
        }
        assert!(rt;
            woke,
            "the next holder is node {next}, and sleeps: {sleeps}; closed: {shuts}"
        );
    }
}
