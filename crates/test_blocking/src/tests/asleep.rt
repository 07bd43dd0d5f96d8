//! Tests that waiters sleep and are woken, and that a node can make another request after a timeout. The tests run on
//! all kinds of lines.
ghost use Rattle.std.specs.Prelude.{◌≡◌, IsTrue};
ghost use Rattle.qolb_model.specs.PortStates.{may_ask};
ghost use Rattle.qolb_model.specs.AtTurn.{IsGranted};

use crate::tests::held::{SleepLine, expect, expect_at, for_nodes, open_two};
use crate::tests::passing::whoever_passes_a_closed_line_on_wakes;
use example_line::counter::add_one;
use example_line::timed::add_within;
use line_blocking::scoped::{ScopedTask, run_scoped};
use line_blocking::{Got, TimedAcquire, acquire_parking, acquire_timeout};
use line_lanes::lane;
use qolb_model::{Free, LineConfig, ParkingLine, PortState};
use std::alloc::Global;
use std::process::Abort;
use std::rt::Clock;
use std::sync::Wait;
use std::sync::atomic::{AtomicU64, Ordering};
use std::thread;
use std::thread::Threads;
use std::time::Duration;

/// How each thread requests the line. Timeouts are in microseconds.
#[derive(Clone, Copy)]
enum Manner {
    /// The thread sleeps until its turn.
    Asleep,
    /// The thread waits with this timeout.
    Timed(u64),
    /// The thread has the timeout if the round plus the place is divisible by 3, and otherwise no timeout.
    Mixed(u64),
}

/// The task of each thread: `rounds` turns, in each of which it adds 1 to the first lane and holds the line for `hold`.
#[derive(Drop)]
struct Sharing {
    rounds: u64,
    manner: Manner,
    hold: Duration,
    /// Each turn closes the line.
    shuts: bool,
    /// The turns and the timeouts of all threads together.
    turns: AtomicU64,
    late: AtomicU64,
}

impl Sharing {
    fn new(rounds: u64, manner: Manner, hold: u64, shuts: bool) -> Sharing {
        Sharing {
            rounds,
            manner,
            hold: Duration::from_micros(hold),
            shuts,
            turns: AtomicU64::new(0),
            late: AtomicU64::new(0),
        }
    }

    /// Acquires the line in the round `number`, as `manner` says.
    fn ask<R: Wait + Clock, L: ParkingLine<Free>>(
        &self,
        rt: &R,
        line: &L,
        port: &mut L::Port,
        number: u64,
    ) -> TimedAcquire
        requires belongs { L.belongs line.now port.old }
        requires state { IsTrue (may_ask (L.view port.old).state) }
        ensures belongs { L.belongs line.now port.new }
        ensures granted { result ≡ TimedAcquire.Granted
            → IsGranted (L.view port.new) (L.turn port.new) }
        ensures told { result ≡ TimedAcquire.Closed → IsTrue (may_ask (L.view port.new).state) }
        ensures late { result ≡ TimedAcquire.TimedOut → IsTrue (may_ask (L.view port.new).state) }
    {
        let at_most = match self.manner {
            Manner::Timed(at_most) => Some(at_most),
            Manner::Mixed(at_most) if number % 3 == 0 => Some(at_most),
            _ => None,
        };
        match at_most {
            Some(micros) => acquire_timeout(rt, line, port, Duration::from_micros(micros)),
            None => match acquire_parking(rt, line, port) {
                Got::Granted => TimedAcquire::Granted,
                Got::Closed => TimedAcquire::Closed,
            },
        }
    }
}

impl<R: Wait + Clock, L: ParkingLine<Free>> ScopedTask<R, L, L::Port> for Sharing {
    type Output = L::Port;

    ghost pre = { λ _ line _ port. L.belongs line port × IsTrue (may_ask (L.view port).state) };

    ghost post = { λ _ line _ port. L.belongs line port × IsTrue (may_ask (L.view port).state) };

    fn work(&self, rt: &R, line: &L, place: usize, port: L::Port) -> L::Port {
        let mut port = port;
        for round in 0..self.rounds {
            match self.ask(rt, line, &mut port, round.wrapping_add(place as u64)) {
                TimedAcquire::Granted => {
                    self.turns.fetch_add(1, Ordering::SeqCst);
                    add_one::<L>(&mut port);
                    thread::sleep(rt, self.hold);
                    if self.shuts {
                        line.shut(&mut port);
                    } else {
                        line.deqolb(&mut port);
                    }
                }
                TimedAcquire::Closed => break,
                TimedAcquire::TimedOut => {
                    self.late.fetch_add(1, Ordering::SeqCst);
                }
            }
        }
        port
    }
}

/// The outcome of a line that threads shared: the number in its first lane, their turns, and their timeouts.
#[derive(Clone, Copy, Debug, PartialEq, Eq)]
struct Outcome {
    number: u64,
    turns: u64,
    late: u64,
}

/// Runs `sharing` in a thread for each of `nodes` nodes of a new line.
fn share<R: Threads + Wait + Clock + Sync, L: SleepLine + Sync>(
    rt: &R,
    alloc: Global,
    nodes: u64,
    lease: Option<u64>,
    sharing: &Sharing,
) -> Option<Outcome>
where
    L::Port: Send + Drop,
{
    let config = LineConfig {
        lease,
        ..for_nodes(nodes)
    };
    let (line, ports) = L::open_with(alloc, 1, config).ok()?;
    let ports = run_scoped(rt, alloc, sharing, &line, ports)?;
    let last = line.finish(alloc, ports).ok()?;
    Some(Outcome {
        number: lane(&last, 0),
        turns: sharing.turns.load(Ordering::SeqCst),
        late: sharing.late.load(Ordering::SeqCst),
    })
}

/// Threads that share a new line, and the outcome.
struct Shared {
    nodes: u64,
    lease: Option<u64>,
    rounds: u64,
    manner: Manner,
    /// How long each turn takes, in microseconds.
    hold: u64,
    shuts: bool,
    /// The turns of all threads, which is also the number at the end. No thread times out.
    turns: u64,
}

/// Each waiter has its turns, or is told that the line is closed.
static SHARED: [Shared; 4] = [
    // Eight threads take turns: each release wakes the next.
    Shared {
        nodes: 8,
        lease: None,
        rounds: 50,
        manner: Manner::Asleep,
        hold: 300,
        shuts: false,
        turns: 400,
    },
    // One thread shuts the line while seven sleep: each is woken by its predecessor.
    Shared {
        nodes: 8,
        lease: None,
        rounds: 2,
        manner: Manner::Asleep,
        hold: 50_000,
        shuts: true,
        turns: 1,
    },
    // The third turn is the last of the lease: all sleeping waiters are woken.
    Shared {
        nodes: 8,
        lease: Some(3),
        rounds: 3,
        manner: Manner::Asleep,
        hold: 20_000,
        shuts: false,
        turns: 3,
    },
    // No node times out with a limit of 20 seconds, which is much longer than all turns together.
    Shared {
        nodes: 3,
        lease: None,
        rounds: 20,
        manner: Manner::Timed(20_000_000),
        hold: 500,
        shuts: false,
        turns: 60,
    },
];

/// Each row of `SHARED` has its outcome.
fn each_waiter_is_woken<R: Threads + Wait + Clock + Abort + Sync, L: SleepLine + Sync>(
    rt: &R,
    alloc: Global,
)
where
    L::Port: Send + Drop,
{
    for row in &SHARED {
        let sharing = Sharing::new(row.rounds, row.manner, row.hold, row.shuts);
        let outcome = share::<R, L>(rt, alloc, row.nodes, row.lease, &sharing);
        let wanted = Outcome {
            number: row.turns,
            turns: row.turns,
            late: 0,
        };
        expect_at(rt, row.hold, outcome, Some(wanted));
    }
}

/// Timeouts race with grants, because the timeout is about as long as a turn. Returns `true` if each try was either a
/// turn or a timeout.
fn race<R: Threads + Wait + Clock + Sync, L: SleepLine + Sync>(
    rt: &R,
    alloc: Global,
    micros: u64,
) -> bool
where
    L::Port: Send + Drop,
{
    let sharing = Sharing::new(500, Manner::Timed(micros), 20, false);
    let Some(outcome) = share::<R, L>(rt, alloc, 3, None, &sharing) else {
        return false;
    };
    outcome.number == outcome.turns && outcome.turns.wrapping_add(outcome.late) == 1_500
}

/// The timeouts, from none up to some turns.
pub(super) fn no_grant_is_lost_to_a_time_limit<
    R: Threads + Wait + Clock + Abort + Sync,
    L: SleepLine + Sync,
>(rt: &R, alloc: Global)
where
    L::Port: Send + Drop,
{
    for micros in [0, 70, 150, 400] {
        expect_at(rt, micros, race::<R, L>(rt, alloc, micros), true);
    }
}

/// Two thirds of the tries have no limit, the others have one, until the lease is used up.
pub(super) fn sleepers_and_late_ones_share_a_lease<
    R: Threads + Wait + Clock + Abort + Sync,
    L: SleepLine + Sync,
>(rt: &R, alloc: Global)
where
    L::Port: Send + Drop,
{
    for _ in 0..3 {
        let sharing = Sharing::new(u64::MAX, Manner::Mixed(200), 10, false);
        let outcome = share::<R, L>(rt, alloc, 8, Some(3_000), &sharing);
        let turns = outcome.map(|outcome| (outcome.number, outcome.turns));
        expect(rt, "a shared lease", turns, Some((3_000, 3_000)));
    }
}

/// Node 1 holds; node 2 asks twice for 5 ms; node 1 releases, and node 2 asks once more. Returns node 2's answers, each
/// with its state after it.
fn late_and_later<R: Wait + Clock, L: ParkingLine<Free>>(
    rt: &R,
    line: &L,
    one: &mut L::Port,
    two: &mut L::Port,
) -> Option<[(TimedAcquire, PortState); 3]>
    requires belongs_one { L.belongs line.now one.old }
    requires belongs_two { L.belongs line.now two.old }
    requires state_one { IsTrue (may_ask (L.view one.old).state) }
    requires state_two { IsTrue (may_ask (L.view two.old).state) }
{
    let at_most = Duration::from_millis(5);
    let Got::Granted = acquire_parking(rt, line, one) else {
        return None;
    };
    let first = (add_within(rt, line, two, at_most), L::state(two));
    let again = (add_within(rt, line, two, at_most), L::state(two));
    line.deqolb(one);
    let last = (add_within(rt, line, two, at_most), L::state(two));
    Some([first, again, last])
}

/// Runs `late_and_later` on a new line of two nodes.
fn late_at_a_new_line<R: Wait + Clock, L: SleepLine>(
    rt: &R,
    alloc: Global,
) -> Option<[(TimedAcquire, PortState); 3]>
where
    L::Port: Drop,
{
    let (line, mut one, mut two) = open_two::<L>(alloc)?;
    late_and_later(rt, &line, &mut one, &mut two)
}

/// After a timeout the port is `Rolled`. It times out again while its withdrawn request has not been passed, and is
/// then granted the line.
fn whoever_is_late_asks_again<R: Wait + Clock + Abort, L: SleepLine>(rt: &R, alloc: Global)
where
    L::Port: Drop,
{
    let wanted = Some([
        (TimedAcquire::TimedOut, PortState::Rolled),
        (TimedAcquire::TimedOut, PortState::Rolled),
        (TimedAcquire::Granted, PortState::Idle),
    ]);
    expect(rt, "late", late_at_a_new_line::<R, L>(rt, alloc), wanted);
}

/// Waiters are woken, request the line again after they were late, and are told of a line that was closed.
pub(super) fn each_wait<R: Threads + Wait + Clock + Abort + Sync, L: SleepLine + Sync>(
    rt: &R,
    alloc: Global,
)
where
    L::Port: Send + Drop,
{
    each_waiter_is_woken::<R, L>(rt, alloc);
    whoever_is_late_asks_again::<R, L>(rt, alloc);
    whoever_passes_a_closed_line_on_wakes::<R, L>(rt, alloc);
}
