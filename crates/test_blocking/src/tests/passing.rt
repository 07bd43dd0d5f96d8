//! Tests a node that withdraws its request from a closed line while the next node in the queue sleeps: it must pass the
//! line on to the sleeper.
ghost use Rattle.std.specs.Prelude.{◌≡◌, IsTrue};
ghost use Rattle.qolb_model.specs.PortStates.{may_ask};

use crate::tests::held::{SleepLine, expect, for_nodes};
use line_blocking::scoped::{ScopedTask, run_scoped};
use line_blocking::{Got, acquire_parking};
use line_generic::{Line, Port, SplitEnqueue};
use qolb_model::{Enq, Free, OpenLine, Out, ParkingLine, PortState, Prep};
use std::alloc::Global;
use std::process::Abort;
use std::rt::Clock;
use std::sync::Wait;
use std::sync::atomic::{AtomicU64, Ordering};
use std::thread;
use std::thread::{Threads, yield_now};
use std::time::Duration;

/// How many milliseconds the third node has to fall asleep.
const NAP_MILLIS: u64 = 30;

/// The first node holds the line, the second waits behind it, and the third sleeps behind both. The first node shuts
/// the line. Then the second one withdraws, and its withdrawal forwards the closed line.
#[derive(Drop)]
struct Passing {
    /// The stage that the three nodes have reached.
    stage: AtomicU64,
}

impl Passing {
    fn new() -> Passing {
        Passing {
            stage: AtomicU64::new(0),
        }
    }

    /// Waits until the nodes have reached `stage`.
    fn wait<R: Wait>(&self, rt: &R, stage: u64) {
        for _ in rt.forever() {
            if self.stage.load(Ordering::SeqCst) == stage {
                return;
            }
            yield_now();
        }
    }

    /// Moves the nodes to `stage`.
    fn go_on(&self, stage: u64) {
        self.stage.store(stage, Ordering::SeqCst);
    }

    /// Runs the first node. Returns `true` if it held the line and shut it.
    fn close<R: Wait + Clock, L: ParkingLine<Free>>(
        &self,
        rt: &R,
        line: &L,
        port: &mut L::Port,
    ) -> bool
        requires belongs { L.belongs line.now port.old }
        requires state { IsTrue (may_ask (L.view port.old).state) }
    {
        let Enq::Granted = line.enqolb(port) else {
            return false;
        };
        self.go_on(1);
        self.wait(rt, 3);
        thread::sleep(rt, Duration::from_millis(NAP_MILLIS));
        line.shut(port);
        self.go_on(4);
        true
    }

    /// Runs the second node. Returns `true` if `withdraw` told it that the line is closed.
    fn give_up<R: Wait, L: ParkingLine<Free>>(&self, rt: &R, line: &L, port: &mut L::Port) -> bool
        requires belongs { L.belongs line.now port.old }
        requires state { IsTrue (may_ask (L.view port.old).state) }
    {
        self.wait(rt, 1);
        let Enq::Queued = line.enqolb(port) else {
            return false;
        };
        self.go_on(2);
        self.wait(rt, 4);
        line.withdraw(port) == Out::Closed
    }

    /// Runs the third node. Returns `true` if it was told that the line is closed.
    fn sleep<R: Wait, L: ParkingLine<Free>>(&self, rt: &R, line: &L, port: &mut L::Port) -> bool
        requires belongs { L.belongs line.now port.old }
        requires state { IsTrue (may_ask (L.view port.old).state) }
    {
        self.wait(rt, 2);
        self.go_on(3);
        acquire_parking(rt, line, port) == Got::Closed
    }
}

impl<R: Wait + Clock, L: ParkingLine<Free>> ScopedTask<R, L, L::Port> for Passing
where
    L::Port: Drop,
{
    type Output = bool;

    ghost pre = { λ _ line _ port. L.belongs line port × IsTrue (may_ask (L.view port).state) };

    ghost post = { λ _ _ _ _. Unit {0} };

    fn work(&self, rt: &R, line: &L, place: usize, port: L::Port) -> bool {
        let mut port = port;
        match place {
            0 => self.close(rt, line, &mut port),
            1 => self.give_up(rt, line, &mut port),
            _ => self.sleep(rt, line, &mut port),
        }
    }
}

/// Runs the scene on a new line. Returns what each of the three nodes saw.
fn pass<R: Threads + Wait + Clock + Sync, L: SleepLine + Sync>(
    rt: &R,
    alloc: Global,
) -> Option<[bool; 3]>
where
    L::Port: Send + Drop,
{
    let (line, ports) = L::open_with(alloc, 1, for_nodes(3)).ok()?;
    let saw = run_scoped(rt, alloc, &Passing::new(), &line, ports)?;
    match *saw.as_slice() {
        [first, second, third] => Some([first, second, third]),
        _ => None,
    }
}

/// A waiter that sleeps behind a node that withdraws at a closed line is woken.
pub(super) fn whoever_passes_a_closed_line_on_wakes<
    R: Threads + Wait + Clock + Abort + Sync,
    L: SleepLine + Sync,
>(rt: &R, alloc: Global)
where
    L::Port: Send + Drop,
{
    expect(
        rt,
        "passed",
        pass::<R, L>(rt, alloc),
        Some([true, true, true]),
    );
}

/// A line on which a node can also make a request by two calls.
trait SplitCalls: ParkingLine<Free> {
    /// The first half of a request.
    fn prepend(&self, port: &mut Self::Port) -> Prep
        requires belongs { Self.belongs self.now port.old }
        requires state { IsTrue (may_ask (Self.view port.old).state) }
        ensures belongs { Self.belongs self.now port.new }
        ensures linking { result ≡ Prep.Linking → (Self.view port.new).state ≡ PortState.Linking };

    /// The second half of a request.
    fn link(&self, port: &mut Self::Port) -> Enq
        requires belongs { Self.belongs self.now port.old }
        requires state { (Self.view port.old).state ≡ PortState.Linking };
}

impl<Q: SplitEnqueue<Free>> SplitCalls for Line<Free, Q> {
    fn prepend(&self, port: &mut Port<Q>) -> Prep {
        Line::<Free, Q>::prepend(self, port)
    }

    fn link(&self, port: &mut Port<Q>) -> Enq {
        Line::<Free, Q>::link(self, port)
    }
}

/// The first node holds a list, the second has prepended its node but not linked it, and the third sleeps behind both.
/// The first node shuts the list. Then the second one links, and its link forwards the closed line.
#[derive(Drop)]
struct LinkingLate {
    passing: Passing,
}

impl LinkingLate {
    /// Runs the second node. Returns `true` if `link` told it that the list is closed.
    fn link<R: Wait, L: SplitCalls>(&self, rt: &R, line: &L, port: &mut L::Port) -> bool
        requires belongs { L.belongs line.now port.old }
        requires state { IsTrue (may_ask (L.view port.old).state) }
    {
        self.passing.wait(rt, 1);
        let Prep::Linking = line.prepend(port) else {
            return false;
        };
        self.passing.go_on(2);
        self.passing.wait(rt, 4);
        line.link(port) == Enq::Closed
    }
}

impl<R: Wait + Clock, L: SplitCalls> ScopedTask<R, L, L::Port> for LinkingLate
where
    L::Port: Drop,
{
    type Output = bool;

    ghost pre = { λ _ line _ port. L.belongs line port × IsTrue (may_ask (L.view port).state) };

    ghost post = { λ _ _ _ _. Unit {0} };

    fn work(&self, rt: &R, line: &L, place: usize, port: L::Port) -> bool {
        let mut port = port;
        match place {
            0 => self.passing.close(rt, line, &mut port),
            1 => self.link(rt, line, &mut port),
            _ => self.passing.sleep(rt, line, &mut port),
        }
    }
}

/// Runs the scene on a new list. Returns what each of the three nodes saw.
fn link_late<R: Threads + Wait + Clock + Sync, L: OpenLine<Free> + SplitCalls + Sync + Drop>(
    rt: &R,
    alloc: Global,
) -> Option<[bool; 3]>
where
    L::Port: Send + Drop,
{
    let (line, ports) = L::open_with(alloc, 1, for_nodes(3)).ok()?;
    let linking = LinkingLate {
        passing: Passing::new(),
    };
    let saw = run_scoped(rt, alloc, &linking, &line, ports)?;
    match *saw.as_slice() {
        [first, second, third] => Some([first, second, third]),
        _ => None,
    }
}

/// A waiter that sleeps behind a late linker of a closed list is woken.
pub(super) fn late_linker_wakes<
    R: Threads + Wait + Clock + Abort + Sync,
    Q: SplitEnqueue<Free> + Send + Sync,
>(rt: &R, alloc: Global) {
    let saw = link_late::<R, Line<Free, Q>>(rt, alloc);
    expect(rt, "linked late", saw, Some([true, true, true]));
}
