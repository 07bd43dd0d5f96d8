//! A helper for tests, in which one node holds a line while other nodes wait. Each node has a thread of its own.
ghost use Rattle.std.specs.Prelude.{◌≡◌, All, IfSome, IsTrue, None};
ghost use Rattle.qolb_model.specs.PortStates.{may_ask};
ghost use Rattle.line_blocking.specs.Places.{AllAt};
ghost use Rattle.test_blocking.specs.Ports.{MayAsk};

use line_blocking::scoped::{ScopedTask, run_scoped};
use line_lanes::Line64;
use qolb_model::{Enq, Free, LineConfig, LineSync, OpenError, OpenLine, ParkingLine};
use std::alloc::Global;
use std::fmt::Debug;
use std::process::Abort;
use std::sync::Wait;
use std::sync::atomic::{AtomicU64, Ordering};
use std::thread::{Threads, yield_now};
use test_support::{HookedLine, Hooks};

/// A line that a test opens, and at which waiters sleep.
pub(super) trait SleepLine: OpenLine<Free> + ParkingLine<Free> + Drop {}

impl<L: OpenLine<Free> + ParkingLine<Free> + Drop> SleepLine for L {}

/// A line of zeros for `nodes` nodes, without a lease.
pub(super) fn for_nodes(nodes: u64) -> LineConfig
    ensures nodes { result.nodes ≡ nodes }
    ensures lease { result.lease ≡ None }
{
    LineConfig {
        nodes,
        opening: Line64::zero(),
        lease: None,
    }
}

/// Opens a line of one node. Returns it with its port.
pub(super) fn open_one<L: OpenLine<Free> + Drop>(
    alloc: Global,
    opening: Line64,
    lease: Option<u64>,
) -> Option<(L, L::Port)>
where
    L::Port: Drop,
    ensures { IfSome result (λ r. L.belongs r.0 r.1 × IsTrue (may_ask (L.view r.1).state)) }
{
    let config = LineConfig {
        nodes: 1,
        opening,
        lease,
    };
    let (line, mut ports) = L::open_with(alloc, 1, config).ok()?;
    let port = ports.pop()?;
    Some((line, port))
}

/// Finishes a line of one node. Returns its last bytes.
pub(super) fn finish_one<L: LineSync<Free> + Drop>(
    alloc: Global,
    line: L,
    port: L::Port,
) -> Option<Line64>
where
    L::Port: Drop,
    requires { L.belongs line port }
{
    let mut ports = Vec::new(alloc);
    ports.push(port).ok()?;
    line.finish(alloc, ports).ok()
}

/// Opens a line of zeros for `nodes` nodes. Returns it with its ports.
fn open<L: OpenLine<Free> + Drop>(alloc: Global, nodes: u64) -> Option<(L, Vec<L::Port>)>
where
    L::Port: Drop,
    ensures ports { IfSome result (λ r. All (MayAsk (L.belongs r.0) L.view) r.1.items) }
    ensures nodes { IfSome result (λ r. (L.config_of r.0).nodes ≡ nodes) }
{
    L::open_with(alloc, 1, for_nodes(nodes)).ok()
}

/// The last of the ports.
pub(super) fn last_of<L: LineSync<Free>>(line: &L, ports: &mut Vec<L::Port>) -> Option<L::Port>
    requires { All (MayAsk (L.belongs line.now) L.view) ports.old.items }
    ensures others { All (MayAsk (L.belongs line.now) L.view) ports.new.items }
    ensures last { IfSome result (MayAsk (L.belongs line.now) L.view) }
{
    let _ = line;
    ports.pop()
}

/// Opens a line of two nodes. Returns it with both ports.
pub(super) fn open_two<L: OpenLine<Free> + Drop>(alloc: Global) -> Option<(L, L::Port, L::Port)>
where
    L::Port: Drop,
    ensures one { IfSome result (λ r. L.belongs r.0 r.1 × IsTrue (may_ask (L.view r.1).state)) }
    ensures two { IfSome result (λ r. L.belongs r.0 r.2 × IsTrue (may_ask (L.view r.2).state)) }
    ensures nodes { IfSome result (λ r. (L.config_of r.0).nodes ≡ 2) }
{
    let (line, mut ports) = open::<L>(alloc, 2)?;
    let two = last_of(&line, &mut ports)?;
    let one = last_of(&line, &mut ports)?;
    Some((line, one, two))
}

/// Opens a line of three nodes. Returns it with its ports.
pub(super) fn open_three<L: OpenLine<Free> + Drop>(
    alloc: Global,
) -> Option<(L, L::Port, L::Port, L::Port)>
where
    L::Port: Drop,
    ensures one { IfSome result (λ r. L.belongs r.0 r.1 × IsTrue (may_ask (L.view r.1).state)) }
    ensures two { IfSome result (λ r. L.belongs r.0 r.2 × IsTrue (may_ask (L.view r.2).state)) }
    ensures three { IfSome result (λ r. L.belongs r.0 r.3 × IsTrue (may_ask (L.view r.3).state)) }
{
    let (line, mut ports) = open::<L>(alloc, 3)?;
    let three = last_of(&line, &mut ports)?;
    let two = last_of(&line, &mut ports)?;
    let one = last_of(&line, &mut ports)?;
    Some((line, one, two, three))
}

/// Asserts that `found` is `wanted`; a failure prints `row`.
pub(super) fn expect<R: Abort, T: PartialEq + Debug + Drop>(
    rt: &R,
    row: &str,
    found: T,
    wanted: T,
) {
    assert_eq!(rt; found, wanted, "{row}");
}

/// Asserts that `found` is `wanted`; a failure prints `at`.
pub(super) fn expect_at<R: Abort, T: PartialEq + Debug + Drop>(
    rt: &R,
    at: u64,
    found: T,
    wanted: T,
) {
    assert_eq!(rt; found, wanted, "at {at}");
}

/// Waits until `count` is at least `at_least`.
pub(super) fn wait_until<R: Wait>(rt: &R, count: &AtomicU64, at_least: u64) {
    for _ in rt.forever() {
        if count.load(Ordering::SeqCst) >= at_least {
            return;
        }
        yield_now();
    }
}

/// What the nodes do while node 1 holds the line.
pub(super) trait Scene<R: Wait, L: ParkingLine<Free>> {
    /// Returns when the holder may release. Returns `true` if the holder shuts the line instead of releasing it.
    fn keep(&self, rt: &R, line: &L) -> bool;

    /// Runs each other node, once the line is held. Returns `true` if the node saw what it should.
    fn behind(&self, rt: &R, line: &L, port: &mut L::Port) -> bool
        requires belongs { L.belongs line.now port.old }
        requires state { IsTrue (may_ask (L.view port.old).state) };
}

/// The scene, with 1 in `held` once the line is held, and 1 in `let_go` once the holder's release has returned.
#[derive(Drop)]
struct Held<'s, S> {
    scene: &'s S,
    held: AtomicU64,
    let_go: &'s AtomicU64,
}

impl<R: Wait, L: ParkingLine<Free>, S: Scene<R, L>> ScopedTask<R, L, L::Port> for Held<'_, S>
where
    L::Port: Drop,
{
    type Output = bool;

    ghost pre = { λ _ line _ port. L.belongs line port × IsTrue (may_ask (L.view port).state) };

    ghost post = { λ _ _ _ _. Unit {0} };

    fn work(&self, rt: &R, line: &L, place: usize, port: L::Port) -> bool {
        let mut port = port;
        if place > 0 {
            wait_until(rt, &self.held, 1);
            return self.scene.behind(rt, line, &mut port);
        }
        let Enq::Granted = line.enqolb(&mut port) else {
            return false;
        };
        self.held.store(1, Ordering::SeqCst);
        if self.scene.keep(rt, line) {
            line.shut(&mut port);
        } else {
            line.deqolb(&mut port);
        }
        self.let_go.store(1, Ordering::SeqCst);
        true
    }
}

/// Runs the scene. Returns `true` if the first port's node held the line and each other node saw what it should.
///
/// Writes 1 to `let_go` once the holder's release has returned.
pub(super) fn all_see<R: Threads + Wait + Sync, L: ParkingLine<Free> + Sync, S: Scene<R, L> + Sync>(
    rt: &R,
    alloc: Global,
    line: &L,
    ports: Vec<L::Port>,
    scene: &S,
    let_go: &AtomicU64,
) -> bool
where
    L::Port: Send + Drop,
    requires fit { AllAt (λ _ port. L.belongs line.now port
        × IsTrue (may_ask (L.view port).state)) ports.items }
{
    let held = Held {
        scene,
        held: AtomicU64::new(0),
        let_go,
    };
    run_scoped(rt, alloc, &held, line, ports).is_some_and(|saw| saw.iter().all(|saw| *saw))
}

/// Runs the scene on a new line of `nodes` nodes with these hooks, as `all_see` does. The prover needs some seconds to
/// see that threads may share a line with hooks; here it needs them once for several hooks.
pub(super) fn all_see_hooked<
    R: Threads + Wait + Sync,
    H: Hooks + Sync + Drop,
    L: SleepLine + Sync,
    S: Scene<R, HookedLine<H, L>> + Sync,
>(
    rt: &R,
    alloc: Global,
    nodes: u64,
    hooks: H,
    scene: &S,
    let_go: &AtomicU64,
) -> Result<bool, OpenError>
where
    L::Port: Send + Drop,
{
    let (line, ports) = L::open_with(alloc, 1, for_nodes(nodes))?;
    let line = HookedLine::with(hooks, line);
    Ok(all_see(rt, alloc, &line, ports, scene, let_go))
}
