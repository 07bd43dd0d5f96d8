//! Nodes that count in the first lane of a line, each in its own thread. One of the functions lets a release race with
//! a withdrawal.
ghost use Rattle.std.specs.Prelude.{◌≡◌, All, IfSome};
ghost use Rattle.line_accounts.specs.NewDesks.{IsNewPort};
ghost use Rattle.test_programs.specs.Ports.{HoldsOrWaits, MayAskFor};

use crate::desks::pair;
use line_blocking::scoped::{ScopedTask, run_scoped};
use line_blocking::{Got, acquire};
use line_lanes::{Line64, changed, lane, with_lane};
use qolb_model::{Enq, Free, LineSync, Out, PortState};
use std::alloc::Global;
use std::sync::Wait;
use std::thread::Threads;

/// The task of each node: `rounds` additions, each of which asks, waits for its turn, adds 1 and releases.
#[derive(Clone, Copy)]
pub struct Raising {
    pub rounds: u64,
}

impl<R: Wait, L: LineSync<Free>> ScopedTask<R, L, L::Port> for Raising {
    type Output = L::Port;

    ghost pre = { λ _ line _ port. MayAskFor L.belongs L.view line port };

    ghost post = { λ _ line _ port. MayAskFor L.belongs L.view line port };

    fn work(&self, rt: &R, line: &L, _place: usize, port: L::Port) -> L::Port {
        let mut port = port;
        for _ in 0..self.rounds {
            match acquire(rt, line, &mut port) {
                Got::Granted => {
                    add_one::<L>(&mut port);
                    line.deqolb(&mut port);
                }
                Got::Closed => break,
            }
        }
        port
    }
}

/// Each node of a new line adds 1 `rounds` times, in its own thread. Returns the line's last bytes, or `None` if memory
/// or a thread is refused.
pub fn raise_all<R: Threads + Wait + Sync, L: LineSync<Free> + Sync + Drop>(
    rt: &R,
    alloc: Global,
    line: L,
    ports: Vec<L::Port>,
    rounds: u64,
) -> Option<Line64>
where
    L::Port: Send + Drop,
    requires { All (IsNewPort L.belongs L.view line) ports.items }
{
    let ports = run_scoped(rt, alloc, &Raising { rounds }, &line, ports)?;
    line.finish(alloc, ports).ok()
}

/// Adds 1 to the first lane in the holder's turn.
fn add_one<L: LineSync<Free>>(port: &mut L::Port)
    requires { (L.view port.old).state ≡ PortState.Holding }
    ensures view { L.view port.new ≡ L.view port.old }
    ensures belongs { (line : L) → L.belongs line port.old → L.belongs line port.new }
{
    let held = L::bytes(port);
    let credited = with_lane(held, 0, lane(held, 0).wrapping_add(1));
    let mask = changed(held, &credited);
    L::write(port, mask, &credited);
}

/// One round of a race: the holder adds 1 and releases, while the waiter withdraws. If `withdraw` returns `Granted`,
/// the waiter adds 1 too.
#[derive(Clone, Copy)]
struct Contest;

/// A node after its round.
#[derive(Drop)]
struct Racer<P> {
    port: P,
    /// Whether its withdrawal returned `Granted`.
    was_granted: bool,
}

impl<R: Wait, L: LineSync<Free>> ScopedTask<R, L, L::Port> for Contest {
    type Output = Racer<L::Port>;

    ghost pre = { λ _ line _ port. HoldsOrWaits L.belongs L.view line port };

    ghost post = { λ _ line _ racer. MayAskFor L.belongs L.view line racer.port };

    fn work(&self, _rt: &R, line: &L, _place: usize, port: L::Port) -> Racer<L::Port> {
        let mut port = port;
        let waits = L::state(&port) == PortState::Queued;
        if waits {
            match line.withdraw(&mut port) {
                Out::Granted => {}
                Out::Withdrawn | Out::Closed => {
                    return Racer {
                        port,
                        was_granted: false,
                    };
                }
            }
        }
        add_one::<L>(&mut port);
        line.deqolb(&mut port);
        Racer {
            port,
            was_granted: waits,
        }
    }
}

/// The outcome of a race.
#[derive(Clone, Copy)]
pub struct Raced {
    /// The withdrawals that returned `Granted`.
    pub granted: u64,
    /// The line's last bytes.
    pub last: Line64,
}

/// Runs `rounds` rounds of two nodes. At the start of each, node 1 holds the line, node 2 waits and no call runs; then
/// node 1 releases while node 2 withdraws, each in its own thread; then their views are merged. Returns `None` if
/// memory or a thread is refused, or a round does not start so.
pub fn race<R: Threads + Wait + Sync, L: LineSync<Free> + Sync + Drop>(
    rt: &R,
    alloc: Global,
    line: L,
    one: L::Port,
    two: L::Port,
    rounds: u64,
) -> Option<Raced>
where
    L::Port: Send + Drop,
    requires one { IsNewPort L.belongs L.view line one }
    requires two { IsNewPort L.belongs L.view line two }
{
    let mut one = one;
    let mut two = two;
    let mut granted = 0u64;
    for _ in 0..rounds {
        let (first, second) = race_once(rt, alloc, &line, one, two)?;
        one = first.port;
        two = second.port;
        if second.was_granted {
            granted = granted.saturating_add(1);
        }
    }
    let ports = pair(alloc, one, two)?;
    let last = line.finish(alloc, ports).ok()?;
    Some(Raced { granted, last })
}

/// Starts a round: node 1 is granted the line, and node 2 waits. Returns both ports, or `None` if memory is refused or
/// the round does not start so.
fn start_round<L: LineSync<Free>>(
    alloc: Global,
    line: &L,
    one: L::Port,
    two: L::Port,
) -> Option<Vec<L::Port>>
where
    L::Port: Drop,
    requires one { MayAskFor L.belongs L.view line.now one }
    requires two { MayAskFor L.belongs L.view line.now two }
    ensures { IfSome result (λ ports. All (HoldsOrWaits L.belongs L.view line.now) ports.items) }
{
    let mut one = one;
    let mut two = two;
    let Enq::Granted = line.enqolb(&mut one) else {
        return None;
    };
    let Enq::Queued = line.enqolb(&mut two) else {
        return None;
    };
    let ports = pair(alloc, one, two)?;
    Some(ports)
}

/// Returns both nodes after a round, with merged views.
fn merged<L: LineSync<Free>>(
    line: &L,
    back: Vec<Racer<L::Port>>,
) -> Option<(Racer<L::Port>, Racer<L::Port>)>
where
    L::Port: Drop,
    requires { All (λ racer. MayAskFor L.belongs L.view line.now racer.port) back.items }
    ensures first { IfSome result (λ both. MayAskFor L.belongs L.view line.now both.0.port) }
    ensures second { IfSome result (λ both. MayAskFor L.belongs L.view line.now both.1.port) }
{
    let mut back = back;
    let mut second = back.pop()?;
    let mut first = back.pop()?;
    line.meet(&mut first.port, &mut second.port);
    Some((first, second))
}

/// Runs one round. Returns `None` if memory or a thread is refused, or the round does not start as it should.
fn race_once<R: Threads + Wait + Sync, L: LineSync<Free> + Sync>(
    rt: &R,
    alloc: Global,
    line: &L,
    one: L::Port,
    two: L::Port,
) -> Option<(Racer<L::Port>, Racer<L::Port>)>
where
    L::Port: Send + Drop,
    requires one { MayAskFor L.belongs L.view line.now one }
    requires two { MayAskFor L.belongs L.view line.now two }
    ensures first { IfSome result (λ both. MayAskFor L.belongs L.view line.now both.0.port) }
    ensures second { IfSome result (λ both. MayAskFor L.belongs L.view line.now both.1.port) }
{
    let ports = start_round(alloc, line, one, two)?;
    let back = run_scoped(rt, alloc, &Contest, line, ports)?;
    merged(line, back)
}
