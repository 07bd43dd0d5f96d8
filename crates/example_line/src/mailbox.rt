//! A line that serves as a mailbox for one value. Node 1 puts values into the mailbox, and node 2 takes them out.
//! Neither node waits for ever: after `PATIENCE` polls, a node withdraws its request.
ghost use Rattle.std.specs.Prelude.{◌≡◌, ◌≢◌, ◌⊎◌, ◌+◌, ◌%◌, ◌^◌, ◌≤◌, map, IsTrue, IfSome, IfNone, false};
ghost use Rattle.std.specs.List.{sum_by};
ghost use Rattle.qolb_model.specs.PortStates.{may_ask};
ghost use Rattle.qolb_model.specs.Enqueueing.{IsBusy};
ghost use Rattle.qolb_model.specs.AtTurn.{IsGranted};
ghost use Rattle.qolb_model.specs.Releasing.{IsTold};
ghost use Rattle.qolb_model.specs.Sums.{KnowsOwnPlaces};
ghost use Rattle.example_line.specs.Mailbox.{IsLate, HadNoTurn, HadTurn, WasFull, Moves, Exchanges, Takes, HasPut, HasTaken, IsHandedBy, sum_up_to};

use line_blocking::scoped::{ScopedTask, run_scoped};
use line_lanes::{Line64, Mask, lane, with_lane};
use qolb_model::{Enq, Free, LineConfig, LineSync, OpenLine, Out, Poll};
use std::alloc::Global;
use std::sync::Wait;
use std::thread::{Threads, yield_now};

/// How often a node polls before it withdraws its request.
pub const PATIENCE: u64 = 100;

/// All bytes of a line. The first lane contains the value, and 0 means that there is none.
const WHOLE: Mask = Mask(0xffff_ffff_ffff_ffff);

/// How a bounded request for the line ended.
#[derive(Clone, Copy, Debug, PartialEq, Eq)]
pub enum Acquired {
    /// The node holds the line.
    Granted,
    /// The node withdrew its request, or made none because an earlier withdrawn request has not been passed yet.
    Late,
    /// The line is closed.
    Closed,
}

/// Requests the line, polls at most `patience` times, and then withdraws the request. Yields the processor between
/// polls, and never blocks.
pub fn ask<L: LineSync<Free>>(line: &L, port: &mut L::Port, patience: u64) -> Acquired
    requires belongs { L.belongs line.now port.old }
    requires state { IsTrue (may_ask (L.view port.old).state) }
    ensures belongs { L.belongs line.now port.new }
    ensures granted { result ≡ Acquired.Granted → IsGranted (L.view port.new) (L.turn port.new) }
    ensures late { result ≡ Acquired.Late → IsLate (L.view port.old) (L.view port.new) }
    ensures told { result ≡ Acquired.Closed → IsTold (L.view port.new) }
    ensures ended { result ≢ Acquired.Granted → IsTrue (may_ask (L.view port.new).state) }
    ensures once { IsBusy (L.view port.old) (L.view port.new)
        ⊎ ((L.view port.new).count ≡ (L.view port.old).count + 1) }
    ensures patient { (L.counters port.new).poll_count
        ≤ (L.counters port.old).poll_count + patience }
    ensures in_time { result ≡ Acquired.Late → IsBusy (L.view port.old) (L.view port.new)
        ⊎ ((L.counters port.new).poll_count ≡ (L.counters port.old).poll_count + patience) }
    ensures moves { KnowsOwnPlaces (L.view port.old)
        → Moves (λ _. 0) (L.view port.old) (L.view port.new) }
{
    match line.enqolb(port) {
        Enq::Granted => return Acquired::Granted,
        Enq::Closed => return Acquired::Closed,
        Enq::Busy => return Acquired::Late,
        Enq::Queued => (),
    }
    for _ in 0..patience {
        match line.poll(port) {
            Poll::Granted => return Acquired::Granted,
            Poll::Closed => return Acquired::Closed,
            Poll::Waiting => yield_now(),
        }
    }
    // The turn may have come since the last poll. Then `withdraw` returns `Granted`, and the request is not withdrawn.
    match line.withdraw(port) {
        Out::Withdrawn => Acquired::Late,
        Out::Granted => Acquired::Granted,
        Out::Closed => Acquired::Closed,
    }
}

/// Puts `value` into the mailbox if the mailbox is empty.
///
/// Returns `true` if this node's turn found 0 and wrote `value`. Returns `false` if the node had no turn, or found a
/// value, which it left there.
pub fn try_put<L: LineSync<Free>>(line: &L, port: &mut L::Port, value: u64) -> bool
    requires belongs { L.belongs line.now port.old }
    requires state { IsTrue (may_ask (L.view port.old).state) }
    ensures belongs { L.belongs line.now port.new }
    ensures state { IsTrue (may_ask (L.view port.new).state) }
    ensures put { IsTrue result → HadTurn 0 value (L.view port.new) }
    ensures once { (L.view port.new).count ≤ (L.view port.old).count + 1 }
    ensures patient { (L.counters port.new).poll_count
        ≤ (L.counters port.old).poll_count + PATIENCE }
    ensures full { result ≡ false → HadNoTurn (L.view port.old) (L.view port.new)
        ⊎ WasFull (L.view port.new) }
    ensures moves { KnowsOwnPlaces (L.view port.old)
        → (IsTrue result → Moves (λ does. does 0 value) (L.view port.old) (L.view port.new))
        × (result ≡ false → Moves (λ _. 0) (L.view port.old) (L.view port.new)) }
{
    if ask(line, port, PATIENCE) != Acquired::Granted {
        return false;
    }
    let held = *L::bytes(port);
    let is_free = lane(&held, 0) == 0;
    if is_free {
        L::write(port, WHOLE, &with_lane(&held, 0, value));
    }
    line.deqolb(port);
    is_free
}

/// Takes the value from the mailbox, if there is one.
///
/// Returns `None` if this node had no turn, or if its turn found 0.
pub fn try_take<L: LineSync<Free>>(line: &L, port: &mut L::Port) -> Option<u64>
    requires belongs { L.belongs line.now port.old }
    requires state { IsTrue (may_ask (L.view port.old).state) }
    ensures belongs { L.belongs line.now port.new }
    ensures state { IsTrue (may_ask (L.view port.new).state) }
    ensures value { IfSome result (λ value. value ≢ 0) }
    ensures taken { IfSome result (λ value. HadTurn value 0 (L.view port.new)) }
    ensures once { (L.view port.new).count ≤ (L.view port.old).count + 1 }
    ensures patient { (L.counters port.new).poll_count
        ≤ (L.counters port.old).poll_count + PATIENCE }
    ensures empty { IfNone result (HadNoTurn (L.view port.old) (L.view port.new)
        ⊎ HadTurn 0 0 (L.view port.new)) }
    ensures moves { KnowsOwnPlaces (L.view port.old)
        → IfSome result (λ value.
        Moves (λ does. does value 0) (L.view port.old) (L.view port.new))
        × IfNone result (Moves (λ _. 0) (L.view port.old) (L.view port.new)) }
{
    if ask(line, port, PATIENCE) != Acquired::Granted {
        return None;
    }
    let held = *L::bytes(port);
    let value = lane(&held, 0);
    L::write(port, WHOLE, &with_lane(&held, 0, 0));
    line.deqolb(port);
    if value == 0 { None } else { Some(value) }
}

/// Puts `value` into the mailbox, and tries again until it succeeds.
fn put<R: Wait, L: LineSync<Free>>(rt: &R, line: &L, port: &mut L::Port, value: u64)
    requires belongs { L.belongs line.now port.old }
    requires state { IsTrue (may_ask (L.view port.old).state) }
    ensures belongs { L.belongs line.now port.new }
    ensures state { IsTrue (may_ask (L.view port.new).state) }
    ensures moves { KnowsOwnPlaces (L.view port.old)
        → Moves (λ does. does 0 value) (L.view port.old) (L.view port.new) }
{
    for _ in rt.forever() {
        if try_put(line, port, value) {
            return;
        }
        yield_now();
    }
}

/// Takes a value from the mailbox, and tries again until it succeeds.
fn take<R: Wait, L: LineSync<Free>>(rt: &R, line: &L, port: &mut L::Port) -> u64
    requires belongs { L.belongs line.now port.old }
    requires state { IsTrue (may_ask (L.view port.old).state) }
    ensures belongs { L.belongs line.now port.new }
    ensures state { IsTrue (may_ask (L.view port.new).state) }
    ensures value { result ≢ 0 }
    ensures moves { KnowsOwnPlaces (L.view port.old)
        → Moves (λ does. does result 0) (L.view port.old) (L.view port.new) }
{
    for _ in rt.forever() {
        if let Some(value) = try_take(line, port) {
            return value;
        }
        yield_now();
    }
    unreachable!()
}

/// Puts the values 1 to `values`, one after another.
fn put_all<R: Wait, L: LineSync<Free>>(rt: &R, line: &L, port: &mut L::Port, values: u64)
    requires belongs { L.belongs line.now port.old }
    requires state { IsTrue (may_ask (L.view port.old).state) }
    ensures belongs { L.belongs line.now port.new }
    ensures state { IsTrue (may_ask (L.view port.new).state) }
    ensures exchanges { KnowsOwnPlaces (L.view port.old)
        → Exchanges values (sum_up_to values) 0 0 (L.view port.old) (L.view port.new) }
{
    for value in 0..values {
        put(rt, line, port, value + 1);
    }
}

/// Takes this many values, and returns their sum modulo 2^64.
fn take_all<R: Wait, L: LineSync<Free>>(rt: &R, line: &L, port: &mut L::Port, values: u64) -> u64
    requires belongs { L.belongs line.now port.old }
    requires state { IsTrue (may_ask (L.view port.old).state) }
    ensures belongs { L.belongs line.now port.new }
    ensures state { IsTrue (may_ask (L.view port.new).state) }
    ensures taken { KnowsOwnPlaces (L.view port.old)
        → Takes values result (L.view port.old) (L.view port.new) }
{
    let mut sum = 0u64;
    for _count in 0..values {
        sum = sum.wrapping_add(take(rt, line, port));
    }
    sum
}

/// The output of a thread: its port, and the sum of the values that it took.
#[derive(Drop)]
struct Handed<P> {
    port: P,
    sum: u64,
}

/// The task of two threads: the first puts the values 1 to `values`, the second takes them and adds them up.
#[derive(Drop)]
struct Exchange {
    values: u64,
}

impl<R: Wait, L: LineSync<Free>> ScopedTask<R, L, L::Port> for Exchange {
    type Output = Handed<L::Port>;

    ghost pre = { λ _ line _ port. L.belongs line port × IsTrue (may_ask (L.view port).state)
        × ((L.view port).count ≡ 0) };

    ghost post = { λ exchange line place back. L.belongs line back.port
        × IsTrue (may_ask (L.view back.port).state)
        × (place ≡ 0 → (back.sum ≡ 0) × HasPut exchange.values (L.view back.port))
        × (place ≢ 0 → HasTaken exchange.values back.sum (L.view back.port)) };

    fn work(&self, rt: &R, line: &L, place: usize, port: L::Port) -> Handed<L::Port> {
        let mut port = port;
        if place == 0 {
            put_all(rt, line, &mut port, self.values);
            return Handed { port, sum: 0 };
        }
        let sum = take_all(rt, line, &mut port, self.values);
        Handed { port, sum }
    }
}

/// Returns the ports, and the sum of all sums modulo 2^64. Returns `None` if memory is refused.
fn gather<P: Drop>(alloc: Global, handed: Vec<Handed<P>>) -> Option<(Vec<P>, u64)>
    ensures ports { IfSome result (λ all.
        all.0.items ≡ map (λ back. back.port) handed.items) }
    ensures sum { IfSome result (λ all.
        all.1 ≡ sum_by (λ back. back.sum) handed.items % 2 ^ 64) }
{
    let mut ports = Vec::with_capacity(alloc, handed.len()).ok()?;
    let mut total = 0u64;
    for back in handed {
        let Handed { port, sum } = back;
        ports.push(port).ok()?;
        total = total.wrapping_add(sum);
    }
    Some((ports, total))
}

/// Hands the values 1 to `values` from node 1 to node 2.
///
/// Returns the sum of the values taken, which is that of 1 to `values` modulo 2^64, or `None` if the line, memory or a
/// thread is refused. Nothing bounds the number of tries: if the second thread is refused, the first waits for ever to
/// put a second value.
pub fn hand_over<R: Threads + Wait + Sync, L: OpenLine<Free> + Sync + Drop>(
    rt: &R,
    alloc: Global,
    values: u64,
) -> Option<u64>
where
    L::Port: Send + Drop,
    ensures sum { IfSome result (λ sum. sum ≡ sum_up_to values % 2 ^ 64) }
    ensures handed { IfSome result (λ sum. (line : L)
        × IsHandedBy (L.belongs line) L.view values sum) }
{
    let config = LineConfig {
        nodes: 2,
        opening: Line64::zero(),
        lease: None,
    };
    let (line, ports) = L::open_with(alloc, 1, config).ok()?;
    let handed = run_scoped(rt, alloc, &Exchange { values }, &line, ports)?;
    let (ports, sum) = gather(alloc, handed)?;
    line.finish(alloc, ports).ok()?;
    Some(sum)
}
