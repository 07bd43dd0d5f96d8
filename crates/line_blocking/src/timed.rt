//! Calls that acquire a line, with or without a timeout, and sleep while they wait.
ghost use Rattle.std.specs.Prelude.{◌≡◌, ◌⊎◌, ◌+◌, ◌≤◌, IsTrue, Option, min};
ghost use Rattle.std.specs.Duration.{as_nanos};
ghost use Rattle.std.specs.declared.time.Instant.{Instant};
ghost use Rattle.qolb_model.specs.PortStates.{may_ask};
ghost use Rattle.qolb_model.specs.Enqueueing.{IsBusy};
ghost use Rattle.line_blocking.specs.Acquiring.{Acquires, AcquiresTimed, ComesSoon, EndsWaitTimed};
ghost use Rattle.line_blocking.specs.Deadlines.{nanos_left, IsLeft};

use crate::spin::{Got, SPIN_POLLS, pause_between_polls};
use crate::strategy::{WaitStrategy, wait_by};
use qolb_model::{Enq, Keep, LineSync, Out, ParkingLine, Poll, PortState};
use std::rt::Clock;
use std::sync::Wait;
use std::sync::atomic::AtomicU64;
use std::thread::yield_now;
use std::time::{Duration, Instant};

/// How many times a waiter yields its processor after `SPIN_POLLS` polls, before it sleeps.
const YIELDS: u32 = 32;

/// The longest nap of a busy port, in microseconds. No release wakes a busy port.
const NAP_MICROS: u64 = 200;

/// How a wait with a timeout ended.
#[derive(Clone, Copy, Debug, PartialEq, Eq)]
pub enum TimedAcquire {
    /// The node holds the line.
    Granted,
    /// The line is closed, and the node was notified of this.
    Closed,
    /// The wait timed out. The node holds nothing and does not wait.
    TimedOut,
}

/// The pauses that a waiter still makes before it sleeps.
#[derive(Drop)]
struct Backoff {
    polls: u32,
    yields: u32,
}

impl Backoff {
    fn new() -> Backoff {
        Backoff {
            polls: SPIN_POLLS,
            yields: YIELDS,
        }
    }

    /// Pauses by `pause_between_polls` the first `SPIN_POLLS` times, and then by a yield for `YIELDS` times. After that
    /// it returns `false` without a pause, because it is time to sleep.
    fn pause(&mut self) -> bool {
        if self.polls > 0 {
            self.polls -= 1;
            pause_between_polls();
            true
        } else if self.yields > 0 {
            self.yields -= 1;
            yield_now();
            true
        } else {
            false
        }
    }
}

impl<K: Keep, L: ParkingLine<K>> WaitStrategy<K, L> for Backoff {
    fn on_waiting<R: Wait>(&mut self, rt: &R, line: &L, port: &L::Port) {
        if !self.pause() {
            line.sleep(rt, port, Duration::MAX);
            // A release may have woken it one turn ahead of its own: it polls as often again before it sleeps.
            *self = Backoff::new();
        }
    }
}

/// Returns the length of a nap: `NAP_MICROS` microseconds, or `at_most` if that is less.
fn nap_within(at_most: Duration) -> Duration
    ensures { as_nanos result ≡ min 200_000 (as_nanos at_most) }
{
    let short = Duration::from_micros(NAP_MICROS);
    if at_most.as_nanos() < short.as_nanos() {
        at_most
    } else {
        short
    }
}

/// Sleeps for a nap, but no longer than `at_most`.
fn sleep_briefly<R: Wait>(rt: &R, at_most: Duration) {
    AtomicU64::new(0).park_timeout(rt, 0, nap_within(at_most));
}

/// A span of time that has begun.
#[derive(Clone, Copy)]
pub struct Deadline {
    /// When the span began, or `None` if the clock could not be read.
    pub since: Option<Instant>,
    /// The length of the span.
    pub at_most: Duration,
}

impl Deadline {
    /// Begins a span of length `at_most` now.
    pub fn begin<R: Clock>(rt: &R, at_most: Duration) -> Deadline
        ensures { result.at_most ≡ at_most }
    {
        Deadline {
            since: Instant::now(rt).ok(),
            at_most,
        }
    }

    /// Returns what is left of the span, or `None` if it is over. Reads the clock once.
    pub fn left<R: Clock>(&self, rt: &R) -> Option<Duration>
        ensures { (now : Option Instant) × IsLeft result
            (nanos_left self.now.since self.now.at_most now) }
    {
        self.left_at(Instant::now(rt).ok())
    }

    /// Returns what is left at the reading `now`, or `None` if the span is over. The span counts as over if `now` or
    /// its beginning could not be read.
    fn left_at(&self, now: Option<Instant>) -> Option<Duration>
        ensures { IsLeft result (nanos_left self.now.since self.now.at_most now) }
    {
        let (Some(since), Some(now)) = (self.since, now) else {
            return None;
        };
        let left = self.at_most.saturating_sub(now.duration_since(since));
        if left.as_nanos() > 0 {
            Some(left)
        } else {
            None
        }
    }
}

/// Acquires the line, and sleeps if the wait is long. The caller polls 32 times with eight pauses behind each poll, 32
/// times with a yield, and once more. Then it sleeps until a release wakes it, and polls as often again. A busy port
/// requests the line again, with naps between the requests. Blocks, and does not allocate.
///
/// Returns `Granted` if the port holds the line, and `Closed` if the line is closed.
pub fn acquire_parking<R: Wait, K: Keep, L: ParkingLine<K>>(
    rt: &R,
    line: &L,
    port: &mut L::Port,
) -> Got
    requires belongs { L.belongs line.now port.old }
    requires state { IsTrue (may_ask (L.view port.old).state) }
    ensures belongs { L.belongs line.now port.new }
    ensures acquires { Acquires K.allows (L.view port.old) (L.view port.new)
        (L.turn port.new) result }
    ensures soon { result ≡ Got.Granted → ComesSoon L.view L.counters port.old port.new }
{
    let mut patience = Backoff::new();
    for _ in rt.forever() {
        match line.enqolb(port) {
            Enq::Granted => return Got::Granted,
            Enq::Closed => return Got::Closed,
            Enq::Queued => return wait_by(rt, line, port, &mut Backoff::new()),
            Enq::Busy => {
                if !patience.pause() {
                    sleep_briefly(rt, Duration::MAX);
                }
            }
        }
    }
    unreachable!()
}

/// Acquires the line within `at_most`, and sleeps if the wait is long. If the call times out, it withdraws the request.
/// A busy port requests the line again within the same time.
///
/// A queued port polls at least once, and gives up only after a poll. If the port is at its turn when it gives up, it
/// is granted the line. If the clock cannot be read, the time counts as over.
///
/// Returns `Granted` if the port holds the line, `Closed` if the line is closed, and `TimedOut` if the port holds
/// nothing and does not wait.
pub fn acquire_timeout<R: Wait + Clock, K: Keep, L: ParkingLine<K>>(
    rt: &R,
    line: &L,
    port: &mut L::Port,
    at_most: Duration,
) -> TimedAcquire
    requires belongs { L.belongs line.now port.old }
    requires state { IsTrue (may_ask (L.view port.old).state) }
    ensures belongs { L.belongs line.now port.new }
    ensures acquires { AcquiresTimed K.allows (L.view port.old) (L.view port.new)
        (L.turn port.new) result }
    ensures soon { result ≡ TimedAcquire.Granted → ComesSoon L.view L.counters port.old port.new }
    ensures looked { result ≡ TimedAcquire.TimedOut → IsBusy (L.view port.old) (L.view port.new)
        ⊎ ((L.counters port.old).poll_count + 1 ≤ (L.counters port.new).poll_count) }
{
    let span = Deadline::begin(rt, at_most);
    let mut patience = Backoff::new();
    for _ in rt.forever() {
        match line.enqolb(port) {
            Enq::Granted => return TimedAcquire::Granted,
            Enq::Closed => return TimedAcquire::Closed,
            Enq::Queued => return wait_timeout(rt, line, port, &span),
            Enq::Busy => {
                let Some(left) = span.left(rt) else {
                    return TimedAcquire::TimedOut;
                };
                if !patience.pause() {
                    sleep_briefly(rt, left);
                }
            }
        }
    }
    unreachable!()
}

/// Polls until the request ends or `span` is over, and sleeps as `acquire_parking` does. This is the wait of
/// `acquire_timeout`, for a port that has already made its request. Blocks, and does not allocate.
///
/// Returns `Granted` if the port holds the line, `Closed` if the line is closed, and `TimedOut` if the request was
/// withdrawn.
pub fn wait_timeout<R: Wait + Clock, K: Keep, L: ParkingLine<K>>(
    rt: &R,
    line: &L,
    port: &mut L::Port,
    span: &Deadline,
) -> TimedAcquire
    requires belongs { L.belongs line.now port.old }
    requires state { (L.view port.old).state ≡ PortState.Queued }
    ensures belongs { L.belongs line.now port.new }
    ensures ends_wait { EndsWaitTimed K.allows (L.view port.old) (L.view port.new)
        (L.turn port.new) result }
    ensures looked { (L.counters port.old).poll_count + 1 ≤ (L.counters port.new).poll_count }
{
    let mut patience = Backoff::new();
    for _ in rt.forever() {
        match line.poll(port) {
            Poll::Granted => return TimedAcquire::Granted,
            Poll::Closed => return TimedAcquire::Closed,
            Poll::Waiting => {
                let Some(left) = span.left(rt) else {
                    return give_up(line, port);
                };
                if !patience.pause() {
                    line.sleep(rt, port, left);
                    patience = Backoff::new();
                }
            }
        }
    }
    unreachable!()
}

/// Withdraws the request, unless the node is at its turn. In that case the node is granted the line, or is notified
/// that the line is closed.
fn give_up<K: Keep, L: LineSync<K>>(line: &L, port: &mut L::Port) -> TimedAcquire
    requires belongs { L.belongs line.now port.old }
    requires state { (L.view port.old).state ≡ PortState.Queued }
    ensures belongs { L.belongs line.now port.new }
    ensures ends_wait { EndsWaitTimed K.allows (L.view port.old) (L.view port.new)
        (L.turn port.new) result }
    ensures poll_count { (L.counters port.new).poll_count ≡ (L.counters port.old).poll_count }
{
    match line.withdraw(port) {
        Out::Withdrawn => TimedAcquire::TimedOut,
        Out::Granted => TimedAcquire::Granted,
        Out::Closed => TimedAcquire::Closed,
    }
}
