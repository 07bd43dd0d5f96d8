//! Stresses a line: its nodes request, poll, withdraw, write and release at random, until one of them closes the line.
ghost use Rattle.std.specs.Prelude.{◌≡◌, ◌≢◌, IsTrue};
ghost use Rattle.std.specs.Int.{abs_diff};
ghost use Rattle.qolb_model.specs.PortStates.{may_ask};
ghost use Rattle.qolb_model.specs.AtTurn.{IsGranted};

use crate::enqueue::EnqueueStrategy;
use crate::law::NonDecreasing;
use crate::rounds::add_one;
use crate::workers::Task;
use qolb_model::{Enq, LineSync, Out, Poll, PortState};
use rand::{RngExt, SeedableRng};
use rand_xoshiro::Xoshiro256PlusPlus;
use std::hint::spin_loop;
use std::rt::Clock;
use std::sync::Wait;
use std::sync::atomic::{AtomicU64, Ordering};
use std::thread::yield_now;
use std::time::{Duration, Instant};

/// What nodes did.
#[derive(Clone, Copy)]
pub struct Counts {
    /// Requests, and tries to make one.
    pub rounds: u64,
    /// Grants, each with one addition.
    pub grants: u64,
    /// Withdrawals.
    pub withdrawals: u64,
    /// Tries that were busy.
    pub busy: u64,
    /// Requests that were told that the line is closed.
    pub told: u64,
}

impl Counts {
    /// The difference between `added`, the number in the first lane, and the grants.
    pub fn lost(&self, added: u64) -> u64
        ensures { result ≡ abs_diff self.now.grants added }
    {
        self.grants.abs_diff(added)
    }
}

/// The task of each node: requests at random until `time` is over and the line is closed.
#[derive(Drop)]
pub struct Stress<A> {
    asking: A,
    start: Instant,
    time: Duration,
    rounds: AtomicU64,
    grants: AtomicU64,
    withdrawals: AtomicU64,
    busy: AtomicU64,
    told: AtomicU64,
}

/// How a request ended.
#[derive(Clone, Copy)]
enum Turn {
    /// The node holds the line.
    Granted,
    /// The node withdrew its request.
    Withdrawn,
    /// The node made no request, because its last one has not been passed yet.
    Busy,
    /// The line is closed.
    Closed,
}

impl<A> Stress<A> {
    /// Returns a task for `time` from `start` on, whose nodes make requests as `asking` says.
    pub fn new(asking: A, start: Instant, time: Duration) -> Stress<A> {
        Stress {
            asking,
            start,
            time,
            rounds: AtomicU64::new(0),
            grants: AtomicU64::new(0),
            withdrawals: AtomicU64::new(0),
            busy: AtomicU64::new(0),
            told: AtomicU64::new(0),
        }
    }

    /// How the nodes make their requests.
    pub fn asking(&self) -> &A {
        &self.asking
    }

    /// The sums over all nodes.
    pub fn counts(&self) -> Counts {
        Counts {
            rounds: self.rounds.load(Ordering::SeqCst),
            grants: self.grants.load(Ordering::SeqCst),
            withdrawals: self.withdrawals.load(Ordering::SeqCst),
            busy: self.busy.load(Ordering::SeqCst),
            told: self.told.load(Ordering::SeqCst),
        }
    }

    /// Adds the counts of one node.
    fn add(&self, counts: Counts) {
        self.rounds.fetch_add(counts.rounds, Ordering::SeqCst);
        self.grants.fetch_add(counts.grants, Ordering::SeqCst);
        self.withdrawals
            .fetch_add(counts.withdrawals, Ordering::SeqCst);
        self.busy.fetch_add(counts.busy, Ordering::SeqCst);
        self.told.fetch_add(counts.told, Ordering::SeqCst);
    }

    /// Returns `true` if the time is over or the clock cannot be read.
    fn is_over<R: Clock>(&self, rt: &R) -> bool {
        match self.start.elapsed(rt) {
            Ok(spent) => spent >= self.time,
            Err(_) => true,
        }
    }
}

impl<L: LineSync<NonDecreasing>, A: EnqueueStrategy<L>> Task<L> for Stress<A> {
    fn work<R: Wait + Clock>(&self, rt: &R, line: &L, port: L::Port) -> L::Port {
        let mut port = port;
        let mut rng = Xoshiro256PlusPlus::seed_from_u64(L::node(&port));
        let mut counts = Counts {
            rounds: 0,
            grants: 0,
            withdrawals: 0,
            busy: 0,
            told: 0,
        };
        for _ in rt.forever() {
            counts.rounds = counts.rounds.wrapping_add(1);
            match ask(rt, &self.asking, line, &mut port, &mut rng) {
                Turn::Granted => {
                    add_one::<L>(&mut port);
                    counts.grants = counts.grants.wrapping_add(1);
                    if self.is_over(rt) {
                        line.shut(&mut port);
                        break;
                    }
                    line.deqolb(&mut port);
                }
                Turn::Withdrawn => counts.withdrawals = counts.withdrawals.wrapping_add(1),
                Turn::Busy => {
                    counts.busy = counts.busy.wrapping_add(1);
                    yield_now();
                }
                Turn::Closed => {
                    counts.told = counts.told.wrapping_add(1);
                    break;
                }
            }
        }
        self.add(counts);
        port
    }
}

/// Makes one request, and then waits or withdraws.
fn ask<R: Wait, L: LineSync<NonDecreasing>, A: EnqueueStrategy<L>>(
    rt: &R,
    asking: &A,
    line: &L,
    port: &mut L::Port,
    rng: &mut Xoshiro256PlusPlus,
) -> Turn
    requires belongs { L.belongs line.now port.old }
    requires state { IsTrue (may_ask (L.view port.old).state) }
    ensures belongs { L.belongs line.now port.new }
    ensures granted { result ≡ Turn.Granted → IsGranted (L.view port.new) (L.turn port.new) }
    ensures ended { result ≢ Turn.Granted → IsTrue (may_ask (L.view port.new).state) }
{
    match asking.ask(line, port, rng) {
        Enq::Granted => Turn::Granted,
        Enq::Queued => wait_or_withdraw(rt, line, port, rng),
        Enq::Busy => Turn::Busy,
        Enq::Closed => Turn::Closed,
    }
}

/// Polls until the turn has come. After a poll it withdraws once in 64 times; otherwise it yields once in 16 times, and
/// spins the other times.
fn wait_or_withdraw<R: Wait, L: LineSync<NonDecreasing>>(
    rt: &R,
    line: &L,
    port: &mut L::Port,
    rng: &mut Xoshiro256PlusPlus,
) -> Turn
    requires belongs { L.belongs line.now port.old }
    requires state { (L.view port.old).state ≡ PortState.Queued }
    ensures belongs { L.belongs line.now port.new }
    ensures granted { result ≡ Turn.Granted → IsGranted (L.view port.new) (L.turn port.new) }
    ensures ended { result ≢ Turn.Granted → IsTrue (may_ask (L.view port.new).state) }
{
    for _ in rt.forever() {
        match line.poll(port) {
            Poll::Granted => return Turn::Granted,
            Poll::Closed => return Turn::Closed,
            Poll::Waiting => {
                if rng.random_ratio(1, 64) {
                    return withdraw(line, port);
                }
                if rng.random_ratio(1, 16) {
                    yield_now();
                } else {
                    spin_loop();
                }
            }
        }
    }
    unreachable!()
}

/// Withdraws the request. Returns `Granted` if it is already at its turn.
fn withdraw<L: LineSync<NonDecreasing>>(line: &L, port: &mut L::Port) -> Turn
    requires belongs { L.belongs line.now port.old }
    requires state { (L.view port.old).state ≡ PortState.Queued }
    ensures belongs { L.belongs line.now port.new }
    ensures granted { result ≡ Turn.Granted → IsGranted (L.view port.new) (L.turn port.new) }
    ensures ended { result ≢ Turn.Granted → IsTrue (may_ask (L.view port.new).state) }
{
    match line.withdraw(port) {
        Out::Withdrawn => Turn::Withdrawn,
        Out::Granted => Turn::Granted,
        Out::Closed => Turn::Closed,
    }
}
