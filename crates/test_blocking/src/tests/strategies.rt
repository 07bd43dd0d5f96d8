//! Tests what waiters do between two polls: how often `wait_by` calls the waiting strategy, and when. A waiter must
//! make all its polls before it sleeps.
use crate::tests::held::{Scene, SleepLine, all_see_hooked, expect, expect_at, wait_until};
use line_blocking::{Got, WaitStrategy, acquire_parking, wait, wait_by};
use qolb_model::{Enq, Free, Keep, LineSync, OpenError, Out, ParkingLine};
use std::alloc::Global;
use std::process::Abort;
use std::sync::Wait;
use std::sync::atomic::{AtomicU64, Ordering};
use std::thread::{Threads, yield_now};
use std::time::Duration;
use test_support::Hooks;

/// Hooks that count busy tries, polls that answered `Waiting`, and sleeps, which end at once.
#[derive(Drop)]
struct Polls {
    busy: AtomicU64,
    waiting: AtomicU64,
    sleeps: AtomicU64,
    /// How many polls had answered `Waiting` before the first sleep.
    before_sleep: AtomicU64,
}

impl Polls {
    fn none() -> Polls {
        Polls {
            busy: AtomicU64::new(0),
            waiting: AtomicU64::new(0),
            sleeps: AtomicU64::new(0),
            before_sleep: AtomicU64::new(0),
        }
    }

    fn waiting(&self) -> u64 {
        self.waiting.load(Ordering::SeqCst)
    }
}

impl Hooks for &Polls {
    fn on_busy<K: Keep, L: ParkingLine<K>>(&self, _line: &L, _port: &L::Port) {
        self.busy.fetch_add(1, Ordering::SeqCst);
    }

    fn on_waiting<K: Keep, L: ParkingLine<K>>(&self, _line: &L, _port: &L::Port) {
        self.waiting.fetch_add(1, Ordering::SeqCst);
    }

    fn sleep<R: Wait, K: Keep, L: ParkingLine<K>>(
        &self,
        _rt: &R,
        _line: &L,
        _port: &L::Port,
        _at_most: Duration,
    ) {
        if self.sleeps.load(Ordering::SeqCst) == 0 {
            self.before_sleep.store(self.waiting(), Ordering::SeqCst);
        }
        self.sleeps.fetch_add(1, Ordering::SeqCst);
    }
}

/// A strategy that counts how often it is asked, and notes whether each time one more poll had answered `Waiting`.
#[derive(Drop)]
struct InStep<'p> {
    polls: &'p Polls,
    asked: u64,
    in_step: bool,
}

impl<K: Keep, L: LineSync<K>> WaitStrategy<K, L> for InStep<'_> {
    fn on_waiting<R: Wait>(&mut self, _rt: &R, _line: &L, _port: &L::Port) {
        self.asked = self.asked.saturating_add(1);
        self.in_step = self.in_step && self.polls.waiting() == self.asked;
        yield_now();
    }
}

/// How often node 2 polls before node 1 releases or shuts the line.
const AT_LEAST: u64 = 50;

/// Node 1 holds the line until node 2, which waits by a strategy of its own, has polled that often.
#[derive(Drop)]
struct Waiting<'p> {
    polls: &'p Polls,
    shuts: bool,
}

impl<R: Wait, L: ParkingLine<Free>> Scene<R, L> for Waiting<'_> {
    fn keep(&self, rt: &R, _line: &L) -> bool {
        wait_until(rt, &self.polls.waiting, AT_LEAST);
        self.shuts
    }

    fn behind(&self, rt: &R, line: &L, port: &mut L::Port) -> bool {
        let Enq::Queued = line.enqolb(port) else {
            return false;
        };
        let mut strategy = InStep {
            polls: self.polls,
            asked: 0,
            in_step: true,
        };
        let got = wait_by(rt, line, port, &mut strategy);
        let wanted = if self.shuts {
            Got::Closed
        } else {
            Got::Granted
        };
        got == wanted && strategy.in_step && strategy.asked == self.polls.waiting()
    }
}

/// Returns `true` if node 2 of a new line was granted the line or told that it is closed, and its strategy was asked in
/// step with its polls.
fn wait_in_step<R: Threads + Wait + Sync, L: SleepLine + Sync>(
    rt: &R,
    alloc: Global,
    polls: &Polls,
    shuts: bool,
) -> Result<bool, OpenError>
where
    L::Port: Send + Drop,
{
    let let_go = AtomicU64::new(0);
    let waiting = Waiting { polls, shuts };
    all_see_hooked::<R, &Polls, L, Waiting>(rt, alloc, 2, polls, &waiting, &let_go)
}

/// `wait_by` asks its strategy once after each poll that answered `Waiting`, and at no other time.
pub(super) fn a_strategy_is_asked_after_each_poll<
    R: Threads + Wait + Abort + Sync,
    L: SleepLine + Sync,
>(rt: &R, alloc: Global)
where
    L::Port: Send + Drop,
{
    for shuts in [false, true] {
        let polls = Polls::none();
        let found = wait_in_step::<R, L>(rt, alloc, &polls, shuts);
        expect_at(rt, u64::from(shuts), found, Ok(true));
    }
}

/// How many tries of node 2 are busy before node 1 releases: more than the polls that a waiter makes before it sleeps.
const BUSY: u64 = 100;

/// Node 1 holds the line, node 2 has withdrawn behind it, and node 3 waits. Node 2 requests the line again, is busy
/// until node 1 releases, and then waits behind node 3, which releases once node 2 sleeps.
#[derive(Drop)]
struct Tired<'p> {
    polls: &'p Polls,
    withdrawn: AtomicU64,
    waits: AtomicU64,
}

impl<R: Wait, L: ParkingLine<Free>> Scene<R, L> for Tired<'_> {
    fn keep(&self, rt: &R, _line: &L) -> bool {
        wait_until(rt, &self.polls.busy, BUSY);
        false
    }

    fn behind(&self, rt: &R, line: &L, port: &mut L::Port) -> bool {
        if L::node(port) == 3 {
            wait_until(rt, &self.withdrawn, 1);
            let Enq::Queued = line.enqolb(port) else {
                return false;
            };
            self.waits.store(1, Ordering::SeqCst);
            wait_until(rt, &self.polls.sleeps, 1);
            let Got::Granted = wait(rt, line, port) else {
                return false;
            };
            line.deqolb(port);
            return true;
        }
        let Enq::Queued = line.enqolb(port) else {
            return false;
        };
        let Out::Withdrawn = line.withdraw(port) else {
            return false;
        };
        self.withdrawn.store(1, Ordering::SeqCst);
        wait_until(rt, &self.waits, 1);
        acquire_parking(rt, line, port) == Got::Granted
    }
}

/// Returns `true` if each node of a new line saw what it should in this scene.
fn wait_after_busy_tries<R: Threads + Wait + Sync, L: SleepLine + Sync>(
    rt: &R,
    alloc: Global,
    polls: &Polls,
) -> Result<bool, OpenError>
where
    L::Port: Send + Drop,
{
    let let_go = AtomicU64::new(0);
    let tired = Tired {
        polls,
        withdrawn: AtomicU64::new(0),
        waits: AtomicU64::new(0),
    };
    all_see_hooked::<R, &Polls, L, Tired>(rt, alloc, 3, polls, &tired, &let_go)
}

/// A port that was busy for long polls 65 times before it sleeps, as any other port does: its wait begins again.
pub(super) fn a_wait_begins_anew_after_busy_tries<
    R: Threads + Wait + Abort + Sync,
    L: SleepLine + Sync,
>(rt: &R, alloc: Global)
where
    L::Port: Send + Drop,
{
    let polls = Polls::none();
    let saw = wait_after_busy_tries::<R, L>(rt, alloc, &polls);
    let before = polls.before_sleep.load(Ordering::SeqCst);
    expect(rt, "polls before the sleep", (saw, before), (Ok(true), 65));
}
