//! Threads count how often they acquire a lock. It is proved that they acquire the lock exactly as often as intended,
//! all threads taken together.
//!
//! In the proof, a thread has one ticket for each acquisition that it still has to make. The lock protects the count
//! together with a book of all unused tickets. The count and the number of unused tickets always add up to the intended
//! number of acquisitions.
ghost use Rattle.std.specs.Prelude.{◌≡◌, ℕ, ◌+◌, ◌*◌, ◌^◌, ◌<◌, ◌≤◌, IfSome};

use fair_lock::FairLock;
use std::alloc::Global;
use std::marker::Brand;
use std::sync::Wait;
use std::sync::ledger::{Blank, Book, Ledger, Share};
use std::thread;
use std::thread::Threads;

/// How often all threads enter together.
pub trait Turns: Ledger {
    ghost turns: { ℕ };
}

impl Turns for Brand {
    ghost turns = { 0 };
}

/// The value under the lock.
#[derive(Drop)]
struct Counter<N: Turns> {
    so_far: u64,
    left: Book<N>,
    ghost makes_up: { so_far + left.total ≡ N.turns },
    ghost fits: { N.turns < 2 ^ 64 },
}

/// The tickets of one thread, before it enters and after.
#[derive(Drop)]
struct Before<N: Turns> {
    tickets: Share<N>,
    each: u64,
    ghost part: { tickets.parts ≡ 1 },
    ghost all: { tickets.amount ≡ each },
}

#[derive(Drop)]
struct After<N: Turns> {
    tickets: Share<N>,
    ghost part: { tickets.parts ≡ 1 },
    ghost none: { tickets.amount ≡ 0 },
}

impl<N: Turns> Counter<N> {
    /// Counts an acquisition, and uses up one ticket for it.
    fn turn(&mut self, tickets: &mut Share<N>)
        requires { 0 < tickets.old.amount }
        ensures amount { tickets.new.amount + 1 ≡ tickets.old.amount }
        ensures parts { tickets.new.parts ≡ tickets.old.parts }
    {
        let Counter { so_far, left } = self;
        left.sub(tickets, 1);
        *so_far += 1;
    }

    /// Returns the count, once no thread has a ticket left.
    fn total(mut self, all: &mut Share<N>) -> u64
        requires whole { all.old.parts ≡ N.parts }
        requires spent { all.old.amount ≡ 0 }
        ensures { result ≡ N.turns }
    {
        self.left.audit(all);
        self.so_far
    }
}

/// Enters once as one thread: counts, and leaves.
fn have_turn<N: Turns, R: Wait>(rt: &R, lock: &FairLock<Counter<N>>, tickets: &mut Share<N>)
    requires { 0 < tickets.old.amount }
    ensures amount { tickets.new.amount + 1 ≡ tickets.old.amount }
    ensures parts { tickets.new.parts ≡ tickets.old.parts }
{
    // Nobody shuts this lock, so the first call enters.
    for _ in rt.forever() {
        if let Ok(mut guard) = lock.enter(rt) {
            guard.value_mut().turn(tickets);
            guard.leave(rt);
            return;
        }
    }
    unreachable!()
}

/// Enters, counts and leaves, once for each ticket of the thread.
fn have_turns<N: Turns, R: Wait>(
    rt: &R,
    lock: &FairLock<Counter<N>>,
    before: Before<N>,
) -> After<N> {
    let Before { mut tickets, each } = before;
    for _ in 0..each {
        have_turn(rt, lock, &mut tickets);
    }
    After { tickets }
}

/// Lets each of `threads` threads enter and count `each` times. Returns the count at the end, or `None` if memory is
/// short.
fn run<N: Turns + Send + Sync, R: Threads + Wait + Sync>(
    rt: &R,
    alloc: Global,
    barging_limit: u16,
    blank: Blank,
    threads: u16,
    each: u32,
) -> Option<u64>
    requires name { blank.name ≡ N.name }
    requires parts { blank.parts ≡ N.parts }
    requires one_more { blank.parts ≡ threads + 1 }
    requires turns { threads * each ≡ N.turns }
    ensures { IfSome result (λ n. n ≡ N.turns) }
{
    let (mut left, mut all) = blank.open::<N>();
    left.add(&mut all, threads as u64 * each as u64);
    let lock = make(alloc, barging_limit, Counter { so_far: 0, left })?;
    let mut jobs = Vec::new(alloc);
    for _i in 0..threads {
        let tickets = all.split_off(1, each as u64);
        let job = Before {
            tickets,
            each: each as u64,
        };
        jobs.push(job).ok()?;
    }
    let mut done = thread::map_vec(rt, jobs, &|before| have_turns(rt, &lock, before)).ok()?;
    while let Some(After { tickets }) = done.pop() {
        all.merge(tickets);
    }
    Some(lock.into_inner().total(&mut all))
}

/// Makes a barging lock with this limit, or a strict lock if the limit is less than two. Returns `None` if memory is
/// short.
fn make<T: Drop>(alloc: Global, barging_limit: u16, value: T) -> Option<FairLock<T>>
    ensures strict { barging_limit < 2 → IfSome result (λ lock. lock.barging_limit ≡ 1) }
    ensures barging { 2 ≤ barging_limit →
        IfSome result (λ lock. lock.barging_limit ≡ barging_limit) }
{
    if barging_limit < 2 {
        FairLock::new(alloc, value).ok()
    } else {
        FairLock::with_barging(alloc, barging_limit, value).ok()
    }
}

/// Lets each of `threads` threads enter and count `each` times. Returns the count at the end, or `None` if memory is
/// short.
pub fn count<R: Threads + Wait + Sync>(
    rt: &R,
    alloc: Global,
    barging_limit: u16,
    threads: u16,
    each: u32,
) -> Option<u64>
    ensures { IfSome result (λ n. n ≡ threads * each) }
{
    let blank = Blank::new(threads as u64 + 1);
    run::<Brand, R>(rt, alloc, barging_limit, blank, threads, each)
}
