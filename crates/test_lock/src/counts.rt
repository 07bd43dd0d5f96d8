//! Counts what threads do in their critical sections. Only the holder of the lock writes these counts, so plain loads
//! and stores are enough.
use std::sync::atomic::{AtomicU64, Ordering};

/// What was seen in critical sections.
#[derive(Drop)]
pub(crate) struct Counts {
    inside: AtomicU64,
    turns: AtomicU64,
    newcomers: AtomicU64,
    since_head: AtomicU64,
    last_ticket: AtomicU64,
    faults: AtomicU64,
}

impl Counts {
    pub(crate) fn new() -> Counts {
        Counts {
            inside: AtomicU64::new(0),
            turns: AtomicU64::new(0),
            newcomers: AtomicU64::new(0),
            since_head: AtomicU64::new(0),
            last_ticket: AtomicU64::new(0),
            faults: AtomicU64::new(0),
        }
    }

    /// Returns how many acquisitions were counted.
    pub(crate) fn turns(&self) -> u64 {
        self.turns.load(Ordering::SeqCst)
    }

    /// Returns how many acquisitions of newcomers, which are threads that barged, were counted.
    pub(crate) fn newcomers(&self) -> u64 {
        self.newcomers.load(Ordering::SeqCst)
    }

    /// Returns how often something was seen that must never happen: two threads inside, a smaller ticket after a larger
    /// one, or a newcomer too many.
    pub(crate) fn faults(&self) -> u64 {
        self.faults.load(Ordering::SeqCst)
    }

    fn check(&self, holds: bool) {
        if !holds {
            self.faults.fetch_add(1, Ordering::SeqCst);
        }
    }

    /// Counts an acquisition, and checks that nobody else is inside and that the sum is one more.
    fn count_turn(&self) {
        self.check(self.inside.fetch_add(1, Ordering::SeqCst) == 0);
        let turns = self.turns.load(Ordering::SeqCst);
        self.turns.store(turns.wrapping_add(1), Ordering::SeqCst);
        self.inside.fetch_sub(1, Ordering::SeqCst);
    }

    /// Counts the turn of a ticket, and checks that the next ticket is larger. It also checks that at most `bound`
    /// newcomers were counted since the ticket was drawn, when `before` had been counted.
    pub(crate) fn queue_turn(&self, ticket: u64, before: u64, bound: u64) {
        let next = ticket.wrapping_add(1);
        let last = self.last_ticket.load(Ordering::SeqCst);
        self.last_ticket.store(next, Ordering::SeqCst);
        self.check(last < next);
        self.check(self.newcomers().wrapping_sub(before) <= bound);
        self.since_head.store(0, Ordering::SeqCst);
        self.count_turn();
    }

    /// Counts the acquisition of a newcomer, and checks that it is one of at most `most` since the last queue head.
    pub(crate) fn newcomer(&self, most: u64) {
        let since = self.since_head.load(Ordering::SeqCst).wrapping_add(1);
        self.since_head.store(since, Ordering::SeqCst);
        self.newcomers
            .store(self.newcomers().wrapping_add(1), Ordering::SeqCst);
        self.check(since <= most);
        self.count_turn();
    }
}
