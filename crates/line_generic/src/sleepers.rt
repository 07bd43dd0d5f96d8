//! Counts a line's sleepers, which are the waiters that are parked or are about to park. This file contains what a
//! waiter does before it parks, and what a release does before it returns.
//!
//! The waiter and the releasing thread follow a Dekker handshake. The waiter adds itself to the count, and then reads
//! the word on which it waits. The releasing thread grants the line, and then reads the count. Therefore either the
//! waiter sees the grant, or the releasing thread sees the waiter.
ghost use Rattle.std.specs.Prelude.{◌≡◌, ℕ, ◌<◌, ◌/◌, ◌%◌, ◌^◌};

use crate::discipline::Discipline;
use crate::table::{LineTable, SharedTable};
use crossbeam_utils::CachePadded;
use qolb_model::Keep;
use std::array::from_fn;
use std::sync::atomic::{AtomicU64, Ordering};

/// The duty to unpark the next holder, and the waiter behind it one turn early.
///
/// `word` is the word on which the node that was granted the line may be parked, and `ahead` is the word of the waiter
/// behind it. If there is no such node, these may be any numbers. This is a linear token: the type is not `Drop` and
/// one field is private to this file, so a queue algorithm can only return it, and a call can only pass it to the
/// `WakePolicy`.
pub struct UnparkHandle {
    pub(crate) word: usize,
    pub(crate) ahead: usize,
    to_look: (),
}

impl UnparkHandle {
    /// Returns the duty to unpark the waiters on `word`, and the waiters on `ahead` one turn early.
    #[inline(always)]
    pub fn at(word: usize, ahead: usize) -> UnparkHandle
        ensures { result ≡ record { word = word; ahead = ahead; to_look = tt } }
    {
        UnparkHandle {
            word,
            ahead,
            to_look: (),
        }
    }

    /// Returns `word` and `ahead`, for a policy that unparks nobody itself.
    #[inline(always)]
    pub(crate) fn words(self) -> (usize, usize)
        ensures { result ≡ record { 0 = self.word; 1 = self.ahead } }
    {
        let UnparkHandle {
            word,
            ahead,
            to_look: (),
        } = self;
        (word, ahead)
    }
}

/// The duty of a release that found some waiter counted after its grant. This is a linear token, which only `wake_both`
/// ends.
pub(crate) struct Found {
    word: usize,
    ahead: usize,
    to_unpark: (),
}

/// A waiter that is counted on `word`, where a release finds it, and has not looked since.
///
/// This is a linear token: the type is not `Drop`, and one field is private to this file. Only `Parking::enter` makes
/// one, and only `see` takes it.
pub(crate) struct Counted {
    pub(crate) word: usize,
    to_look: (),
}

/// A waiter that is counted on `word` and has looked at it since. `low` is the lower half of the word, as the waiter
/// found it.
///
/// This is a linear token, as `Counted` is. Only `Counted::see` makes one, and only `Parking::leave` takes it. A thread
/// that has one may park.
pub(crate) struct Seen {
    pub(crate) word: usize,
    pub(crate) low: u32,
    to_leave: (),
}

/// The number of groups of parked waiters. A waiter belongs to the group of its word.
const GROUPS: usize = 16;

/// The distance between two words on which nodes wait, in each kind of line.
const STRIDE: usize = 16;

/// Returns the group of the waiters on `word`.
fn group_of(word: usize) -> usize
    ensures group { result ≡ word / STRIDE % GROUPS }
    ensures within { result < GROUPS }
{
    word / STRIDE % GROUPS
}

/// Returns the half of `word` that the kernel compares before it parks a thread.
fn low_half(word: u64) -> u32
    ensures { result ≡ word % 2 ^ 32 }
{
    (word % (1 << 32)) as u32
}

impl Counted {
    /// Looks at the word on which the waiter is counted.
    pub(crate) fn see<K: Keep, Q: Discipline<K>>(self, table: &SharedTable<K, Q>) -> Seen
        requires { self.word < table.now.table_id.words }
        ensures { result.word ≡ self.word }
    {
        let Counted { word, to_look: () } = self;
        let low = low_half(table.peek(word));
        Seen {
            word,
            low,
            to_leave: (),
        }
    }
}

/// Counters of the waiters of a line that are parked or about to park: one for all waiters, and one for each group.
///
/// They are not words of the table, so no invariant mentions them. Each release loads `all`, so that counter has a
/// cache line of its own. A release loads a group's counter only if some waiter is parked, and calls the system only if
/// that group has a waiter.
#[derive(Drop)]
pub struct Parking {
    all: CachePadded<AtomicU64>,
    groups: CachePadded<[AtomicU64; GROUPS]>,
}

impl Parking {
    /// Returns the counts of a new line, which has no waiters.
    pub(crate) fn new() -> Parking {
        Parking {
            all: CachePadded::new(AtomicU64::new(0)),
            groups: CachePadded::new(from_fn(|_| AtomicU64::new(0))),
        }
    }

    /// Counts a waiter on `word`.
    pub(crate) fn enter(&self, word: usize) -> Counted
        ensures { result.word ≡ word }
    {
        self.groups[group_of(word)].fetch_add(1, Ordering::SeqCst);
        self.all.fetch_add(1, Ordering::SeqCst);
        Counted { word, to_look: () }
    }

    /// Takes a waiter out of the counts.
    pub(crate) fn leave(&self, seen: Seen) {
        let Seen {
            word,
            low: _,
            to_leave: (),
        } = seen;
        self.all.fetch_sub(1, Ordering::SeqCst);
        self.groups[group_of(word)].fetch_sub(1, Ordering::SeqCst);
    }

    /// Returns the number of waiters.
    #[inline(always)]
    pub(crate) fn all(&self) -> u64 {
        self.all.load(Ordering::SeqCst)
    }

    /// Returns the number of waiters in the group of `word`.
    #[inline(always)]
    pub(crate) fn near(&self, word: usize) -> u64 {
        self.groups[group_of(word)].load(Ordering::SeqCst)
    }

    /// Looks for waiters after the grant of `unpark`. Returns `None` if no waiter is counted, and then the duty is
    /// done.
    #[inline(always)]
    pub(crate) fn look(&self, unpark: UnparkHandle) -> Option<Found> {
        let (word, ahead) = unpark.words();
        if self.all() == 0 {
            return None;
        }
        Some(Found {
            word,
            ahead,
            to_unpark: (),
        })
    }

    /// Unparks the waiters on the two words of `found`. The function is cold and not inlined, so that a release without
    /// parked waiters stays short.
    #[cold]
    #[inline(never)]
    pub(crate) fn wake_both<K: Keep, Q: Discipline<K>>(
        &self,
        table: &LineTable<K, Q>,
        found: Found,
    ) {
        let Found {
            word,
            ahead,
            to_unpark: (),
        } = found;
        for at in [word, ahead] {
            if at < table.word_count() && self.near(at) != 0 {
                table.shared.wake_all(at);
            }
        }
    }
}
