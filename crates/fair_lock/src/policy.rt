//! The waiting policy: this file alone decides how long a thread polls, pauses and naps before it sleeps.
//!
//! A waiter knows its distance, which is the number of rounds that must still be granted before its own round. (A round
//! is four consecutive tickets.) A waiter knows neither the time nor the number of processors, because each reading of
//! the clock is a system call, and the toolchain's library has no call that counts processors. The limits in this file
//! are therefore numbers of polls, and a comment at each of them gives its reason. The waiters of a line
//! (`line_blocking`) do not share this module, because the result of polling a line does not include a distance.
use crate::span::Rest;
use crossbeam_utils::Backoff;
use std::hint::spin_loop;
use std::sync::Wait;
use std::sync::atomic::AtomicU64;
use std::time::Duration;

/// The polls of a waiter with at most four requests before it. They take some 24 us, which is about the cost of a sleep
/// and a wake-up. If the critical section is longer, the sleep is worth its cost.
pub(crate) const POLLS: u32 = 200;

/// The polls of a waiter with more than four requests before it. They take some 2 us. Its turn is several critical
/// sections away, and the threads of these may need its processor.
pub(crate) const POLLS_FAR: u32 = 20;

/// The pauses between two polls. They take some 120 ns, on most processors. A poll immediately after another would take
/// the cache line from the thread that is about to write it.
const PAUSES: u32 = 16;

/// How often the queue head looks at the lock word before it requests a handoff and sleeps. These looks take some 40
/// us.
pub(crate) const HEAD_LOOKS: u32 = 100;

/// The intervals of `PAUSES` between two looks of the queue head. Each look takes the cache line of the lock word from
/// the thread that is inside, which needs it again when it leaves.
pub(crate) const HEAD_INTERVALS: u32 = 3;

/// The queue head requests a handoff after this part of the barging limit, unless it sleeps before. Barging threads
/// then still have most of their advantage, and a waiter does not wait for the whole limit.
pub(crate) const REQUEST_PART: u64 = 16;

/// The longest nap of a thread that may not draw a ticket yet, in microseconds. No other thread wakes it, so this is
/// how late it may notice that it may draw one.
const NAP_MICROS: u64 = 200;

/// Pauses between two polls of a word.
pub(crate) fn pause() {
    for _ in 0..PAUSES {
        spin_loop();
    }
}

/// Pauses between two looks of the queue head, which are more frequent once a handoff is requested.
pub(crate) fn pause_as_head(requested: bool) {
    pause();
    if !requested {
        for _ in 1..HEAD_INTERVALS {
            pause();
        }
    }
}

/// Pauses and then yields, a few times. After that, a thread that is far from its turn sleeps for a nap, or for as long
/// as `rest` says. No other thread wakes it. Blocks.
pub(crate) fn pause_or_nap<R: Wait>(rt: &R, backoff: &Backoff, is_far: bool, rest: &Rest) {
    if is_far && backoff.is_completed() {
        let (left, nap) = (rest.left(), Duration::from_micros(NAP_MICROS));
        AtomicU64::new(0).park_timeout(rt, 0, if left < nap { left } else { nap });
    } else {
        backoff.snooze();
    }
}
