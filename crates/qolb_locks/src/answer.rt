//! The answers that calls on locks return to C code.

/// The answer of a call. C reads it as this number.
#[derive(Clone, Copy, Debug, PartialEq, Eq)]
pub enum Answer {
    /// The call is done.
    Done = 0,
    /// The ticket's turn has come, or its caller is inside the lock.
    Granted = 1,
    /// The request waits.
    Waiting = 3,
    /// The request is withdrawn.
    Withdrawn = 5,
    /// The lock is shut.
    Closed = 6,
    /// Another caller has the lock, or changed it at that moment. The ticket did not change.
    Busy = 7,
    /// The state of the ticket does not allow the call. Nothing changed.
    Misuse = 8,
    /// No lock was opened, because the allocator returned no memory.
    NoMemory = 9,
    /// No lock was opened, because the barging limit is above `MAX_BARGING_LIMIT`.
    BadBargingLimit = 10,
    /// The request is, or would be, beyond the window of withdrawal.
    Far = 16,
    /// The sleep is announced.
    Asleep = 17,
    /// The sleep is not announced, because as many waiters as can be counted sleep there.
    Full = 18,
    /// The caller still has the turn, and must call again.
    Unfinished = 19,
}
