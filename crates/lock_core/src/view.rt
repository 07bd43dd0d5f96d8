//! Types that record what a caller knows about a lock. These types exist only in proofs.

/// The state of a caller's request, as far as the caller knows.
pub enum Phase {
    /// The caller has no request.
    Idle,
    /// The request waits.
    Queued,
    /// The request waits, and its caller has announced that it sleeps.
    Asleep,
    /// The request is at its turn. In a barging lock, it is the request of the queue head.
    AtTurn,
    /// The caller has the turn of a withdrawn request, whose mark is still set.
    Passing,
    /// The queue head holds the lock word, and has not released its turn of the queue.
    HeadInside,
    /// The result of a meeting of two callers that cannot meet.
    Impossible,
}

/// What the last atomic steps of a caller found.
pub struct Looks {
    /// How many steps the caller has taken.
    pub steps: u64,
    /// The number of the word of the last step, what the step found there, and what it left there.
    pub word: u64,
    pub found: u64,
    pub left: u64,
    /// The number of the word of the step before, and what that step found there.
    pub word_before: u64,
    pub found_before: u64,
}

/// What a caller knows of its lock. The program makes no value of this type.
pub struct View {
    /// The maximum number of newcomers (threads that barge) between two queue heads. It is 0 in a strict lock.
    pub max_newcomers: u64,
    /// The maximum number of requests that were open at one time. If 2^64 tickets were drawn in the course of one call,
    /// 2^30 is added.
    pub most_open: u64,
    /// At least this number of requests have ended.
    pub ended: u64,
    /// At least this number of rounds were granted in the cell of the caller's ticket.
    pub rounds_seen: u64,
    /// The number of the caller's ticket among all tickets.
    pub ticket: u64,
    /// The state of the caller's request.
    pub phase: Phase,
    /// How often the caller is counted as a sleeper of its cell.
    pub counted: u64,
    /// The last ticket that the caller granted, and 1 if the caller was told that nobody sleeps for that ticket.
    pub granted: u64,
    pub told_nobody: u64,
    /// What was true when the caller drew its ticket: how many newcomers had held the lock word, and the first ticket
    /// whose turn was not over.
    pub newcomers_at_draw: u64,
    pub first_pending: u64,
    /// At least this number of newcomers have held the lock word.
    pub newcomers_seen: u64,
    /// The caller's last acquisition as a newcomer: its number among the acquisitions of all newcomers, the number of
    /// queue heads before it, and its place since the last of these queue heads.
    pub newcomer_number: u64,
    pub heads_before: u64,
    pub place_after_head: u64,
    /// 1 if the caller is inside, which means that it holds the lock word.
    pub inside: u64,
    /// What the caller was told when it was served: 1 if the lock is open, 2 if it is shut.
    pub door: u64,
    /// 1 if the caller knows that the lock was shut in this epoch. The number of an epoch is how often the lock had
    /// been reopened.
    pub knows_shut: u64,
    pub epoch: u64,
    /// A take is one acquisition of the lock word. These fields are the least number of takes that the caller knows of,
    /// the number of its own last take, and 1 if it was told, as it left, that no queue head sleeps.
    pub takes_seen: u64,
    pub last_take: u64,
    pub left_quietly: u64,
    /// 1 if the caller announced its sleep at the lock word, and in which take it did.
    pub slept_in_take: u64,
    pub sleeps_at_lock_word: u64,
    /// How many tickets were drawn when the caller last read the tail, and 1 if the next ticket is at its turn, unless
    /// it was drawn since.
    pub tail_seen: u64,
    pub next_is_at_turn: u64,
    /// 1 if the caller drew its ticket while the lock was open, and the epoch in which it drew the ticket.
    pub drawn_open: u64,
    pub drawn_in_epoch: u64,
    /// 1 if the caller read at its turn that nobody drew a ticket after it.
    pub nobody_behind: u64,
    /// What the caller's last steps found.
    pub looks: Looks,
}
