//! Waiting: a waiter polls its cell, announces that it is about to sleep, and retracts the announcement.
//!
//! The cell's word contains the number of waiters that have announced a sleep. A grant changes the same word, so the
//! atomic step that grants the ticket also reads this number. Therefore no wake-up is lost.
ghost use Rattle.std.specs.Prelude.{◌≡◌, ◌<◌, ◌⊎◌};
ghost use Rattle.lock_core.specs.Layout.{max_sleepers, HasLockWords, cell_at, count_of, to_go};
ghost use Rattle.lock_core.specs.Views.{view_of, InTime, InTimeFrom, LoadGrows, IsSeatOf, IsQueued, IsQueuedWithin, IsAsleep, IsAtTurn, IsOvertakenInBounds, SameRequest, SameTurn};
ghost use Rattle.lock_core.specs.Looks.{StepsLater, Found, FoundChanged, Leaves};
ghost use Rattle.lock_core.specs.Answers.{IfSleepAtTurn, IfSleepAnnounced, IfSleepFull, IfSleepChanged, IfSleepRefused};

use crate::invariant::{SharedValue, ValueSeat};
use crate::layout::{MAX_SLEEPERS, SLEEPER, cell_word, rounds_to_go, sleepers};
use crate::plays::{AnnounceSleep, Look};

/// What `announce_sleep` found and did.
#[derive(Clone, Copy, Debug, PartialEq, Eq)]
pub enum SleepResult {
    /// The waiter is at its turn, and is not counted.
    AtTurn,
    /// The waiter is counted, and has `rounds` rounds to go. It may sleep while the upper 32 bits of its cell are those
    /// of `cell`.
    Asleep { rounds: u64, cell: u64 },
    /// The waiter is not counted, because its cell already counts `MAX_SLEEPERS`. The waiter has `rounds` rounds to go.
    Full { rounds: u64 },
    /// The waiter is not counted, because its cell changed at that moment. The waiter has `rounds` rounds to go.
    Changed { rounds: u64 },
}

/// Returns how many rounds must still be granted until the ticket's turn comes, or 0 if the ticket is at its turn. One
/// atomic step.
#[inline(always)]
pub fn poll<T>(table: &SharedValue<T>, seat: &mut ValueSeat<T>, ticket: u64) -> u64
    requires table { HasLockWords table.now.table_id }
    requires seat { IsSeatOf table.now.table_id table.now.key seat.old }
    requires queued { InTime seat.old (IsQueued ticket) }
    ensures seat { IsSeatOf table.now.table_id table.now.key seat.new }
    ensures load { LoadGrows seat.old seat.new }
    ensures steps { StepsLater 1 seat.old seat.new }
    ensures found { Found (cell_at ticket) (λ n. to_go n ticket ≡ result) seat.new }
    ensures turn { SameTurn (view_of seat.old) (view_of seat.new) }
    ensures request { InTimeFrom seat.old seat.new SameRequest }
    ensures at_turn { result ≡ 0 → InTime seat.new (IsAtTurn ticket) }
    ensures overtaken { result ≡ 0 → InTime seat.new IsOvertakenInBounds }
    ensures queued { 0 < result → InTime seat.new (IsQueuedWithin result ticket) }
{
    let cell = table.load::<Look>(seat, cell_word(ticket));
    rounds_to_go(cell, ticket)
}

/// Counts the waiter as a sleeper of its cell, unless it is at its turn. At most two atomic steps. The thread that
/// grants the waiter's ticket is then told of a sleeper.
#[inline(always)]
pub fn announce_sleep<T>(
    table: &SharedValue<T>,
    seat: &mut ValueSeat<T>,
    ticket: u64,
) -> SleepResult
    requires table { HasLockWords table.now.table_id }
    requires seat { IsSeatOf table.now.table_id table.now.key seat.old }
    requires queued { InTime seat.old (IsQueued ticket) }
    ensures seat { IsSeatOf table.now.table_id table.now.key seat.new }
    ensures load { LoadGrows seat.old seat.new }
    ensures steps { StepsLater 1 seat.old seat.new ⊎ StepsLater 2 seat.old seat.new }
    ensures turn { SameTurn (view_of seat.old) (view_of seat.new) }
    ensures request { InTimeFrom seat.old seat.new SameRequest }
    ensures at_turn { IfSleepAtTurn result (InTime seat.new (IsAtTurn ticket)) }
    ensures overtaken { IfSleepAtTurn result (InTime seat.new IsOvertakenInBounds) }
    ensures asleep { IfSleepAnnounced result (λ rounds cell. InTime seat.new (IsAsleep ticket)) }
    ensures word { IfSleepAnnounced result (λ rounds cell. (0 < rounds)
        × (to_go cell ticket ≡ rounds) × Leaves (cell_at ticket) (λ n. n ≡ cell) seat.new) }
    ensures full { IfSleepFull result (λ rounds. (0 < rounds)
        × Found (cell_at ticket)
        (λ n. (count_of n ≡ max_sleepers) × (to_go n ticket ≡ rounds)) seat.new) }
    ensures changed { IfSleepChanged result (λ rounds. (0 < rounds)
        × FoundChanged (cell_at ticket) seat.new) }
    ensures found { IfSleepChanged result (λ rounds.
        Found (cell_at ticket) (λ n. to_go n ticket ≡ rounds) seat.new) }
    ensures found_turn { IfSleepAtTurn result
        (Found (cell_at ticket) (λ n. to_go n ticket ≡ 0) seat.new) }
    ensures queued { IfSleepRefused result (λ rounds.
        InTime seat.new (IsQueuedWithin rounds ticket)) }
{
    let found = table.load::<Look>(seat, cell_word(ticket));
    let rounds = rounds_to_go(found, ticket);
    if rounds == 0 {
        return SleepResult::AtTurn;
    }
    if sleepers(found) >= MAX_SLEEPERS {
        return SleepResult::Full { rounds };
    }
    let counted = found.wrapping_add(SLEEPER);
    let cell = table.compare_exchange::<AnnounceSleep>(seat, cell_word(ticket), found, counted);
    if cell == found {
        return SleepResult::Asleep {
            rounds,
            cell: counted,
        };
    }
    match rounds_to_go(cell, ticket) {
        0 => SleepResult::AtTurn,
        rounds => SleepResult::Changed { rounds },
    }
}

/// Subtracts the waiter from its cell's count of sleepers after a sleep. One atomic step. Returns the same as `poll`.
#[inline(always)]
pub fn retract_sleep<T>(table: &SharedValue<T>, seat: &mut ValueSeat<T>, ticket: u64) -> u64
    requires table { HasLockWords table.now.table_id }
    requires seat { IsSeatOf table.now.table_id table.now.key seat.old }
    requires asleep { InTime seat.old (IsAsleep ticket) }
    ensures seat { IsSeatOf table.now.table_id table.now.key seat.new }
    ensures load { LoadGrows seat.old seat.new }
    ensures steps { StepsLater 1 seat.old seat.new }
    ensures found { Found (cell_at ticket) (λ n. to_go n ticket ≡ result) seat.new }
    ensures turn { SameTurn (view_of seat.old) (view_of seat.new) }
    ensures request { InTimeFrom seat.old seat.new SameRequest }
    ensures at_turn { result ≡ 0 → InTime seat.new (IsAtTurn ticket) }
    ensures overtaken { result ≡ 0 → InTime seat.new IsOvertakenInBounds }
    ensures queued { 0 < result → InTime seat.new (IsQueuedWithin result ticket) }
{
    let cell = table.fetch_sub::<Look>(seat, cell_word(ticket), SLEEPER);
    rounds_to_go(cell, ticket)
}
