//! Releasing the lock: a caller that has the turn grants the next ticket, and a caller that holds the lock word gives
//! the word up.
//!
//! The step that grants the ticket or gives up the lock word is the caller's last access to the lock's memory.
ghost use Rattle.std.specs.Prelude.{◌≡◌, ◌+◌, ◌%◌, ◌^◌, ◌≤◌, true, false, ◌≢◌, ◌/◌, ◌<◌};
ghost use Rattle.lock_core.specs.Layout.{max_passed, HasLockWords, cell_at, count_of, lock_word_at, state_of, asleep_of};
ghost use Rattle.lock_core.specs.Views.{view_of, InTime, InTimeFrom, LoadGrows, IsSeatOf, IsIdle, IsAtTurn, IsPassing, HasTurnOf, HasGrantedNext, HasNextTicket, HasEnded, IsNotServed, SameRequest, SameNewcomersSeen, SameOvertaking, GrantedAfter, GrantedToNobodyAsleep, SameTurn, IsInside, IsOutside, LeftQuietly, SameNewcomer, SameKnown, LeavesSameTake, SameDoor};
ghost use Rattle.lock_core.specs.Looks.{StepsLater, StepsAtMost, Found, LooksOnce, Changes, IsLeftClean, FoundChanged, Leaves, LeavesAsFound, IsLeftAs};
ghost use Rattle.lock_core.specs.Answers.{IfGranted, IfUnfinished, IfLeft, IfNotLeft};

use crate::invariant::{SharedValue, ValueSeat};
use crate::layout::{
    HEAD_ASLEEP, LOCK_WORD, MAX_PASSED, NEWCOMER, RESERVED, ROUND, SHUT, bit, cell_word,
    is_withdrawn, sleepers,
};
use crate::plays::{ClearWithdrawn, Grant, Leave, ReadLockWord};

/// What `release` did.
#[derive(Clone, Copy, Debug, PartialEq, Eq)]
pub enum ReleaseResult {
    /// The next ticket is granted. Its cell counted `sleepers` sleepers, which the caller must wake.
    Granted { sleepers: u64 },
    /// The release passed `MAX_PASSED` withdrawn requests, and its caller still has the turn. The caller must call
    /// `release` again.
    Unfinished,
}

/// What `leave_lock_word` did.
#[derive(Clone, Copy, Debug, PartialEq, Eq)]
pub enum LeaveResult {
    /// The caller does not hold the lock word any more. If the queue head is asleep at the lock word, the caller must
    /// wake it.
    Outside { head_asleep: bool },
    /// The caller still holds the lock word, which has this value. The caller must call again.
    Changed { lock_word: u64 },
}

/// Ends the turn, and grants the next ticket. If the first answer is `true`, the request of that ticket is withdrawn:
/// the caller then has its turn and must clear its mark. The second answer is the number of sleepers that the ticket's
/// cell counted.
#[inline(always)]
fn grant<T>(table: &SharedValue<T>, seat: &mut ValueSeat<T>, ticket: u64) -> (bool, u64)
    requires table { HasLockWords table.now.table_id }
    requires seat { IsSeatOf table.now.table_id table.now.key seat.old }
    requires has { InTime seat.old (HasTurnOf ticket) }
    ensures seat { IsSeatOf table.now.table_id table.now.key seat.new }
    ensures load { LoadGrows seat.old seat.new }
    ensures steps { StepsLater 1 seat.old seat.new }
    ensures turn { SameTurn (view_of seat.old) (view_of seat.new) }
    ensures next { result.0 ≡ false → InTimeFrom seat.old seat.new HasGrantedNext }
    ensures granted { result.0 ≡ false → InTime seat.new (GrantedAfter ticket) }
    ensures nobody { result.0 ≡ false → result.1 ≡ 0 → InTime seat.new GrantedToNobodyAsleep }
    ensures passes { result.0 ≡ true → InTime seat.new (IsPassing ((ticket + 1) % 2 ^ 64)) }
    ensures passes_next { result.0 ≡ true → InTimeFrom seat.old seat.new HasNextTicket }
    ensures sleepers { Found (cell_at (ticket + 1)) (λ n. count_of n ≡ result.1) seat.new }
    ensures overtaking { SameOvertaking (view_of seat.old) (view_of seat.new) }
    ensures strict { table.now.key ≤ 1 → InTime seat.new IsNotServed }
{
    let next = ticket.wrapping_add(1);
    let cell = table.fetch_add::<Grant>(seat, cell_word(next), ROUND);
    (is_withdrawn(cell, next), sleepers(cell))
}

/// Clears the mark of a withdrawn request whose turn the caller has.
#[inline(always)]
pub(crate) fn clear_withdrawn<T>(table: &SharedValue<T>, seat: &mut ValueSeat<T>, ticket: u64)
    requires table { HasLockWords table.now.table_id }
    requires seat { IsSeatOf table.now.table_id table.now.key seat.old }
    requires passes { InTime seat.old (IsPassing ticket) }
    ensures seat { IsSeatOf table.now.table_id table.now.key seat.new }
    ensures load { LoadGrows seat.old seat.new }
    ensures steps { StepsLater 1 seat.old seat.new }
    ensures turn { SameTurn (view_of seat.old) (view_of seat.new) }
    ensures at_turn { InTime seat.new (IsAtTurn ticket) }
    ensures request { InTimeFrom seat.old seat.new SameRequest }
    ensures newcomers { InTimeFrom seat.old seat.new SameNewcomersSeen }
{
    table.fetch_sub::<ClearWithdrawn>(seat, cell_word(ticket), bit(ticket));
}

/// Ends the turn of `ticket`, passes withdrawn requests, and grants the first ticket that is not withdrawn. The call
/// takes two atomic steps for each request that it passes, at most `MAX_PASSED`, and one step for the grant. The grant
/// is the last access to the lock's memory. Afterwards `ticket` is the last ticket whose turn has ended; if the release
/// is unfinished, it is the ticket whose turn the caller has. A queue head that holds the lock word still holds it.
pub fn release<T>(
    table: &SharedValue<T>,
    seat: &mut ValueSeat<T>,
    ticket: &mut u64,
) -> ReleaseResult
    requires table { HasLockWords table.now.table_id }
    requires seat { IsSeatOf table.now.table_id table.now.key seat.old }
    requires has { InTime seat.old (HasTurnOf ticket.old) }
    ensures seat { IsSeatOf table.now.table_id table.now.key seat.new }
    ensures load { LoadGrows seat.old seat.new }
    ensures steps { StepsAtMost 128 seat.old seat.new }
    ensures turn { SameTurn (view_of seat.old) (view_of seat.new) }
    ensures idle { IfGranted result (λ _. InTime seat.new IsIdle) }
    ensures ended { IfGranted result (λ _. InTimeFrom seat.old seat.new HasEnded) }
    ensures granted { IfGranted result (λ _. InTime seat.new (GrantedAfter ticket.new)) }
    ensures nobody { IfGranted result (λ sleepers. sleepers ≡ 0
        → InTime seat.new GrantedToNobodyAsleep) }
    ensures sleepers { IfGranted result (λ sleepers.
        Found (cell_at (ticket.new + 1)) (λ n. count_of n ≡ sleepers) seat.new) }
    ensures has { IfUnfinished result (InTime seat.new (HasTurnOf ticket.new)) }
    ensures passed { IfUnfinished result (StepsLater 128 seat.old seat.new
        × (ticket.new ≡ (ticket.old + max_passed) % 2 ^ 64)) }
    ensures later { InTimeFrom seat.old seat.new (λ v w. v.ticket ≤ w.ticket) }
    ensures overtaking { InTimeFrom seat.old seat.new SameOvertaking }
    ensures strict { IfGranted result (λ _. table.now.key ≤ 1 → InTime seat.new IsNotServed) }
{
    for _ in 0..MAX_PASSED {
        let (withdrawn, sleepers) = grant(table, seat, *ticket);
        if !withdrawn {
            return ReleaseResult::Granted { sleepers };
        }
        *ticket = ticket.wrapping_add(1);
        clear_withdrawn(table, seat, *ticket);
    }
    ReleaseResult::Unfinished
}

/// Frees the lock word for any thread, by one compare-and-swap that succeeds if the word is `expected`. Returns the
/// value that the step found.
#[inline(always)]
fn leave_free<T>(table: &SharedValue<T>, seat: &mut ValueSeat<T>, expected: u64) -> u64
    requires table { HasLockWords table.now.table_id }
    requires seat { IsSeatOf table.now.table_id table.now.key seat.old }
    requires room { expected / 32 + 2 ≤ table.now.key }
    requires inside { InTime seat.old IsInside }
    ensures seat { IsSeatOf table.now.table_id table.now.key seat.new }
    ensures load { LoadGrows seat.old seat.new }
    ensures steps { LooksOnce seat.old seat.new }
    ensures found { Found lock_word_at (λ n. n ≡ result) seat.new }
    ensures turn { SameNewcomer (view_of seat.old) (view_of seat.new) }
    ensures known { SameKnown (view_of seat.old) (view_of seat.new) }
    ensures take { LeavesSameTake seat.old seat.new }
    ensures quiet { result ≡ expected → asleep_of expected ≡ 0 → InTime seat.new LeftQuietly }
    ensures outside { result ≡ expected → InTime seat.new IsOutside }
    ensures home { result ≡ expected → InTime seat.new IsNotServed }
    ensures free { result ≡ expected → Leaves lock_word_at (λ n. state_of n ≡ 0) seat.new }
    ensures clean { result ≡ expected → Changes lock_word_at IsLeftClean seat.new }
    ensures inside { result ≢ expected → InTime seat.new IsInside }
    ensures door { result ≢ expected → InTimeFrom seat.old seat.new SameDoor }
{
    let free = expected / SHUT * SHUT;
    table.compare_exchange::<Leave>(seat, LOCK_WORD, expected, free)
}

/// Reserves the lock word for the queue head, by one compare-and-swap that succeeds if the word is `expected`. Returns
/// the value that the step found.
#[inline(always)]
fn leave_reserved<T>(table: &SharedValue<T>, seat: &mut ValueSeat<T>, expected: u64) -> u64
    requires table { HasLockWords table.now.table_id }
    requires seat { IsSeatOf table.now.table_id table.now.key seat.old }
    requires inside { InTime seat.old IsInside }
    ensures seat { IsSeatOf table.now.table_id table.now.key seat.new }
    ensures load { LoadGrows seat.old seat.new }
    ensures steps { LooksOnce seat.old seat.new }
    ensures found { Found lock_word_at (λ n. n ≡ result) seat.new }
    ensures turn { SameNewcomer (view_of seat.old) (view_of seat.new) }
    ensures known { SameKnown (view_of seat.old) (view_of seat.new) }
    ensures take { LeavesSameTake seat.old seat.new }
    ensures quiet { result ≡ expected → asleep_of expected ≡ 0 → InTime seat.new LeftQuietly }
    ensures outside { result ≡ expected → InTime seat.new IsOutside }
    ensures home { result ≡ expected → InTime seat.new IsNotServed }
    ensures reserved { result ≡ expected → Leaves lock_word_at (λ n. state_of n ≡ 2) seat.new }
    ensures clean { result ≡ expected → Changes lock_word_at IsLeftClean seat.new }
    ensures inside { result ≢ expected → InTime seat.new IsInside }
    ensures door { result ≢ expected → InTimeFrom seat.old seat.new SameDoor }
{
    let reserved = expected / SHUT * SHUT + RESERVED;
    table.compare_exchange::<Leave>(seat, LOCK_WORD, expected, reserved)
}

/// Leaves the lock word if its value is `expected`. The call reserves the word for the queue head if a handoff is
/// requested, or if as many threads have held the word as `barging_limit` allows; otherwise it frees the word. One
/// atomic step, which is the last access to the lock's memory.
#[inline(always)]
pub fn leave_lock_word_if<T>(
    table: &SharedValue<T>,
    seat: &mut ValueSeat<T>,
    barging_limit: u64,
    expected: u64,
) -> LeaveResult
    requires table { HasLockWords table.now.table_id }
    requires barging_limit { barging_limit ≤ table.now.key }
    requires seat { IsSeatOf table.now.table_id table.now.key seat.old }
    requires inside { InTime seat.old IsInside }
    ensures seat { IsSeatOf table.now.table_id table.now.key seat.new }
    ensures load { LoadGrows seat.old seat.new }
    ensures steps { LooksOnce seat.old seat.new }
    ensures turn { SameNewcomer (view_of seat.old) (view_of seat.new) }
    ensures known { SameKnown (view_of seat.old) (view_of seat.new) }
    ensures take { LeavesSameTake seat.old seat.new }
    ensures outside { IfLeft result (λ _. InTime seat.new IsOutside) }
    ensures home { IfLeft result (λ _. InTime seat.new IsNotServed) }
    ensures quiet { IfLeft result (λ asleep. asleep ≡ false → InTime seat.new LeftQuietly) }
    ensures asleep { IfLeft result (λ asleep. asleep ≡ true → asleep_of expected ≡ 1) }
    ensures left { IfLeft result (λ _.
        Leaves lock_word_at (IsLeftAs barging_limit expected) seat.new) }
    ensures found { IfLeft result (λ _. Found lock_word_at (λ n. n ≡ expected) seat.new) }
    ensures clean { IfLeft result (λ _. Changes lock_word_at IsLeftClean seat.new) }
    ensures inside { IfNotLeft result (λ _. InTime seat.new IsInside) }
    ensures door { IfNotLeft result (λ _. InTimeFrom seat.old seat.new SameDoor) }
    ensures changed { IfNotLeft result (λ lock_word. (lock_word ≢ expected)
        × Found lock_word_at (λ n. n ≡ lock_word) seat.new) }
{
    let is_last = expected / NEWCOMER + 1 >= barging_limit;
    let lock_word = if expected % 2 == 1 || is_last {
        leave_reserved(table, seat, expected)
    } else {
        leave_free(table, seat, expected)
    };
    if lock_word != expected {
        return LeaveResult::Changed { lock_word };
    }
    LeaveResult::Outside {
        head_asleep: expected / HEAD_ASLEEP % 2 == 1,
    }
}

/// Leaves the lock word as `leave_lock_word_if` does, whatever value the word has. Two atomic steps.
#[inline(always)]
pub fn leave_lock_word<T>(
    table: &SharedValue<T>,
    seat: &mut ValueSeat<T>,
    barging_limit: u64,
) -> LeaveResult
    requires table { HasLockWords table.now.table_id }
    requires barging_limit { barging_limit ≤ table.now.key }
    requires seat { IsSeatOf table.now.table_id table.now.key seat.old }
    requires inside { InTime seat.old IsInside }
    ensures seat { IsSeatOf table.now.table_id table.now.key seat.new }
    ensures load { LoadGrows seat.old seat.new }
    ensures steps { StepsLater 2 seat.old seat.new }
    ensures turn { SameNewcomer (view_of seat.old) (view_of seat.new) }
    ensures known { SameKnown (view_of seat.old) (view_of seat.new) }
    ensures take { LeavesSameTake seat.old seat.new }
    ensures outside { IfLeft result (λ _. InTime seat.new IsOutside) }
    ensures home { IfLeft result (λ _. InTime seat.new IsNotServed) }
    ensures quiet { IfLeft result (λ asleep. asleep ≡ false → InTime seat.new LeftQuietly) }
    ensures asleep { IfLeft result (λ asleep. asleep ≡ true
        → Found lock_word_at (λ n. asleep_of n ≡ 1) seat.new) }
    ensures left { IfLeft result (λ _. LeavesAsFound barging_limit seat.new) }
    ensures clean { IfLeft result (λ _. Changes lock_word_at IsLeftClean seat.new) }
    ensures inside { IfNotLeft result (λ _. InTime seat.new IsInside) }
    ensures door { IfNotLeft result (λ _. InTimeFrom seat.old seat.new SameDoor) }
    ensures changed { IfNotLeft result (λ _. FoundChanged lock_word_at seat.new) }
    ensures now { IfNotLeft result (λ lock_word. Found lock_word_at (λ n. n ≡ lock_word) seat.new) }
{
    let lock_word = table.load::<ReadLockWord>(seat, LOCK_WORD);
    leave_lock_word_if(table, seat, barging_limit, lock_word)
}
