//! Shutting and reopening the lock. The holder shuts the lock. A caller that has the turn reopens the lock if no
//! request is behind its own.
//!
//! In a strict lock, a caller that has the turn checks whether the lock is open (`check_open`). In a barging lock, the
//! step that takes the lock word reports to the caller whether the lock is open.
ghost use Rattle.std.specs.Prelude.{◌≡◌, ◌≢◌, ◌+◌, ◌%◌, ◌^◌, ◌≤◌, true, false};
ghost use Rattle.lock_core.specs.Layout.{HasLockWords, tail_at};
ghost use Rattle.lock_core.specs.Views.{view_of, InTime, InTimeFrom, LoadGrows, IsSeatOf, IsAtTurn, HasTurnOf, Kept, KnowsShut, ServedOpen, ServedShut, SameKnown, SameNewcomersSeen, SameSleepAtLockWord, IsLaterEpoch, KeepsValue};
ghost use Rattle.lock_core.specs.Looks.{StepsLater, Found};

use crate::invariant::{SharedValue, ValueSeat};
use crate::layout::{LOCK_WORD, SHUT, TAIL, is_shut};
use crate::plays::{CheckOpen, ReadTail, Reopen, Shut};

/// Tells the caller at its turn in a strict lock whether the lock is open. If the lock is open, the caller is served.
/// One atomic step. If the lock is shut, the caller passes its turn on with `release`, or reopens the lock.
#[inline(always)]
pub fn check_open<T>(table: &SharedValue<T>, seat: &mut ValueSeat<T>, ticket: u64) -> bool
    requires table { HasLockWords table.now.table_id }
    requires strict { table.now.key ≤ 1 }
    requires seat { IsSeatOf table.now.table_id table.now.key seat.old }
    requires at_turn { InTime seat.old (IsAtTurn ticket) }
    ensures seat { IsSeatOf table.now.table_id table.now.key seat.new }
    ensures load { LoadGrows seat.old seat.new }
    ensures steps { StepsLater 1 seat.old seat.new }
    ensures kept { Kept (view_of seat.old) (view_of seat.new) }
    ensures sleep { SameSleepAtLockWord (view_of seat.old) (view_of seat.new) }
    ensures newcomers { SameNewcomersSeen (view_of seat.old) (view_of seat.new) }
    ensures open { result ≡ true → InTime seat.new ServedOpen }
    ensures shut { result ≡ false → InTime seat.new ServedShut }
    ensures knows { result ≡ false → InTime seat.new KnowsShut }
    ensures epoch { InTimeFrom seat.old seat.new IsLaterEpoch }
{
    !is_shut(table.load::<CheckOpen>(seat, LOCK_WORD))
}

/// Shuts the lock for the caller that is served. One atomic step. From then on each caller at its turn is told that the
/// lock is shut, and no thread barges.
#[inline(always)]
pub fn shut<T>(table: &SharedValue<T>, seat: &mut ValueSeat<T>)
    requires table { HasLockWords table.now.table_id }
    requires seat { IsSeatOf table.now.table_id table.now.key seat.old }
    requires open { InTime seat.old ServedOpen }
    ensures seat { IsSeatOf table.now.table_id table.now.key seat.new }
    ensures load { LoadGrows seat.old seat.new }
    ensures steps { StepsLater 1 seat.old seat.new }
    ensures kept { Kept (view_of seat.old) (view_of seat.new) }
    ensures sleep { SameSleepAtLockWord (view_of seat.old) (view_of seat.new) }
    ensures newcomers { SameNewcomersSeen (view_of seat.old) (view_of seat.new) }
    ensures value { KeepsValue seat.old seat.new }
    ensures shut { ServedShut (view_of seat.new) }
    ensures knows { KnowsShut (view_of seat.new) }
    ensures epoch { (view_of seat.new).epoch ≡ (view_of seat.old).epoch }
{
    table.fetch_add::<Shut>(seat, LOCK_WORD, SHUT);
}

/// Reopens the lock unless a ticket was drawn after the caller's. The caller must be at its turn, and must have been
/// told that the lock is shut. If the call reopens the lock, the caller is served. Two atomic steps. `false` means that
/// another caller drew a ticket; this takes one atomic step.
#[inline(always)]
pub fn reopen<T>(table: &SharedValue<T>, seat: &mut ValueSeat<T>, ticket: u64) -> bool
    requires table { HasLockWords table.now.table_id }
    requires seat { IsSeatOf table.now.table_id table.now.key seat.old }
    requires turn { InTime seat.old (HasTurnOf ticket) }
    requires shut { InTime seat.old ServedShut }
    ensures seat { IsSeatOf table.now.table_id table.now.key seat.new }
    ensures load { LoadGrows seat.old seat.new }
    ensures kept { Kept (view_of seat.old) (view_of seat.new) }
    ensures sleep { SameSleepAtLockWord (view_of seat.old) (view_of seat.new) }
    ensures value { KeepsValue seat.old seat.new }
    ensures open { result ≡ true → ServedOpen (view_of seat.new) }
    ensures epoch { result ≡ true → (view_of seat.new).epoch ≡ (view_of seat.old).epoch + 1 }
    ensures steps { result ≡ true → StepsLater 2 seat.old seat.new }
    ensures shut { result ≡ false → (view_of seat.new).door ≡ (view_of seat.old).door }
    ensures known { result ≡ false → SameKnown (view_of seat.old) (view_of seat.new) }
    ensures busy { result ≡ false → StepsLater 1 seat.old seat.new
        × Found tail_at (λ n. n ≢ (ticket + 1) % 2 ^ 64) seat.new }
{
    if table.load::<ReadTail>(seat, TAIL) != ticket.wrapping_add(1) {
        return false;
    }
    table.fetch_sub::<Reopen>(seat, LOCK_WORD, SHUT);
    true
}
