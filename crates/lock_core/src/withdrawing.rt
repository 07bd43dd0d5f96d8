//! Withdrawal: a waiter gives up its request.
//!
//! A bit in the word of the request's cell marks the request as withdrawn. The word has 16 such bits, one for each
//! round modulo 16. A request can be withdrawn only while at most 15 rounds must be granted before its own round. A
//! request with 16 rounds to go would share its bit with the round that was granted last. The mark of that round may
//! still be set, because a release clears the mark with a separate atomic step after the grant. A release that reaches
//! a marked request skips it.
ghost use Rattle.std.specs.Prelude.{◌≡◌, ◌<◌, ◌≤◌, true, false};
ghost use Rattle.lock_core.specs.Layout.{withdrawal_window, HasLockWords};
ghost use Rattle.lock_core.specs.Views.{view_of, InTime, InTimeFrom, LoadGrows, IsSeatOf, IsIdle, IsQueuedWithin, IsAtTurn, IsOvertakenInBounds, SameRequest, SameTurn};
ghost use Rattle.lock_core.specs.Looks.{StepsLater};

use crate::invariant::{SharedValue, ValueSeat};
use crate::layout::{bit, cell_word, is_round_of};
use crate::plays::SetWithdrawn;
use crate::releasing::clear_withdrawn;

/// Withdraws a request that was found within the window of withdrawal. One atomic step, which is the last access to the
/// lock's memory. `false` means that the ticket had already been granted; this takes two atomic steps.
#[inline(always)]
pub fn withdraw<T>(
    table: &SharedValue<T>,
    seat: &mut ValueSeat<T>,
    ticket: u64,
    rounds: u64,
) -> bool
    requires table { HasLockWords table.now.table_id }
    requires seat { IsSeatOf table.now.table_id table.now.key seat.old }
    requires near { rounds ≤ withdrawal_window }
    requires queued { InTime seat.old (IsQueuedWithin rounds ticket) }
    ensures seat { IsSeatOf table.now.table_id table.now.key seat.new }
    ensures load { LoadGrows seat.old seat.new }
    ensures turn { SameTurn (view_of seat.old) (view_of seat.new) }
    ensures withdrawn { result ≡ true → InTime seat.new IsIdle }
    ensures at_turn { result ≡ false → InTime seat.new (IsAtTurn ticket) }
    ensures steps { result ≡ true → StepsLater 1 seat.old seat.new }
    ensures more_steps { result ≡ false → StepsLater 2 seat.old seat.new }
    ensures request { result ≡ false → InTimeFrom seat.old seat.new SameRequest }
    ensures overtaken { result ≡ false → InTime seat.new IsOvertakenInBounds }
{
    let cell = table.fetch_add::<SetWithdrawn>(seat, cell_word(ticket), bit(ticket));
    if !is_round_of(cell, ticket) {
        return true;
    }
    clear_withdrawn(table, seat, ticket);
    false
}
