//! Requesting the lock: a caller draws a ticket, whose number is the request's place in the order of all requests.
//!
//! `draw` always draws a ticket. The other calls first read the tail, which contains the number of the next ticket, and
//! the cell of that ticket. Each of them draws the ticket only under a condition. `try_draw` requires that the ticket's
//! turn has already come, `draw_near` that the request could be withdrawn, and `draw_within` that the ticket is within
//! a given distance.
ghost use Rattle.std.specs.Prelude.{◌≡◌, ◌<◌, ◌≤◌, IfSome, IfNone};
ghost use Rattle.lock_core.specs.Layout.{withdrawal_window, max_window, max_tickets, IsLockTable, cell_at, to_go, HasLockWords, tail_at};
ghost use Rattle.lock_core.specs.Views.{view_of, InTime, InTimeFrom, LoadGrows, IsSeatOf, IsIdle, IsQueued, IsQueuedWithin, IsAtTurn, IsOvertakenInBounds, DrawsAfter, SameTurn};
ghost use Rattle.lock_core.specs.Looks.{StepsLater, FoundBefore, FoundNext, FoundTailMoved, FoundBusy, Found};
ghost use Rattle.lock_core.specs.Answers.{IfNearAtTurn, IfNearQueued, IfNearFar, IfNearChanged, IfDrawn, IfNotDrawn, IfWithinDrawn, IfWithinNotDrawn, IfWithinAtTurn, IfWithinQueued, IfWithinFar, IfWithinChanged, IfWithinSpent};

use crate::invariant::{SharedTable, SharedValue, TicketSeat, ValueSeat};
use crate::layout::{MAX_TICKETS, TAIL, WITHDRAWAL_WINDOW, cell_word, rounds_to_go};
use crate::plays::{Draw, DrawGranted, DrawNear, ReadCell, ReadTail};

/// What `draw_near` found and did.
#[derive(Clone, Copy, Debug, PartialEq, Eq)]
pub enum DrawNearResult {
    /// The caller drew this ticket, which is at its turn.
    AtTurn { ticket: u64 },
    /// The caller drew this ticket. `rounds` rounds, at most `WITHDRAWAL_WINDOW`, must be granted before the ticket is
    /// at its turn.
    Queued { ticket: u64, rounds: u64 },
    /// The caller drew no ticket. The next ticket has `rounds` rounds to go, which is more than `WITHDRAWAL_WINDOW`.
    Far { rounds: u64 },
    /// The caller drew no ticket, because another caller drew one at that moment.
    Changed,
}

/// What `draw_within` found and did.
#[derive(Clone, Copy, Debug, PartialEq, Eq)]
pub enum DrawWithinResult {
    /// The caller drew this ticket, which is at its turn.
    AtTurn { ticket: u64 },
    /// The caller drew this ticket. `rounds` rounds must be granted before the ticket is at its turn.
    Queued { ticket: u64, rounds: u64 },
    /// The caller drew no ticket. The next ticket has `rounds` rounds to go, which is more than the window.
    Far { rounds: u64 },
    /// The caller drew no ticket, because another caller drew one at that moment.
    Changed,
    /// The caller drew no ticket, and no later call will draw one, because all `MAX_TICKETS` have been drawn.
    Spent,
}

/// Draws the next ticket. The call never refuses, and takes one atomic step.
#[inline(always)]
pub fn draw(table: &SharedTable, seat: &mut TicketSeat) -> u64
    requires table { IsLockTable table.now.table_id }
    requires seat { IsSeatOf table.now.table_id table.now.key seat.old }
    requires idle { InTime seat.old IsIdle }
    ensures seat { IsSeatOf table.now.table_id table.now.key seat.new }
    ensures load { LoadGrows seat.old seat.new }
    ensures steps { StepsLater 1 seat.old seat.new }
    ensures turn { SameTurn (view_of seat.old) (view_of seat.new) }
    ensures queued { InTime seat.new (IsQueued result) }
    ensures order { InTimeFrom seat.old seat.new DrawsAfter }
{
    table.fetch_add::<Draw>(seat, TAIL, 1)
}

/// Draws the next ticket if that ticket is at its turn. At most three atomic steps. A call that returns `None` leaves
/// nothing behind.
#[inline(always)]
pub fn try_draw(table: &SharedTable, seat: &mut TicketSeat) -> Option<u64>
    requires table { IsLockTable table.now.table_id }
    requires seat { IsSeatOf table.now.table_id table.now.key seat.old }
    requires idle { InTime seat.old IsIdle }
    ensures seat { IsSeatOf table.now.table_id table.now.key seat.new }
    ensures load { LoadGrows seat.old seat.new }
    ensures turn { SameTurn (view_of seat.old) (view_of seat.new) }
    ensures at_turn { IfSome result (λ ticket. InTime seat.new (IsAtTurn ticket)) }
    ensures overtaken { IfSome result (λ _. InTime seat.new IsOvertakenInBounds) }
    ensures order { IfSome result (λ _. InTimeFrom seat.old seat.new DrawsAfter) }
    ensures steps { IfSome result (λ _. StepsLater 3 seat.old seat.new) }
    ensures idle { IfNone result (InTime seat.new IsIdle) }
    ensures busy { IfNone result (FoundBusy seat.old seat.new) }
{
    let ticket = table.load::<ReadTail>(seat, TAIL);
    let cell = table.load::<ReadCell>(seat, cell_word(ticket));
    if rounds_to_go(cell, ticket) != 0 {
        return None;
    }
    let next = ticket.wrapping_add(1);
    if table.compare_exchange::<DrawGranted>(seat, TAIL, ticket, next) != ticket {
        return None;
    }
    Some(ticket)
}

/// Draws the next ticket if its request could be withdrawn. At most three atomic steps. A call that draws no ticket
/// leaves nothing behind.
#[inline(always)]
pub fn draw_near(table: &SharedTable, seat: &mut TicketSeat) -> DrawNearResult
    requires table { IsLockTable table.now.table_id }
    requires seat { IsSeatOf table.now.table_id table.now.key seat.old }
    requires idle { InTime seat.old IsIdle }
    ensures seat { IsSeatOf table.now.table_id table.now.key seat.new }
    ensures load { LoadGrows seat.old seat.new }
    ensures turn { SameTurn (view_of seat.old) (view_of seat.new) }
    ensures at_turn { IfNearAtTurn result (λ ticket. InTime seat.new (IsAtTurn ticket)) }
    ensures overtaken { IfNearAtTurn result (λ _. InTime seat.new IsOvertakenInBounds) }
    ensures queued { IfNearQueued result (λ ticket rounds. (0 < rounds)
        × (rounds ≤ withdrawal_window)
        × InTime seat.new (IsQueuedWithin rounds ticket)) }
    ensures rounds { IfNearQueued result (λ ticket rounds.
        FoundBefore (cell_at ticket) (λ n. to_go n ticket ≡ rounds) seat.new) }
    ensures order { IfDrawn result (InTimeFrom seat.old seat.new DrawsAfter) }
    ensures steps { IfDrawn result (StepsLater 3 seat.old seat.new) }
    ensures idle { IfNotDrawn result (InTime seat.new IsIdle) }
    ensures far { IfNearFar result (λ rounds. (withdrawal_window < rounds)
        × StepsLater 2 seat.old seat.new
        × FoundNext (λ n. n ≡ rounds) seat.new) }
    ensures changed { IfNearChanged result (StepsLater 3 seat.old seat.new
        × FoundTailMoved seat.new) }
{
    let ticket = table.load::<ReadTail>(seat, TAIL);
    let cell = table.load::<ReadCell>(seat, cell_word(ticket));
    let rounds = rounds_to_go(cell, ticket);
    if rounds > WITHDRAWAL_WINDOW {
        return DrawNearResult::Far { rounds };
    }
    let next = ticket.wrapping_add(1);
    if table.compare_exchange::<DrawNear>(seat, TAIL, ticket, next) != ticket {
        return DrawNearResult::Changed;
    }
    if rounds == 0 {
        return DrawNearResult::AtTurn { ticket };
    }
    DrawNearResult::Queued { ticket, rounds }
}

/// Draws the next ticket if at most `window` rounds, of four tickets each, must be granted before that ticket is at its
/// turn. At most three atomic steps. A call that draws no ticket leaves nothing behind.
///
/// Callers of a table with a value draw in no other way. Therefore at most 2^29 + 1 requests are open there, even with
/// the widest window, and the premise of this crate is a fact.
#[inline(always)]
pub fn draw_within<T>(
    table: &SharedValue<T>,
    seat: &mut ValueSeat<T>,
    window: u64,
) -> DrawWithinResult
    requires table { HasLockWords table.now.table_id }
    requires window { window ≤ max_window }
    requires seat { IsSeatOf table.now.table_id table.now.key seat.old }
    requires idle { InTime seat.old IsIdle }
    ensures seat { IsSeatOf table.now.table_id table.now.key seat.new }
    ensures load { LoadGrows seat.old seat.new }
    ensures turn { SameTurn (view_of seat.old) (view_of seat.new) }
    ensures at_turn { IfWithinAtTurn result (λ ticket. InTime seat.new (IsAtTurn ticket)) }
    ensures queued { IfWithinQueued result (λ ticket rounds. (0 < rounds) × (rounds ≤ window)
        × InTime seat.new (IsQueuedWithin rounds ticket)) }
    ensures order { IfWithinDrawn result (InTimeFrom seat.old seat.new DrawsAfter) }
    ensures steps { IfWithinDrawn result (StepsLater 3 seat.old seat.new) }
    ensures idle { IfWithinNotDrawn result (InTime seat.new IsIdle) }
    ensures far { IfWithinFar result (λ rounds. (window < rounds) × StepsLater 2 seat.old seat.new
        × FoundNext (λ n. n ≡ rounds) seat.new) }
    ensures changed { IfWithinChanged result (StepsLater 3 seat.old seat.new
        × FoundTailMoved seat.new) }
    ensures spent { IfWithinSpent result (StepsLater 1 seat.old seat.new
        × Found tail_at (λ n. max_tickets ≤ n) seat.new) }
{
    let ticket = table.load::<ReadTail>(seat, TAIL);
    if ticket >= MAX_TICKETS {
        return DrawWithinResult::Spent;
    }
    let cell = table.load::<ReadCell>(seat, cell_word(ticket));
    let rounds = rounds_to_go(cell, ticket);
    if rounds > window {
        return DrawWithinResult::Far { rounds };
    }
    let next = ticket.wrapping_add(1);
    if table.compare_exchange::<DrawNear>(seat, TAIL, ticket, next) != ticket {
        return DrawWithinResult::Changed;
    }
    if rounds == 0 {
        return DrawWithinResult::AtTurn { ticket };
    }
    DrawWithinResult::Queued { ticket, rounds }
}
