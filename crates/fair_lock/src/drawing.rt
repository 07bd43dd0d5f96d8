//! Draws a ticket for a thread and waits until the ticket's turn comes.
ghost use Rattle.std.specs.Prelude.{◌≡◌, ◌≤◌, false};
ghost use Rattle.fair_lock.specs.Closing.{IsOut};
ghost use Rattle.fair_lock.specs.Found.{ShowsNoEntry};
ghost use Rattle.lock_core.specs.Views.{view_of, InTime, LoadGrows, IsSeatOf, IsIdle, IsAtTurn, IsOvertakenInBounds, SameInside};

use crate::lock::FairLock;
use crossbeam_utils::Backoff;
use lock_core::layout::MAX_WINDOW;
use lock_core::{DrawWithinResult, ValueSeat, draw_within};
use std::sync::{Wait, WaitMethods};

/// A turn of the queue, or of a newcomer.
#[derive(Clone, Copy)]
pub(crate) struct Turn {
    pub(crate) ticket: u64,
    /// Whether the thread may have slept for this turn. If so, it wakes ahead: it wakes not only the waiter that it
    /// grants, but also the waiter behind that one.
    pub(crate) slept: bool,
}

impl Turn {
    /// Returns the turn of a ticket that was at its turn at once.
    pub(crate) fn at_once(ticket: u64) -> Turn
        ensures { result.ticket ≡ ticket }
    {
        Turn {
            ticket,
            slept: false,
        }
    }

    /// Returns the turn of a newcomer, which is a thread that barged and has no ticket.
    pub(crate) fn of_newcomer() -> Turn
        ensures { result.ticket ≡ 0 }
    {
        Turn::at_once(0)
    }
}

impl<T> FairLock<T> {
    /// Draws a ticket, and waits until the ticket is at its turn. Blocks. In a barging lock the caller has already
    /// tried to barge.
    ///
    /// While 2^29 requests are open, the thread draws no ticket, and looks again from time to time. Once `MAX_TICKETS`
    /// have been drawn, it waits forever.
    pub(crate) fn come_to_turn<R: Wait>(&self, rt: &R, seat: &mut ValueSeat<T>) -> Turn
        requires seat { IsSeatOf self.now.table.shared.table_id self.now.table.shared.key seat.old }
        requires idle { InTime seat.old IsIdle }
        requires out { InTime seat.old IsOut }
        requires tried { 2 ≤ self.now.barging_limit → ShowsNoEntry seat.old }
        ensures seat { IsSeatOf self.now.table.shared.table_id self.now.table.shared.key seat.new }
        ensures load { LoadGrows seat.old seat.new }
        ensures stays { SameInside (view_of seat.old) (view_of seat.new) }
        ensures at_turn { InTime seat.new (IsAtTurn result.ticket) }
        ensures overtaken { InTime seat.new IsOvertakenInBounds }
    {
        let backoff = Backoff::new();
        for _ in rt.forever() {
            match draw_within(&self.table.shared, seat, MAX_WINDOW) {
                DrawWithinResult::AtTurn { ticket } => return Turn::at_once(ticket),
                DrawWithinResult::Queued { ticket, rounds: _ } => {
                    let slept = self.wait(rt, seat, ticket);
                    return Turn { ticket, slept };
                }
                DrawWithinResult::Far { rounds: _ }
                | DrawWithinResult::Changed
                | DrawWithinResult::Spent => backoff.snooze(),
            }
        }
        unreachable!()
    }
}
