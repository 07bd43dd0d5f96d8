//! Waits until a ticket's turn comes: the thread polls first, and then sleeps.
ghost use Rattle.std.specs.Prelude.{◌≡◌, true, false, IfOk, IfErr};
ghost use Rattle.fair_lock.specs.Closing.{IsOut};
ghost use Rattle.fair_lock.specs.Found.{FoundWaiting};
ghost use Rattle.lock_core.specs.Layout.{withdrawal_window};
ghost use Rattle.lock_core.specs.Views.{view_of, InTime, LoadGrows, IsSeatOf, IsIdle, IsQueued, IsAtTurn, IsOvertakenInBounds, SameInside, IsQueuedWithin};
ghost use Rattle.fair_lock.specs.Timeouts.{IsOverOf};

use crate::lock::FairLock;
use crate::policy::{POLLS, POLLS_FAR, pause};
use crate::span::{Over, Rest, Span};
use crate::wake::Announced;
use lock_core::layout::WITHDRAWAL_WINDOW;
use lock_core::{ValueSeat, poll, withdraw};
use std::rt::Clock;
use std::sync::{Wait, WaitMethods};
use std::thread::yield_now;

impl<T> FairLock<T> {
    /// Waits until the ticket is at its turn: polls, and then sleeps. Returns whether the thread may have slept.
    /// Blocks.
    pub(crate) fn wait<R: Wait>(&self, rt: &R, seat: &mut ValueSeat<T>, ticket: u64) -> bool
        requires seat { IsSeatOf self.now.table.shared.table_id self.now.table.shared.key seat.old }
        requires queued { InTime seat.old (IsQueued ticket) }
        requires out { InTime seat.old IsOut }
        ensures seat { IsSeatOf self.now.table.shared.table_id self.now.table.shared.key seat.new }
        ensures load { LoadGrows seat.old seat.new }
        ensures stays { SameInside (view_of seat.old) (view_of seat.new) }
        ensures at_turn { InTime seat.new (IsAtTurn ticket) }
        ensures overtaken { InTime seat.new IsOvertakenInBounds }
    {
        let mut slept = false;
        for _ in rt.forever() {
            if self.spin(seat, ticket) {
                return slept;
            }
            slept = true;
            if self.sleep(rt, seat, ticket) {
                return slept;
            }
            // A thread that was woken may have taken the processor of the thread that is inside.
            yield_now();
        }
        unreachable!()
    }

    /// Waits until a ticket within the window of withdrawal is at its turn, or withdraws the request once the span is
    /// over. If the ticket is at its turn, returns whether the thread may have slept. Blocks.
    pub(crate) fn wait_within<R: Wait + Clock>(
        &self,
        rt: &R,
        seat: &mut ValueSeat<T>,
        ticket: u64,
        span: &Span,
    ) -> Result<bool, Over>
        requires seat { IsSeatOf self.now.table.shared.table_id self.now.table.shared.key seat.old }
        requires near { InTime seat.old (IsQueuedWithin withdrawal_window ticket) }
        requires out { InTime seat.old IsOut }
        ensures seat { IsSeatOf self.now.table.shared.table_id self.now.table.shared.key seat.new }
        ensures load { LoadGrows seat.old seat.new }
        ensures stays { SameInside (view_of seat.old) (view_of seat.new) }
        ensures at_turn { IfOk result (λ _. InTime seat.new (IsAtTurn ticket)) }
        ensures overtaken { IfOk result (λ _. InTime seat.new IsOvertakenInBounds) }
        ensures withdrawn { IfErr result (λ _. InTime seat.new IsIdle) }
        ensures over { IfErr result (IsOverOf span.now) }
    {
        let mut slept = false;
        for _ in rt.forever() {
            if self.spin(seat, ticket) {
                return Ok(slept);
            }
            match span.left(rt) {
                Ok(rest) => {
                    slept = true;
                    if self.sleep_within(rt, seat, ticket, &rest) {
                        return Ok(slept);
                    }
                    yield_now();
                }
                Err(over) => {
                    let rounds = poll(&self.table.shared, seat, ticket);
                    if rounds == 0 {
                        return Ok(slept);
                    }
                    if rounds <= WITHDRAWAL_WINDOW {
                        if withdraw(&self.table.shared, seat, ticket, rounds) {
                            return Err(over);
                        }
                        return Ok(slept);
                    }
                }
            }
        }
        unreachable!()
    }

    /// Polls for a while. Returns whether the ticket is at its turn.
    fn spin(&self, seat: &mut ValueSeat<T>, ticket: u64) -> bool
        requires seat { IsSeatOf self.now.table.shared.table_id self.now.table.shared.key seat.old }
        requires queued { InTime seat.old (IsQueued ticket) }
        ensures seat { IsSeatOf self.now.table.shared.table_id self.now.table.shared.key seat.new }
        ensures load { LoadGrows seat.old seat.new }
        ensures stays { SameInside (view_of seat.old) (view_of seat.new) }
        ensures at_turn { result ≡ true → InTime seat.new (IsAtTurn ticket) }
        ensures overtaken { result ≡ true → InTime seat.new IsOvertakenInBounds }
        ensures queued { result ≡ false → InTime seat.new (IsQueued ticket) }
        ensures not_yet { result ≡ false → FoundWaiting ticket seat.new }
    {
        for polls in 0..POLLS {
            let rounds = poll(&self.table.shared, seat, ticket);
            if rounds == 0 {
                return true;
            }
            if rounds > 1 && polls >= POLLS_FAR {
                return false;
            }
            pause();
        }
        false
    }

    /// Sleeps until the ticket may be at its turn. Returns whether it is. Blocks.
    fn sleep<R: Wait>(&self, rt: &R, seat: &mut ValueSeat<T>, ticket: u64) -> bool
        requires seat { IsSeatOf self.now.table.shared.table_id self.now.table.shared.key seat.old }
        requires queued { InTime seat.old (IsQueued ticket) }
        ensures seat { IsSeatOf self.now.table.shared.table_id self.now.table.shared.key seat.new }
        ensures load { LoadGrows seat.old seat.new }
        ensures stays { SameInside (view_of seat.old) (view_of seat.new) }
        ensures at_turn { result ≡ true → InTime seat.new (IsAtTurn ticket) }
        ensures overtaken { result ≡ true → InTime seat.new IsOvertakenInBounds }
        ensures queued { result ≡ false → InTime seat.new (IsQueued ticket) }
        ensures not_yet { result ≡ false → FoundWaiting ticket seat.new }
    {
        let table = &self.table.shared;
        match self.wakes.see_ticket(ticket).announce(table, seat, ticket) {
            Announced::AtTurn => true,
            Announced::Not => false,
            Announced::Counted(counted) => {
                self.wakes.park(rt, &counted);
                counted.retract(table, seat, ticket) == 0
            }
        }
    }

    /// Sleeps until the ticket may be at its turn, for no longer than the rest of the span. Returns whether it is.
    /// Blocks.
    fn sleep_within<R: Wait>(
        &self,
        rt: &R,
        seat: &mut ValueSeat<T>,
        ticket: u64,
        rest: &Rest,
    ) -> bool
        requires seat { IsSeatOf self.now.table.shared.table_id self.now.table.shared.key seat.old }
        requires queued { InTime seat.old (IsQueued ticket) }
        ensures seat { IsSeatOf self.now.table.shared.table_id self.now.table.shared.key seat.new }
        ensures load { LoadGrows seat.old seat.new }
        ensures stays { SameInside (view_of seat.old) (view_of seat.new) }
        ensures at_turn { result ≡ true → InTime seat.new (IsAtTurn ticket) }
        ensures overtaken { result ≡ true → InTime seat.new IsOvertakenInBounds }
        ensures queued { result ≡ false → InTime seat.new (IsQueued ticket) }
        ensures not_yet { result ≡ false → FoundWaiting ticket seat.new }
    {
        let table = &self.table.shared;
        match self.wakes.see_ticket(ticket).announce(table, seat, ticket) {
            Announced::AtTurn => true,
            Announced::Not => false,
            Announced::Counted(counted) => {
                self.wakes.park_timeout(rt, &counted, rest);
                counted.retract(table, seat, ticket) == 0
            }
        }
    }
}
