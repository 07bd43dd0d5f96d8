//! A lock that threads share, together with the words on which they sleep.
ghost use Rattle.std.specs.Prelude.{◌≡◌, ◌<◌, ◌≤◌, IfOk, IfSome, IfNone, true, false};
ghost use Rattle.lock_core.specs.Layout.{IsLockTable};
ghost use Rattle.lock_core.specs.Views.{view_of, InTime, LoadGrows, IsSeatOf, IsIdle, IsQueued, IsAtTurn, HasTurnOf, SameTurn};
ghost use Rattle.lock_core.specs.Answers.{barging_limit_of, HasValidLimit};

use crate::counts::Counts;
use crate::dice::Dice;
use lock_core::{
    DrawNearResult, LockKind, OpenError, ReleaseResult, SleepResult, TicketSeat, TicketTable,
    announce_sleep, draw, draw_near, open, poll, release, retract_sleep, try_draw, withdraw,
};
use std::alloc::Global;
use std::hint::spin_loop;
use std::sync::Wait;
use std::sync::atomic::{AtomicU64, Ordering};

/// The polls of a waiter before it sleeps.
const POLLS: u64 = 64;

/// A lock, where its callers sleep, and what they count.
#[derive(Drop)]
pub(crate) struct Field {
    pub(crate) table: TicketTable,
    pub(crate) counts: Counts,
    /// The signal that a grant or a leave raises when it is told of sleepers.
    wakes: AtomicU64,
    ghost words: { IsLockTable table.shared.table_id },
}

impl Field {
    pub(crate) fn open(alloc: Global, kind: LockKind) -> Result<Field, OpenError>
        ensures kind { IfOk result (λ field. field.table.shared.key ≡ barging_limit_of kind) }
        ensures long { IfOk result (λ _. HasValidLimit kind) }
    {
        let table = open(alloc, kind)?;
        Ok(Field {
            table,
            counts: Counts::new(),
            wakes: AtomicU64::new(0),
        })
    }

    /// Returns what a sleeper reads before it announces its sleep.
    pub(crate) fn wakes(&self) -> u64 {
        self.wakes.load(Ordering::SeqCst)
    }

    /// Wakes all threads that sleep.
    pub(crate) fn wake(&self) {
        self.wakes.fetch_add(1, Ordering::SeqCst);
        self.wakes.wake_all();
    }

    /// Sleeps, with no timeout, until some thread wakes the sleepers after `seen` was read. A lost wake-up would hang
    /// the test.
    pub(crate) fn sleep<R: Wait>(&self, rt: &R, seen: u64) {
        self.wakes.park(rt, (seen % (1 << 32)) as u32);
    }

    /// Polls a while. Returns `true` at the ticket's turn.
    fn poll_a_while(&self, seat: &mut TicketSeat, ticket: u64) -> bool
        requires seat { IsSeatOf self.now.table.shared.table_id self.now.table.shared.key seat.old }
        requires queued { InTime seat.old (IsQueued ticket) }
        ensures seat { IsSeatOf self.now.table.shared.table_id self.now.table.shared.key seat.new }
        ensures at_turn { result ≡ true → InTime seat.new (IsAtTurn ticket) }
        ensures queued { result ≡ false → InTime seat.new (IsQueued ticket) }
    {
        for _ in 0..POLLS {
            if poll(&self.table.shared, seat, ticket) == 0 {
                return true;
            }
            spin_loop();
        }
        false
    }

    /// Sleeps once, if the ticket is not at its turn. Returns `true` at the ticket's turn.
    fn sleep_once<R: Wait>(&self, rt: &R, seat: &mut TicketSeat, ticket: u64) -> bool
        requires seat { IsSeatOf self.now.table.shared.table_id self.now.table.shared.key seat.old }
        requires queued { InTime seat.old (IsQueued ticket) }
        ensures seat { IsSeatOf self.now.table.shared.table_id self.now.table.shared.key seat.new }
        ensures at_turn { result ≡ true → InTime seat.new (IsAtTurn ticket) }
        ensures queued { result ≡ false → InTime seat.new (IsQueued ticket) }
    {
        let seen = self.wakes();
        match announce_sleep(&self.table.shared, seat, ticket) {
            SleepResult::AtTurn => true,
            SleepResult::Asleep { .. } => {
                self.sleep(rt, seen);
                retract_sleep(&self.table.shared, seat, ticket) == 0
            }
            SleepResult::Full { .. } => false,
            SleepResult::Changed { .. } => false,
        }
    }

    /// Waits until the ticket is at its turn, awake and asleep.
    fn wait_for_turn<R: Wait>(&self, rt: &R, seat: &mut TicketSeat, ticket: u64)
        requires seat { IsSeatOf self.now.table.shared.table_id self.now.table.shared.key seat.old }
        requires queued { InTime seat.old (IsQueued ticket) }
        ensures seat { IsSeatOf self.now.table.shared.table_id self.now.table.shared.key seat.new }
        ensures at_turn { InTime seat.new (IsAtTurn ticket) }
    {
        for _ in rt.forever() {
            if self.poll_a_while(seat, ticket) {
                return;
            }
            if self.sleep_once(rt, seat, ticket) {
                return;
            }
        }
        unreachable!()
    }

    /// Draws a ticket by one of the calls, and waits, or withdraws. Returns the ticket at its turn, and the newcomers
    /// that were counted when it was drawn.
    pub(crate) fn draw_somehow<R: Wait>(
        &self,
        rt: &R,
        seat: &mut TicketSeat,
        dice: &mut Dice,
    ) -> Option<(u64, u64)>
        requires seat { IsSeatOf self.now.table.shared.table_id self.now.table.shared.key seat.old }
        requires idle { InTime seat.old IsIdle }
        ensures seat { IsSeatOf self.now.table.shared.table_id self.now.table.shared.key seat.new }
        ensures at_turn { IfSome result (λ drawn. InTime seat.new (IsAtTurn drawn.0)) }
        ensures idle { IfNone result (InTime seat.new IsIdle) }
    {
        let choice = dice.roll();
        if choice < 3 {
            let ticket = if choice == 0 {
                try_draw(&self.table.shared, seat)?
            } else {
                self.draw_and_withdraw(seat)?
            };
            return Some((ticket, self.counts.newcomers()));
        }
        let ticket = draw(&self.table.shared, seat);
        let before = self.counts.newcomers();
        self.wait_for_turn(rt, seat, ticket);
        Some((ticket, before))
    }

    /// Draws a ticket if the request can be withdrawn, and withdraws it at once.
    fn draw_and_withdraw(&self, seat: &mut TicketSeat) -> Option<u64>
        requires seat { IsSeatOf self.now.table.shared.table_id self.now.table.shared.key seat.old }
        requires idle { InTime seat.old IsIdle }
        ensures seat { IsSeatOf self.now.table.shared.table_id self.now.table.shared.key seat.new }
        ensures at_turn { IfSome result (λ ticket. InTime seat.new (IsAtTurn ticket)) }
        ensures idle { IfNone result (InTime seat.new IsIdle) }
    {
        match draw_near(&self.table.shared, seat) {
            DrawNearResult::AtTurn { ticket } => Some(ticket),
            DrawNearResult::Queued { ticket, rounds } => {
                if withdraw(&self.table.shared, seat, ticket, rounds) {
                    None
                } else {
                    Some(ticket)
                }
            }
            DrawNearResult::Far { .. } => None,
            DrawNearResult::Changed => None,
        }
    }

    /// Releases the turn, however many withdrawn requests are before the next, and wakes the threads that sleep for it.
    pub(crate) fn release_all<R: Wait>(&self, rt: &R, seat: &mut TicketSeat, ticket: u64)
        requires seat { IsSeatOf self.now.table.shared.table_id self.now.table.shared.key seat.old }
        requires has { InTime seat.old (HasTurnOf ticket) }
        ensures seat { IsSeatOf self.now.table.shared.table_id self.now.table.shared.key seat.new }
        ensures load { LoadGrows seat.old seat.new }
        ensures turn { SameTurn (view_of seat.old) (view_of seat.new) }
        ensures idle { InTime seat.new IsIdle }
    {
        let mut ticket = ticket;
        for _ in rt.forever() {
            match release(&self.table.shared, seat, &mut ticket) {
                ReleaseResult::Granted { sleepers } => {
                    if sleepers > 0 {
                        self.wake();
                    }
                    return;
                }
                ReleaseResult::Unfinished => {}
            }
        }
        unreachable!()
    }
}
