//! Enters the lock with a timeout.
ghost use Rattle.std.specs.Prelude.{◌≡◌, true, false, IfOk, IfErr};
ghost use Rattle.fair_lock.specs.Closing.{IsOut, IsToldShut, IsTimedOutAt, IfEnterClosed, IfEnterTimedOut};
ghost use Rattle.lock_core.specs.Views.{InTime, IsSeatOf, IsAtTurn, IsOvertakenInBounds, IsOutside};
ghost use Rattle.fair_lock.specs.Turns.{IsGuard, IsInOrder, IsOpen};

use crate::drawing::Turn;
use crate::guard::Guard;
use crate::lock::FairLock;
use crate::outcomes::{Closed, EnterError, TimedOut};
use crate::policy::pause_or_nap;
use crate::span::{Over, Span};
use crossbeam_utils::Backoff;
use lock_core::layout::WITHDRAWAL_WINDOW;
use lock_core::{DrawWithinResult, ValueSeat, barge, draw_within, new_seat};
use std::rt::Clock;
use std::sync::{Wait, WaitMethods};
use std::time::Duration;

impl<T> FairLock<T> {
    /// Enters the lock, or times out if the thread's turn has not come when `at_most` is over. Blocks for no longer
    /// than about `at_most`.
    ///
    /// The call draws a ticket only while its request could be withdrawn. With more than some 60 requests before it,
    /// the thread waits without a ticket, looks again every 200 us, and may time out. A thread that came later and
    /// waits without a timeout is then served before it.
    ///
    /// # Errors
    ///
    /// The call fails if the lock is shut, or if it timed out before the thread's turn had come.
    pub fn enter_within<R: Wait + Clock>(
        &self,
        rt: &R,
        at_most: Duration,
    ) -> Result<Guard<'_, T>, EnterError<T>>
        ensures guard { IfOk result (λ guard. IsGuard guard × IsOpen guard) }
        ensures order { IfOk result IsInOrder }
        ensures lock { IfOk result (λ guard. guard.lock.now ≡ self.now) }
        ensures closed { IfErr result (IfEnterClosed (IsToldShut self.now)) }
        ensures timed_out { IfErr result (IfEnterTimedOut (IsTimedOutAt self.now at_most)) }
    {
        let span = Span::begin(rt, at_most);
        let mut seat = new_seat(&self.table.shared);
        let backoff = Backoff::new();
        for _ in rt.forever() {
            if self.barging_limit >= 2 && barge(&self.table.shared, &mut seat) {
                return Ok(self.guard(seat, Turn::of_newcomer()));
            }
            let is_far = match draw_within(&self.table.shared, &mut seat, WITHDRAWAL_WINDOW) {
                DrawWithinResult::AtTurn { ticket } => {
                    return self.begin_within(rt, seat, Turn::at_once(ticket), &span);
                }
                DrawWithinResult::Queued { ticket, rounds: _ } => {
                    return match self.wait_within(rt, &mut seat, ticket, &span) {
                        Ok(slept) => self.begin_within(rt, seat, Turn { ticket, slept }, &span),
                        Err(over) => Err(EnterError::TimedOut(TimedOut { seat, over })),
                    };
                }
                DrawWithinResult::Far { rounds: _ } => true,
                DrawWithinResult::Changed | DrawWithinResult::Spent => false,
            };
            match span.left(rt) {
                Ok(rest) => pause_or_nap(rt, &backoff, is_far, &rest),
                Err(over) => return Err(self.timed_out(seat, over)),
            }
        }
        unreachable!()
    }

    /// Returns the error of a caller that has no request, once its timeout is over.
    fn timed_out(&self, seat: ValueSeat<T>, over: Over) -> EnterError<T>
        requires seat { IsSeatOf self.now.table.shared.table_id self.now.table.shared.key seat }
        requires outside { InTime seat IsOutside }
        ensures closed { IfEnterClosed (IsToldShut self.now) result }
        ensures timed_out { IfEnterTimedOut (IsTimedOutAt self.now over.at_most) result }
    {
        EnterError::TimedOut(TimedOut { seat, over })
    }

    /// Begins the critical section of a thread at its turn of the queue. In a barging lock the call times out if the
    /// queue head would have to wait longer than the span.
    fn begin_within<R: Wait + Clock>(
        &self,
        rt: &R,
        mut seat: ValueSeat<T>,
        turn: Turn,
        span: &Span,
    ) -> Result<Guard<'_, T>, EnterError<T>>
        requires seat { IsSeatOf self.now.table.shared.table_id self.now.table.shared.key seat }
        requires at_turn { InTime seat (IsAtTurn turn.ticket) }
        requires overtaken { InTime seat IsOvertakenInBounds }
        requires out { InTime seat IsOut }
        ensures guard { IfOk result (λ guard. IsGuard guard × IsOpen guard) }
        ensures order { IfOk result IsInOrder }
        ensures lock { IfOk result (λ guard. guard.lock.now ≡ self.now) }
        ensures closed { IfErr result (IfEnterClosed (IsToldShut self.now)) }
        ensures timed_out { IfErr result
            (IfEnterTimedOut (IsTimedOutAt self.now span.now.at_most)) }
    {
        let answer = if self.barging_limit < 2 {
            self.look_and_begin(rt, seat, turn)
        } else {
            match self.take_as_head_within(rt, &mut seat, turn.ticket, span) {
                Ok(open) => self.release_inside(rt, seat, turn, open),
                Err(over) => {
                    self.wakes.wake(self.release(rt, &mut seat, turn));
                    return Err(EnterError::TimedOut(TimedOut { seat, over }));
                }
            }
        };
        match answer {
            Ok(guard) => Ok(guard),
            Err(closed) => Err(EnterError::Closed(closed)),
        }
    }
}
