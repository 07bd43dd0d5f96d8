//! Enters the lock without a timeout: `enter` waits for the lock, and `try_enter` does not wait.
ghost use Rattle.std.specs.Prelude.{◌≡◌, ◌≤◌, true, false, IfOk, IfErr};
ghost use Rattle.fair_lock.specs.Closing.{IsOut, IsToldShut, HasNoRequest, IfTryClosed, IfTryBusy};
ghost use Rattle.lock_core.specs.Views.{InTime, IsSeatOf, IsAtTurn, IsOvertakenInBounds, IsHeadInside, ServedOpen, KnowsShut};
ghost use Rattle.fair_lock.specs.Turns.{IsGuard, IsInOrder, IsOpen, TookAtMost};
ghost use Rattle.lock_core.specs.Looks.{StepsLater};

use crate::drawing::Turn;
use crate::found::FoundTaken;
use crate::guard::Guard;
use crate::lock::FairLock;
use crate::outcomes::{Busy, Closed, TryEnterError};
use lock_core::{
    DrawWithinResult, TakeResult, ValueSeat, barge, check_open, draw_within, new_seat,
    take_lock_word,
};
use std::sync::Wait;

impl<T> FairLock<T> {
    /// Enters the lock, and waits for as long as that takes. Blocks: the thread polls for some 20 us, or for 2 us if
    /// more than four requests are before its own, and then sleeps.
    ///
    /// A strict lock serves its callers in the order of their requests. In a barging lock a thread may barge, and is
    /// then served at once. With p requests before it, at most (p + 1) * (`barging_limit` - 1) threads barge between a
    /// request and its turn.
    ///
    /// # Errors
    ///
    /// The call fails if the lock is shut.
    pub fn enter<R: Wait>(&self, rt: &R) -> Result<Guard<'_, T>, Closed<T>>
        ensures guard { IfOk result (λ guard. IsGuard guard × IsOpen guard) }
        ensures order { IfOk result IsInOrder }
        ensures lock { IfOk result (λ guard. guard.lock.now ≡ self.now) }
        ensures closed { IfErr result (IsToldShut self.now) }
    {
        let mut seat = new_seat(&self.table.shared);
        if self.barging_limit < 2 {
            let turn = self.come_to_turn(rt, &mut seat);
            return self.look_and_begin(rt, seat, turn);
        }
        if barge(&self.table.shared, &mut seat) {
            return Ok(self.guard(seat, Turn::of_newcomer()));
        }
        let turn = self.come_to_turn(rt, &mut seat);
        let open = self.take_as_head(rt, &mut seat, turn.ticket);
        self.release_inside(rt, seat, turn, open)
    }

    /// Enters the lock if that is possible at once, and otherwise leaves nothing behind. Does not block.
    ///
    /// In a strict lock the call enters, or is refused as busy, in at most five atomic steps.
    ///
    /// # Errors
    ///
    /// The call fails if the lock is shut, or if another thread is served or waits.
    pub fn try_enter<R: Wait>(&self, rt: &R) -> Result<Guard<'_, T>, TryEnterError<T>>
        ensures guard { IfOk result (λ guard. IsGuard guard × IsOpen guard) }
        ensures order { IfOk result IsInOrder }
        ensures lock { IfOk result (λ guard. guard.lock.now ≡ self.now) }
        ensures closed { IfErr result (IfTryClosed (IsToldShut self.now)) }
        ensures busy { IfErr result (IfTryBusy (λ busy. HasNoRequest self.now busy.seat)) }
        ensures in_at_once { self.now.barging_limit ≤ 1
            → IfOk result (λ guard. TookAtMost 5 guard.seat) }
        ensures busy_at_once { self.now.barging_limit ≤ 1
            → IfErr result (IfTryBusy (λ busy. TookAtMost 4 busy.seat)) }
    {
        let mut seat = new_seat(&self.table.shared);
        if self.barging_limit >= 2 && barge(&self.table.shared, &mut seat) {
            return Ok(self.guard(seat, Turn::of_newcomer()));
        }
        let ticket = match draw_within(&self.table.shared, &mut seat, 0) {
            DrawWithinResult::AtTurn { ticket } => ticket,
            DrawWithinResult::Queued {
                ticket: _,
                rounds: _,
            } => unreachable!(),
            DrawWithinResult::Far { rounds: _ }
            | DrawWithinResult::Changed
            | DrawWithinResult::Spent => {
                let found = FoundTaken::by(&seat);
                return Err(TryEnterError::Busy(Busy { seat, found }));
            }
        };
        let turn = Turn::at_once(ticket);
        if self.barging_limit < 2 {
            return match self.look_and_begin(rt, seat, turn) {
                Ok(guard) => Ok(guard),
                Err(closed) => Err(TryEnterError::Closed(closed)),
            };
        }
        let open = match take_lock_word(&self.table.shared, &mut seat, ticket) {
            TakeResult::Open => true,
            TakeResult::Shut => false,
            TakeResult::Held { lock_word: _ } | TakeResult::Changed { lock_word: _ } => {
                let found = FoundTaken::by(&seat);
                self.wakes.wake(self.release(rt, &mut seat, turn));
                return Err(TryEnterError::Busy(Busy { seat, found }));
            }
        };
        match self.release_inside(rt, seat, turn, open) {
            Ok(guard) => Ok(guard),
            Err(closed) => Err(TryEnterError::Closed(closed)),
        }
    }

    /// Begins the critical section of a thread at its turn in a strict lock, or releases the turn if the lock is shut.
    pub(crate) fn look_and_begin<R: Wait>(
        &self,
        rt: &R,
        mut seat: ValueSeat<T>,
        turn: Turn,
    ) -> Result<Guard<'_, T>, Closed<T>>
        requires strict { self.now.barging_limit ≤ 1 }
        requires seat { IsSeatOf self.now.table.shared.table_id self.now.table.shared.key seat }
        requires at_turn { InTime seat (IsAtTurn turn.ticket) }
        requires overtaken { InTime seat IsOvertakenInBounds }
        requires out { InTime seat IsOut }
        ensures guard { IfOk result (λ guard. IsGuard guard × IsOpen guard) }
        ensures steps { IfOk result (λ guard. StepsLater 1 seat guard.seat) }
        ensures order { IfOk result IsInOrder }
        ensures lock { IfOk result (λ guard. guard.lock.now ≡ self.now) }
        ensures closed { IfErr result (IsToldShut self.now) }
    {
        if check_open(&self.table.shared, &mut seat, turn.ticket) {
            return Ok(self.guard(seat, turn));
        }
        self.wakes.wake(self.release(rt, &mut seat, turn));
        Err(Closed { seat })
    }

    /// Releases the turn of a queue head that is inside. If the lock is shut, the thread also leaves the lock word.
    pub(crate) fn release_inside<R: Wait>(
        &self,
        rt: &R,
        mut seat: ValueSeat<T>,
        turn: Turn,
        is_open: bool,
    ) -> Result<Guard<'_, T>, Closed<T>>
        requires barging { 2 ≤ self.now.barging_limit }
        requires seat { IsSeatOf self.now.table.shared.table_id self.now.table.shared.key seat }
        requires inside { InTime seat (IsHeadInside turn.ticket) }
        requires overtaken { InTime seat IsOvertakenInBounds }
        requires open { is_open ≡ true → InTime seat ServedOpen }
        requires shut { is_open ≡ false → InTime seat KnowsShut }
        ensures guard { IfOk result (λ guard. IsGuard guard × IsOpen guard) }
        ensures order { IfOk result IsInOrder }
        ensures lock { IfOk result (λ guard. guard.lock.now ≡ self.now) }
        ensures closed { IfErr result (IsToldShut self.now) }
    {
        self.wakes.wake(self.release(rt, &mut seat, turn));
        if is_open {
            return Ok(self.guard(seat, turn));
        }
        self.wakes.wake(self.leave_lock_word(rt, &mut seat));
        Err(Closed { seat })
    }
}
